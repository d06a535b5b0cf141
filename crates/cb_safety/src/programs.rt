// What holds of every program that is linked, and typed.
ghost use Rattle.std.specs.List.{AllByRecursion};
ghost use Rattle.std.specs.Prelude.{◌≡◌, ◌++◌, ℕ, List, None, Some, slice_get, Option, ◌+◌};
ghost use Rattle.cb_classfile.specs.Class.{IsWellFormed};
ghost use Rattle.cb_classfile.specs.declared.class.ClassFile.{ClassFile};
ghost use Rattle.cb_classfile.specs.Library.{AreLibrary};
ghost use Rattle.cb_io.specs.Folder.{Files};
ghost use Rattle.cb_insn.specs.declared.insn.Insn.{Insn};
ghost use Rattle.cb_insn.specs.Grammar.{SpellsCode};
ghost use Rattle.cb_link.specs.Having.{IsWhole};
ghost use Rattle.cb_link.specs.Lacking.{first_lacking};
ghost use Rattle.cb_link.specs.Program.{Linked};
ghost use Rattle.cb_load.specs.Linking.{IsLinked as IsLinkedBy};
ghost use Rattle.cb_verify.specs.Framed.{frame_in, typing_of};
ghost use Rattle.cb_verify.specs.Frames.{Frame};
ghost use Rattle.cb_verify.specs.Typed.{IsTyped};
ghost use Rattle.cb_verify.specs.Within.{Within, within};
ghost use Rattle.cb_safety.specs.Advancing.{HoldsOn, HoldsThrough, IsSpelled, HoldsOwn};
ghost use Rattle.cb_safety.specs.Beginning.{Begins, HasCode};
ghost use Rattle.cb_safety.specs.Calling.{GoesAbove};
ghost use Rattle.cb_safety.specs.Causes.{KeepsCause};
ghost use Rattle.cb_safety.specs.Constants.{HasClassObjects, HasMessage};
ghost use Rattle.cb_safety.specs.ClassNames.{AreOwnKinds, HaveSuperclasses, NamedOnce};
ghost use Rattle.cb_safety.specs.Flows.{CodeRises, Flows, Rises};
ghost use Rattle.cb_safety.specs.Initialisers.{HasInitialisers};
ghost use Rattle.cb_safety.specs.Making.{HasSites};
ghost use Rattle.cb_safety.specs.Linked.{IsLinked};
ghost use Rattle.cb_safety.specs.Main.{HasMain};
ghost use Rattle.cb_safety.specs.Naming.{HoldsElements, NamesFields, NamesKinds};
ghost use Rattle.cb_safety.specs.Performing.{HasNatives};
ghost use Rattle.cb_safety.specs.Ready.{NamesClasses, NamesStatics};
ghost use Rattle.cb_safety.specs.Sound.{IsSound};
ghost use Rattle.cb_safety.specs.Starting.{HasStart};
ghost use Rattle.cb_safety.specs.Strings.{HasConstants, IsText};
ghost use Rattle.cb_safety.specs.Throwing.{AreThrown};

/// In a typed program the frame before an instruction flows to wherever the instruction goes (JVMS §4.10.1).
pub fn flows()
    ensures { (program : Linked) (number pc : ℕ) (frame : Frame) → IsTyped program
        → CodeRises program
        → frame_in (typing_of program) number pc ≡ Some frame → Flows program number pc frame }
{}

/// The places of code that bytes spell rise.
pub fn spelled_rises()
    ensures { (code : List (ℕ × Insn)) (bytes : List ℕ) → SpellsCode code bytes → Rises code }
{}

/// Of well formed classes the code of each method is spelled by some bytes, and has an instruction at least (JVMS §4.7.3).
pub fn well_formed_code()
    ensures { (program : Linked) → AllByRecursion IsWellFormed program.classes
        → IsSpelled program × HasCode program }
{}

/// In a typed program the frame with which a method begins comes to its first instruction (JVMS §4.10.1.6).
pub fn begins()
    ensures { (program : Linked) (number : ℕ) (method : Within) → IsTyped program
        → IsSpelled program → HasCode program
        → within program number ≡ Some method → Begins program number method }
{}

/// What a kind holds, a kind to which it is assignable holds too, in a program with the library's classes in front and others behind that
/// are well formed (JVMS §4.10.1.2, §4.1).
pub fn kinds_hold_on()
    ensures { (program : Linked) (library more : List ClassFile) → program.classes ≡ library ++ more
        → AreLibrary library
        → AllByRecursion IsWellFormed more → IsWhole program → HoldsOn program }
{}

/// What a kind holds, each kind that holds the objects of that one holds too, in a program with the library's classes in front and others
/// behind that are well formed (JVMS §4.10.1.2).
pub fn kinds_hold_through()
    ensures { (program : Linked) (library more : List ClassFile) → program.classes ≡ library ++ more
        → AreLibrary library
        → AllByRecursion IsWellFormed more → IsWhole program → HoldsThrough program }
{}

/// An object of a kind may be held as that kind, in a program whose classes are well formed (JVMS §4.10.1.2).
pub fn kinds_hold_own()
    ensures { (program : Linked) → IsWhole program → AllByRecursion IsWellFormed program.classes
        → HoldsOwn program }
{}

/// What may be held as an array is one, of elements that may be held as that one's (JVMS §4.10.1.2).
pub fn arrays_hold_elements()
    ensures { (program : Linked) → IsWhole program → HoldsElements program }
{}

/// The kinds of a program's classes are their numbers, where each has a name of its own (JVMS §5.3).
pub fn classes_own_kinds()
    ensures { (program : Linked) → IsWhole program → NamedOnce program.classes
        → AreOwnKinds program }
{}

/// A class is assignable to its superclass, in a program whose classes are well formed, have names of their own, and have their
/// superclasses among them (JVMS §4.10.1.2, §5.3).
pub fn classes_go_above()
    ensures { (program : Linked) → IsWhole program → AllByRecursion IsWellFormed program.classes
        → NamedOnce program.classes
        → HaveSuperclasses program.classes → GoesAbove program }
{}

/// Instructions that ask for a class name a kind of the program, which is the verifier's too (JVMS §4.9.1, §6.5 checkcast, instanceof).
pub fn instructions_name_kinds()
    ensures { (program : Linked) → IsWhole program → AllByRecursion IsWellFormed program.classes
        → NamesKinds program }
{}

/// Instructions on fields of objects name one, and each object that may be held as the kind of which they name it has it at that slot, in a
/// program with the library's classes in front of which no instruction lacks a member (JVMS §5.4.3.2, §6.5 getfield, putfield).
pub fn instructions_name_fields()
    ensures { (program : Linked) (library more : List ClassFile) → program.classes ≡ library ++ more
        → AreLibrary library
        → AllByRecursion IsWellFormed program.classes → IsWhole program
        → first_lacking program.classes ≡ None → NamesFields program }
{}

/// Instructions on static fields name one, in a program of which no instruction lacks a member (JVMS §5.4.3.2, §6.5 getstatic, putstatic).
pub fn instructions_name_statics()
    ensures { (program : Linked) → IsWhole program → AllByRecursion IsWellFormed program.classes
        → first_lacking program.classes ≡ None
        → NamesStatics program }
{}

/// Each object that an instruction of a linked program makes has a site of the program, which is of its kind (JVMS §6.5).
pub fn whole_has_sites()
    ensures { (program : Linked) → IsWhole program → HasSites program }
{}

/// The texts of a linked program are of units of two bytes, and no longer than an array may be (JVMS §4.4.7).
pub fn whole_has_texts()
    ensures { (program : Linked) (text : ℕ) (units : List ℕ) → IsWhole program
        → AllByRecursion IsWellFormed program.classes
        → slice_get program.constants text ≡ Some units → IsText units }
{}

/// What the machine throws itself is an exception, in a program with the library's classes in front (JVMS §6.5; JLS §11.1.1).
pub fn exceptions_are_thrown()
    ensures { (program : Linked) (library more : List ClassFile) → program.classes ≡ library ++ more
        → AreLibrary library → IsWhole program
        → AreThrown program }
{}

/// The cause in the exception that wraps another one is a Throwable, in a program with the library's classes in front (JVMS §5.5).
pub fn causes_are_kept()
    ensures { (program : Linked) (library more : List ClassFile) → program.classes ≡ library ++ more
        → AreLibrary library → IsWhole program
        → KeepsCause program }
{}

/// A program that is linked is whole, its classes are well formed, and no instruction lacks a member (JVMS §5.3, §5.4).
pub fn linked_programs()
    ensures whole { (program : Linked) → IsLinked program → IsWhole program }
    ensures well_formed { (program : Linked) → IsLinked program
        → AllByRecursion IsWellFormed program.classes }
    ensures lacking { (program : Linked) → IsLinked program → first_lacking program.classes ≡ None }
{}

/// Each `new` of a program that is linked and typed names a class that is there (JVMS §5.4.3.1, §6.5 new).
pub fn instructions_name_classes()
    ensures { (program : Linked) → IsLinked program → IsTyped program → NamesClasses program }
{}

/// The main method of a program that is linked has code, is static, takes an array of strings and gives nothing (JLS §12.1.4).
pub fn linked_has_main()
    ensures { (program : Linked) → IsLinked program → HasMain program }
{}

/// The initialisers of the classes of a program that is linked and typed have code, take nothing and give nothing (JVMS §2.9).
pub fn linked_has_initialisers()
    ensures { (program : Linked) → IsLinked program → IsTyped program → HasInitialisers program }
{}

/// A program that is linked has what there is at the start: the array of arguments with its strings, and the streams of System.
pub fn linked_has_start()
    ensures { (program : Linked) → IsLinked program → HasStart program }
{}

/// In a program that is linked what a division by zero throws has a message, and constants are strings, values of the types of static
/// fields (JVMS §4.7.2), and class objects, and ints can say the numbers of kinds.
pub fn linked_has_constants()
    ensures message { (program : Linked) → IsLinked program → HasMessage program }
    ensures constants { (program : Linked) → IsLinked program → HasConstants program }
    ensures class_objects { (program : Linked) → IsLinked program → HasClassObjects program }
{}

/// All that a typed state asks of a program to have a next one, but for the methods that are called, holds of each that is linked and
/// typed.
pub fn linked_is_sound()
    ensures { (program : Linked) → IsLinked program → IsTyped program → IsSound program }
{}

/// What loading and linking ensure, where the library's classes are well formed, is all that is asked of a linked program.
pub fn linking_links()
    ensures { (files : Option Files) (root main : List ℕ) (library : List ClassFile)
        (program : Linked) → AreLibrary library
        → AllByRecursion IsWellFormed library → IsLinkedBy files root library main program
        → IsLinked program }
{}

/// What natives ask of a program holds of each that is linked and typed: their parameters and results, what they throw and make, the fields
/// that they look at, the names of kinds, and the constants of enums.
pub fn linked_has_natives()
    ensures { (program : Linked) → IsLinked program → IsTyped program
        → HasNatives program }
{}
