// The closure of a small folder, the names in some texts, that a folder has one loading, that its classes are well formed, and that
// each class has a name of its own.
ghost use Rattle.std.specs.Prelude.{◌≡◌, ◌+◌, ◌≤◌, ℕ, false, List, [], ◌∷◌, ◌++◌, map, Option, Some, None, codes, length, slice_get};
ghost use Rattle.std.specs.List.{AllByRecursion};
ghost use Rattle.cb_io.specs.Folder.{Files};
ghost use Rattle.cb_insn.specs.declared.insn.Insn.{Insn};
ghost use Rattle.cb_classfile.specs.declared.body.Body.{Body};
ghost use Rattle.cb_classfile.specs.declared.class.ClassFile.{ClassFile};
ghost use Rattle.cb_classfile.specs.declared.method.Method.{Method};
ghost use Rattle.cb_classfile.specs.Pool.{class_at};
ghost use Rattle.cb_classfile.specs.Profile.{unsupported};
ghost use Rattle.cb_classfile.specs.Class.{IsWellFormed, SpellsClass};
ghost use Rattle.cb_classfile.specs.Library.{AreLibrary};
ghost use Rattle.cb_kinds.specs.Kinds.{is_array};
ghost use Rattle.cb_kinds.specs.Texts.{EachOnce};
ghost use Rattle.cb_link.specs.Making.{named_in};
ghost use Rattle.cb_link.specs.declared.refusal.Refusal.{Refusal};
ghost use Rattle.cb_link.specs.Judging.{class_limit};
ghost use Rattle.cb_link.specs.Numbers.{class_number, library_size, name_of};
ghost use Rattle.cb_load.specs.Closure.{IsClosure};
ghost use Rattle.cb_load.specs.Examples.{example};
ghost use Rattle.cb_load.specs.Loading.{AreLoaded, StopsFor, file_limit};
ghost use Rattle.cb_load.specs.Names.{class_names, names_in};

/// What the definitions say of an example: the names in a descriptor, those of an array and of a class, and the closure of
/// a folder of four names.
pub fn small_closures()
    ensures descriptor { names_in (codes "(ILa/L;[[LC;)LD;") ≡ codes "a/L" ∷ codes "C" ∷ codes "D" ∷ [] }
    ensures primitive_array { class_names (codes "[[J") ≡ [] }
    ensures array { class_names (codes "[[La/B;") ≡ codes "a/B" ∷ [] }
    ensures class { class_names (codes "La") ≡ codes "La" ∷ [] }
    ensures closure { IsClosure (λ names. names) (codes "A") example }
{}

/// A folder that tells its files has one loading of a main class: the classes are loaded or refused, and those are one list
/// of classes, or one reason.
pub fn one_loading()
    ensures classes { (files : Files) (root main : List ℕ) (one other : List ClassFile) → AreLoaded (Some files) root main one
        → AreLoaded (Some files) root main other → one ≡ other }
    ensures never_both { (files : Files) (root main : List ℕ) (classes : List ClassFile) (refusal : Refusal)
        → AreLoaded (Some files) root main classes → StopsFor (Some files) root main refusal → ⊥ }
    ensures refusal { (files : Files) (root main : List ℕ) (one other : Refusal) → StopsFor (Some files) root main one
        → StopsFor (Some files) root main other → one ≡ other }
{}

/// Each class of a program has a name of its own: those that are loaded differ from each other and from the library's.
pub fn class_names_once()
    ensures { (files : Option Files) (root main : List ℕ) (library classes : List ClassFile) → AreLibrary library
        → AreLoaded files root main classes → EachOnce (map name_of (library ++ classes)) }
{}

/// Each class that is loaded is well formed (JVMS §4.8).
pub fn loaded_well_formed()
    ensures { (files : Option Files) (root main : List ℕ) (classes : List ClassFile) → AreLoaded files root main classes
        → AllByRecursion IsWellFormed classes }
{}

/// Of each class that is loaded the machine leaves nothing out.
pub fn loaded_supported()
    ensures { (files : Option Files) (root main : List ℕ) (classes : List ClassFile) → AreLoaded files root main classes
        → AllByRecursion (λ class. unsupported class ≡ None) classes }
{}

/// The classes that are loaded are few, with the library's, and each has a short file.
pub fn loaded_limits()
    ensures few { (files : Option Files) (root main : List ℕ) (classes : List ClassFile) → AreLoaded files root main classes
        → library_size + length classes ≤ class_limit }
    ensures short { (files : Option Files) (root main : List ℕ) (classes : List ClassFile) → AreLoaded files root main classes
        → AllByRecursion (λ class. (bytes : List ℕ) × (length bytes ≤ file_limit) × SpellsClass bytes class) classes }
{}

/// The superclass of each class of a program is there, and each class that its instructions name (JVMS §5.3.5, §5.4.3.1).
pub fn needed_classes()
    ensures superclasses { (files : Option Files) (root main : List ℕ) (library classes : List ClassFile) → AreLibrary library
        → AreLoaded files root main classes → (number : ℕ) (class : ClassFile) (name : List ℕ)
        → slice_get (library ++ classes) number ≡ Some class → class_at class.pool class.super_class ≡ Some name
        → (other : ℕ) × (class_number (library ++ classes) name ≡ Some other) }
    ensures named { (files : Option Files) (root main : List ℕ) (library classes : List ClassFile) → AreLibrary library
        → AreLoaded files root main classes → (number place turn : ℕ) (class : ClassFile) (method : Method) (body : Body)
        (placed : ℕ × Insn) (name : List ℕ) → slice_get (library ++ classes) number ≡ Some class
        → slice_get class.methods place ≡ Some method → method.body ≡ Some body → slice_get body.code turn ≡ Some placed
        → named_in class.pool placed.1.operand ≡ Some name → is_array name ≡ false
        → (other : ℕ) × (class_number (library ++ classes) name ≡ Some other) }
{}
