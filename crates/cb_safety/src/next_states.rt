// That typed states have a next one, which is typed too.
ghost use Rattle.std.specs.List.{AllByRecursion};
ghost use Rattle.std.specs.Prelude.{◌≡◌, ◌<◌, ◌∷◌, ◌++◌, ℕ, List, None, Some, length, slice_get, suc, true, Option, [], ◌≤◌, ◌+◌};
ghost use Rattle.cb_classfile.specs.Class.{IsWellFormed};
ghost use Rattle.cb_classfile.specs.declared.class.ClassFile.{ClassFile};
ghost use Rattle.cb_classfile.specs.Library.{AreLibrary};
ghost use Rattle.cb_insn.specs.declared.insn.Insn.{Insn};
ghost use Rattle.cb_link.specs.Having.{IsWhole};
ghost use Rattle.cb_link.specs.Lacking.{first_lacking};
ghost use Rattle.cb_link.specs.Named.{code_at, insn_in};
ghost use Rattle.cb_machine.specs.Computing.{throws_by_zero};
ghost use Rattle.cb_machine.specs.Initialising.{begun_upon};
ghost use Rattle.cb_machine.specs.Machine.{Machine, kind_of_site};
ghost use Rattle.cb_machine.specs.Performing.{most_elements};
ghost use Rattle.cb_machine.specs.Plans.{made};
ghost use Rattle.cb_machine.specs.Runs.{at, outcome};
ghost use Rattle.cb_machine.specs.Starting.{start};
ghost use Rattle.cb_machine.specs.Steps.{step};
ghost use Rattle.cb_machine.specs.Throwing.{throws};
ghost use Rattle.cb_machine.specs.declared.outcome.Outcome.TheVariants.{Running};
ghost use Rattle.cb_plain.specs.declared.class_state.ClassState.TheVariants.{Untouched};
ghost use Rattle.cb_plain.specs.State.{Frame as StateFrame, Initialising, MethodFrame, OfMethod, State};
ghost use Rattle.cb_shapes.specs.declared.action.Action.{Action};
ghost use Rattle.cb_shapes.specs.declared.action.Action.TheVariants.{Constant, New, InvokeInterface, InvokeSpecial, InvokeStatic, InvokeVirtual, Return, Throw};
ghost use Rattle.cb_shapes.specs.declared.sort.Sort.{Sort};
ghost use Rattle.cb_shapes.specs.Shapes.{action_of};
ghost use Rattle.cb_verify.specs.Typed.{IsTyped};
ghost use Rattle.cb_verify.specs.Within.{Within};
ghost use Rattle.cb_safety.specs.Advancing.{Advances, HoldsOn, HoldsThrough, IsSpelled, is_of_frame, is_of_object, HoldsOwn};
ghost use Rattle.cb_safety.specs.Beginning.{HasCode};
ghost use Rattle.cb_safety.specs.Calling.{CallsConstructor, CallsSpecial, CallsStatic, GoesAbove};
ghost use Rattle.cb_safety.specs.Causes.{KeepsCause};
ghost use Rattle.cb_safety.specs.Constants.{HasClassObjects, HasMessage};
ghost use Rattle.cb_safety.specs.Initialisers.{HasInitialisers};
ghost use Rattle.cb_safety.specs.Making.{is_of_arrays};
ghost use Rattle.cb_safety.specs.Linked.{IsLinked};
ghost use Rattle.cb_safety.specs.Main.{HasMain};
ghost use Rattle.cb_safety.specs.Natives.{CallsNative};
ghost use Rattle.cb_safety.specs.Naming.{HoldsElements, NamesFields, NamesKinds};
ghost use Rattle.cb_safety.specs.Ready.{NamesClasses, NamesStatics, is_of_statics};
ghost use Rattle.cb_safety.specs.Starting.{HasStart};
ghost use Rattle.cb_safety.specs.States.{IsInput, IsTypedState};
ghost use Rattle.cb_safety.specs.Strings.{HasConstants, IsText};
ghost use Rattle.cb_safety.specs.Throwing.{AreThrown, IsThrown};

/// Throwing an exception of the machine keeps a state typed, where objects of its kind are such exceptions (JVMS §2.10).
pub fn throwing_keeps_types()
    ensures { (machine : Machine) (state : State) (site : ℕ) → IsTypedState machine.program state
        → IsThrown machine.program (kind_of_site machine.program site)
        → IsTypedState machine.program (made (throws machine state site)) }
{}

/// A typed state that runs at an instruction which changes the topmost frame alone has a next state, which is typed too, where what a
/// division by zero leaves is typed.
pub fn frames_advance()
    ensures { (machine : Machine) (state : State) (frame : MethodFrame) (below : List StateFrame)
        (insn : Insn) (action : Action)
        → IsTyped machine.program → IsSpelled machine.program → HoldsOn machine.program
        → IsTypedState machine.program state
        → state.exit ≡ None → state.roots.pending ≡ 0 → state.roots.frames ≡ OfMethod frame ∷ below
        → insn_in (code_at machine.program frame.method) frame.pc ≡ Some insn → action_of insn
        ≡ Some action → is_of_frame action ≡ true
        → IsTypedState machine.program (made (throws_by_zero machine state))
        → Advances machine state }
{}

/// A typed state that runs at an instruction which asks for an object on the stack has a next state, which is typed too: null, an index
/// and a type that doesn't fit give an exception (JVMS §6.5).
pub fn objects_advance()
    ensures { (machine : Machine) (state : State) (frame : MethodFrame) (below : List StateFrame)
        (insn : Insn) (action : Action)
        → IsTyped machine.program → IsSpelled machine.program → HoldsOn machine.program
        → HoldsThrough machine.program
        → HoldsElements machine.program → NamesFields machine.program → NamesKinds machine.program
        → AreThrown machine.program
        → IsTypedState machine.program state
        → state.exit ≡ None → state.roots.pending ≡ 0 → state.roots.frames ≡ OfMethod frame ∷ below
        → insn_in (code_at machine.program frame.method) frame.pc ≡ Some insn → action_of insn
        ≡ Some action → is_of_object action ≡ true
        → Advances machine state }
{}

/// All that `objects_advance` asks of a program, but that it is typed, comes of loading and linking.
pub fn linked_objects_advance()
    ensures { (machine : Machine) (library more : List ClassFile) (state : State)
        (frame : MethodFrame) (below : List StateFrame) (insn : Insn) (action : Action)
        → machine.program.classes ≡ library ++ more → AreLibrary library
        → AllByRecursion IsWellFormed machine.program.classes
        → IsWhole machine.program → first_lacking machine.program.classes ≡ None
        → IsTyped machine.program
        → IsTypedState machine.program state → state.exit ≡ None → state.roots.pending ≡ 0
        → state.roots.frames ≡ OfMethod frame ∷ below
        → insn_in (code_at machine.program frame.method) frame.pc ≡ Some insn → action_of insn
        ≡ Some action → is_of_object action ≡ true
        → Advances machine state }
{}

/// A typed state that runs at an instruction on a static field has a next state, which is typed too (JVMS §6.5, getstatic, putstatic;
/// §5.5).
pub fn statics_advance()
    ensures { (machine : Machine) (state : State) (frame : MethodFrame) (below : List StateFrame)
        (insn : Insn) (action : Action)
        → IsTyped machine.program → IsSpelled machine.program → HoldsOn machine.program
        → IsWhole machine.program → NamesStatics machine.program
        → HasConstants machine.program → AreThrown machine.program
        → IsTypedState machine.program state
        → state.exit ≡ None → state.roots.pending ≡ 0 → state.roots.frames ≡ OfMethod frame ∷ below
        → insn_in (code_at machine.program frame.method) frame.pc ≡ Some insn → action_of insn
        ≡ Some action → is_of_statics action ≡ true
        → Advances machine state }
{}

/// A typed state that runs at a `new` has a next state, which is typed too (JVMS §6.5, new; §5.5).
pub fn new_advances()
    ensures { (machine : Machine) (state : State) (frame : MethodFrame) (below : List StateFrame)
        (insn : Insn) (index : ℕ)
        → IsTyped machine.program → IsSpelled machine.program → HoldsOn machine.program
        → IsWhole machine.program
        → NamesClasses machine.program → HasConstants machine.program → AreThrown machine.program
        → IsTypedState machine.program state
        → state.exit ≡ None → state.roots.pending ≡ 0 → state.roots.frames ≡ OfMethod frame ∷ below
        → insn_in (code_at machine.program frame.method) frame.pc ≡ Some insn → action_of insn
        ≡ Some (New index) → Advances machine state }
{}

/// A typed state that runs at an instruction which makes arrays has a next state, which is typed too (JVMS §6.5, newarray, anewarray,
/// multianewarray).
pub fn arrays_made_advance()
    ensures { (machine : Machine) (state : State) (frame : MethodFrame) (below : List StateFrame)
        (insn : Insn) (action : Action)
        → IsTyped machine.program → IsSpelled machine.program → HoldsOn machine.program
        → IsWhole machine.program
        → HoldsOwn machine.program → AreThrown machine.program → IsTypedState machine.program state
        → state.exit ≡ None → state.roots.pending ≡ 0 → state.roots.frames ≡ OfMethod frame ∷ below
        → insn_in (code_at machine.program frame.method) frame.pc ≡ Some insn → action_of insn
        ≡ Some action → is_of_arrays action ≡ true
        → Advances machine state }
{}

/// A typed state that runs at a return has a next state, which is typed too (JVMS §2.6.4, §4.10.1.9).
pub fn returns_advance()
    ensures { (machine : Machine) (state : State) (frame : MethodFrame) (below : List StateFrame)
        (insn : Insn) (sort : Option Sort)
        → IsTyped machine.program → IsSpelled machine.program → HoldsOn machine.program
        → IsTypedState machine.program state
        → state.exit ≡ None → state.roots.pending ≡ 0 → state.roots.frames ≡ OfMethod frame ∷ below
        → insn_in (code_at machine.program frame.method) frame.pc ≡ Some insn → action_of insn
        ≡ Some (Return sort) → Advances machine state }
{}

/// A typed state that runs at a call of a static method with code has a next state, which is typed too, where what begins the class's
/// initialisation is typed (JVMS §6.5 invokestatic).
pub fn static_calls_advance()
    ensures { (machine : Machine) (state : State) (frame : MethodFrame) (below : List StateFrame)
        (insn : Insn) (index : ℕ) (callee : Within)
        → IsTyped machine.program → IsSpelled machine.program → HoldsOn machine.program
        → HasCode machine.program → IsWhole machine.program
        → AreThrown machine.program → IsTypedState machine.program state
        → state.exit ≡ None → state.roots.pending ≡ 0 → state.roots.frames ≡ OfMethod frame ∷ below
        → insn_in (code_at machine.program frame.method) frame.pc ≡ Some insn → action_of insn
        ≡ Some (InvokeStatic index)
        → CallsStatic machine.program frame.method frame.pc callee
        → (slice_get state.roots.classes callee.class ≡ Some Untouched
        → IsTypedState machine.program (made
        (begun_upon machine state state.roots.frames callee.class)))
        → Advances machine state }
{}

/// A typed state that runs at a call of a constructor with code has a next state, which is typed too (JVMS §6.5 invokespecial, §4.10.1.9).
pub fn constructor_calls_advance()
    ensures { (machine : Machine) (state : State) (frame : MethodFrame) (below : List StateFrame)
        (insn : Insn) (index : ℕ) (from callee : Within)
        → IsTyped machine.program → IsSpelled machine.program → HoldsOn machine.program
        → HasCode machine.program → IsWhole machine.program
        → AreThrown machine.program → HoldsOwn machine.program → GoesAbove machine.program
        → IsTypedState machine.program state
        → state.exit ≡ None → state.roots.pending ≡ 0 → state.roots.frames ≡ OfMethod frame ∷ below
        → insn_in (code_at machine.program frame.method) frame.pc ≡ Some insn → action_of insn
        ≡ Some (InvokeSpecial index)
        → CallsConstructor machine.program frame.method frame.pc index from callee
        → Advances machine state }
{}

/// A typed state that runs at an invokespecial of a method with code that is no constructor has a next state, which is typed too
/// (JVMS §6.5 invokespecial).
pub fn special_calls_advance()
    ensures { (machine : Machine) (state : State) (frame : MethodFrame) (below : List StateFrame)
        (insn : Insn) (index : ℕ) (from callee : Within)
        → IsTyped machine.program → IsSpelled machine.program → HoldsOn machine.program
        → HasCode machine.program → AreThrown machine.program
        → IsTypedState machine.program state → state.exit ≡ None → state.roots.pending ≡ 0
        → state.roots.frames ≡ OfMethod frame ∷ below
        → insn_in (code_at machine.program frame.method) frame.pc ≡ Some insn → action_of insn
        ≡ Some (InvokeSpecial index)
        → CallsSpecial machine.program frame.method frame.pc index from callee
        → Advances machine state }
{}

/// What is left where the initialisation of a class begins in a typed state that runs is typed (JVMS §5.5, §4.7.2).
pub fn initialisation_begins()
    ensures { (machine : Machine) (state : State) (class : ℕ) → HasConstants machine.program
        → AreThrown machine.program
        → IsTypedState machine.program state → state.roots.pending ≡ 0
        → class < length machine.program.classes
        → IsTypedState machine.program (made (begun_upon machine state state.roots.frames class)) }
{}

/// A typed state that runs at the initialisation of a class has a next state, which is typed too (JVMS §5.5).
pub fn initialising_advances()
    ensures { (machine : Machine) (state : State) (class place : ℕ) (below : List StateFrame)
        → HasConstants machine.program
        → AreThrown machine.program → HasInitialisers machine.program
        → IsTypedState machine.program state
        → state.exit ≡ None → state.roots.pending ≡ 0 → state.roots.frames
        ≡ Initialising class place ∷ below → Advances machine state }
{}

/// A typed state in which an exception is pending, and a frame stands, has a next state, which is typed too: a handler takes the exception,
/// or the frame ends (JVMS §2.10, §5.5).
pub fn unwinding_advances()
    ensures { (machine : Machine) (state : State) (place : ℕ) (first : StateFrame)
        (below : List StateFrame)
        → IsTyped machine.program → IsSpelled machine.program → HoldsOn machine.program
        → AreThrown machine.program
        → KeepsCause machine.program → IsTypedState machine.program state
        → state.exit ≡ None → state.roots.pending ≡ suc place → state.roots.frames ≡ first ∷ below
        → Advances machine state }
{}

/// What a division by zero leaves of a typed state is typed: an exception with a string as its message is pending (JVMS §6.5, idiv).
pub fn division_keeps_types()
    ensures { (machine : Machine) (state : State) → HasConstants machine.program
        → HasMessage machine.program → AreThrown machine.program
        → IsTypedState machine.program state → IsTypedState machine.program (made
        (throws_by_zero machine state)) }
{}

/// A typed state that runs at an instruction which loads a constant has a next state, which is typed too (JVMS §6.5, ldc, ldc_w, ldc2_w).
pub fn constants_advance()
    ensures { (machine : Machine) (state : State) (frame : MethodFrame) (below : List StateFrame)
        (insn : Insn) (index : ℕ)
        → IsTyped machine.program → IsSpelled machine.program → HoldsOn machine.program
        → IsWhole machine.program
        → AllByRecursion IsWellFormed machine.program.classes → HasConstants machine.program
        → HasClassObjects machine.program
        → IsTypedState machine.program state
        → state.exit ≡ None → state.roots.pending ≡ 0 → state.roots.frames ≡ OfMethod frame ∷ below
        → insn_in (code_at machine.program frame.method) frame.pc ≡ Some insn → action_of insn
        ≡ Some (Constant index) → Advances machine state }
{}

/// All that `unwinding_advances` asks of a program, but that it is typed, comes of loading and linking.
pub fn linked_unwinding_advances()
    ensures { (machine : Machine) (library more : List ClassFile) (state : State) (place : ℕ)
        (first : StateFrame) (below : List StateFrame)
        → machine.program.classes ≡ library ++ more → AreLibrary library
        → AllByRecursion IsWellFormed machine.program.classes
        → IsWhole machine.program → IsTyped machine.program → IsTypedState machine.program state
        → state.exit ≡ None → state.roots.pending ≡ suc place → state.roots.frames ≡ first ∷ below
        → Advances machine state }
{}

/// A typed state in which the array of arguments waits and no frame stands has a next state, which is typed too: the main method is
/// entered once its class is ready (JVMS §5.2, §5.5).
pub fn beginning_advances()
    ensures { (machine : Machine) (state : State) (place : ℕ) → IsTyped machine.program
        → IsSpelled machine.program → HoldsOn machine.program
        → HasCode machine.program → IsWhole machine.program → HasConstants machine.program
        → AreThrown machine.program
        → HasMain machine.program → IsTypedState machine.program state
        → state.exit ≡ None → state.roots.pending ≡ 0 → state.roots.frames ≡ []
        → state.roots.argument ≡ suc place → Advances machine state }
{}

/// A typed state that runs at an athrow has a next state, which is typed too: the object is pending, or it is null (JVMS §6.5, athrow).
pub fn throw_advances()
    ensures { (machine : Machine) (state : State) (frame : MethodFrame) (below : List StateFrame)
        (insn : Insn)
        → IsTyped machine.program → IsSpelled machine.program → HoldsOn machine.program
        → AreThrown machine.program
        → IsTypedState machine.program state → state.exit ≡ None → state.roots.pending ≡ 0
        → state.roots.frames ≡ OfMethod frame ∷ below
        → insn_in (code_at machine.program frame.method) frame.pc ≡ Some insn → action_of insn
        ≡ Some Throw → Advances machine state }
{}

/// The state with which a run begins is typed, where each argument is a text, there are no more than an array has elements, and the input is
/// bytes.
pub fn start_is_typed()
    ensures { (machine : Machine) (arguments : List (List ℕ)) (input : List ℕ)
        → HasStart machine.program → AllByRecursion IsText arguments
        → length arguments ≤ most_elements → IsInput input
        → IsTypedState machine.program (start machine arguments input) }
{}

/// A typed state of a linked program that runs at an invokestatic has a next state, which is typed too, if natives have (JVMS §6.5
/// invokestatic; §5.5).
pub fn linked_static_calls_advance()
    ensures { (machine : Machine) (state : State) (frame : MethodFrame) (below : List StateFrame)
        (insn : Insn) (index : ℕ)
        → IsLinked machine.program → IsTyped machine.program → IsTypedState machine.program state
        → state.exit ≡ None → state.roots.pending ≡ 0 → state.roots.frames ≡ OfMethod frame ∷ below
        → insn_in (code_at machine.program frame.method) frame.pc ≡ Some insn → action_of insn
        ≡ Some (InvokeStatic index)
        → (CallsNative machine state frame below → Advances machine state)
        → Advances machine state }
{}

/// A typed state of a linked program that runs at an invokespecial has a next state, which is typed too, if natives have (JVMS §6.5
/// invokespecial; §4.10.1.9).
pub fn linked_special_calls_advance()
    ensures { (machine : Machine) (state : State) (frame : MethodFrame) (below : List StateFrame)
        (insn : Insn) (index : ℕ)
        → IsLinked machine.program → IsTyped machine.program → IsTypedState machine.program state
        → state.exit ≡ None → state.roots.pending ≡ 0 → state.roots.frames ≡ OfMethod frame ∷ below
        → insn_in (code_at machine.program frame.method) frame.pc ≡ Some insn → action_of insn
        ≡ Some (InvokeSpecial index)
        → (CallsNative machine state frame below → Advances machine state)
        → Advances machine state }
{}

/// A typed state of a linked program that runs at an invokevirtual has a next state, which is typed too, if natives have (JVMS §6.5
/// invokevirtual; §5.4.5).
pub fn virtual_calls_advance()
    ensures { (machine : Machine) (state : State) (frame : MethodFrame) (below : List StateFrame)
        (insn : Insn) (index : ℕ)
        → IsLinked machine.program → IsTyped machine.program → IsTypedState machine.program state
        → state.exit ≡ None → state.roots.pending ≡ 0 → state.roots.frames ≡ OfMethod frame ∷ below
        → insn_in (code_at machine.program frame.method) frame.pc ≡ Some insn → action_of insn
        ≡ Some (InvokeVirtual index)
        → (CallsNative machine state frame below → Advances machine state)
        → Advances machine state }
{}

/// A typed state of a linked program that runs at an invokeinterface has a next state, which is typed too, if natives have (JVMS §6.5
/// invokeinterface).
pub fn interface_calls_advance()
    ensures { (machine : Machine) (state : State) (frame : MethodFrame) (below : List StateFrame)
        (insn : Insn) (index count : ℕ)
        → IsLinked machine.program → IsTyped machine.program → IsTypedState machine.program state
        → state.exit ≡ None → state.roots.pending ≡ 0 → state.roots.frames ≡ OfMethod frame ∷ below
        → insn_in (code_at machine.program frame.method) frame.pc ≡ Some insn → action_of insn
        ≡ Some (InvokeInterface index count)
        → (CallsNative machine state frame below → Advances machine state)
        → Advances machine state }
{}

/// A typed state of a program that is linked and typed, whose run goes on, has a next state, which is typed too, if natives have.
pub fn linked_programs_advance()
    ensures { (machine : Machine) (state : State) → IsLinked machine.program
        → IsTyped machine.program
        → IsTypedState machine.program state → outcome state ≡ Running
        → ((frame : MethodFrame) (below : List StateFrame) → CallsNative machine state frame below
        → Advances machine state)
        → Advances machine state }
{}

/// And natives have: a typed state of a program that is linked and typed, whose run goes on, has a next state, which is typed too.
pub fn states_advance()
    ensures { (machine : Machine) (state : State) → IsLinked machine.program
        → IsTyped machine.program
        → IsTypedState machine.program state → outcome state ≡ Running → Advances machine state }
{}

/// Each state of a run of a program that is linked and typed, on an input of bytes, is typed, and where the run goes on it has a next one: it
/// never gets stuck. A state whose run has ended has none.
pub fn runs_advance()
    ensures typed { (machine : Machine) → IsLinked machine.program → IsTyped machine.program
        → (arguments : List (List ℕ)) (input : List ℕ) → AllByRecursion IsText arguments
        → length arguments ≤ most_elements → IsInput input → (steps : ℕ)
        → IsTypedState machine.program (at machine arguments input steps) }
    ensures goes_on { (machine : Machine) → IsLinked machine.program → IsTyped machine.program
        → (arguments : List (List ℕ)) (input : List ℕ) → AllByRecursion IsText arguments
        → length arguments ≤ most_elements → IsInput input → (steps : ℕ)
        → outcome (at machine arguments input steps) ≡ Running
        → (next : State) × (step machine (at machine arguments input steps) ≡ Some next) }
    ensures ended { (machine : Machine) (state : State) → ¬ (outcome state ≡ Running)
        → step machine state ≡ None }
{}
