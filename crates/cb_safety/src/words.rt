// What is on the stack and in the objects of typed states.
ghost use Rattle.std.specs.Prelude.{◌≡◌, ◌∷◌, ℕ, List, Some, true};
ghost use Rattle.cb_insn.specs.declared.insn.Insn.{Insn};
ghost use Rattle.cb_kinds.specs.declared.basic.Basic.{Basic};
ghost use Rattle.cb_link.specs.Named.{code_at, insn_in, named};
ghost use Rattle.cb_link.specs.Slots.{field_basic, static_basic};
ghost use Rattle.cb_link.specs.declared.named.Named.TheVariants as meanings;
ghost use Rattle.cb_machine.specs.Machine.{Machine};
ghost use Rattle.cb_plain.specs.State.{Frame as StateFrame, MethodFrame, OfMethod, State};
ghost use Rattle.cb_shapes.specs.declared.action.Action.{Action};
ghost use Rattle.cb_shapes.specs.declared.action.Action.TheVariants.{GetField, GetStatic, Length, LoadNumber, LoadReference, PutField, PutStatic, StoreNumber, StoreReference};
ghost use Rattle.cb_shapes.specs.declared.elements.Elements.{Elements};
ghost use Rattle.cb_shapes.specs.declared.sort.Sort.TheVariants.{Reference};
ghost use Rattle.cb_shapes.specs.Shapes.{action_of};
ghost use Rattle.cb_shapes.specs.Sorts.{sort_of_elements};
ghost use Rattle.cb_verify.specs.Typed.{IsTyped};
ghost use Rattle.cb_safety.specs.Advancing.{HoldsOn, IsSpelled};
ghost use Rattle.cb_safety.specs.Naming.{HoldsElements, NamesFields};
ghost use Rattle.cb_safety.specs.Ready.{NamesStatics};
ghost use Rattle.cb_safety.specs.States.{IsTypedState};
ghost use Rattle.cb_safety.specs.Words.{AsksObject, MeasuresArray, ReadsElement, ReadsField, ReadsStatic, WritesElement, WritesField, WritesStatic, asks_object};

/// In a typed state that runs at a getfield a reference is on the stack, which is null or of an object that has the field (JVMS §6.5
/// getfield).
pub fn fields_read()
    ensures { (machine : Machine) (state : State) (frame : MethodFrame) (below : List StateFrame)
        (insn : Insn) (index class slot : ℕ) (basic : Basic)
        → IsTyped machine.program → IsSpelled machine.program → HoldsOn machine.program
        → NamesFields machine.program
        → IsTypedState machine.program state → state.roots.pending ≡ 0 → state.roots.frames
        ≡ OfMethod frame ∷ below
        → insn_in (code_at machine.program frame.method) frame.pc ≡ Some insn → action_of insn
        ≡ Some (GetField index)
        → named machine.program frame.method frame.pc ≡ meanings.Field class slot
        → field_basic machine.program class slot ≡ Some basic
        → ReadsField machine.program state frame slot basic }
{}

/// In one that runs at a putfield so is it below a value of the field's type (JVMS §6.5 putfield).
pub fn fields_written()
    ensures { (machine : Machine) (state : State) (frame : MethodFrame) (below : List StateFrame)
        (insn : Insn) (index class slot : ℕ) (basic : Basic)
        → IsTyped machine.program → IsSpelled machine.program → HoldsOn machine.program
        → NamesFields machine.program
        → IsTypedState machine.program state → state.roots.pending ≡ 0 → state.roots.frames
        ≡ OfMethod frame ∷ below
        → insn_in (code_at machine.program frame.method) frame.pc ≡ Some insn → action_of insn
        ≡ Some (PutField index)
        → named machine.program frame.method frame.pc ≡ meanings.Field class slot
        → field_basic machine.program class slot ≡ Some basic
        → WritesField machine.program state frame slot basic }
{}

/// In a typed state that runs at an iaload, laload, baload, caload or saload an index is on the stack upon an array of such numbers, or null
/// (JVMS §6.5 iaload).
pub fn elements_read()
    ensures { (machine : Machine) (state : State) (frame : MethodFrame) (below : List StateFrame)
        (insn : Insn) (elements : Elements)
        → IsTyped machine.program → IsSpelled machine.program → HoldsOn machine.program
        → HoldsElements machine.program
        → IsTypedState machine.program state → state.roots.pending ≡ 0 → state.roots.frames
        ≡ OfMethod frame ∷ below
        → insn_in (code_at machine.program frame.method) frame.pc ≡ Some insn → action_of insn
        ≡ Some (LoadNumber elements)
        → ReadsElement machine.program state frame (sort_of_elements elements) }
{}

/// So is one upon an array of references, or null, at an aaload (JVMS §6.5 aaload).
pub fn references_are_read()
    ensures { (machine : Machine) (state : State) (frame : MethodFrame) (below : List StateFrame)
        (insn : Insn)
        → IsTyped machine.program → IsSpelled machine.program → HoldsOn machine.program
        → HoldsElements machine.program
        → IsTypedState machine.program state → state.roots.pending ≡ 0 → state.roots.frames
        ≡ OfMethod frame ∷ below
        → insn_in (code_at machine.program frame.method) frame.pc ≡ Some insn → action_of insn
        ≡ Some LoadReference
        → ReadsElement machine.program state frame Reference }
{}

/// At an iastore, lastore, bastore, castore or sastore a number stands upon these, of the elements' sort (JVMS §6.5 iastore).
pub fn elements_written()
    ensures { (machine : Machine) (state : State) (frame : MethodFrame) (below : List StateFrame)
        (insn : Insn) (elements : Elements)
        → IsTyped machine.program → IsSpelled machine.program → HoldsOn machine.program
        → HoldsElements machine.program
        → IsTypedState machine.program state → state.roots.pending ≡ 0 → state.roots.frames
        ≡ OfMethod frame ∷ below
        → insn_in (code_at machine.program frame.method) frame.pc ≡ Some insn → action_of insn
        ≡ Some (StoreNumber elements)
        → WritesElement machine.program state frame (sort_of_elements elements) }
{}

/// And at an aastore a reference, which is null or of an object that is there (JVMS §6.5 aastore).
pub fn references_are_written()
    ensures { (machine : Machine) (state : State) (frame : MethodFrame) (below : List StateFrame)
        (insn : Insn)
        → IsTyped machine.program → IsSpelled machine.program → HoldsOn machine.program
        → HoldsElements machine.program
        → IsTypedState machine.program state → state.roots.pending ≡ 0 → state.roots.frames
        ≡ OfMethod frame ∷ below
        → insn_in (code_at machine.program frame.method) frame.pc ≡ Some insn → action_of insn
        ≡ Some StoreReference
        → WritesElement machine.program state frame Reference }
{}

/// At an arraylength an array of any elements is on the stack, or null (JVMS §6.5 arraylength).
pub fn arrays_measured()
    ensures { (machine : Machine) (state : State) (frame : MethodFrame) (below : List StateFrame)
        (insn : Insn)
        → IsTyped machine.program → IsSpelled machine.program → HoldsOn machine.program
        → HoldsElements machine.program
        → IsTypedState machine.program state → state.roots.pending ≡ 0 → state.roots.frames
        ≡ OfMethod frame ∷ below
        → insn_in (code_at machine.program frame.method) frame.pc ≡ Some insn → action_of insn
        ≡ Some Length
        → MeasuresArray machine.program state frame }
{}

/// In a typed state that runs at a checkcast, instanceof or athrow a reference is on the stack, which is null or names an object that is
/// there, of a kind of the program (JVMS §6.5 checkcast, instanceof, athrow).
pub fn references_are_asked()
    ensures { (machine : Machine) (state : State) (frame : MethodFrame) (below : List StateFrame)
        (insn : Insn) (action : Action)
        → IsTyped machine.program → IsSpelled machine.program → HoldsOn machine.program
        → IsTypedState machine.program state
        → state.roots.pending ≡ 0 → state.roots.frames ≡ OfMethod frame ∷ below
        → insn_in (code_at machine.program frame.method) frame.pc ≡ Some insn → action_of insn
        ≡ Some action → asks_object action ≡ true
        → AsksObject machine.program state frame }
{}

/// In a typed state that runs at a getstatic the class is there, and the static field that is named has a value of its type (JVMS §6.5
/// getstatic).
pub fn statics_read()
    ensures { (machine : Machine) (state : State) (frame : MethodFrame) (below : List StateFrame)
        (insn : Insn) (index class slot : ℕ) (basic : Basic)
        → NamesStatics machine.program → IsTypedState machine.program state → state.roots.pending
        ≡ 0 → state.roots.frames ≡ OfMethod frame ∷ below
        → insn_in (code_at machine.program frame.method) frame.pc ≡ Some insn → action_of insn
        ≡ Some (GetStatic index)
        → named machine.program frame.method frame.pc ≡ meanings.Static class slot
        → static_basic machine.program slot ≡ Some basic
        → ReadsStatic machine.program state class slot basic }
{}

/// So are they at a putstatic, with a value of the field's type on the stack (JVMS §6.5 putstatic).
pub fn statics_written()
    ensures { (machine : Machine) (state : State) (frame : MethodFrame) (below : List StateFrame)
        (insn : Insn) (index class slot : ℕ) (basic : Basic)
        → IsTyped machine.program → IsSpelled machine.program → HoldsOn machine.program
        → NamesStatics machine.program
        → IsTypedState machine.program state → state.roots.pending ≡ 0 → state.roots.frames
        ≡ OfMethod frame ∷ below
        → insn_in (code_at machine.program frame.method) frame.pc ≡ Some insn → action_of insn
        ≡ Some (PutStatic index)
        → named machine.program frame.method frame.pc ≡ meanings.Static class slot
        → static_basic machine.program slot ≡ Some basic
        → WritesStatic machine.program state frame class slot basic }
{}
