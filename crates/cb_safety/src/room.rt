// Room in the frames of typed states.
ghost use Rattle.std.specs.List.{find, flat_map};
ghost use Rattle.std.specs.Prelude.{◌≡◌, ◌∷◌, ℕ, List, Some, length, true, Option, ◌≤◌, ◌+◌};
ghost use Rattle.cb_classfile.specs.declared.handler.Handler.{Handler};
ghost use Rattle.cb_hierarchy.specs.Classes.{listed};
ghost use Rattle.cb_insn.specs.declared.insn.Insn.{Insn};
ghost use Rattle.cb_kinds.specs.declared.basic.Basic.{Basic};
ghost use Rattle.cb_link.specs.Named.{code_at, handlers_at, insn_in};
ghost use Rattle.cb_link.specs.Program.{Linked};
ghost use Rattle.cb_machine.specs.Entering.{entered_upon};
ghost use Rattle.cb_machine.specs.Machine.{Machine};
ghost use Rattle.cb_machine.specs.Steps.{plan};
ghost use Rattle.cb_machine.specs.Unwinding.{takes};
ghost use Rattle.cb_plain.specs.declared.value.Value.{Value};
ghost use Rattle.cb_plain.specs.Depth.{has_room, slots_of};
ghost use Rattle.cb_plain.specs.State.{Frame as StateFrame, MethodFrame, OfMethod, State};
ghost use Rattle.cb_shapes.specs.declared.action.Action.{Action};
ghost use Rattle.cb_shapes.specs.declared.action.Action.TheVariants.{Shuffle, Return};
ghost use Rattle.cb_shapes.specs.declared.shuffle.Shuffle.{Shuffle as ShuffleForm};
ghost use Rattle.cb_shapes.specs.declared.sort.Sort.{Sort};
ghost use Rattle.cb_shapes.specs.Shapes.{action_of};
ghost use Rattle.cb_verify.specs.Typed.{IsTyped};
ghost use Rattle.cb_verify.specs.Within.{Within, within};
ghost use Rattle.cb_safety.specs.Advancing.{Advances, HoldsOn, IsSpelled};
ghost use Rattle.cb_safety.specs.Frames.{IsCovered, Stands, Waits, result_at};
ghost use Rattle.cb_safety.specs.Kinds.{Kinds};
ghost use Rattle.cb_safety.specs.Ready.{NamesStatics};
ghost use Rattle.cb_safety.specs.Room.{HasRoom, MayCatch, ShufflesWithin};
ghost use Rattle.cb_machine.specs.Growing.{lays_one};
ghost use Rattle.cb_machine.specs.Machine.{with_limit};
ghost use Rattle.cb_safety.specs.States.{IsTypedState};

/// The frame of a method that stands at an instruction has as many local variables as its code says, and slots for these and for the
/// values on its stack (JVMS §2.6.1, §2.6.2).
pub fn standing_frames_fit()
    ensures { (program : Linked) (kinds : Kinds) (frame : MethodFrame) → Stands program kinds frame
        → HasRoom program frame 0 }
{}

/// One that waits for a call has slots for the call's result too.
pub fn waiting_frames_fit()
    ensures { (program : Linked) (kinds : Kinds) (result : Option Basic) (frame : MethodFrame)
        → Waits program kinds result frame
        → HasRoom program frame (length (listed result)) }
{}

/// So has the topmost frame of a typed state that runs.
pub fn frames_fit()
    ensures { (program : Linked) (state : State) (frame : MethodFrame) (below : List StateFrame)
        → IsTypedState program state
        → state.roots.pending ≡ 0 → state.roots.frames ≡ OfMethod frame ∷ below
        → HasRoom program frame 0 }
{}

/// And so has the frame below it, with a slot for its method's result, where that is a method's.
pub fn callers_fit()
    ensures { (program : Linked) (state : State) (frame caller : MethodFrame)
        (below : List StateFrame) → IsTypedState program state
        → state.roots.frames ≡ OfMethod frame ∷ OfMethod caller ∷ below
        → HasRoom program caller (length (listed (result_at program frame.method))) }
{}

/// The topmost frame of a typed state that runs at an instruction which lays a value upon its stack has a slot for it (JVMS §2.6.2).
pub fn pushes_fit()
    ensures { (machine : Machine) (state : State) (frame : MethodFrame) (below : List StateFrame)
        (insn : Insn) (action : Action)
        → IsTyped machine.program → IsSpelled machine.program → HoldsOn machine.program
        → NamesStatics machine.program
        → IsTypedState machine.program state → state.roots.pending ≡ 0 → state.roots.frames
        ≡ OfMethod frame ∷ below
        → insn_in (code_at machine.program frame.method) frame.pc ≡ Some insn → action_of insn
        ≡ Some action → lays_one action ≡ true
        → HasRoom machine.program frame 1 }
{}

/// At an instruction that shuffles the stack it has slots for what comes of that (JVMS §6.5 dup).
pub fn shuffles_fit()
    ensures { (machine : Machine) (state : State) (frame : MethodFrame) (below : List StateFrame)
        (insn : Insn) (shuffle : ShuffleForm)
        → IsTyped machine.program → IsSpelled machine.program → HoldsOn machine.program
        → IsTypedState machine.program state
        → state.roots.pending ≡ 0 → state.roots.frames ≡ OfMethod frame ∷ below
        → insn_in (code_at machine.program frame.method) frame.pc ≡ Some insn → action_of insn
        ≡ Some (Shuffle shuffle)
        → ShufflesWithin frame shuffle }
{}

/// And at a return with a value the frame that waits for it has a slot for it (JVMS §6.5 ireturn).
pub fn returns_fit()
    ensures { (machine : Machine) (state : State) (frame caller : MethodFrame)
        (below : List StateFrame) (insn : Insn) (sort : Sort)
        → IsTyped machine.program → IsSpelled machine.program → HoldsOn machine.program
        → IsTypedState machine.program state
        → state.roots.pending ≡ 0 → state.roots.frames ≡ OfMethod frame ∷ OfMethod caller ∷ below
        → insn_in (code_at machine.program frame.method) frame.pc ≡ Some insn → action_of insn
        ≡ Some (Return (Some sort))
        → HasRoom machine.program caller 1 }
{}

/// The frame of a method in which an exception is looked for has as many local variables as its code says, and a slot for the exception
/// beside them where a handler covers its place (JVMS §2.10).
pub fn covered_frames_fit()
    ensures { (program : Linked) (kinds : Kinds) (frame : MethodFrame) → IsTyped program
        → IsSpelled program → IsCovered program kinds frame
        → MayCatch program frame }
{}

/// So has the topmost frame of a typed state, whether an exception is pending or not.
pub fn catchers_fit()
    ensures { (program : Linked) (state : State) (frame : MethodFrame) (below : List StateFrame)
        → IsTyped program → IsSpelled program
        → IsTypedState program state → state.roots.frames ≡ OfMethod frame ∷ below
        → MayCatch program frame }
{}

/// Where a handler of that frame takes an exception, there is a slot for it beside the local variables (JVMS §2.10).
pub fn caught_fits()
    ensures { (program : Linked) (state : State) (frame : MethodFrame) (below : List StateFrame)
        (class : Option ℕ) (kind : ℕ) (handler : Handler)
        → IsTyped program → IsSpelled program → IsTypedState program state → state.roots.frames
        ≡ OfMethod frame ∷ below
        → find (takes program class frame.pc kind) (handlers_at program frame.method) ≡ Some handler
        → length frame.locals + 1 ≤ frame.slots }
{}

/// Where the step of a state that advances enters a method, its arguments fit into its local variables (JVMS §2.6.1).
pub fn entered_fits()
    ensures { (machine : Machine) (state : State) (frames : List StateFrame) (number : ℕ)
        (callee : Within) (arguments : List Value)
        → Advances machine state → state.roots.pending ≡ 0 → within machine.program number
        ≡ Some callee
        → plan machine state ≡ Some (entered_upon machine state frames number arguments callee.body)
        → has_room machine.frames frames (callee.body.max_locals + callee.body.max_stack) ≡ true
        → length (flat_map slots_of arguments) ≤ callee.body.max_locals }
{}

/// So do they where there is no room for the method's frame, if the step is that one whatever the limit of frames is.
pub fn arguments_fit()
    ensures { (machine : Machine) (state : State) (frames : List StateFrame) (number : ℕ)
        (callee : Within) (arguments : List Value)
        → state.roots.pending ≡ 0 → within machine.program number ≡ Some callee → ((limit : ℕ)
        → Advances (with_limit machine limit) state)
        → ((limit : ℕ) → plan (with_limit machine limit) state
        ≡ Some (entered_upon (with_limit machine limit) state frames number arguments callee.body))
        → length (flat_map slots_of arguments) ≤ callee.body.max_locals }
{}
