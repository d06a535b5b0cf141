// That they have one at a call of a native.
ghost use Rattle.std.specs.Prelude.{◌≡◌, ◌∷◌, ◌++◌, ℕ, List, [], Some, reverse, true};
ghost use Rattle.cb_insn.specs.declared.insn.Insn.{Insn};
ghost use Rattle.cb_library.specs.declared.native.Native.{Native};
ghost use Rattle.cb_library.specs.declared.native.NativeForm.TheVariants.{Array, Outside, OwnFields, Table, Text};
ghost use Rattle.cb_library.specs.declared.native.Native.TheVariants as natives;
ghost use Rattle.cb_library.specs.NativeForms.{form_of};
ghost use Rattle.cb_link.specs.Named.{code_at, insn_in, named};
ghost use Rattle.cb_link.specs.declared.named.Named.TheVariants as meanings;
ghost use Rattle.cb_machine.specs.Computing.{throws_by_zero};
ghost use Rattle.cb_machine.specs.Machine.{Machine};
ghost use Rattle.cb_machine.specs.Natives.{native_of};
ghost use Rattle.cb_machine.specs.Plans.{made};
ghost use Rattle.cb_plain.specs.State.{Frame as StateFrame, MethodFrame, OfMethod, State};
ghost use Rattle.cb_plain.specs.declared.value.Value.{Value};
ghost use Rattle.cb_shapes.specs.Shapes.{action_of};
ghost use Rattle.cb_shapes.specs.declared.action.Action.{Action};
ghost use Rattle.cb_verify.specs.Typed.{IsTyped};
ghost use Rattle.cb_verify.specs.Within.{kind_of_string};
ghost use Rattle.cb_verify.specs.declared.verification_type.VerificationType.TheVariants.{Object};
ghost use Rattle.cb_safety.specs.Advancing.{Advances, HoldsOn, IsSpelled};
ghost use Rattle.cb_safety.specs.Given.{AreTaken, Runs, RunsOn, StringOn};
ghost use Rattle.cb_safety.specs.Kinds.{kinds_of};
ghost use Rattle.cb_safety.specs.Linked.{IsLinked};
ghost use Rattle.cb_safety.specs.Natives.{CallsNative};
ghost use Rattle.cb_safety.specs.Performing.{HasNatives};
ghost use Rattle.cb_safety.specs.Ready.{BeginsTyped};
ghost use Rattle.cb_safety.specs.Signatures.{is_of_answers, is_of_numbers, takes_of};
ghost use Rattle.cb_safety.specs.States.{IsTypedState};

/// A typed state that calls a native which prints, reads or ends the run has a next state, which is typed too (Java SE 8 API,
/// java.io.PrintStream, java.io.InputStream, java.lang.System).
pub fn outside_natives_advance()
    ensures { (machine : Machine) (state : State) (frame : MethodFrame) (below : List StateFrame)
        → HasNatives machine.program
        → IsTyped machine.program → IsSpelled machine.program → HoldsOn machine.program
        → IsTypedState machine.program state
        → state.roots.pending ≡ 0 → state.roots.frames ≡ OfMethod frame ∷ below
        → (calls : CallsNative machine state frame below)
        → form_of calls.native ≡ Outside → Advances machine state }
{}

/// A typed state that calls a native on numbers alone has a next state, which is typed too, where what a division by zero leaves is typed
/// (Java SE 8 API, java.lang.Math).
pub fn number_natives_advance()
    ensures { (machine : Machine) (state : State) (frame : MethodFrame) (below : List StateFrame)
        → HasNatives machine.program
        → IsTyped machine.program → IsSpelled machine.program → HoldsOn machine.program
        → IsTypedState machine.program state
        → state.roots.pending ≡ 0 → state.roots.frames ≡ OfMethod frame ∷ below
        → (calls : CallsNative machine state frame below)
        → IsTypedState machine.program (made (throws_by_zero machine state))
        → is_of_numbers calls.native ≡ true → Advances machine state }
{}

/// A typed state that calls another native which gives a number, an object that was there, or nothing, has a next state, which is typed too
/// (Java SE 8 API, java.lang).
pub fn answer_natives_advance()
    ensures { (machine : Machine) (state : State) (frame : MethodFrame) (below : List StateFrame)
        → HasNatives machine.program
        → IsTyped machine.program → IsSpelled machine.program → HoldsOn machine.program
        → IsTypedState machine.program state
        → state.roots.pending ≡ 0 → state.roots.frames ≡ OfMethod frame ∷ below
        → (calls : CallsNative machine state frame below)
        → IsTypedState machine.program (made (throws_by_zero machine state))
        → is_of_answers calls.native ≡ true → Advances machine state }
{}

/// A typed state that calls a native which gives a new String has a next state, which is typed too (Java SE 8 API, java.lang).
pub fn text_natives_advance()
    ensures { (machine : Machine) (state : State) (frame : MethodFrame) (below : List StateFrame)
        → HasNatives machine.program
        → IsTyped machine.program → IsSpelled machine.program → HoldsOn machine.program
        → IsTypedState machine.program state
        → state.roots.pending ≡ 0 → state.roots.frames ≡ OfMethod frame ∷ below
        → (calls : CallsNative machine state frame below)
        → form_of calls.native ≡ Text → Advances machine state }
{}

/// A typed state that calls a native which gives an object from a table, a box or a class object, has a next state, which is typed too
/// (Java SE 8 API, java.lang; JLS §5.1.7).
pub fn box_natives_advance()
    ensures { (machine : Machine) (state : State) (frame : MethodFrame) (below : List StateFrame)
        → HasNatives machine.program
        → IsTyped machine.program → IsSpelled machine.program → HoldsOn machine.program
        → IsTypedState machine.program state
        → state.roots.pending ≡ 0 → state.roots.frames ≡ OfMethod frame ∷ below
        → (calls : CallsNative machine state frame below)
        → form_of calls.native ≡ Table → Advances machine state }
{}

/// A typed state that calls a native which sets the fields of its own object, a constructor of the library or a method of StringBuilder, has
/// a next state, which is typed too (Java SE 8 API, java.lang).
pub fn own_field_natives_advance()
    ensures { (machine : Machine) (state : State) (frame : MethodFrame) (below : List StateFrame)
        → HasNatives machine.program
        → IsTyped machine.program → IsSpelled machine.program → HoldsOn machine.program
        → IsTypedState machine.program state
        → state.roots.pending ≡ 0 → state.roots.frames ≡ OfMethod frame ∷ below
        → (calls : CallsNative machine state frame below)
        → form_of calls.native ≡ OwnFields → Advances machine state }
{}

/// A typed state that calls a native on arrays, or one that copies an object, has a next state, which is typed too (Java SE 8 API,
/// Object.clone, String.toCharArray, System.arraycopy, Throwable.addSuppressed and getSuppressed).
pub fn array_natives_advance()
    ensures { (machine : Machine) (state : State) (frame : MethodFrame) (below : List StateFrame)
        → HasNatives machine.program
        → IsTyped machine.program → IsSpelled machine.program → HoldsOn machine.program
        → IsTypedState machine.program state
        → state.roots.pending ≡ 0 → state.roots.frames ≡ OfMethod frame ∷ below
        → (calls : CallsNative machine state frame below)
        → form_of calls.native ≡ Array → Advances machine state }
{}

/// A typed state that calls `Enum.valueOf` has a next state, which is typed too, where what begins the initialisation of a class is typed
/// (Java SE 8 API, Enum.valueOf).
pub fn enum_natives_advance()
    ensures { (machine : Machine) (state : State) (frame : MethodFrame) (below : List StateFrame)
        → HasNatives machine.program
        → IsTyped machine.program → IsSpelled machine.program → HoldsOn machine.program
        → IsTypedState machine.program state
        → state.roots.pending ≡ 0 → state.roots.frames ≡ OfMethod frame ∷ below
        → (calls : CallsNative machine state frame below)
        → BeginsTyped machine state → calls.native ≡ natives.EnumValueOf → Advances machine state }
{}

/// A typed state of a linked program that calls a native of the library has a next state, which is typed too.
pub fn natives_advance()
    ensures { (machine : Machine) (state : State) (frame : MethodFrame) (below : List StateFrame)
        → IsLinked machine.program
        → IsTyped machine.program → IsTypedState machine.program state
        → state.roots.pending ≡ 0 → state.roots.frames ≡ OfMethod frame ∷ below
        → CallsNative machine state frame below → Advances machine state }
{}

/// Where a typed state of a linked program calls a native that takes an object and a String, as those that print one, the topmost value is
/// null or a String, whose array is of chars, where it has one (Java SE 8 API, java.io.PrintStream).
pub fn strings_are_given()
    ensures { (machine : Machine) (state : State) (frame : MethodFrame) (below : List StateFrame)
        (insn : Insn) (action : Action) (resolved number first : ℕ) (native : Native)
        → IsLinked machine.program
        → IsTyped machine.program → IsTypedState machine.program state
        → state.roots.pending ≡ 0 → state.roots.frames ≡ OfMethod frame ∷ below
        → insn_in (code_at machine.program frame.method) frame.pc ≡ Some insn → action_of insn
        ≡ Some action
        → named machine.program frame.method frame.pc ≡ meanings.Method resolved
        → Runs machine.program state.objects frame.method resolved number action
        → native_of machine.program number ≡ Some native → takes_of machine.program native
        ≡ Object first ∷ Object kind_of_string ∷ []
        → StringOn machine.program state frame }
{}

/// Where a typed state of a linked program calls a native, its arguments, the object on which it is called first, are of the types that it
/// takes (JVMS §6.5 invokestatic to invokeinterface).
pub fn arguments_are_given()
    ensures { (machine : Machine) (state : State) (frame : MethodFrame) (below : List StateFrame)
        (insn : Insn) (action : Action) (resolved number : ℕ) (native : Native) (arguments rest : List Value)
        → IsLinked machine.program
        → IsTyped machine.program → IsTypedState machine.program state
        → state.roots.pending ≡ 0 → state.roots.frames ≡ OfMethod frame ∷ below
        → insn_in (code_at machine.program frame.method) frame.pc ≡ Some insn → action_of insn
        ≡ Some action
        → named machine.program frame.method frame.pc ≡ meanings.Method resolved
        → frame.stack ≡ reverse arguments ++ rest
        → RunsOn machine.program state.objects frame.method resolved number arguments action
        → native_of machine.program number ≡ Some native
        → AreTaken machine.program (kinds_of state.objects) native arguments }
{}
