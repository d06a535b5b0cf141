// Typed states have what is asked for before an instruction is done.
ghost use Rattle.std.specs.Prelude.{◌≡◌};
ghost use Rattle.cb_link.specs.declared.decoded.Decoded.{Decoded};
ghost use Rattle.cb_machine.specs.Machine.{Machine};
ghost use Rattle.cb_plain.specs.State.{State};
ghost use Rattle.cb_safety.specs.Linked.{IsLinked};
ghost use Rattle.cb_safety.specs.States.{IsTypedState};
ghost use Rattle.cb_verify.specs.Typed.{IsTyped};
ghost use Rattle.cb_act.specs.Here.{Acts, Here};
ghost use Rattle.cb_act.specs.Steps.{view_of};
ghost use Rattle.cb_act.specs.Suited.{Suited};

/// A typed state of a linked and typed program that stands at an instruction: what is done of it is there, and is the machine's step; and
/// there is all that is asked for before it is done.
pub fn typed_states_act()
    ensures there { (machine : Machine) (state : State) (decoded : Decoded)
        → Here machine state decoded → IsLinked machine.program → IsTyped machine.program
        → IsTypedState machine.program state → Acts machine state decoded }
    ensures suited { (machine : Machine) (state : State) (decoded : Decoded)
        → Here machine state decoded
        → IsLinked machine.program → IsTyped machine.program
        → IsTypedState machine.program state
        → Suited machine.program decoded (view_of state) }
{}
