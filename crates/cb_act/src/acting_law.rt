// What is done of an instruction is the machine's step, and typed states have what is asked for.
ghost use Rattle.std.specs.Prelude.{◌≡◌, ℕ, Bool, true, Some};
ghost use Rattle.cb_link.specs.declared.decoded.Decoded.{Decoded};
ghost use Rattle.cb_machine.specs.Machine.{Machine};
ghost use Rattle.cb_machine.specs.Plans.{Plan};
ghost use Rattle.cb_machine.specs.Steps.{plan};
ghost use Rattle.cb_plain.specs.State.{State};
ghost use Rattle.cb_act.specs.Acting.{acted};
ghost use Rattle.cb_act.specs.Here.{Acts, GoesOn, Here, LooksAtArrays, planned_as};
ghost use Rattle.cb_act.specs.Steps.{view_of};

/// The step of a machine that stands at an instruction is what `act` does of it: it leaves these roots and objects, or is what has to be
/// done in its place.
pub fn acts_as_said()
    ensures { (machine : Machine) (state : State) (decoded : Decoded)
        (at : Here machine state decoded) (own : Plan) → GoesOn decoded
        → LooksAtArrays machine.program (view_of state) decoded
        → plan machine state ≡ Some own
        → planned_as machine state (acted machine.program machine.frames decoded (view_of state)) ≡ Some own }
{}
