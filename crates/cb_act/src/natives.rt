// What natives do to a state of which only some objects are kept is what is kept of what they do.
ghost use Rattle.std.specs.Prelude.{ℕ, Bool, List};
ghost use Rattle.cb_machine.specs.Machine.{Machine};
ghost use Rattle.cb_plain.specs.State.{State};
ghost use Rattle.cb_act.specs.Changing.{Change, IsUnseen, NativesChange};
ghost use Rattle.cb_act.specs.Keeping.{IsKeeping, NativesCount, NativesKeep, NativesNameKept};
ghost use Rattle.cb_act.specs.Within.{IsWithin, NativesWithin};

/// What a native does to a state in which objects are changed so that a step doesn't see it is what
/// it does, changed: where only some objects are kept, and where empty entries are added.
pub fn natives_change()
    ensures changed { (machine : Machine) (change : Change) (test : ℕ → Bool) (state : State)
        → IsUnseen change test state → NativesChange machine change test state }
    ensures kept { (machine : Machine) (residents : List Bool) (state : State)
        → IsKeeping residents state → NativesKeep machine residents state }
    ensures counted { (machine : Machine) (state : State) → NativesCount machine state }
{}

/// What a native gives, places and leaves names only what passes a test where all of the state
/// does, and all that comes next: so natives name only what is kept, or comes next.
pub fn natives_within()
    ensures passed { (ok : ℕ → Bool) (machine : Machine) (state : State) → IsWithin ok state
        → NativesWithin machine ok state }
    ensures name_kept { (machine : Machine) (residents : List Bool) (state : State)
        → IsKeeping residents state → NativesNameKept machine residents state }
{}
