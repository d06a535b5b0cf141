// What steps have to do with the input, and with what was printed before.
ghost use Rattle.std.specs.Prelude.{◌≡◌, ◌⊎◌, ℕ, List, false, true};
ghost use Rattle.cb_link.specs.Program.{Linked};
ghost use Rattle.cb_machine.specs.Machine.{Machine};
ghost use Rattle.cb_machine.specs.Runs.{outcome};
ghost use Rattle.cb_plain.specs.State.{State};
ghost use Rattle.cb_beside.specs.Asking.{asks_input};
ghost use Rattle.cb_beside.specs.Beside.{beside};
ghost use Rattle.cb_beside.specs.Laws.{AsksAlike, Reads, Says, TakesByte, Unread};

/// A step prints the same bytes behind whatever was printed before, asks for the same room, and leaves the same otherwise. There is one
/// exactly where there was one.
pub fn prints_behind()
    ensures { (machine : Machine) (state : State) → Says machine state }
{}

/// A step that doesn't read leaves any input as it is, and does the same beside each.
pub fn leaves_unread()
    ensures { (machine : Machine) (state : State) → asks_input machine.program state ≡ false
        → Unread machine state }
{}

/// A step that reads prints nothing and takes a front of the input. If it leaves some input, it does the same with any other input behind
/// that front, which it leaves.
pub fn reads_a_front()
    ensures { (machine : Machine) (state : State) → asks_input machine.program state ≡ true
        → Reads machine state }
{}

/// A step that doesn't take a byte where it is given one as its input leaves any input as it is, and does the same beside each.
pub fn takes_or_leaves()
    ensures { (machine : Machine) (state : State) → Unread machine state ⊎ TakesByte machine state }
{}

/// A step asks for the same room beside any input, whether it reads or not, and whatever was printed before.
pub fn requests_alike()
    ensures { (machine : Machine) (state : State) → AsksAlike machine state }
{}

/// Neither whether a step reads nor how a run has ended is seen of the input or of printed bytes.
pub fn ends_alike()
    ensures asks { (program : Linked) (state : State) (input printed : List ℕ)
        → asks_input program (beside state input printed) ≡ asks_input program state }
    ensures ends { (state : State) (input printed : List ℕ)
        → outcome (beside state input printed) ≡ outcome state }
{}
