// Where instructions go.
ghost use Rattle.std.specs.Prelude.{◌≡◌};
ghost use Rattle.cb_shapes.specs.Targets.{goes_on};

use crate::{Action, Condition};

impl Action {
    /// Whether the next instruction may be reached from one that does this: from all but `goto`, `goto_w`, the switches,
    /// `athrow` and the returns.
    pub fn goes_on(self) -> bool
        ensures { result ≡ goes_on self }
    {
        match self {
            Action::Branch(Condition::Always)
            | Action::Switch
            | Action::Throw
            | Action::Return(_) => false,
            _ => true,
        }
    }
}
