// Whether a run has ended.
ghost use Rattle.std.specs.Prelude.{◌≡◌};
ghost use Rattle.cb_interp.specs.Running.{has_ended};

use crate::Stop;
use cb_frames::Roots;

/// Whether a run whose roots these are has ended, where `exit` wasn't called, and how.
pub(crate) fn ended(roots: &Roots) -> Option<Stop>
    ensures { result ≡ has_ended roots.now.roots }
{
    if roots.top().is_some() {
        return None;
    }
    if roots.pending() != 0 {
        return Some(Stop::Uncaught);
    }
    if roots.argument() == 0 {
        return Some(Stop::Returned);
    }
    None
}
