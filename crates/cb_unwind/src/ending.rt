// Initialisations that end.
ghost use Rattle.std.specs.Prelude.{◌≡◌, ◌<◌, length};
ghost use Rattle.cb_frames.specs.Limited.{with_roots};
ghost use Rattle.cb_unwind.specs.Initialised.{ended};

use cb_frames::Roots;
use cb_plain::ClassState;

/// The initialisation of a class is over, and its frame ends.
pub(crate) fn end_init(roots: &mut Roots, class: u32, now: ClassState)
    requires frame { 0 < length roots.old.roots.frames }
    requires class { class < length roots.old.roots.classes }
    ensures { roots.new ≡ with_roots roots.old (ended now class roots.old.roots) }
{
    roots.leave();
    roots.set_state(class, now);
}
