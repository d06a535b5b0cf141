// Roots that name nothing.
ghost use Rattle.std.specs.Prelude.{◌≡◌, [], IfOk};
ghost use Rattle.cb_plain.specs.Reach.{root_references};

use cb_frames::{RootSizes, Roots};
use cb_plain::OutOfMemory;
use std::alloc::Global;

/// Roots that name nothing.
pub(crate) fn no_roots(alloc: Global) -> Result<Roots, OutOfMemory>
    ensures { IfOk result (λ roots. root_references roots.roots ≡ []) }
{
    Roots::make(
        alloc,
        RootSizes {
            frames: 1,
            statics: 0,
            constants: 0,
            kinds: 0,
            classes: 0,
        },
    )
}
