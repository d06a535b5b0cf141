// The units of a name, copied.
ghost use Rattle.std.specs.Prelude.{◌≡◌, IfOk};

use cb_text::Units;
use std::alloc::{AllocError, Global};

/// The units of a name, to be kept: a refusal has the name of its class. The only error is that no memory was to be had. Takes
/// time in the length of the name.
pub fn units_of(alloc: Global, name: &[u16]) -> Result<Units, AllocError>
    ensures { IfOk result (λ units. units ≡ name.now) }
{
    let mut units = Units::with_capacity(alloc, name.len())?;
    for unit in name {
        units.push(*unit)?;
    }
    Ok(units)
}
