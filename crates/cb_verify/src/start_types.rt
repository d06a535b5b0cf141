// The types of the values with which a method begins.
ghost use Rattle.std.specs.Prelude.{◌≡◌, IfOk};
ghost use Rattle.cb_verify.specs.Expansion.{start_types, this_types};

use crate::VerificationType;
use crate::within::Within;
use cb_plain::{List, OutOfMemory};
use std::alloc::Global;

/// Those of a method's object, if it has one, and of its parameters (JVMS §4.10.1.6).
pub(crate) fn start_types(
    alloc: Global,
    method: &Within<'_>,
) -> Result<List<VerificationType>, OutOfMemory>
    ensures { IfOk result (λ types. types ≡ start_types method.now) }
{
    let mut types = this_types(alloc, method)?;
    for parameter in 0..method.program.parameter_count(method.number) {
        let basic = method.program.parameter(method.number, parameter);
        types.push(VerificationType::of_basic(basic))?;
    }
    Ok(types)
}

/// That of its object, if it isn't static: a constructor has yet to call another.
fn this_types(alloc: Global, method: &Within<'_>) -> Result<List<VerificationType>, OutOfMemory>
    ensures { IfOk result (λ types. types ≡ this_types method.now) }
{
    let mut types = List::new(alloc);
    if method.is_static {
        return Ok(types);
    }
    if method.is_constructor {
        types.push(VerificationType::This)?;
    } else {
        types.push(VerificationType::Object(method.class))?;
    }
    Ok(types)
}
