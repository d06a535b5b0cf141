// The types that a file declares.
ghost use Rattle.std.specs.Prelude.{◌≡◌, IfOk};
ghost use Rattle.cb_verify.specs.Expansion.{type_in, types_in};

use crate::VerificationType;
use crate::made::new_kind;
use crate::within::Within;
use cb_classfile::MapType;
use cb_plain::{List, OutOfMemory};
use std::alloc::Global;

/// What a type in a file says, where that can be had: a float or a double can't be, nor can the object of a `new` that isn't there.
pub(crate) fn type_in(method: &Within<'_>, kind: MapType) -> Option<VerificationType>
    ensures { result ≡ type_in method.now kind }
{
    match kind {
        MapType::Top => Some(VerificationType::Top),
        MapType::Integer => Some(VerificationType::Int),
        MapType::Float | MapType::Double => None,
        MapType::Long => Some(VerificationType::Long),
        MapType::Null => Some(VerificationType::Null),
        MapType::UninitializedThis => Some(VerificationType::This),
        MapType::Object(index) => {
            let kind = method.kind_named(index)?;
            Some(VerificationType::Object(kind))
        }
        MapType::Uninitialized(place) => {
            new_kind(method, u32::from(place))?;
            Some(VerificationType::New(u32::from(place)))
        }
    }
}

/// What types in a file say, where all can be had.
pub(crate) fn types_in(
    alloc: Global,
    method: &Within<'_>,
    kinds: &[MapType],
) -> Result<Option<List<VerificationType>>, OutOfMemory>
    ensures { IfOk result (λ types. types ≡ types_in method.now kinds.now) }
{
    let mut types = List::new(alloc);
    for kind in kinds {
        match type_in(method, *kind) {
            Some(known) => types.push(known)?,
            None => return Ok(None),
        }
    }
    Ok(Some(types))
}
