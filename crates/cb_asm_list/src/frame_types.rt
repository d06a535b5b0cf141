// Types of frames, by names.
ghost use Rattle.std.specs.Prelude.{◌≡◌, ◌++◌, IfOk, OnOk, option_map};
ghost use Rattle.cb_asm_line.specs.declared.frame.FrameType.TheVariants.{Object};
ghost use Rattle.cb_asm_list.specs.Expansion.{type_in as type_by_names, types_in as types_by_names};
ghost use Rattle.cb_classfile.specs.Pool.{class_at};

use cb_asm_line::FrameType;
use cb_classfile::{MapType, Pool, Units};
use cb_plain::{List, OutOfMemory};
use std::alloc::Global;

/// Types of a frame. That of an object that isn't initialised yet has the place of its `new`.
pub(crate) type Types = List<FrameType<u32>>;

/// Types by names, or `None` where one has no words.
#[tactic(auto, using(crate::proofs::AllOf::gathered, crate::proofs::AllOf::missed, crate::proofs::AllOf::all_there))]
pub(crate) fn types_in(
    alloc: Global,
    pool: &Pool,
    kinds: &[MapType],
) -> Result<Option<Types>, OutOfMemory>
    ensures { IfOk result (λ found. found ≡ types_by_names pool.now kinds.now) }
{
    let mut types = Types::new(alloc);
    for kind in kinds {
        match type_in(alloc, pool, *kind)? {
            Some(named) => types.push(named)?,
            None => return Ok(None),
        }
    }
    Ok(Some(types))
}

/// A type by its name, or `None` where it has no words.
fn type_in(alloc: Global, pool: &Pool, kind: MapType) -> Result<Option<FrameType<u32>>, OutOfMemory>
    ensures { IfOk result (λ found. found ≡ type_by_names pool.now kind) }
{
    match kind {
        MapType::Top => Ok(Some(FrameType::Top)),
        MapType::Integer => Ok(Some(FrameType::Int)),
        MapType::Long => Ok(Some(FrameType::Long)),
        MapType::Null => Ok(Some(FrameType::Null)),
        MapType::UninitializedThis => Ok(Some(FrameType::This)),
        MapType::Object(class) => object_at(alloc, pool, class),
        MapType::Uninitialized(place) => Ok(Some(FrameType::New(u32::from(place)))),
        MapType::Float | MapType::Double => Ok(None),
    }
}

/// The type of the class at an index, if one stands there.
fn object_at(alloc: Global, pool: &Pool, class: u16) -> Result<Option<FrameType<u32>>, OutOfMemory>
    ensures { IfOk result (λ found. found ≡ option_map Object (class_at pool.now class)) }
{
    match pool.class(class) {
        Some(name) => Ok(Some(FrameType::Object(copy_of_units(alloc, name)?))),
        None => Ok(None),
    }
}

/// A list of these units.
pub(crate) fn copy_of_units(alloc: Global, units: &[u16]) -> Result<Units, OutOfMemory>
    ensures { IfOk result (λ copy. copy ≡ units.now) }
{
    let mut copy = Units::with_capacity(alloc, units.len())?;
    push_units(&mut copy, units)?;
    Ok(copy)
}

/// Adds units.
pub(crate) fn push_units(units: &mut Units, more: &[u16]) -> Result<(), OutOfMemory>
    ensures { OnOk result (units.new ≡ units.old ++ more.now) }
{
    for unit in more {
        units.push(*unit)?;
    }
    Ok(())
}

/// Adds copies of types.
pub(crate) fn push_copies(
    alloc: Global,
    types: &mut Types,
    more: &[FrameType<u32>],
) -> Result<(), OutOfMemory>
    ensures { OnOk result (types.new ≡ types.old ++ more.now) }
{
    for kind in more {
        types.push(copy_of_type(alloc, kind)?)?;
    }
    Ok(())
}

/// A copy of types.
pub(crate) fn copy_of_types(alloc: Global, types: &[FrameType<u32>]) -> Result<Types, OutOfMemory>
    ensures { IfOk result (λ copy. copy ≡ types.now) }
{
    let mut copy = Types::with_capacity(alloc, types.len())?;
    push_copies(alloc, &mut copy, types)?;
    Ok(copy)
}

/// A copy of a type.
fn copy_of_type(alloc: Global, kind: &FrameType<u32>) -> Result<FrameType<u32>, OutOfMemory>
    ensures { IfOk result (λ copy. copy ≡ kind.now) }
{
    match kind {
        FrameType::Top => Ok(FrameType::Top),
        FrameType::Int => Ok(FrameType::Int),
        FrameType::Long => Ok(FrameType::Long),
        FrameType::Null => Ok(FrameType::Null),
        FrameType::This => Ok(FrameType::This),
        FrameType::Object(name) => { Ok(FrameType::Object(copy_of_units(alloc, name.as_slice())?)) }
        FrameType::New(place) => Ok(FrameType::New(*place)),
    }
}
