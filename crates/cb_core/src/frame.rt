// The frames of bodies.
ghost use Rattle.std.specs.Prelude.{◌≡◌, ◌*◌, ◌<◌, ◌^◌, IfOk, None, length, map};
ghost use Rattle.std.specs.List.{AllByRecursion, AllZip};
ghost use Rattle.cb_classfile.specs.Library.{IsObjectOf, SaysFrame, SaysFrames};
ghost use Rattle.cb_core.specs.Entered.{HasRoom, Puts};
ghost use Rattle.cb_core.specs.Rowed.{frame_row, frame_rows};
ghost use Rattle.cb_core.specs.Sound.{IsSoundClassName, IsSoundFrame, frames_room};
ghost use Rattle.cb_core.specs.Recorded.{entered, with_each, with_frame, with_local};

use crate::constants::enter_class;
use crate::row::Frame;
use cb_classfile::{Frames, MapFrame, MapType, MapTypes, Pool};
use cb_plain::{Numbers, OutOfMemory};
use std::alloc::Global;

/// The kind of a frame in full (JVMS §4.7.4).
const FULL_KIND: u8 = 255;

/// The frame of a row, if there is one, in code with these places.
pub(crate) fn frames_of(
    alloc: Global,
    pool: &mut Pool,
    places: &Numbers,
    row: &Option<Frame>,
) -> Result<Frames, OutOfMemory>
    requires room { HasRoom (frames_room (frame_rows row.now)) pool.old }
    requires sound { AllByRecursion (IsSoundFrame (length places.now)) (frame_rows row.now) }
    requires short { AllByRecursion (λ place. place < 2 ^ 16) places.now }
    ensures put { IfOk result (Puts (frames_room (frame_rows row.now))
        (λ pool frames. SaysFrames pool places.now None (frame_rows row.now) frames) pool.old pool.new) }
    ensures made { IfOk result (λ frames. with_each (with_frame places.now) (frame_rows row.now) pool.old ≡ entered pool.new frames) }
{
    let mut frames = Frames::new(alloc);
    if let Some(row) = row {
        let frame = frame_of(alloc, pool, places, row)?;
        frames.push(frame)?;
    }
    Ok(frames)
}

/// The frame of a row.
fn frame_of(
    alloc: Global,
    pool: &mut Pool,
    places: &Numbers,
    row: &Frame,
) -> Result<MapFrame, OutOfMemory>
    requires room { HasRoom (2 * length row.now.locals.now) pool.old }
    requires sound { IsSoundFrame (length places.now) (frame_row row.now) }
    requires short { AllByRecursion (λ place. place < 2 ^ 16) places.now }
    ensures put { IfOk result (Puts (2 * length row.now.locals.now)
        (λ pool frame. SaysFrame pool places.now None (frame_row row.now) frame) pool.old pool.new) }
    ensures made { IfOk result (λ frame. with_frame places.now (frame_row row.now) pool.old ≡ entered pool.new frame) }
{
    let place = *places.get(usize::from(row.at));
    let locals = locals_of(alloc, pool, row.locals)?;
    Ok(MapFrame {
        kind: FULL_KIND,
        delta: place as u16,
        locals,
        stack: MapTypes::new(alloc),
    })
}

/// Locals that are objects of these classes.
fn locals_of(alloc: Global, pool: &mut Pool, names: &[&str]) -> Result<MapTypes, OutOfMemory>
    requires room { HasRoom (2 * length names.now) pool.old }
    requires sound { AllByRecursion IsSoundClassName (map (λ name. name.now) names.now) }
    ensures put { IfOk result (Puts (2 * length names.now)
        (λ pool locals. AllZip (IsObjectOf pool) (map (λ name. name.now) names.now) locals) pool.old pool.new) }
    ensures made { IfOk result (λ locals. with_each with_local (map (λ name. name.now) names.now) pool.old ≡ entered pool.new locals) }
{
    let mut locals = MapTypes::with_capacity(alloc, names.len())?;
    for name in names {
        let class = enter_class(alloc, pool, name)?;
        locals.push(MapType::Object(class))?;
    }
    Ok(locals)
}
