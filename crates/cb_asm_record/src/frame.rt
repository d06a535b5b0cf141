// Frames, with indices and places.
ghost use Rattle.std.specs.Prelude.{◌≡◌, ◌++◌, [], ◌∷◌, ◌<◌, None, map};
ghost use Rattle.std.specs.List.{AllByRecursion};
ghost use Rattle.cb_asm_line.specs.declared.frame.FrameLine.TheVariants.{Full as FullLine};
ghost use Rattle.cb_asm_record.specs.Grammar.{TypeHasLabel};
ghost use Rattle.cb_asm_record.specs.Inner.{AreFrames, FrameStands, IsAbove, Makes, MakesFrame};
ghost use Rattle.cb_asm_record.specs.Labels.{place_at};
ghost use Rattle.cb_asm_record.specs.Record.{delta_behind, frames_behind, map_type_of};

use crate::constants::Constants;
use crate::labels::Labels;
use crate::stop::Stop;
use cb_asm_line::{Frame, FrameLine, FrameType, Label};
use cb_classfile::{Frames, MapFrame, MapType, MapTypes};
use std::alloc::Global;

/// The kind of a frame in full (JVMS §4.7.4).
const FULL_KIND: u8 = 255;

/// The frames of code. `NoRecord` where a label doesn't stand there, or a frame not behind the one before it.
pub(crate) fn frames_of<'a>(
    alloc: Global,
    constants: &Constants<'a>,
    labels: &Labels<'a>,
    lines: &'a [FrameLine],
) -> Result<Frames, Stop>
    ensures { Makes (frames_behind constants.now (place_at labels.now) None lines.now) (AreFrames labels.now lines.now) result }
{
    let mut frames = Frames::with_capacity(alloc, lines.len())?;
    let mut previous = None;
    for line in lines {
        let place = push_frame(alloc, constants, labels, &mut frames, previous, line)?;
        previous = Some(place);
    }
    Ok(frames)
}

/// Adds a frame behind one at a place, or behind none, and gives its place.
fn push_frame<'a>(
    alloc: Global,
    constants: &Constants<'a>,
    labels: &Labels<'a>,
    frames: &mut Frames,
    previous: Option<u16>,
    line: &'a FrameLine,
) -> Result<u16, Stop>
    ensures { MakesFrame labels.now previous line.now
        (frames.new ≡ frames.old ++ frames_behind constants.now (place_at labels.now) previous (line.now ∷ [])) result }
{
    match line {
        FrameLine::Full(frame) => push_full(alloc, constants, labels, frames, previous, frame),
        FrameLine::Bad => Err(Stop::NoRecord),
    }
}

/// Adds a frame in full.
fn push_full<'a>(
    alloc: Global,
    constants: &Constants<'a>,
    labels: &Labels<'a>,
    frames: &mut Frames,
    previous: Option<u16>,
    frame: &'a Frame<Label>,
) -> Result<u16, Stop>
    ensures { MakesFrame labels.now previous (FullLine frame.now)
        (frames.new ≡ frames.old ++ frames_behind constants.now (place_at labels.now) previous (FullLine frame.now ∷ [])) result }
{
    let place = labels.place(&frame.place)?;
    let delta = delta_of(previous, place)?;
    let locals = types_of(alloc, constants, labels, frame.locals.as_slice())?;
    let stack = types_of(alloc, constants, labels, frame.stack.as_slice())?;
    frames.push(MapFrame {
        kind: FULL_KIND,
        delta,
        locals,
        stack,
    })?;
    Ok(place)
}

/// How far a frame is behind the place after the one before it, or its place where none stands before it (JVMS §4.7.4).
fn delta_of(previous: Option<u16>, place: u16) -> Result<u16, Stop>
    ensures { Makes (delta_behind previous place) (IsAbove previous place) result }
{
    match previous {
        None => Ok(place),
        Some(previous) if previous < place => Ok(place - (previous + 1)),
        Some(_) => Err(Stop::NoRecord),
    }
}

/// The types of the locals or the stack of a frame.
fn types_of<'a>(
    alloc: Global,
    constants: &Constants<'a>,
    labels: &Labels<'a>,
    types: &'a [FrameType<Label>],
) -> Result<MapTypes, Stop>
    ensures { Makes (map (map_type_of constants.now (place_at labels.now)) types.now)
        (AllByRecursion (TypeHasLabel labels.now) types.now) result }
{
    let mut map_types = MapTypes::with_capacity(alloc, types.len())?;
    for kind in types {
        let map_type = map_type_of(constants, labels, kind)?;
        map_types.push(map_type)?;
    }
    Ok(map_types)
}

/// A type in a frame.
fn map_type_of<'a>(
    constants: &Constants<'a>,
    labels: &Labels<'a>,
    kind: &'a FrameType<Label>,
) -> Result<MapType, Stop>
    ensures { Makes (map_type_of constants.now (place_at labels.now) kind.now) (TypeHasLabel labels.now kind.now) result }
{
    match kind {
        FrameType::Top => Ok(MapType::Top),
        FrameType::Int => Ok(MapType::Integer),
        FrameType::Long => Ok(MapType::Long),
        FrameType::Null => Ok(MapType::Null),
        FrameType::This => Ok(MapType::UninitializedThis),
        FrameType::Object(name) => Ok(MapType::Object(constants.class(name))),
        FrameType::New(label) => {
            let place = labels.place(label)?;
            Ok(MapType::Uninitialized(place))
        }
    }
}
