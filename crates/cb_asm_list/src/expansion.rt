// The frames of a method in full (JVMS §4.7.4).
ghost use Rattle.std.specs.Prelude.{◌≡◌, ◌+◌, ◌^◌, ◌<◌, ◌++◌, IfOk, IfSome, length, option_and_then, option_map};
ghost use Rattle.std.specs.List.{flat_map, list_all};
ghost use Rattle.cb_classfile.specs.Expansion.{place_behind as place_after, without_last as without_last_of};
ghost use Rattle.cb_asm_list.specs.Expansion.{frame_at as frame_with, locals_in as locals_of, types_in};
ghost use Rattle.cb_asm_list.specs.Inner.{placed_among};
ghost use Rattle.cb_asm_list.specs.Listing.{among, frame_places, listed_frames as frames_of, places_of, type_places};
ghost use Rattle.cb_classfile.specs.FrameMap.{form_of_frame};
ghost use Rattle.cb_classfile.specs.Pool.{HasText, IsAnyMethodDescriptor};

use crate::frame_types::{Types, copy_of_types, push_copies, types_in};
use crate::places::Places;
use crate::start::start_types;
use cb_asm_line::{Frame, FrameType};
use cb_classfile::{Body, ClassFile, FrameForm, MapFrame, Method, Pool, form_of_frame};
use cb_plain::{List, OutOfMemory};
use std::alloc::Global;

/// Frames in full, where `None` stands for a bad one.
pub(crate) type FullFrames = List<Option<Frame<u32>>>;

/// The frames of the body of a method in full, where those at places that may have labels are good. Takes time in their
/// size.
pub(crate) fn listed_frames(
    alloc: Global,
    class: &ClassFile,
    method: &Method,
    body: &Body,
    places: &Places,
) -> Result<FullFrames, OutOfMemory>
    requires described { HasText class.now.pool method.now.descriptor IsAnyMethodDescriptor }
    requires few { length body.now.frames < 2 ^ 16 }
    requires places { places.now ≡ places_of body.now }
    ensures { IfOk result (λ frames. frames ≡ frames_of class.now method.now body.now) }
{
    let mut listed = FullFrames::new(alloc);
    let mut previous = None;
    let mut locals = start_types(alloc, class, method)?;
    for frame in body.frames.as_slice() {
        let place = place_behind(previous, frame.delta);
        locals = locals_in(alloc, &class.pool, frame, locals)?;
        let stack = types_in(alloc, &class.pool, frame.stack.as_slice())?;
        let full = frame_at(alloc, place, &locals, stack)?;
        listed.push(placed(places, full))?;
        previous = Some(place);
    }
    Ok(listed)
}

/// The place of a frame behind that of the frame before it, if there is one.
fn place_behind(previous: Option<u32>, delta: u16) -> u32
    requires { IfSome previous (λ place. place + 2 ^ 16 < 2 ^ 32) }
    ensures { result ≡ place_after previous delta }
{
    match previous {
        Some(place) => place + u32::from(delta) + 1,
        None => u32::from(delta),
    }
}

/// The locals of a frame by those before it, if both are there.
fn locals_in(
    alloc: Global,
    pool: &Pool,
    frame: &MapFrame,
    locals: Option<Types>,
) -> Result<Option<Types>, OutOfMemory>
    ensures { IfOk result (λ found. found ≡ locals_of (form_of_frame frame.now.kind) pool.now frame.now locals) }
{
    let kinds = frame.locals.as_slice();
    match form_of_frame(frame.kind) {
        FrameForm::Chop => without_last(alloc, 251u8.saturating_sub(frame.kind), locals),
        FrameForm::Append => with_added(alloc, locals, types_in(alloc, pool, kinds)?),
        FrameForm::Full => types_in(alloc, pool, kinds),
        FrameForm::Same
        | FrameForm::SameOneItem
        | FrameForm::Reserved
        | FrameForm::SameOneItemExtended
        | FrameForm::SameExtended => Ok(locals),
    }
}

/// Locals without the last ones, where there are so many.
fn without_last(
    alloc: Global,
    count: u8,
    locals: Option<Types>,
) -> Result<Option<Types>, OutOfMemory>
    ensures { IfOk result (λ found. found ≡ option_and_then (without_last_of count) locals) }
{
    let Some(locals) = locals else {
        return Ok(None);
    };
    let count = usize::from(count);
    let types = locals.as_slice();
    if count <= types.len() {
        Ok(Some(copy_of_types(alloc, &types[..types.len() - count])?))
    } else {
        Ok(None)
    }
}

/// Locals with some more, if both are there.
fn with_added(
    alloc: Global,
    locals: Option<Types>,
    added: Option<Types>,
) -> Result<Option<Types>, OutOfMemory>
    ensures { IfOk result (λ found. found ≡ option_and_then (λ before. option_map (λ more. before ++ more) added) locals) }
{
    let (Some(mut locals), Some(added)) = (locals, added) else {
        return Ok(None);
    };
    push_copies(alloc, &mut locals, added.as_slice())?;
    Ok(Some(locals))
}

/// A frame at a place, where its locals and its stack are there.
fn frame_at(
    alloc: Global,
    place: u32,
    locals: &Option<Types>,
    stack: Option<Types>,
) -> Result<Option<Frame<u32>>, OutOfMemory>
    ensures { IfOk result (λ frame. frame ≡ frame_with place locals.now stack) }
{
    let (Some(locals), Some(stack)) = (locals, stack) else {
        return Ok(None);
    };
    let locals = copy_of_types(alloc, locals.as_slice())?;
    Ok(Some(Frame {
        place,
        locals,
        stack,
    }))
}

/// A frame, if all its places are among some.
fn placed(places: &Places, frame: Option<Frame<u32>>) -> Option<Frame<u32>>
    ensures { result ≡ option_and_then (placed_among places.now) frame }
{
    let frame = frame?;
    if is_placed(places, &frame) {
        Some(frame)
    } else {
        None
    }
}

/// Whether all places of a frame are among some.
fn is_placed(places: &Places, frame: &Frame<u32>) -> bool
    ensures { result ≡ list_all (among places.now) (frame_places frame.now) }
{
    places.contains(frame.place)
        && are_placed(places, frame.locals.as_slice())
        && are_placed(places, frame.stack.as_slice())
}

/// Whether all places of types are among some.
fn are_placed(places: &Places, types: &[FrameType<u32>]) -> bool
    ensures { result ≡ list_all (among places.now) (flat_map type_places types.now) }
{
    for kind in types {
        if !is_type_placed(places, kind) {
            return false;
        }
    }
    true
}

/// Whether the place of a type, if it has one, is among some.
fn is_type_placed(places: &Places, kind: &FrameType<u32>) -> bool
    ensures { result ≡ list_all (among places.now) (type_places kind.now) }
{
    match kind {
        FrameType::New(place) => places.contains(*place),
        _ => true,
    }
}
