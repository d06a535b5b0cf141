// Which places of a body have labels.
ghost use Rattle.std.specs.Prelude.{◌≡◌, ◌++◌, IfOk, OnOk, filter, length, map};
ghost use Rattle.std.specs.List.{flat_map};
ghost use Rattle.cb_asm_list.specs.Inner.{IsCoded};
ghost use Rattle.cb_asm_list.specs.Listing.{among, frame_places, handler_places, labelled_places as labelled_of, named_places as named_of, optional_places, places_of as places_of_body, type_places};
ghost use Rattle.cb_insn.specs.Grammar.{targets_of};
ghost use Rattle.cb_insn.specs.Writing.{code_bytes};

use crate::expansion::FullFrames;
use crate::places::Places;
use cb_asm_line::{Frame, FrameType};
use cb_classfile::{Body, Handler, Insn, Operand, Pair};
use cb_insn::code_size;
use cb_plain::OutOfMemory;
use std::alloc::Global;

/// The places of a body, whose code takes so many bytes, that may have labels: those of its instructions, and the end of
/// its code.
pub(crate) fn places_of(alloc: Global, body: &Body, size: u32) -> Result<Places, OutOfMemory>
    requires { size ≡ length (code_bytes body.now.code) }
    ensures { IfOk result (λ places. places ≡ places_of_body body.now) }
{
    let mut places = Places::new(alloc);
    for placed in body.code.as_slice() {
        places.push(placed.0)?;
    }
    places.push(size)?;
    Ok(places)
}

/// How many bytes the code of a body takes. Takes time in its size, times the logarithm of the number of its instructions
/// for each target.
pub(crate) fn size_of(body: &Body) -> u32
    requires { IsCoded body.now }
    ensures { result ≡ length (code_bytes body.now.code) }
{
    match code_size(&body.code) {
        Some(size) => size,
        None => unreachable!(),
    }
}

/// Those of the places of a body that its lines name, and which have labels therefore.
pub(crate) fn labelled_places(
    alloc: Global,
    body: &Body,
    frames: &FullFrames,
    places: &Places,
) -> Result<Places, OutOfMemory>
    requires { places.now ≡ places_of_body body.now }
    ensures { IfOk result (λ labelled. labelled ≡ labelled_of body.now frames.now) }
{
    let named = named_places(alloc, body, frames)?;
    places_among(alloc, places.as_slice(), &named)
}

/// Those of some places that are among others.
fn places_among(alloc: Global, places: &[u32], others: &Places) -> Result<Places, OutOfMemory>
    ensures { IfOk result (λ both. both ≡ filter (among others.now) places.now) }
{
    let mut both = Places::new(alloc);
    for place in places {
        if others.contains(*place) {
            both.push(*place)?;
        }
    }
    Ok(both)
}

/// The places that the lines of a body name: those of branches, of the exception table and of frames.
fn named_places(alloc: Global, body: &Body, frames: &FullFrames) -> Result<Places, OutOfMemory>
    ensures { IfOk result (λ places. places ≡ named_of body.now frames.now) }
{
    let mut places = Places::new(alloc);
    push_code(&mut places, body.code.as_slice())?;
    push_handlers(&mut places, body.handlers.as_slice())?;
    push_frames(&mut places, frames.as_slice())?;
    Ok(places)
}

/// Adds the targets of instructions.
fn push_code(places: &mut Places, code: &[(u32, Insn)]) -> Result<(), OutOfMemory>
    ensures { OnOk result (places.new ≡ places.old ++ flat_map (λ placed. targets_of placed.1.operand) code.now) }
{
    for placed in code {
        push_targets(places, &placed.1.operand)?;
    }
    Ok(())
}

/// Adds the targets of an operand.
fn push_targets(places: &mut Places, operand: &Operand) -> Result<(), OutOfMemory>
    ensures { OnOk result (places.new ≡ places.old ++ targets_of operand.now) }
{
    match operand {
        Operand::Branch(target) => places.push(*target),
        Operand::Table {
            default,
            targets,
            ..
        } => {
            places.push(*default)?;
            push_places(places, targets.as_slice())
        }
        Operand::Lookup { default, pairs } => {
            places.push(*default)?;
            push_pairs(places, pairs.as_slice())
        }
        _ => Ok(()),
    }
}

/// Adds places.
fn push_places(places: &mut Places, more: &[u32]) -> Result<(), OutOfMemory>
    ensures { OnOk result (places.new ≡ places.old ++ more.now) }
{
    for place in more {
        places.push(*place)?;
    }
    Ok(())
}

/// Adds the targets of keys.
fn push_pairs(places: &mut Places, pairs: &[Pair]) -> Result<(), OutOfMemory>
    ensures { OnOk result (places.new ≡ places.old ++ map (λ pair. pair.target) pairs.now) }
{
    for pair in pairs {
        places.push(pair.target)?;
    }
    Ok(())
}

/// Adds the places of an exception table.
fn push_handlers(places: &mut Places, handlers: &[Handler]) -> Result<(), OutOfMemory>
    ensures { OnOk result (places.new ≡ places.old ++ flat_map handler_places handlers.now) }
{
    for handler in handlers {
        push_handler(places, *handler)?;
    }
    Ok(())
}

/// Adds the places of an entry of an exception table.
fn push_handler(places: &mut Places, handler: Handler) -> Result<(), OutOfMemory>
    ensures { OnOk result (places.new ≡ places.old ++ handler_places handler) }
{
    places.push(u32::from(handler.start))?;
    places.push(u32::from(handler.end))?;
    places.push(u32::from(handler.handler))
}

/// Adds the places of frames, where bad ones have none.
fn push_frames(places: &mut Places, frames: &[Option<Frame<u32>>]) -> Result<(), OutOfMemory>
    ensures { OnOk result (places.new ≡ places.old ++ flat_map optional_places frames.now) }
{
    for frame in frames {
        if let Some(frame) = frame {
            push_frame(places, frame)?;
        }
    }
    Ok(())
}

/// Adds the places of a frame and of its types.
fn push_frame(places: &mut Places, frame: &Frame<u32>) -> Result<(), OutOfMemory>
    ensures { OnOk result (places.new ≡ places.old ++ frame_places frame.now) }
{
    places.push(frame.place)?;
    push_types(places, frame.locals.as_slice())?;
    push_types(places, frame.stack.as_slice())
}

/// Adds the places of types.
fn push_types(places: &mut Places, types: &[FrameType<u32>]) -> Result<(), OutOfMemory>
    ensures { OnOk result (places.new ≡ places.old ++ flat_map type_places types.now) }
{
    for kind in types {
        if let FrameType::New(place) = kind {
            places.push(*place)?;
        }
    }
    Ok(())
}
