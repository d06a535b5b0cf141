// The frames that a method declares, in full, and the one with which it begins.
ghost use Rattle.std.specs.Prelude.{◌≡◌, ◌==◌, ◌≤◌, ◌^◌, IfOk, IfSome, IsErr, nat_lt, option_and_then, option_copied, option_map, slice_get};
ghost use Rattle.std.specs.List.{find};
ghost use Rattle.cb_classfile.specs.Expansion.{place_behind};
ghost use Rattle.cb_verify.specs.Expansion.{declared, declared_at, expanded, frame_of, start, start_types};
ghost use Rattle.cb_verify.specs.InnerLaid.{IsLaid, laid_behind, laid_in};
ghost use Rattle.cb_verify.specs.InnerTables.{if_at};

use crate::declared_types::types_in;
use crate::laid::Laid;
use crate::stacked::stacked;
use crate::start_types::start_types;
use crate::within::Within;
use crate::{TypeFrame, VerificationType};
use cb_classfile::{FrameForm, MapFrame, MapType, form_of_frame};
use cb_plain::{List, OutOfMemory};
use std::alloc::{AllocError, Global};
use std::marker::Model;

/// The frames that a method declares, by their places, which rise (JVMS §4.7.4). One that can't be expanded is `None`.
#[derive(Drop)]
pub(crate) struct Declared {
    frames: List<(u32, Option<TypeFrame>)>,
}

impl Model for Declared {
    ghost use Rattle.std.specs.List.Sorted.{IsNonDecreasingBy};
    ghost use Rattle.std.specs.Prelude.{ℕ, List as Items, Option as Maybe};
    ghost use Rattle.cb_verify.specs.Frames.{Frame};

    ghost Value = { Items (ℕ × Maybe Frame) };

    ghost view = { λ declared. declared.frames };

    ghost invariant = { λ declared. IsNonDecreasingBy (λ entry. entry.0) declared.frames };
}

impl Declared {
    /// Those of a method, in full. Takes time and memory in the number of the types that the file has, times the logarithm of the
    /// number of the method's local variables.
    pub fn of(alloc: Global, method: &Within<'_>) -> Result<Self, OutOfMemory>
        ensures { IfOk result (λ frames. frames ≡ declared method.now) }
    {
        let mut frames = List::new(alloc);
        let mut laid = start_laid(alloc, method)?;
        let mut previous = None;
        for frame in method.body.frames.as_slice() {
            let place = place_behind(previous, frame.delta)?;
            laid = laid_behind(alloc, method, frame, laid)?;
            let expanded = expanded(alloc, method, &laid, frame.stack.as_slice())?;
            frames.push((place, expanded))?;
            previous = Some(place);
        }
        Ok(Declared { frames })
    }

    /// The frames, in the order of their places.
    pub fn frames(&self) -> &[(u32, Option<TypeFrame>)]
        ensures { result.now ≡ self.now }
    {
        self.frames.as_slice()
    }

    /// The one at a place, if one is declared there. Takes time in the logarithm of their number.
    #[tactic(auto, using(crate::proofs::Rising::is_there, crate::proofs::Rising::is_elsewhere))]
    pub fn at(&self, place: u32) -> Option<&Option<TypeFrame>>
        ensures { option_copied result ≡ declared_at self.now place }
    {
        let entry = self.frames.as_slice().get(self.first_from(place))?;
        if entry.0 == place {
            Some(&entry.1)
        } else {
            None
        }
    }

    /// The number of the first one that isn't before a place.
    fn first_from(&self, place: u32) -> usize
        ensures { option_and_then (if_at place) (slice_get self.now result) ≡ find (λ entry. entry.0 == place) self.now }
    {
        self.frames.as_slice().partition_point(
            |entry: &(u32, Option<TypeFrame>)| -> bool
                ensures { result ≡ nat_lt entry.now.0 place }
            { entry.0 < place },
        )
    }
}

/// The frame with which a method begins, if it has room for its parameters. A constructor that gives something has none.
pub(crate) fn start(alloc: Global, method: &Within<'_>) -> Result<Option<TypeFrame>, OutOfMemory>
    ensures { IfOk result (λ frame. frame ≡ start method.now) }
{
    if method.is_constructor && method.result_of().is_some() {
        return Ok(None);
    }
    match start_laid(alloc, method)? {
        Some(laid) => frame_of(alloc, method, &laid, &[]),
        None => Ok(None),
    }
}

/// The values with which a method begins, if its local variables have room for them.
fn start_laid(alloc: Global, method: &Within<'_>) -> Result<Option<Laid>, OutOfMemory>
    ensures { IfOk result (λ laid. laid ≡ laid_in method.now.body.max_locals (start_types method.now)) }
{
    let types = start_types(alloc, method)?;
    laid_types(alloc, method, types.as_slice())
}

/// Values of these types, if a method's local variables have room for them.
fn laid_types(
    alloc: Global,
    method: &Within<'_>,
    types: &[VerificationType],
) -> Result<Option<Laid>, OutOfMemory>
    ensures { IfOk result (λ laid. laid ≡ laid_in method.now.body.max_locals types.now) }
{
    let none = Laid::empty(alloc, method.body.max_locals)?;
    none.append(alloc, types)
}

/// The place of a frame by the one before it. A file has fewer than 2 ^ 16 frames, so that none is past 2 ^ 32.
fn place_behind(previous: Option<u32>, delta: u16) -> Result<u32, OutOfMemory>
    ensures place { IfOk result (λ place. place ≡ place_behind previous delta) }
    ensures refused { IsErr result → 2 ^ 32 ≤ place_behind previous delta }
{
    match previous {
        None => Ok(u32::from(delta)),
        Some(before) => match before.checked_add(u32::from(delta) + 1) {
            Some(place) => Ok(place),
            None => Err(AllocError),
        },
    }
}

/// The values in the local variables of a frame by those before it, where these and those can be had. A frame that has the same ones
/// shares them.
fn laid_behind(
    alloc: Global,
    method: &Within<'_>,
    frame: &MapFrame,
    before: Option<Laid>,
) -> Result<Option<Laid>, OutOfMemory>
    requires { IfSome before (IsLaid method.now.body.max_locals) }
    ensures { IfOk result (λ laid. laid ≡ laid_behind method.now frame.now before) }
{
    match form_of_frame(frame.kind) {
        FrameForm::Full => match types_in(alloc, method, frame.locals.as_slice())? {
            Some(types) => laid_types(alloc, method, types.as_slice()),
            None => Ok(None),
        },
        FrameForm::Append => match before {
            Some(laid) => match types_in(alloc, method, frame.locals.as_slice())? {
                Some(types) => laid.append(alloc, types.as_slice()),
                None => Ok(None),
            },
            None => Ok(None),
        },
        FrameForm::Chop => match before {
            Some(laid) => laid.without_last(alloc, 251_u8.saturating_sub(frame.kind)),
            None => Ok(None),
        },
        _ => Ok(before),
    }
}

/// A frame with values in its local variables, if there are such, and types on its operand stack, where these can be had.
fn expanded(
    alloc: Global,
    method: &Within<'_>,
    laid: &Option<Laid>,
    stack: &[MapType],
) -> Result<Option<TypeFrame>, OutOfMemory>
    requires { IfSome laid.now (IsLaid method.now.body.max_locals) }
    ensures { IfOk result (λ frame. frame ≡ expanded method.now (option_map (λ all. all.values) laid.now) stack.now) }
{
    let Some(laid) = laid else {
        return Ok(None);
    };
    match types_in(alloc, method, stack)? {
        Some(types) => frame_of(alloc, method, laid, types.as_slice()),
        None => Ok(None),
    }
}

/// A frame with values in its local variables and types on its operand stack, if it may have so many words.
fn frame_of(
    alloc: Global,
    method: &Within<'_>,
    laid: &Laid,
    types: &[VerificationType],
) -> Result<Option<TypeFrame>, OutOfMemory>
    requires { IsLaid method.now.body.max_locals laid.now }
    ensures { IfOk result (λ frame. frame ≡ frame_of method.now laid.now.values types.now) }
{
    stacked(alloc, method.body.max_stack, laid.bare()?, types)
}
