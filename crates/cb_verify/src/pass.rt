// The pass over the instructions of a method.
ghost use Rattle.std.specs.Prelude.{◌≡◌, ◌++◌, drop, IfOk, OnOk};
ghost use Rattle.cb_verify.specs.Framed.{framed, framed_at, frames_of};
ghost use Rattle.cb_verify.specs.InnerPassing.{failing_at, lesser, stepped, unfit};
ghost use Rattle.cb_verify.specs.Typed.{after, begins, falls, first_failing, first_place, fits_with, frame_at, least, onwards, placed_behind};
ghost use Rattle.cb_verify.specs.Expansion.{start};

use crate::TypeFrame;
use crate::arriving::{all_arrive, goes_on_at, goes_on_to};
use crate::expansion::{Declared, start};
use crate::handled::all_handled;
use crate::leaving::left;
use crate::lost::first_lost;
use crate::within::Within;
use cb_insn::Insn;
use cb_plain::{List, OutOfMemory};
use cb_shapes::action_of;
use std::alloc::Global;

/// The frames before a method's instructions, each with its place.
pub(crate) type Frames = List<(u32, TypeFrame)>;

/// A method that was passed over: the frames before its instructions, and the least place that fails.
#[derive(Drop)]
pub(crate) struct Passed {
    pub frames: Frames,
    pub failing: Option<u32>,
}

/// What goes from instruction to instruction: the frame that arrives at the next one, the frames before those so far, and the least
/// place of these that fails.
#[derive(Drop)]
pub(crate) struct Walk {
    arrived: Option<TypeFrame>,
    frames: Frames,
    failing: Option<u32>,
}

/// The lesser of two numbers, where they are there.
pub(crate) fn lesser(one: Option<u32>, other: Option<u32>) -> Option<u32>
    ensures { result ≡ lesser one other }
{
    match (one, other) {
        (Some(number), Some(own)) => Some(number.min(own)),
        (Some(_), None) => one,
        (None, _) => other,
    }
}

/// A place, if it fails.
pub(crate) fn failing_at(pc: u32, fits: bool) -> Option<u32>
    ensures { result ≡ failing_at pc fits }
{
    if fits { None } else { Some(pc) }
}

/// Whether the next instruction may be reached from one.
fn falls(insn: &Insn) -> bool
    ensures { result ≡ falls insn.now }
{
    match action_of(insn) {
        Some(action) => action.goes_on(),
        None => false,
    }
}

/// The frame before an instruction: the declared one, or else what arrives from the one before it.
fn frame_at(
    frames: &Declared,
    pc: u32,
    arrived: Option<TypeFrame>,
) -> Result<Option<TypeFrame>, OutOfMemory>
    ensures { IfOk result (λ frame. frame ≡ frame_at frames.now pc arrived) }
{
    match frames.at(pc) {
        Some(there) => share(there),
        None => Ok(arrived),
    }
}

/// A frame once more, if it is there.
fn share(frame: &Option<TypeFrame>) -> Result<Option<TypeFrame>, OutOfMemory>
    ensures { IfOk result (λ shared. shared ≡ frame.now) }
{
    match frame {
        Some(frame) => Ok(Some(frame.share()?)),
        None => Ok(None),
    }
}

/// What an instruction leaves of the frame before it, if there is one.
fn after(
    alloc: Global,
    method: &Within<'_>,
    placed: &(u32, Insn),
    before: &Option<TypeFrame>,
) -> Result<Option<TypeFrame>, OutOfMemory>
    ensures { IfOk result (λ frame. frame ≡ after method.now placed.now before.now) }
{
    match before {
        Some(before) => left(alloc, method, placed.0, &placed.1, before),
        None => Ok(None),
    }
}

/// What of that arrives at the next instruction.
fn onwards(insn: &Insn, frame: Option<TypeFrame>) -> Option<TypeFrame>
    ensures { result ≡ onwards insn.now frame }
{
    if falls(insn) { frame } else { None }
}

/// Whether an instruction fits, by the frame before it and what it leaves.
fn fits_with(
    method: &Within<'_>,
    frames: &Declared,
    placed: &(u32, Insn),
    next: Option<u32>,
    before: &Option<TypeFrame>,
    after: &Option<TypeFrame>,
) -> bool
    ensures { result ≡ fits_with method.now frames.now placed.now.0 placed.now.1 next before.now after.now }
{
    match (before, after) {
        (Some(before), Some(after)) => {
            all_arrive(method, frames, after, &placed.1.operand)
                && (!falls(&placed.1) || goes_on_to(method, frames, after, next))
                && all_handled(method, frames, before, placed.0)
        }
        _ => false,
    }
}

/// Whether a method's first frame is assignable to the one that is declared at place 0, if one is.
fn begins(method: &Within<'_>, frames: &Declared, first: &Option<TypeFrame>) -> bool
    requires { first.now ≡ start method.now }
    ensures { result ≡ begins method.now frames.now }
{
    match first {
        Some(frame) => goes_on_at(method, frames, frame, 0),
        None => frames.at(0).is_none(),
    }
}

/// Adds a frame, if it is there.
fn add(list: &mut Frames, pc: u32, frame: Option<TypeFrame>) -> Result<(), OutOfMemory>
    ensures { OnOk result (list.new ≡ list.old ++ framed_at pc frame) }
{
    match frame {
        Some(frame) => list.push((pc, frame)),
        None => Ok(()),
    }
}

impl Walk {
    /// What comes of an instruction, where the next one stands at a place.
    fn step(
        self,
        alloc: Global,
        method: &Within<'_>,
        frames: &Declared,
        placed: &(u32, Insn),
        next: Option<u32>,
    ) -> Result<Walk, OutOfMemory>
        ensures { IfOk result (λ walk. walk ≡ stepped method.now frames.now self placed.now next) }
    {
        let before = frame_at(frames, placed.0, self.arrived)?;
        let after = after(alloc, method, placed, &before)?;
        let fits = fits_with(method, frames, placed, next, &before, &after);
        let mut list = self.frames;
        add(&mut list, placed.0, before)?;
        Ok(Walk {
            arrived: onwards(&placed.1, after),
            frames: list,
            failing: lesser(self.failing, failing_at(placed.0, fits)),
        })
    }
}

/// What comes of all instructions of a method, at the first of which a frame arrives.
fn walk_over(
    alloc: Global,
    method: &Within<'_>,
    frames: &Declared,
    first: Option<TypeFrame>,
) -> Result<Walk, OutOfMemory>
    ensures frames { IfOk result (λ walk. walk.frames ≡ framed (placed_behind method.now frames.now first method.now.body.code)) }
    ensures failing { IfOk result (λ walk. walk.failing ≡ least (unfit method.now frames.now (placed_behind method.now frames.now first method.now.body.code))) }
{
    let mut walk = Walk {
        arrived: first,
        frames: List::new(alloc),
        failing: None,
    };
    let code = method.body.code.as_slice();
    for turn in 0..code.len() {
        let next = place_at(code, turn + 1);
        walk = walk.step(alloc, method, frames, &code[turn], next)?;
    }
    Ok(walk)
}

/// Passes over a method: the frames before its instructions, and the least place that fails, if one does (JVMS §4.10.1.6). Takes
/// time as `verify` says. `OutOfMemory` where no memory was to be had.
pub(crate) fn pass(alloc: Global, method: &Within<'_>) -> Result<Passed, OutOfMemory>
    ensures frames { IfOk result (λ passed. passed.frames ≡ frames_of method.now) }
    ensures failing { IfOk result (λ passed. passed.failing ≡ first_failing method.now) }
{
    let frames = Declared::of(alloc, method)?;
    let first = start(alloc, method)?;
    let beginning = failing_at(0, begins(method, &frames, &first));
    let walk = walk_over(alloc, method, &frames, first)?;
    let failing = lesser(walk.failing, first_lost(method, &frames));
    Ok(Passed {
        frames: walk.frames,
        failing: lesser(beginning, failing),
    })
}

/// The place of the instruction of a number, if there is one.
fn place_at(code: &[(u32, Insn)], turn: usize) -> Option<u32>
    ensures { result ≡ first_place (drop turn code.now) }
{
    match code.get(turn) {
        Some(placed) => Some(placed.0),
        None => None,
    }
}
