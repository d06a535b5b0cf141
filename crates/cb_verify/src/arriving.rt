// What arrives at a place, and where the next instruction stands.
ghost use Rattle.std.specs.Prelude.{◌≡◌};
ghost use Rattle.std.specs.List.{list_all};
ghost use Rattle.cb_shapes.specs.Targets.{targets_of};
ghost use Rattle.cb_verify.specs.Expansion.{declared_at};
ghost use Rattle.cb_verify.specs.Typed.{arrives, goes_on_at, goes_on_to, goes_to_declared};

use crate::TypeFrame;
use crate::expansion::Declared;
use crate::within::Within;
use cb_insn::{Operand, Pair};

/// Whether a frame is assignable to a declared one. It isn't where that can't be had.
fn goes_to_declared(method: &Within<'_>, frame: &TypeFrame, there: &Option<TypeFrame>) -> bool
    ensures { result ≡ goes_to_declared method.now frame.now there.now }
{
    match there {
        Some(other) => frame.goes_to(method.program, other),
        None => false,
    }
}

/// Whether a frame arrives at a place: one is declared there, to which it is assignable.
pub(crate) fn arrives(method: &Within<'_>, frames: &Declared, frame: &TypeFrame, place: u32) -> bool
    ensures { result ≡ arrives method.now frames.now frame.now place }
{
    match frames.at(place) {
        Some(there) => goes_to_declared(method, frame, there),
        None => false,
    }
}

/// Whether a frame may go on to the next instruction: there is one, and the frame is assignable to the one that is declared there,
/// if one is.
pub(crate) fn goes_on_to(
    method: &Within<'_>,
    frames: &Declared,
    frame: &TypeFrame,
    next: Option<u32>,
) -> bool
    ensures { result ≡ goes_on_to method.now frames.now frame.now next }
{
    match next {
        Some(place) => goes_on_at(method, frames, frame, place),
        None => false,
    }
}

/// Whether a frame may go on to a place.
pub(crate) fn goes_on_at(
    method: &Within<'_>,
    frames: &Declared,
    frame: &TypeFrame,
    place: u32,
) -> bool
    ensures { result ≡ goes_on_at method.now frame.now (declared_at frames.now place) }
{
    match frames.at(place) {
        Some(there) => goes_to_declared(method, frame, there),
        None => true,
    }
}

/// Whether a frame arrives at each of these places.
fn arrives_at_all(method: &Within<'_>, frames: &Declared, frame: &TypeFrame, places: &[u32]) -> bool
    ensures { result ≡ list_all (arrives method.now frames.now frame.now) places.now }
{
    places
        .iter()
        .all(|place| arrives(method, frames, frame, *place))
}

/// Whether a frame arrives at the target of each pair of a `lookupswitch`.
fn arrives_at_each(
    method: &Within<'_>,
    frames: &Declared,
    frame: &TypeFrame,
    pairs: &[Pair],
) -> bool
    ensures { result ≡ list_all (λ pair. arrives method.now frames.now frame.now pair.target) pairs.now }
{
    pairs
        .iter()
        .all(|pair| arrives(method, frames, frame, pair.target))
}

/// Whether a frame arrives at each target of an operand. Takes time in their number, times that of looking for a declared frame and
/// of comparing it.
#[tactic(auto, using(crate::proofs::Dropped::all_mapped))]
pub(crate) fn all_arrive(
    method: &Within<'_>,
    frames: &Declared,
    frame: &TypeFrame,
    operand: &Operand,
) -> bool
    ensures { result ≡ list_all (arrives method.now frames.now frame.now) (targets_of operand.now) }
{
    match operand {
        Operand::Branch(target) => arrives(method, frames, frame, *target),
        Operand::Table {
            default,
            targets,
            ..
        } => {
            arrives(method, frames, frame, *default)
                && arrives_at_all(method, frames, frame, targets.as_slice())
        }
        Operand::Lookup { default, pairs } => {
            arrives(method, frames, frame, *default)
                && arrives_at_each(method, frames, frame, pairs.as_slice())
        }
        _ => true,
    }
}
