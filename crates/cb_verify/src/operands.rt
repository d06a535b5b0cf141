// What is on top of a stack.
ghost use Rattle.std.specs.Prelude.{◌≡◌, ◌+◌, ◌<◌, ◌≤◌, ◌&&◌, true, drop, length, slice_get, take, Some, None, if◌then◌else◌};
ghost use Rattle.cb_verify.specs.Calls.{popped};
ghost use Rattle.cb_verify.specs.Members.{taken_types};
ghost use Rattle.cb_verify.specs.InnerPrefixes.{begins_as, is_wanted};
ghost use Rattle.cb_verify.specs.Rules.{taken};
ghost use Rattle.cb_verify.specs.Types.{is_of};

use crate::member::Member;
use crate::{TypeFrame, VerificationType};
use cb_link::Program;
use cb_shapes::Sort;

/// The sort at a place.
fn sort_at(sorts: &[Sort], place: usize) -> Sort
    requires { place < length sorts.now }
    ensures { slice_get sorts.now place ≡ Some result }
{
    sorts[place]
}

/// Whether the value at a place is of the sort there.
fn suits_at(frame: &TypeFrame, sorts: &[Sort], place: usize) -> bool
    requires { place < length sorts.now }
    ensures { begins_as is_of (drop place sorts.now) (drop place frame.now.stack)
        ≡ (result && begins_as is_of (drop (place + 1) sorts.now) (drop (place + 1) frame.now.stack)) }
{
    let sort = sort_at(sorts, place);
    place < frame.depth() && frame.top(place).is_of(sort)
}

/// Whether the topmost values are of these sorts.
#[tactic(auto, using(crate::proofs::Prefixes::all_done))]
fn begins_with(frame: &TypeFrame, sorts: &[Sort]) -> bool
    ensures { result ≡ begins_as is_of sorts.now frame.now.stack }
{
    for place in 0..sorts.len() {
        if !suits_at(frame, sorts, place) {
            return false;
        }
    }
    true
}

/// Whether values of these sorts can be taken off.
#[tactic(auto, using(crate::proofs::Prefixes::taken_by, crate::proofs::Prefixes::has_enough))]
pub(crate) fn has_sorts(frame: &TypeFrame, sorts: &[Sort]) -> bool
    ensures enough { result ≡ true → length sorts.now ≤ length frame.now.stack }
    ensures taken { taken sorts.now frame.now.stack
        ≡ (if result then Some (take (length sorts.now) frame.now.stack, drop (length sorts.now) frame.now.stack) else None) }
{
    begins_with(frame, sorts)
}

/// Whether the value at a place is assignable to what a member takes there.
fn goes_at(program: &Program, frame: &TypeFrame, member: &Member<'_>, place: usize) -> bool
    requires { place < length member.now.takes }
    ensures { begins_as (is_wanted program.now) (drop place member.now.takes) (drop place frame.now.stack)
        ≡ (result && begins_as (is_wanted program.now) (drop (place + 1) member.now.takes) (drop (place + 1) frame.now.stack)) }
{
    let wanted = member.takes(place);
    place < frame.depth()
        && frame
            .top(place)
            .goes_to(program, VerificationType::of_basic(wanted))
}

/// Whether the topmost values are assignable to what a member takes.
#[tactic(auto, using(crate::proofs::Prefixes::all_done))]
fn begins_for(program: &Program, frame: &TypeFrame, member: &Member<'_>) -> bool
    ensures { result ≡ begins_as (is_wanted program.now) member.now.takes frame.now.stack }
{
    for place in 0..member.count() {
        if !goes_at(program, frame, member, place) {
            return false;
        }
    }
    true
}

/// Whether what a member takes can be taken off.
#[tactic(auto, using(crate::proofs::Prefixes::popped_by, crate::proofs::Prefixes::has_enough))]
pub(crate) fn has_arguments(program: &Program, frame: &TypeFrame, member: &Member<'_>) -> bool
    ensures enough { result ≡ true → length member.now.takes ≤ length frame.now.stack }
    ensures taken { popped program.now (taken_types member.now) frame.now.stack
        ≡ (if result then Some (drop (length member.now.takes) frame.now.stack) else None) }
{
    begins_for(program, frame, member)
}
