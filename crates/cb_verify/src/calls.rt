// What instructions on fields and methods leave.
ghost use Rattle.std.specs.Prelude.{◌≡◌, ◌^◌, ◌<◌, ◌≤◌, ◌+◌, ◌∷◌, [], ◌==◌, true, drop, length, IfOk, Some, None, if◌then◌else◌};
ghost use Rattle.cb_hierarchy.specs.Classes.{listed};
ghost use Rattle.cb_verify.specs.Calls.{call_interface, call_on, call_special, call_static, call_virtual, exchanged, get_field, may_set_early, on_object, popped, put_early, put_field, return_with, without_this};
ghost use Rattle.cb_verify.specs.Frames.{height};
ghost use Rattle.cb_verify.specs.Members.{given_types, taken_types};

use crate::access::Access;
use crate::exchange::put;
use crate::member::Member;
use crate::names::is_callable;
use crate::operands::has_arguments;
use crate::rules::Given;
use crate::verification_type::kind_goes_to;
use crate::within::Within;
use crate::{TypeFrame, VerificationType};
use cb_plain::OutOfMemory;
use cb_shapes::Sort;
use std::alloc::Global;

/// Whether a value that is assignable to a type is on the stack, below so many others.
fn has_value(method: &Within<'_>, frame: &TypeFrame, place: usize, wanted: VerificationType) -> bool
    ensures enough { result ≡ true → place + 1 ≤ length frame.now.stack }
    ensures few { result ≡ true → place + 1 < 2 ^ 64 }
    ensures taken { popped method.now.program (wanted ∷ []) (drop place frame.now.stack)
        ≡ (if result then Some (drop (place + 1) frame.now.stack) else None) }
{
    place < frame.depth() && frame.top(place).goes_to(method.program, wanted)
}

/// Whether what a member takes can be taken off, and an object of a kind below it.
fn has_object(method: &Within<'_>, frame: &TypeFrame, member: &Member<'_>, kind: u32) -> bool
    ensures enough { result ≡ true → length member.now.takes + 1 ≤ length frame.now.stack }
    ensures few { result ≡ true → length member.now.takes + 1 < 2 ^ 64 }
    ensures taken { popped method.now.program (on_object (taken_types member.now) kind) frame.now.stack
        ≡ (if result then Some (drop (length member.now.takes + 1) frame.now.stack) else None) }
{
    has_arguments(method.program, frame, member)
        && has_value(
            method,
            frame,
            member.count(),
            VerificationType::Object(kind),
        )
}

/// What a member gives, if it gives a value.
pub(crate) fn given_of(member: &Member<'_>) -> Given
    ensures { listed result ≡ given_types member.now }
{
    match member.gives() {
        Some(basic) => Some(VerificationType::of_basic(basic)),
        None => None,
    }
}

/// The frame with one value taken off that is assignable to a type, and what is given put on.
pub(crate) fn for_value(
    alloc: Global,
    method: &Within<'_>,
    frame: &TypeFrame,
    wanted: VerificationType,
    given: Given,
) -> Result<Option<TypeFrame>, OutOfMemory>
    ensures { IfOk result (λ left. left ≡ exchanged method.now frame.now (listed given) (wanted ∷ [])) }
{
    if !has_value(method, frame, 0, wanted) {
        return Ok(None);
    }
    put(alloc, method.body.max_stack, frame, 1, given)
}

/// The frame with what a member takes taken off, and what is given put on.
pub(crate) fn for_arguments(
    alloc: Global,
    method: &Within<'_>,
    frame: &TypeFrame,
    member: &Member<'_>,
    given: Given,
) -> Result<Option<TypeFrame>, OutOfMemory>
    ensures { IfOk result (λ left. left ≡ exchanged method.now frame.now (listed given) (taken_types member.now)) }
{
    if !has_arguments(method.program, frame, member) {
        return Ok(None);
    }
    put(alloc, method.body.max_stack, frame, member.count(), given)
}

/// The frame with what a member takes taken off, and an object of a kind below it, and what is given put on.
fn for_object(
    alloc: Global,
    method: &Within<'_>,
    frame: &TypeFrame,
    member: &Member<'_>,
    kind: u32,
    given: Given,
) -> Result<Option<TypeFrame>, OutOfMemory>
    ensures { IfOk result (λ left. left ≡ exchanged method.now frame.now (listed given) (on_object (taken_types member.now) kind)) }
{
    if !has_object(method, frame, member, kind) {
        return Ok(None);
    }
    put(
        alloc,
        method.body.max_stack,
        frame,
        member.count() + 1,
        given,
    )
}

/// What `getfield` leaves.
pub(crate) fn get_field(
    alloc: Global,
    access: &Access<'_>,
    index: u16,
) -> Result<Option<TypeFrame>, OutOfMemory>
    ensures { IfOk result (λ left. left ≡ get_field access.now.method.now index access.now.member.now access.now.frame.now) }
{
    let Access {
        method,
        member,
        frame,
    } = *access;
    match method.holder(index) {
        Some(kind) => for_value(
            alloc,
            method,
            frame,
            VerificationType::Object(kind),
            given_of(member),
        ),
        None => Ok(None),
    }
}

/// What `invokestatic` leaves.
pub(crate) fn call_static(
    alloc: Global,
    access: &Access<'_>,
    index: u16,
) -> Result<Option<TypeFrame>, OutOfMemory>
    ensures { IfOk result (λ left. left ≡ call_static access.now.method.now index access.now.member.now access.now.frame.now) }
{
    let Access {
        method,
        member,
        frame,
    } = *access;
    if !is_callable(method.name_at(index)) {
        return Ok(None);
    }
    for_arguments(alloc, method, frame, member, given_of(member))
}

/// What a call on an object of a kind leaves.
fn call_on(
    alloc: Global,
    access: &Access<'_>,
    index: u16,
    kind: u32,
) -> Result<Option<TypeFrame>, OutOfMemory>
    ensures { IfOk result (λ left. left ≡ call_on access.now.method.now index access.now.member.now access.now.frame.now kind) }
{
    let Access {
        method,
        member,
        frame,
    } = *access;
    if !is_callable(method.name_at(index)) {
        return Ok(None);
    }
    for_object(alloc, method, frame, member, kind, given_of(member))
}

/// What `invokevirtual` leaves.
pub(crate) fn call_virtual(
    alloc: Global,
    access: &Access<'_>,
    index: u16,
) -> Result<Option<TypeFrame>, OutOfMemory>
    ensures { IfOk result (λ left. left ≡ call_virtual access.now.method.now index access.now.member.now access.now.frame.now) }
{
    match access.method.holder(index) {
        Some(kind) => call_on(alloc, access, index, kind),
        None => Ok(None),
    }
}

/// Whether `putfield` may set the field before another constructor was called: in a constructor of the class that it names.
fn may_set_early(method: &Within<'_>, index: u16) -> bool
    ensures { result ≡ may_set_early method.now index }
{
    method.is_constructor && method.holder(index) == Some(method.class)
}

/// Whether the object of a constructor, which isn't ready, is below so many values.
#[tactic(auto, using(crate::proofs::Prefixes::without_none))]
fn has_this(frame: &TypeFrame, place: usize) -> bool
    ensures enough { result ≡ true → place + 1 ≤ length frame.now.stack }
    ensures few { result ≡ true → place + 1 < 2 ^ 64 }
    ensures left { without_this (drop place frame.now.stack) ≡ (if result then Some (drop (place + 1) frame.now.stack) else None) }
{
    place < frame.depth() && frame.top(place).is_same(VerificationType::This)
}

/// What `putfield` leaves that sets a field of a constructor's object, before another is called.
fn put_early(
    alloc: Global,
    access: &Access<'_>,
    index: u16,
) -> Result<Option<TypeFrame>, OutOfMemory>
    ensures { IfOk result (λ left. left ≡ put_early access.now.method.now index access.now.member.now access.now.frame.now) }
{
    let Access {
        method,
        member,
        frame,
    } = *access;
    if !may_set_early(method, index) || !has_arguments(method.program, frame, member) {
        return Ok(None);
    }
    let count = member.count();
    if !has_this(frame, count) {
        return Ok(None);
    }
    put(alloc, method.body.max_stack, frame, count + 1, None)
}

/// What `putfield` leaves.
pub(crate) fn put_field(
    alloc: Global,
    access: &Access<'_>,
    index: u16,
) -> Result<Option<TypeFrame>, OutOfMemory>
    ensures { IfOk result (λ left. left ≡ put_field access.now.method.now index access.now.member.now access.now.frame.now) }
{
    let early = put_early(alloc, access, index)?;
    let Access {
        method,
        member,
        frame,
    } = *access;
    match method.holder(index) {
        Some(kind) if early.is_none() => for_object(alloc, method, frame, member, kind, None),
        _ => Ok(early),
    }
}

/// What `invokespecial` leaves of a method that is no constructor.
pub(crate) fn call_special(
    alloc: Global,
    access: &Access<'_>,
    index: u16,
) -> Result<Option<TypeFrame>, OutOfMemory>
    ensures { IfOk result (λ left. left ≡ call_special access.now.method.now index access.now.member.now access.now.frame.now) }
{
    let Access {
        method,
        member,
        frame,
    } = *access;
    let Some(kind) = method.holder(index) else {
        return Ok(None);
    };
    if !kind_goes_to(method.program, method.class, kind)
        || !has_object(method, frame, member, kind)
    {
        return Ok(None);
    }
    call_on(alloc, access, index, method.class)
}

/// Whether a count is that of the words of what a member takes and of the object below it.
fn is_count(member: &Member<'_>, count: u8) -> bool
    ensures { result ≡ (count == height (on_object (taken_types member.now) 0)) }
{
    let mut left = u32::from(count);
    for place in 0..member.count() {
        let words = VerificationType::of_basic(member.takes(place)).words();
        if words > left {
            return false;
        }
        left -= words;
    }
    left == 1
}

/// What `invokeinterface` leaves.
pub(crate) fn call_interface(
    alloc: Global,
    access: &Access<'_>,
    index: u16,
    count: u8,
) -> Result<Option<TypeFrame>, OutOfMemory>
    ensures { IfOk result (λ left. left ≡ call_interface access.now.method.now index count access.now.member.now access.now.frame.now) }
{
    if !is_count(access.member, count) {
        return Ok(None);
    }
    call_virtual(alloc, access, index)
}

/// What a return leaves: of a result that is what the method gives, and of none, which ends a constructor only when another was
/// called.
pub(crate) fn return_with(
    alloc: Global,
    method: &Within<'_>,
    sort: Option<Sort>,
    frame: &TypeFrame,
) -> Result<Option<TypeFrame>, OutOfMemory>
    ensures { IfOk result (λ left. left ≡ return_with method.now sort frame.now) }
{
    match (sort, method.result_of()) {
        (None, None) if !frame.is_unfinished() => Ok(Some(frame.share()?)),
        (Some(sort), Some(result)) => {
            let wanted = VerificationType::of_basic(result);
            if !wanted.is_of(sort) {
                return Ok(None);
            }
            for_value(alloc, method, frame, wanted, None)
        }
        _ => Ok(None),
    }
}
