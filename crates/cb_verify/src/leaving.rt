// What an instruction leaves of the frame before it.
ghost use Rattle.std.specs.Prelude.{◌≡◌, [], drop, option_map, IfOk};
ghost use Rattle.cb_verify.specs.declared.verification_type.VerificationType.TheVariants as types;
ghost use Rattle.cb_verify.specs.Calls.{exchanged};
ghost use Rattle.cb_verify.specs.Members.{given_types};
ghost use Rattle.cb_verify.specs.Leaving.{construct, constructed, finished, increase, left, left_with, load, make, makes_object, store};

use crate::access::Access;
use crate::calls::{
    call_interface, call_special, call_static, call_virtual, for_arguments, get_field, given_of,
    put_field, return_with,
};
use crate::exchange::{exchange, put};
use crate::made::new_kind;
use crate::member::Member;
use crate::names::is_init;
use crate::operands::has_arguments;
use crate::rules::BRACKET;
use crate::within::Within;
use crate::{TypeFrame, VerificationType};
use cb_insn::Insn;
use cb_plain::OutOfMemory;
use cb_shapes::{Action, Sort, action_of};
use std::alloc::Global;

/// What an instruction leaves that loads a local variable.
fn load(
    alloc: Global,
    method: &Within<'_>,
    sort: Sort,
    local: u16,
    frame: &TypeFrame,
) -> Result<Option<TypeFrame>, OutOfMemory>
    ensures { IfOk result (λ left. left ≡ load method.now sort local frame.now) }
{
    match frame.loaded(sort, local) {
        Some(value) => frame.push(alloc, method.body.max_stack, value),
        None => Ok(None),
    }
}

/// What an instruction leaves that stores a local variable.
#[tactic(auto, using(crate::proofs::Tops::store_one, crate::proofs::Tops::store_other, crate::proofs::Tops::store_none))]
fn store(
    alloc: Global,
    method: &Within<'_>,
    sort: Sort,
    local: u16,
    frame: &TypeFrame,
) -> Result<Option<TypeFrame>, OutOfMemory>
    ensures { IfOk result (λ left. left ≡ store method.now sort local frame.now) }
{
    if frame.depth() == 0 {
        return Ok(None);
    }
    let value = frame.top(0);
    if !value.is_of(sort) {
        return Ok(None);
    }
    match frame.below(1)?.stored(alloc, local, value)? {
        Some(left) => Ok(left.legal(method.body.max_stack)),
        None => Ok(None),
    }
}

/// What `iinc` leaves.
fn increase(local: u16, frame: &TypeFrame) -> Result<Option<TypeFrame>, OutOfMemory>
    ensures { IfOk result (λ left. left ≡ increase local frame.now) }
{
    match frame.loaded(Sort::Int, local) {
        Some(_) => Ok(Some(frame.share()?)),
        None => Ok(None),
    }
}

/// Whether the constant at an index is a class, and no array.
fn makes_object(method: &Within<'_>, index: u16) -> bool
    ensures { result ≡ makes_object method.now index }
{
    match method.kind_named(index) {
        Some(kind) => method.program.kind_name(kind).first() != Some(&BRACKET),
        None => false,
    }
}

/// What `new` leaves.
fn make(
    alloc: Global,
    method: &Within<'_>,
    pc: u32,
    index: u16,
    frame: &TypeFrame,
) -> Result<Option<TypeFrame>, OutOfMemory>
    ensures { IfOk result (λ left. left ≡ make method.now pc index frame.now) }
{
    let made = VerificationType::New(pc);
    if !makes_object(method, index) || frame.holds(made) {
        return Ok(None);
    }
    let rest = frame.with_locals_replaced(alloc, made, VerificationType::Top)?;
    rest.push(alloc, method.body.max_stack, made)
}

/// The kind of the object that a constructor of a kind makes ready.
fn finished(method: &Within<'_>, kind: u32, object: VerificationType) -> Option<u32>
    ensures { option_map types.Object result ≡ finished method.now kind object }
{
    match object {
        VerificationType::This if kind == method.class || method.superclass() == Some(kind) => Some(
            method.class,
        ),
        VerificationType::New(place) if new_kind(method, place) == Some(kind) => Some(kind),
        _ => None,
    }
}

/// What a constructor leaves of the frame, by the object that is below so many values.
#[tactic(auto, using(crate::proofs::Tops::constructed_one, crate::proofs::Tops::constructed_none))]
fn constructed(
    alloc: Global,
    method: &Within<'_>,
    kind: u32,
    frame: &TypeFrame,
    place: usize,
) -> Result<Option<TypeFrame>, OutOfMemory>
    ensures { IfOk result (λ left. left ≡ constructed method.now kind frame.now (drop place frame.now.stack)) }
{
    if place >= frame.depth() {
        return Ok(None);
    }
    let object = frame.top(place);
    match finished(method, kind, object) {
        Some(made) => {
            let rest = frame.below(place + 1)?;
            Ok(Some(rest.with_finished(alloc, object, made)?))
        }
        None => Ok(None),
    }
}

/// What `invokespecial` leaves of a constructor.
fn construct(
    alloc: Global,
    access: &Access<'_>,
    index: u16,
) -> Result<Option<TypeFrame>, OutOfMemory>
    ensures { IfOk result (λ left. left ≡ construct access.now.method.now index access.now.member.now access.now.frame.now) }
{
    let Access {
        method,
        member,
        frame,
    } = *access;
    let Some(kind) = method.holder(index) else {
        return Ok(None);
    };
    if member.gives().is_some() || !has_arguments(method.program, frame, member) {
        return Ok(None);
    }
    constructed(alloc, method, kind, frame, member.count())
}

/// What `getstatic` leaves.
fn get_static(
    alloc: Global,
    method: &Within<'_>,
    member: &Member<'_>,
    frame: &TypeFrame,
) -> Result<Option<TypeFrame>, OutOfMemory>
    ensures { IfOk result (λ left. left ≡ exchanged method.now frame.now (given_types member.now) []) }
{
    put(alloc, method.body.max_stack, frame, 0, given_of(member))
}

/// What an instruction leaves that does an action.
fn left_with(
    alloc: Global,
    method: &Within<'_>,
    pc: u32,
    member: &Member<'_>,
    action: Action,
    frame: &TypeFrame,
) -> Result<Option<TypeFrame>, OutOfMemory>
    ensures { IfOk result (λ left. left ≡ left_with method.now pc member.now action frame.now) }
{
    let access = Access {
        method,
        member,
        frame,
    };
    match action {
        Action::Load { sort, local } => load(alloc, method, sort, local, frame),
        Action::Store { sort, local } => store(alloc, method, sort, local, frame),
        Action::Increase { local, .. } => increase(local, frame),
        Action::Shuffle(shuffle) => frame.shuffled(alloc, method.body.max_stack, shuffle),
        Action::New(index) => make(alloc, method, pc, index, frame),
        Action::GetField(index) => get_field(alloc, &access, index),
        Action::PutField(index) => put_field(alloc, &access, index),
        Action::Return(sort) => return_with(alloc, method, sort, frame),
        Action::InvokeStatic(index) => call_static(alloc, &access, index),
        Action::InvokeSpecial(index) if is_init(method.name_at(index)) => construct(
            alloc, &access, index,
        ),
        Action::InvokeSpecial(index) => call_special(alloc, &access, index),
        Action::InvokeVirtual(index) => call_virtual(alloc, &access, index),
        Action::InvokeInterface { index, count } => call_interface(alloc, &access, index, count),
        Action::GetStatic(_) => get_static(alloc, method, member, frame),
        Action::PutStatic(_) => for_arguments(alloc, method, frame, member, None),
        _ => exchange(alloc, method, pc, action, frame),
    }
}

/// What an instruction leaves of the frame before it, where its rule is met (JVMS §4.10.1.9).
pub(crate) fn left(
    alloc: Global,
    method: &Within<'_>,
    pc: u32,
    insn: &Insn,
    before: &TypeFrame,
) -> Result<Option<TypeFrame>, OutOfMemory>
    ensures { IfOk result (λ frame. frame ≡ left method.now pc insn.now before.now) }
{
    match action_of(insn) {
        Some(action) => left_with(alloc, method, pc, &Member::at(method, pc), action, before),
        None => Ok(None),
    }
}
