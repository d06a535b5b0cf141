// What instructions do that call methods, as whole steps, and those that make objects, of which here only sizes and classes are looked at.
ghost use Rattle.cb_heap.specs.Storage.{view_in};
ghost use Rattle.std.specs.Prelude.{◌≡◌, ◌≤◌, ◌<◌, ℕ, is_some, length, true, IsTrue, OnErr, Some};
ghost use Rattle.cb_frames.specs.Tops.{top_stack};
ghost use Rattle.cb_heap.specs.Reading.{seen};
ghost use Rattle.cb_link.specs.Named.{IsThere};
ghost use Rattle.cb_heap.specs.Kept.{is_held};
ghost use Rattle.cb_hierarchy.specs.declared.selected.Selected.TheVariants as chosen;
ghost use Rattle.cb_link.specs.Calls.{IsOneOf, select};
ghost use Rattle.cb_plain.specs.State.{Object};
ghost use Rattle.cb_plain.specs.Updates.{object_in};
ghost use Rattle.cb_act.specs.Acting.{ArgumentsFit, Asks, HasFewParameters, MarksNatives, arrays_deed, call_deed, deed_by, new_deed, on_kind, on_method, receiver_deed, static_deed};
ghost use Rattle.cb_act.specs.Objects.{object_on};

use crate::Need;
use crate::acting_frames::unready;
use crate::operands::{int_at, reference_at};
use crate::sites::{
    ABSTRACT_METHOD, INCOMPATIBLE_CLASS_CHANGE, NEGATIVE_SIZE, NULL_POINTER, STACK_OVERFLOW,
};
use bitflags::Flags;
use cb_classfile::MethodFlags;
use cb_frames::{Deep, Roots};
use cb_heap::Store;
use cb_hierarchy::Selected;
use cb_link::{Decoded, Named, Program};

/// `new`, of a class that may be used: its object is placed when there is room for it.
pub(crate) fn makes_object<S: Store>(
    program: &Program,
    store: &S,
    roots: &Roots,
    decoded: &Decoded,
) -> Need
    requires there { is_some (on_kind (new_deed program.now (view_in (S.storage store.now) roots.now.roots)) decoded.now.named) ≡ true }
    requires named { IsThere program.now decoded.now.named }
    ensures { on_kind (new_deed program.now (view_in (S.storage store.now) roots.now.roots)) decoded.now.named ≡ Some (Asks result) }
{
    let _ = store;
    let Named::Kind(kind) = decoded.named else {
        return Need::Makes;
    };
    let Some(class) = program.class_of_kind(kind) else {
        return Need::Makes;
    };
    match unready(roots, class) {
        Some(need) => need,
        None => Need::Makes,
    }
}

/// `newarray`, `anewarray`, `multianewarray`: the sizes are on the stack, the last one on top.
pub(crate) fn makes_arrays<S: Store>(store: &S, roots: &Roots, dimensions: u32) -> Need
    requires there { is_some (arrays_deed (view_in (S.storage store.now) roots.now.roots) dimensions) ≡ true }
    ensures { arrays_deed (view_in (S.storage store.now) roots.now.roots) dimensions
        ≡ Some (Asks result) }
{
    let _ = store;
    for depth in 0..dimensions {
        if int_at(roots, depth) < 0 {
            return Need::Throws(NEGATIVE_SIZE);
        }
    }
    Need::Makes
}

/// `invokestatic`
#[inline(always)]
pub(crate) fn invokes_static<S: Store>(
    program: &Program,
    store: &S,
    roots: &mut Roots,
    decoded: &Decoded,
) -> Result<(), Need>
    requires there { is_some (on_method (static_deed program.now roots.old.limit (view_in (S.storage store.now) roots.old.roots)) decoded.now.named) ≡ true }
    requires named { IsThere program.now decoded.now.named }
    requires natives { MarksNatives program.now }
    requires parameters { HasFewParameters program.now }
    requires fit { ArgumentsFit program.now (view_in (S.storage store.now) roots.old.roots) (λ limit. on_method (static_deed program.now limit (view_in (S.storage store.now) roots.old.roots)) decoded.now.named) }
    ensures deed { on_method (static_deed program.now roots.old.limit (view_in (S.storage store.now) roots.old.roots)) decoded.now.named
        ≡ Some (deed_by result (view_in (S.storage store.now) roots.new.roots)) }
    ensures same { OnErr result (roots.new ≡ roots.old) }
    ensures limit { roots.new.limit ≡ roots.old.limit }
{
    let Named::Method(method) = decoded.named else {
        return Ok(());
    };
    if let Some(need) = unready(roots, program.class_of(method)) {
        return Err(need);
    }
    let count = program.parameter_count(method) as u32;
    calls(program, store, roots, count, Selected::Method(method))
}

/// `invokespecial`, of a method that is known beforehand.
#[inline(always)]
pub(crate) fn invokes_special<S: Store>(
    program: &Program,
    store: &S,
    roots: &mut Roots,
    decoded: &Decoded,
    special: Selected,
) -> Result<(), Need>
    requires there { is_some (on_method (receiver_deed program.now roots.old.limit (view_in (S.storage store.now) roots.old.roots)
        (λ kind. special)) decoded.now.named) ≡ true }
    requires named { IsThere program.now decoded.now.named }
    requires selected { IsOneOf (length program.now.methods) special }
    requires natives { MarksNatives program.now }
    requires parameters { HasFewParameters program.now }
    requires held { (depth : ℕ) → IsTrue (is_held (S.storage store.now).kept (object_on (view_in (S.storage store.now) roots.old.roots) depth)) }
    requires fit { ArgumentsFit program.now (view_in (S.storage store.now) roots.old.roots) (λ limit. on_method (receiver_deed program.now limit
        (view_in (S.storage store.now) roots.old.roots)
        (λ kind. special)) decoded.now.named) }
    ensures deed { on_method (receiver_deed program.now roots.old.limit (view_in (S.storage store.now) roots.old.roots) (λ kind. special)) decoded.now.named
        ≡ Some (deed_by result (view_in (S.storage store.now) roots.new.roots)) }
    ensures same { OnErr result (roots.new ≡ roots.old) }
    ensures limit { roots.new.limit ≡ roots.old.limit }
{
    let Named::Method(method) = decoded.named else {
        return Ok(());
    };
    let count = program.parameter_count(method) as u32;
    if reference_at(roots, count) == 0 {
        return Err(Need::Throws(NULL_POINTER));
    }
    calls(program, store, roots, count + 1, special)
}

/// `invokevirtual`
#[inline(always)]
pub(crate) fn invokes_virtual<S: Store>(
    program: &Program,
    store: &S,
    roots: &mut Roots,
    decoded: &Decoded,
) -> Result<(), Need>
    requires there { is_some (on_method (λ method. receiver_deed program.now roots.old.limit (view_in (S.storage store.now) roots.old.roots)
        (λ kind. select program.now kind method) method) decoded.now.named) ≡ true }
    requires named { IsThere program.now decoded.now.named }
    requires natives { MarksNatives program.now }
    requires parameters { HasFewParameters program.now }
    requires kinds { (serial : ℕ) (object : Object) → object_in (S.storage store.now).kept serial
        ≡ Some object → object.kind < length program.now.kinds }
    requires held { (depth : ℕ) → IsTrue (is_held (S.storage store.now).kept (object_on (view_in (S.storage store.now) roots.old.roots) depth)) }
    requires fit { ArgumentsFit program.now (view_in (S.storage store.now) roots.old.roots) (λ limit. on_method
        (λ method. receiver_deed program.now limit (view_in (S.storage store.now) roots.old.roots)
        (λ kind. select program.now kind method) method) decoded.now.named) }
    ensures deed { on_method (λ method. receiver_deed program.now roots.old.limit (view_in (S.storage store.now) roots.old.roots)
        (λ kind. select program.now kind method) method) decoded.now.named
        ≡ Some (deed_by result (view_in (S.storage store.now) roots.new.roots)) }
    ensures same { OnErr result (roots.new ≡ roots.old) }
    ensures limit { roots.new.limit ≡ roots.old.limit }
{
    let Named::Method(method) = decoded.named else {
        return Ok(());
    };
    let count = program.parameter_count(method) as u32;
    let at = reference_at(roots, count);
    if at == 0 {
        return Err(Need::Throws(NULL_POINTER));
    }
    let selected = program.select(store.kind(at), method);
    calls(program, store, roots, count + 1, selected)
}

/// A method that was selected is called with so many arguments from the stack.
#[inline(always)]
pub(crate) fn calls<S: Store>(
    program: &Program,
    store: &S,
    roots: &mut Roots,
    count: u32,
    selected: Selected,
) -> Result<(), Need>
    requires there { is_some (call_deed program.now roots.old.limit (view_in (S.storage store.now) roots.old.roots) count selected) ≡ true }
    requires few { count ≤ length (top_stack roots.old.roots) }
    requires selected { IsOneOf (length program.now.methods) selected }
    requires natives { MarksNatives program.now }
    requires fit { ArgumentsFit program.now (view_in (S.storage store.now) roots.old.roots) (λ limit. call_deed program.now limit (view_in (S.storage store.now) roots.old.roots) count selected) }
    ensures deed { call_deed program.now roots.old.limit (view_in (S.storage store.now) roots.old.roots) count selected ≡ Some (deed_by result (view_in (S.storage store.now) roots.new.roots)) }
    ensures same { OnErr result (roots.new ≡ roots.old) }
    ensures limit { roots.new.limit ≡ roots.old.limit }
{
    match selected {
        Selected::Method(method) => enters(program, store, roots, count, method),
        Selected::Abstract => Err(Need::Throws(ABSTRACT_METHOD)),
        Selected::Several => Err(Need::Throws(INCOMPATIBLE_CLASS_CHANGE)),
    }
}

/// A method of a number is called so: one with code is entered, where there is room for its frame.
#[inline(always)]
fn enters<S: Store>(
    program: &Program,
    store: &S,
    roots: &mut Roots,
    count: u32,
    method: u32,
) -> Result<(), Need>
    requires few { count ≤ length (top_stack roots.old.roots) }
    requires low { method < length program.now.methods }
    requires natives { MarksNatives program.now }
    requires fit { ArgumentsFit program.now (view_in (S.storage store.now) roots.old.roots) (λ limit. call_deed program.now limit (view_in (S.storage store.now) roots.old.roots) count (chosen.Method method)) }
    ensures deed { call_deed program.now roots.old.limit (view_in (S.storage store.now) roots.old.roots) count (chosen.Method method)
        ≡ Some (deed_by result (view_in (S.storage store.now) roots.new.roots)) }
    ensures same { OnErr result (roots.new ≡ roots.old) }
    ensures limit { roots.new.limit ≡ roots.old.limit }
{
    let _ = store;
    let called = program.method(method);
    let Some(body) = &called.body else {
        if called.flags.contains(MethodFlags::NATIVE) {
            return Err(Need::Performs(method));
        }
        return Err(Need::Throws(ABSTRACT_METHOD));
    };
    let locals = body.max_locals as u32;
    match roots.enter(method, count, locals, body.max_stack as u32) {
        Ok(()) => Ok(()),
        Err(Deep) => Err(Need::Throws(STACK_OVERFLOW)),
    }
}
