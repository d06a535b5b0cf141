// What instructions on the topmost frame alone do, as whole steps, and those that go on elsewhere.
ghost use Rattle.cb_heap.specs.Storage.{view_in};
ghost use Rattle.std.specs.Prelude.{◌≡◌, ◌≤◌, ◌<◌, ℕ, false, is_some, length, option_map, slice_get, true, IsTrue, OnErr, Some};
ghost use Rattle.cb_frames.specs.Tops.{left, runs_method, top_room};
ghost use Rattle.cb_heap.specs.Kept.{is_held};
ghost use Rattle.cb_heap.specs.Reading.{read_roots, read_value, seen};
ghost use Rattle.cb_plain.specs.declared.value.Value.{Value as AnyValue};
ghost use Rattle.cb_link.specs.declared.named.Named.TheVariants as meanings;
ghost use Rattle.cb_link.specs.Decoding.{basic_named};
ghost use Rattle.cb_link.specs.Named.{IsThere};
ghost use Rattle.cb_machine.specs.Machine.{or_zero};
ghost use Rattle.cb_shapes.specs.declared.action.Action.TheVariants as actions;
ghost use Rattle.cb_shapes.specs.declared.test.Condition.TheVariants as conditions;
ghost use Rattle.cb_act.specs.Acting.{computed_deed, constant_deed, deed_by, frame_deed, get_deed, need_of, on_static, put_deed};
ghost use Rattle.cb_act.specs.Framing.{growth_at, is_plain};
ghost use Rattle.cb_act.specs.Going.{behind_return};
ghost use Rattle.cb_act.specs.Objects.{object_on};

use crate::Need;
use crate::named::basic_of;
use crate::plain_steps::frame_step;
use crate::references::test_references;
use crate::returning::give_back;
use crate::sites::NO_CLASS_DEFINITION;
use crate::statics::{get_static, put_static};
use cb_frames::Roots;
use cb_heap::Store;
use cb_link::{Decoded, Named, Program};
use cb_plain::ClassState;
use cb_shapes::{Action, Sort};

/// An instruction that changes the topmost frame alone, and compares no references.
pub(crate) fn computes<S: Store>(
    store: &S,
    roots: &mut Roots,
    decoded: &Decoded,
    action: &Action,
) -> Result<(), Need>
    requires plain { is_plain action.now ≡ true }
    requires there { is_some (frame_deed decoded.now (view_in (S.storage store.now) roots.old.roots) action.now) ≡ true }
    requires runs { runs_method roots.old.roots ≡ true }
    requires room { growth_at action.now (read_roots
        (S.storage store.now).index roots.old.roots) ≤ top_room roots.old.roots }
    ensures deed { frame_deed decoded.now (view_in (S.storage store.now) roots.old.roots) action.now ≡ Some (deed_by result (view_in (S.storage store.now) roots.new.roots)) }
    ensures same { OnErr result (roots.new ≡ roots.old) }
    ensures limit { roots.new.limit ≡ roots.old.limit }
{
    if is_computed(store, roots, decoded, action) {
        Ok(())
    } else {
        Err(Need::ByZero)
    }
}

/// The same, and whether it is done: a division by zero changes nothing.
pub fn is_computed<S: Store>(
    store: &S,
    roots: &mut Roots,
    decoded: &Decoded,
    action: &Action,
) -> bool
    requires plain { is_plain action.now ≡ true }
    requires there { is_some (frame_deed decoded.now (view_in (S.storage store.now) roots.old.roots) action.now) ≡ true }
    requires runs { runs_method roots.old.roots ≡ true }
    requires room { growth_at action.now (read_roots
        (S.storage store.now).index roots.old.roots) ≤ top_room roots.old.roots }
    ensures deed { frame_deed decoded.now (view_in (S.storage store.now) roots.old.roots) action.now ≡ Some (computed_deed result (view_in (S.storage store.now) roots.new.roots)) }
    ensures same { result ≡ false → roots.new ≡ roots.old }
    ensures limit { roots.new.limit ≡ roots.old.limit }
{
    let _ = store;
    let next = place_or_zero(decoded.next);
    let target = place_or_zero(decoded.target);
    frame_step(roots, action, next, target)
}

/// `if_acmpeq`, `if_acmpne`
pub(crate) fn compares<S: Store>(
    store: &S,
    roots: &mut Roots,
    decoded: &Decoded,
    are: bool,
) -> Result<(), Need>
    requires there { is_some (frame_deed decoded.now (view_in (S.storage store.now) roots.old.roots) (actions.Branch (conditions.AreSame are))) ≡ true }
    requires runs { runs_method roots.old.roots ≡ true }
    requires first { IsTrue (is_held (S.storage store.now).kept (object_on (view_in (S.storage store.now) roots.old.roots) 0)) }
    requires second { IsTrue (is_held (S.storage store.now).kept (object_on (view_in (S.storage store.now) roots.old.roots) 1)) }
    ensures deed { frame_deed decoded.now (view_in (S.storage store.now) roots.old.roots) (actions.Branch (conditions.AreSame are))
        ≡ Some (deed_by result (view_in (S.storage store.now) roots.new.roots)) }
    ensures same { OnErr result (roots.new ≡ roots.old) }
    ensures limit { roots.new.limit ≡ roots.old.limit }
{
    let next = place_or_zero(decoded.next);
    let target = place_or_zero(decoded.target);
    let is = test_references(store, roots, are);
    roots.set_place(if is { target } else { next });
    Ok(())
}

/// `ldc`, `ldc_w`, `ldc2_w`: a number is laid on the stack. An object has to be there first.
#[inline(always)]
pub(crate) fn loads_constant<S: Store>(
    store: &S,
    roots: &mut Roots,
    decoded: &Decoded,
) -> Result<(), Need>
    requires there { is_some (constant_deed decoded.now (view_in (S.storage store.now) roots.old.roots) decoded.now.named) ≡ true }
    requires runs { runs_method roots.old.roots ≡ true }
    requires room { 0 < top_room roots.old.roots }
    requires number { (value : AnyValue) → decoded.now.named ≡ meanings.Whole value
        → read_value (S.storage store.now).index value ≡ value }
    ensures deed { constant_deed decoded.now (view_in (S.storage store.now) roots.old.roots) decoded.now.named
        ≡ Some (deed_by result (view_in (S.storage store.now) roots.new.roots)) }
    ensures same { OnErr result (roots.new ≡ roots.old) }
    ensures limit { roots.new.limit ≡ roots.old.limit }
{
    let Named::Whole(value) = decoded.named else {
        return Err(Need::Loads);
    };
    let Some(next) = decoded.next else {
        unreachable!()
    };
    roots.push(value);
    roots.set_place(next);
    Ok(())
}

/// `getstatic`
#[inline(always)]
pub(crate) fn gets_static<S: Store>(
    store: &S,
    roots: &mut Roots,
    decoded: &Decoded,
) -> Result<(), Need>
    requires there { is_some (on_static (get_deed decoded.now (view_in (S.storage store.now) roots.old.roots)) decoded.now.named) ≡ true }
    requires runs { runs_method roots.old.roots ≡ true }
    requires room { 0 < top_room roots.old.roots }
    ensures deed { on_static (get_deed decoded.now (view_in (S.storage store.now) roots.old.roots)) decoded.now.named
        ≡ Some (deed_by result (view_in (S.storage store.now) roots.new.roots)) }
    ensures same { OnErr result (roots.new ≡ roots.old) }
    ensures limit { roots.new.limit ≡ roots.old.limit }
{
    let Named::Static { class, slot } = decoded.named else {
        unreachable!()
    };
    if let Some(need) = unready(roots, class) {
        return Err(need);
    }
    let Some(next) = decoded.next else {
        unreachable!()
    };
    get_static(roots, slot);
    roots.set_place(next);
    Ok(())
}

/// `putstatic`
#[inline(always)]
pub(crate) fn puts_static<S: Store>(
    program: &Program,
    store: &S,
    roots: &mut Roots,
    decoded: &Decoded,
) -> Result<(), Need>
    requires there { is_some (on_static (put_deed program.now decoded.now (view_in (S.storage store.now) roots.old.roots)) decoded.now.named) ≡ true }
    requires named { IsThere program.now decoded.now.named }
    requires runs { runs_method roots.old.roots ≡ true }
    requires low { (class slot : ℕ) → decoded.now.named ≡ meanings.Static class slot
        → slot < length roots.old.roots.statics }
    requires told { decoded.now.basic ≡ basic_named program.now decoded.now.named }
    ensures deed { on_static (put_deed program.now decoded.now (view_in (S.storage store.now) roots.old.roots)) decoded.now.named
        ≡ Some (deed_by result (view_in (S.storage store.now) roots.new.roots)) }
    ensures same { OnErr result (roots.new ≡ roots.old) }
    ensures limit { roots.new.limit ≡ roots.old.limit }
{
    let Named::Static { class, slot } = decoded.named else {
        unreachable!()
    };
    if let Some(need) = unready(roots, class) {
        return Err(need);
    }
    let Some(next) = decoded.next else {
        unreachable!()
    };
    put_static(roots, slot, basic_of(program, decoded));
    roots.set_place(next);
    Ok(())
}

/// `ireturn` to `return`
#[inline(always)]
pub(crate) fn returns<S: Store>(program: &Program, store: &S, roots: &mut Roots, sort: Option<Sort>)
    requires there { is_some (behind_return program.now sort (read_roots
        (S.storage store.now).index roots.old.roots)) ≡ true }
    requires runs { runs_method roots.old.roots ≡ true }
    requires room { is_some sort ≡ true → runs_method (left roots.old.roots) ≡ true
        → 0 < top_room (left roots.old.roots) }
    ensures deed { behind_return program.now sort (read_roots (S.storage store.now).index roots.old.roots)
        ≡ Some (read_roots (S.storage store.now).index roots.new.roots) }
    ensures limit { roots.new.limit ≡ roots.old.limit }
{
    let _ = store;
    give_back(program, roots, sort);
}

/// A place, or 0 where there is none, which then doesn't matter.
fn place_or_zero(place: Option<u32>) -> u32
    ensures { result ≡ or_zero place }
{
    match place {
        Some(place) => place,
        None => 0,
    }
}

/// What has to be done before a class is used, if it isn't ready.
#[inline(always)]
pub(crate) fn unready(roots: &Roots, class: u32) -> Option<Need>
    requires { class < length roots.now.roots.classes }
    ensures { option_map (need_of class) (slice_get roots.now.roots.classes class) ≡ Some result }
{
    match roots.state(class) {
        ClassState::Untouched => Some(Need::Begins(class)),
        ClassState::Failed => Some(Need::Throws(NO_CLASS_DEFINITION)),
        ClassState::Busy | ClassState::Done => None,
    }
}
