// Elements of arrays.
ghost use Rattle.cb_heap.specs.Storage.{view_in};
ghost use Rattle.std.specs.Prelude.{◌≡◌, ◌<◌, ◌^◌, is_some, length, true, IsTrue, OnErr, Some};
ghost use Rattle.cb_heap.specs.Follows.{Follows};
ghost use Rattle.cb_heap.specs.Kept.{contents_at, is_held};
ghost use Rattle.cb_heap.specs.Reading.{View, seen};
ghost use Rattle.cb_kinds.specs.declared.basic.Basic.TheVariants as basics;
ghost use Rattle.cb_machine.specs.Values.{sort_of_basic};
ghost use Rattle.cb_act.specs.Objects.{Goes, SuitsWords, behind_length, behind_load_element, behind_store_element};
ghost use Rattle.cb_act.specs.Objects.{behind_store_reference, left_by, object_on, place_of};

use crate::operands::{give_for_one, give_for_two, int_at, operand_of, reference_at, take_three};
use crate::sites::{ARRAY_INDEX, ARRAY_STORE, NULL_POINTER};
use crate::words::{kept_value, put_value, value_at};
use cb_frames::Roots;
use cb_heap::Store;
use cb_kinds::Basic;
use cb_plain::Value;

/// Puts its length in place of the array on the stack of the topmost frame: `arraylength` (JVMS §6.5). An error is the site of the
/// exception of the machine that is thrown; then nothing has changed.
#[inline(always)]
pub fn array_length<S: Store>(store: &S, roots: &mut Roots) -> Result<(), u32>
    requires there { is_some (behind_length (view_in (S.storage store.now) roots.old.roots)) ≡ true }
    requires few { length (contents_at (S.storage store.now).kept (object_on (view_in (S.storage store.now) roots.old.roots) 0)) < 2 ^ 31 }
    ensures behind { behind_length (view_in (S.storage store.now) roots.old.roots)
        ≡ Some (left_by result (view_in (S.storage store.now) roots.new.roots)) }
    ensures same { OnErr result (roots.new ≡ roots.old) }
    ensures limit { roots.new.limit ≡ roots.old.limit }
{
    let at = reference_at(roots, 0);
    if at == 0 {
        return Err(NULL_POINTER);
    }
    let count = store.length(at);
    give_for_one(roots, Value::Int(count as i32));
    Ok(())
}

/// Puts the element of a type at an index in place of the array and the index on the stack of the topmost frame: `iaload` to `saload`
/// (JVMS §6.5). An error is the site of the exception of the machine that is thrown; then nothing has changed.
#[inline(always)]
pub fn load_element<S: Store>(store: &S, roots: &mut Roots, basic: Basic) -> Result<(), u32>
    requires there { is_some (behind_load_element basic (view_in (S.storage store.now) roots.old.roots)) ≡ true }
    requires suits { SuitsWords basic 1 (view_in (S.storage store.now) roots.old.roots) }
    ensures behind { behind_load_element basic (view_in (S.storage store.now) roots.old.roots)
        ≡ Some (left_by result (view_in (S.storage store.now) roots.new.roots)) }
    ensures same { OnErr result (roots.new ≡ roots.old) }
    ensures limit { roots.new.limit ≡ roots.old.limit }
{
    let index = int_at(roots, 0);
    let at = reference_at(roots, 1);
    if at == 0 {
        return Err(NULL_POINTER);
    }
    let count = store.length(at);
    let Some(place) = place_of(index, count) else {
        return Err(ARRAY_INDEX);
    };
    let value = value_at(store, at, place, basic);
    give_for_two(roots, value);
    Ok(())
}

/// Puts the value on the stack of the topmost frame into the array of numbers of a type below it, at the index between them: `iastore`,
/// `lastore`, `bastore`, `castore`, `sastore` (JVMS §6.5). An error is the site of the exception of the machine that is thrown; then
/// nothing has changed.
#[inline(always)]
pub fn store_element<S: Store>(store: &mut S, roots: &mut Roots, basic: Basic) -> Result<(), u32>
    requires there { is_some (behind_store_element (sort_of_basic basic) basic (view_in (S.storage store.old) roots.old.roots)) ≡ true }
    requires suits { SuitsWords basic 2 (view_in (S.storage store.old) roots.old.roots) }
    requires held { IsTrue (is_held (S.storage store.old).kept (object_on (view_in (S.storage store.old) roots.old.roots) 0)) }
    requires follows { (after : View) → behind_store_element (sort_of_basic basic) basic (view_in (S.storage store.old) roots.old.roots) ≡ Some (Goes after) → Follows (S.storage store.old).settings.allows after.objects }
    ensures behind { behind_store_element (sort_of_basic basic) basic (view_in (S.storage store.old) roots.old.roots)
        ≡ Some (left_by result (view_in (S.storage store.new) roots.new.roots)) }
    ensures same { OnErr result (roots.new ≡ roots.old) }
    ensures held { OnErr result ((S.storage store.new).kept ≡ (S.storage store.old).kept) }
    ensures limit { roots.new.limit ≡ roots.old.limit }
    ensures places { (S.storage store.new).index ≡ (S.storage store.old).index }
    ensures facts { (S.storage store.new).facts ≡ (S.storage store.old).facts }
    ensures granted { (S.storage store.new).granted ≡ (S.storage store.old).granted }
    ensures faults { (S.storage store.new).faults ≡ (S.storage store.old).faults }
    ensures settings { (S.storage store.new).settings ≡ (S.storage store.old).settings }
{
    let value = kept_value(basic, operand_of(roots, basic));
    let index = int_at(roots, 1);
    let at = reference_at(roots, 2);
    if at == 0 {
        return Err(NULL_POINTER);
    }
    let count = store.length(at);
    let Some(place) = place_of(index, count) else {
        return Err(ARRAY_INDEX);
    };
    put_value(store, at, place, value);
    take_three(roots);
    Ok(())
}

/// Puts the reference on the stack of the topmost frame into the array below it, at the index between them, where it fits its elements:
/// `aastore` (JVMS §6.5). An error is the site of the exception of the machine that is thrown; then nothing has changed.
#[inline(always)]
pub fn store_reference<S: Store>(store: &mut S, roots: &mut Roots, fits: bool) -> Result<(), u32>
    requires there { is_some (behind_store_reference fits (view_in (S.storage store.old) roots.old.roots)) ≡ true }
    requires suits { SuitsWords (basics.Reference 0) 2 (view_in (S.storage store.old) roots.old.roots) }
    requires held { IsTrue (is_held (S.storage store.old).kept (object_on (view_in (S.storage store.old) roots.old.roots) 0)) }
    requires follows { (after : View) → behind_store_reference fits (view_in (S.storage store.old) roots.old.roots) ≡ Some (Goes after) → Follows (S.storage store.old).settings.allows after.objects }
    ensures behind { behind_store_reference fits (view_in (S.storage store.old) roots.old.roots)
        ≡ Some (left_by result (view_in (S.storage store.new) roots.new.roots)) }
    ensures same { OnErr result (roots.new ≡ roots.old) }
    ensures held { OnErr result ((S.storage store.new).kept ≡ (S.storage store.old).kept) }
    ensures limit { roots.new.limit ≡ roots.old.limit }
    ensures places { (S.storage store.new).index ≡ (S.storage store.old).index }
    ensures facts { (S.storage store.new).facts ≡ (S.storage store.old).facts }
    ensures granted { (S.storage store.new).granted ≡ (S.storage store.old).granted }
    ensures faults { (S.storage store.new).faults ≡ (S.storage store.old).faults }
    ensures settings { (S.storage store.new).settings ≡ (S.storage store.old).settings }
{
    let to = reference_at(roots, 0);
    let index = int_at(roots, 1);
    let at = reference_at(roots, 2);
    if at == 0 {
        return Err(NULL_POINTER);
    }
    let count = store.length(at);
    let Some(place) = place_of(index, count) else {
        return Err(ARRAY_INDEX);
    };
    if !fits {
        return Err(ARRAY_STORE);
    }
    store.put_ref(at, place, to);
    take_three(roots);
    Ok(())
}

/// The place of an index into so many elements, if it is one.
#[inline(always)]
fn place_of(index: i32, count: u32) -> Option<u32>
    ensures { result ≡ place_of index count }
{
    if index < 0 {
        return None;
    }
    let place = index as u32;
    if place < count { Some(place) } else { None }
}
