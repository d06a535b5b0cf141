// Fields of objects.
ghost use Rattle.cb_heap.specs.Storage.{view_in};
ghost use Rattle.std.specs.Prelude.{◌≡◌, is_some, true, IsTrue, OnErr, Some};
ghost use Rattle.cb_heap.specs.Follows.{Follows};
ghost use Rattle.cb_heap.specs.Kept.{is_held};
ghost use Rattle.cb_heap.specs.Reading.{View, seen};
ghost use Rattle.cb_act.specs.Objects.{Goes, SuitsWord, behind_get_field, behind_put_field, left_by, object_on};

use crate::operands::{give_for_one, operand_of, reference_at, take_two};
use crate::sites::NULL_POINTER;
use crate::words::{kept_value, put_value, value_at};
use cb_frames::Roots;
use cb_heap::Store;
use cb_kinds::Basic;

/// Puts the value of a field of a type in place of the object on the stack of the topmost frame: `getfield` (JVMS §6.5). An error is the
/// site of the exception of the machine that is thrown; then nothing has changed.
#[inline(always)]
pub fn get_field<S: Store>(store: &S, roots: &mut Roots, slot: u32, basic: Basic) -> Result<(), u32>
    requires there { is_some (behind_get_field slot basic (view_in (S.storage store.now) roots.old.roots)) ≡ true }
    requires suits { SuitsWord basic 0 slot (view_in (S.storage store.now) roots.old.roots) }
    ensures behind { behind_get_field slot basic (view_in (S.storage store.now) roots.old.roots)
        ≡ Some (left_by result (view_in (S.storage store.now) roots.new.roots)) }
    ensures same { OnErr result (roots.new ≡ roots.old) }
    ensures limit { roots.new.limit ≡ roots.old.limit }
{
    let at = reference_at(roots, 0);
    if at == 0 {
        return Err(NULL_POINTER);
    }
    let value = value_at(store, at, slot, basic);
    give_for_one(roots, value);
    Ok(())
}

/// Puts the value on the stack of the topmost frame into a field of a type of the object below it: `putfield` (JVMS §6.5). An error is the
/// site of the exception of the machine that is thrown; then nothing has changed.
#[inline(always)]
pub fn put_field<S: Store>(
    store: &mut S,
    roots: &mut Roots,
    slot: u32,
    basic: Basic,
) -> Result<(), u32>
    requires there { is_some (behind_put_field slot basic (view_in (S.storage store.old) roots.old.roots)) ≡ true }
    requires suits { SuitsWord basic 1 slot (view_in (S.storage store.old) roots.old.roots) }
    requires held { IsTrue (is_held (S.storage store.old).kept (object_on (view_in (S.storage store.old) roots.old.roots) 0)) }
    requires follows { (after : View) → behind_put_field slot basic (view_in (S.storage store.old) roots.old.roots) ≡ Some (Goes after) → Follows (S.storage store.old).settings.allows after.objects }
    ensures behind { behind_put_field slot basic (view_in (S.storage store.old) roots.old.roots)
        ≡ Some (left_by result (view_in (S.storage store.new) roots.new.roots)) }
    ensures same { OnErr result (roots.new ≡ roots.old) }
    ensures held { OnErr result ((S.storage store.new).kept ≡ (S.storage store.old).kept) }
    ensures limit { roots.new.limit ≡ roots.old.limit }
    ensures places { (S.storage store.new).index ≡ (S.storage store.old).index }
    ensures facts { (S.storage store.new).facts ≡ (S.storage store.old).facts }
    ensures granted { (S.storage store.new).granted ≡ (S.storage store.old).granted }
    ensures faults { (S.storage store.new).faults ≡ (S.storage store.old).faults }
    ensures settings { (S.storage store.new).settings ≡ (S.storage store.old).settings }
{
    let value = kept_value(basic, operand_of(roots, basic));
    let at = reference_at(roots, 1);
    if at == 0 {
        return Err(NULL_POINTER);
    }
    put_value(store, at, slot, value);
    take_two(roots);
    Ok(())
}
