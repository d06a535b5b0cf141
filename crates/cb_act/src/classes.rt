// Instructions that ask for the class of an object.
ghost use Rattle.cb_heap.specs.Storage.{view_in};
ghost use Rattle.std.specs.Prelude.{◌≡◌, ◌<◌, ℕ, is_some, length, option_map, true, IsTrue, OnErr, Some};
ghost use Rattle.std.specs.declared.result.Result.TheVariants.{Ok};
ghost use Rattle.cb_heap.specs.Kept.{is_held, is_kept};
ghost use Rattle.cb_heap.specs.Reading.{seen, serial_of};
ghost use Rattle.cb_machine.specs.Arrays.{element_of};
ghost use Rattle.cb_plain.specs.State.{Object};
ghost use Rattle.cb_plain.specs.Updates.{object_in};
ghost use Rattle.cb_act.specs.Classes.{HasKind, behind_cast, behind_instance, behind_throw, fits_serial};
ghost use Rattle.cb_act.specs.Objects.{left_by};

use crate::operands::{give_for_one, reference_at};
use crate::sites::{CLASS_CAST, NULL_POINTER};
use cb_frames::Roots;
use cb_heap::Store;
use cb_kinds::Basic;
use cb_link::Program;
use cb_plain::Value;

/// Whether the object on the stack of the topmost frame is of a kind, or null, and so stays there: `checkcast` (JVMS §6.5). An error is the
/// site of the exception of the machine that is thrown.
#[inline(always)]
pub fn cast<S: Store>(program: &Program, store: &S, roots: &Roots, kind: u32) -> Result<(), u32>
    requires there { is_some (behind_cast program.now kind (view_in (S.storage store.now) roots.now.roots)) ≡ true }
    requires kind { kind < length program.now.kinds }
    requires own { HasKind program.now 0 (view_in (S.storage store.now) roots.now.roots) }
    ensures { behind_cast program.now kind (view_in (S.storage store.now) roots.now.roots) ≡ Some (left_by result (view_in (S.storage store.now) roots.now.roots)) }
{
    let at = reference_at(roots, 0);
    if at == 0 {
        return Ok(());
    }
    if program.instance(store.kind(at), kind) {
        Ok(())
    } else {
        Err(CLASS_CAST)
    }
}

/// Puts 1 in place of the object on the stack of the topmost frame where it is of a kind, else, and for null, 0: `instanceof` (JVMS §6.5).
#[inline(always)]
pub fn instance<S: Store>(program: &Program, store: &S, roots: &mut Roots, kind: u32)
    requires there { is_some (behind_instance program.now kind (view_in (S.storage store.now) roots.old.roots)) ≡ true }
    requires kind { kind < length program.now.kinds }
    requires own { HasKind program.now 0 (view_in (S.storage store.now) roots.old.roots) }
    ensures behind { behind_instance program.now kind (view_in (S.storage store.now) roots.old.roots) ≡ Some (left_by (Ok tt) (view_in (S.storage store.now) roots.new.roots)) }
    ensures limit { roots.new.limit ≡ roots.old.limit }
{
    let at = reference_at(roots, 0);
    let is = at != 0 && program.instance(store.kind(at), kind);
    give_for_one(roots, Value::Int(i32::from(is)));
}

/// The object on the stack of the topmost frame becomes the pending exception: `athrow` (JVMS §6.5). An error is the site of the exception
/// of the machine that is thrown in its place; then nothing has changed.
#[inline(always)]
pub fn throw_object<S: Store>(store: &S, roots: &mut Roots) -> Result<(), u32>
    requires there { is_some (behind_throw (view_in (S.storage store.now) roots.old.roots)) ≡ true }
    ensures behind { behind_throw (view_in (S.storage store.now) roots.old.roots)
        ≡ Some (left_by result (view_in (S.storage store.now) roots.new.roots)) }
    ensures same { OnErr result (roots.new ≡ roots.old) }
    ensures limit { roots.new.limit ≡ roots.old.limit }
{
    let at = reference_at(roots, 0);
    if at == 0 {
        return Err(NULL_POINTER);
    }
    roots.set_pending(at);
    Ok(())
}

/// Whether a reference fits the elements of an array (JVMS §6.5 aastore).
pub fn fits<S: Store>(program: &Program, store: &S, array: u64, to: u64) -> bool
    requires array { IsTrue (is_kept (S.storage store.now).kept (serial_of (S.storage store.now).index array)) }
    requires held { IsTrue (is_held (S.storage store.now).kept (serial_of (S.storage store.now).index to)) }
    requires kinds { (serial : ℕ) (object : Object) → object_in (S.storage store.now).kept serial
        ≡ Some object → object.kind < length program.now.kinds }
    ensures { option_map (λ object. fits_serial program.now (S.storage store.now).kept
        (element_of program.now object.kind) (serial_of (S.storage store.now).index to))
        (object_in (S.storage store.now).kept (serial_of (S.storage store.now).index array)) ≡ Some result }
{
    if to == 0 {
        return true;
    }
    match program.element(store.kind(array)) {
        Some(Basic::Reference(kind)) => program.instance(store.kind(to), kind),
        _ => false,
    }
}
