// References that are compared.
ghost use Rattle.cb_heap.specs.Storage.{view_in};
ghost use Rattle.std.specs.Prelude.{◌≡◌, is_some, true, IsTrue, Some};
ghost use Rattle.cb_frames.specs.Tops.{top_stack};
ghost use Rattle.cb_heap.specs.Kept.{is_held};
ghost use Rattle.cb_heap.specs.Reading.{read_roots, seen, serial_of};
ghost use Rattle.cb_shapes.specs.declared.test.Condition.TheVariants as conditions;
ghost use Rattle.cb_act.specs.Effects.{behind_test, tested_on, told};
ghost use Rattle.cb_act.specs.Objects.{object_on};

use crate::operands::{reference_at, take_two};
use cb_frames::Roots;
use cb_heap::Store;

/// Takes two references from the stack of the topmost frame, and says whether they are one, or aren't: `if_acmpeq`, `if_acmpne`
/// (JVMS §6.5).
pub fn test_references<S: Store>(store: &S, roots: &mut Roots, are: bool) -> bool
    requires there { is_some (tested_on (conditions.AreSame are) (top_stack (read_roots
        (S.storage store.now).index roots.old.roots))) ≡ true }
    requires first { IsTrue (is_held (S.storage store.now).kept (object_on (view_in (S.storage store.now) roots.old.roots) 0)) }
    requires second { IsTrue (is_held (S.storage store.now).kept (object_on (view_in (S.storage store.now) roots.old.roots) 1)) }
    ensures behind { behind_test (conditions.AreSame are) (read_roots
        (S.storage store.now).index roots.old.roots)
        ≡ Some (read_roots (S.storage store.now).index roots.new.roots) }
    ensures limit { roots.new.limit ≡ roots.old.limit }
    ensures told { told (conditions.AreSame are) (read_roots (S.storage store.now).index roots.old.roots)
        ≡ Some result }
{
    let b = reference_at(roots, 0);
    let a = reference_at(roots, 1);
    take_two(roots);
    (serial_at(store, a) == serial_at(store, b)) == are
}

/// The serial of an object, or 0 for null.
fn serial_at<S: Store>(store: &S, at: u64) -> u64
    requires { IsTrue (is_held (S.storage store.now).kept (serial_of (S.storage store.now).index at)) }
    ensures { result ≡ serial_of (S.storage store.now).index at }
{
    if at == 0 { 0 } else { store.serial(at) }
}
