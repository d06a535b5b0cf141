// That code over any store is proved from its clauses alone.
ghost use Rattle.cb_heap.specs.Storage.{view_in};
ghost use Rattle.std.specs.Prelude.{◌≡◌, ◌+◌, ◌<◌, ◌^◌, ℕ, Bool, true, [], ◌∷◌, length, IfOk, IsTrue};
ghost use Rattle.cb_plain.specs.State.{Reference};
ghost use Rattle.cb_heap.specs.Closed.{IsClosed};
ghost use Rattle.cb_heap.specs.Reading.{seen};
ghost use Rattle.cb_heap.specs.Shaped.{has_size, new_object};

use cb_frames::Roots;
use cb_heap::{NoRoom, Store};
use cb_plain::Request;

/// Places two objects of one reference each, links the first to the second, collects, and reads the second's serial back from the first.
pub fn linked<S: Store>(
    store: &mut S,
    roots: &mut Roots,
    request: &mut Request,
) -> Result<u64, NoRoom>
    requires closed { IsClosed (view_in (S.storage store.old) roots.old.roots) }
    requires sized { IsTrue (has_size (S.storage store.old).settings.shapes 1 1) }
    requires blank { (new_object (S.storage store.old).settings.shapes 0 1 1).contents ≡ Reference 0 ∷ [] }
    requires serials { length (S.storage store.old).kept + 3 < 2 ^ 63 }
    requires knows { (S.storage store.old).settings.knows 0 ≡ true }
    requires allows { (one other : ℕ) → (S.storage store.old).settings.allows one other ≡ true }
    ensures { IfOk result (λ serial. serial ≡ length (S.storage store.old).kept + 2) }
{
    request.clear();
    request.add(0, 8);
    store.make_room(request, roots)?;
    let one = store.place(0, 1, 1);
    let other = store.place(0, 1, 1);
    store.put_ref(one, 0, other);
    roots.set_pending(one);
    store.collect_all(roots)?;
    let back = store.get_ref(roots.pending(), 0);
    Ok(store.serial(back))
}
