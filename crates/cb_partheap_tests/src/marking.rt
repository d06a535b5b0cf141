// Marks, put by a crate that opens the heap.
ghost use Rattle.std.specs.Prelude.{◌≡◌, IsTrue};
ghost use Rattle.cb_heap.specs.Kept.{is_kept};
ghost use Rattle.cb_heap.specs.Reading.{serial_of};
ghost use Rattle.cb_partheap.specs.Heaps.{index_in, objects_in};

use cb_partheap::{PartHeap, mark_at, set_mark_at};

/// Marks an object, and tells the mark that it had.
pub fn mark(heap: &mut PartHeap, at: u64) -> u64
    requires { IsTrue (is_kept (objects_in heap.old) (serial_of (index_in heap.old) at)) }
    ensures objects { objects_in heap.new ≡ objects_in heap.old }
    ensures places { index_in heap.new ≡ index_in heap.old }
{
    let had = mark_at(&heap.words, at);
    set_mark_at(&mut heap.words, at, 1);
    had
}
