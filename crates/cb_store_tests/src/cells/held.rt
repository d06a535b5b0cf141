// Tests of what a store of cells holds, which calls ask for.
ghost use Rattle.std.specs.Prelude.{◌≡◌, pred, IsTrue};
ghost use Rattle.std.specs.List.{list_all};
ghost use Rattle.cb_frames.specs.Entries.{entries};
ghost use Rattle.cb_heap.specs.Closed.{IsClosed, references_in, references_in_entry};
ghost use Rattle.cb_heap.specs.Kept.{content_at, is_held, is_number, is_reference};
ghost use Rattle.cb_heap.specs.Reading.{seen, serial_of};
ghost use Rattle.cb_store_tests.specs.FourCells.{entry_of};

use super::CellStore;
use crate::cell::Cell;
use cb_frames::Roots;

/// Whether a reference is null or names an object that is kept.
pub(crate) fn holds(store: &CellStore, to: u64) -> bool
    ensures { result ≡ is_held store.now.objects to }
{
    if to == 0 {
        return true;
    }
    if to > store.count as u64 {
        return false;
    }
    store.cells[to as usize - 1].kept
}

/// Whether what a cell refers to is held.
fn holds_word(store: &CellStore, cell: &Cell) -> bool
    ensures { IsTrue result → IsTrue (list_all (is_held store.now.objects) (references_in_entry (entry_of cell.now))) }
{
    !cell.kept || !cell.linked || holds(store, cell.word)
}

/// Whether all that cells refer to is held.
fn holds_words(store: &CellStore) -> bool
    ensures { IsTrue result → IsTrue (list_all (is_held store.now.objects) (references_in store.now.objects)) }
{
    let cells = &store.cells;
    for i in 0..store.count {
        if !holds_word(store, &cells[i]) {
            return false;
        }
    }
    true
}

/// Whether all that roots refer to is held.
fn holds_roots(store: &CellStore, roots: &Roots) -> bool
    ensures { IsTrue result → IsTrue (list_all (is_held store.now.objects) (entries roots.now.roots)) }
{
    for i in 0..roots.reference_count() {
        if !holds(store, roots.reference(i)) {
            return false;
        }
    }
    true
}

/// Whether nothing names an object that isn't kept.
pub(crate) fn is_closed(store: &CellStore, roots: &Roots) -> bool
    ensures { IsTrue result → IsClosed (seen pred store.now.objects roots.now.roots) }
{
    holds_roots(store, roots) && holds_words(store)
}

impl CellStore {
    /// Whether an object is kept whose word holds a number.
    pub(crate) fn has_number(&self, at: u64) -> bool
        ensures { IsTrue result → IsTrue (is_number (content_at self.now.objects (serial_of pred at) 0)) }
    {
        at > 0 && holds(self, at) && !self.cell(at).linked
    }

    /// Whether one is kept whose word holds a reference.
    pub(crate) fn has_reference(&self, at: u64) -> bool
        ensures { IsTrue result → IsTrue (is_reference (content_at self.now.objects (serial_of pred at) 0)) }
    {
        at > 0 && holds(self, at) && self.cell(at).linked
    }
}
