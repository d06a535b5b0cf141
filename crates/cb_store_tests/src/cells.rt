// A store of four cells, of which those are emptied that nothing reaches.
ghost use Rattle.std.specs.Prelude.{◌≡◌, ◌+◌, ◌<◌, ◌≤◌, ◌^◌, ◌++◌, ◌∷◌, ℕ, Bool, true, false, [], length, pos, pred, refl, is_some, IfSome, IsTrue, Some};
ghost use Rattle.std.specs.Int.{int_wrap, w64};
ghost use Rattle.std.specs.List.{list_all};
ghost use Rattle.cb_plain.specs.State.{Number, Reference};
ghost use Rattle.cb_plain.specs.Updates.{object_in};
ghost use Rattle.cb_frames.specs.Entries.{entries};
ghost use Rattle.cb_store_tests.specs.FourCells.{cell_rules, cell_rules_are_bounded, cell_shapes, cells_asked, entry_of, every_site, fits, lowered, object_of};
ghost use Rattle.cb_store_tests.specs.Marks.{IsAny, IsBehind, IsMarked, IsNamed, IsNext, IsUnmarked};
ghost use Rattle.cb_heap.specs.Closed.{Collects, IsClosed, references_in, references_in_entry};
ghost use Rattle.cb_heap.specs.Grants.{IsBounded};
ghost use Rattle.cb_heap.specs.Kept.{content_at, is_held, is_kept, is_number, is_reference, keep, residents, with_content};
ghost use Rattle.cb_heap.specs.Reading.{seen, serial_of};
ghost use Rattle.cb_heap.specs.Taking.{IsTaken};

mod held;

use crate::cell::Cell;
use cb_frames::Roots;
use cb_heap::{NoRoom, Store};
use cb_plain::{Request, Want};
pub(crate) use held::{holds, is_closed};
use std::marker::Model;

/// Four cells, filled from the first on. The place of an object is its serial.
#[derive(Drop)]
pub struct CellStore {
    cells: [Cell; 4],
    count: usize,
    want: Want,
}

impl Model for CellStore {
    ghost use Rattle.std.specs.Prelude.{◌≡◌, ◌+◌, ◌≤◌, ◌/◌, [], ◌∷◌, length, map, take};
    ghost use Rattle.cb_store_tests.specs.FourCells.{Held, entry_of};

    ghost Value = { Held };

    ghost view = { λ store. record { objects = map entry_of (take store.count store.cells); granted = store.want ∷ [] } };

    ghost invariant = { λ store. (store.count ≤ 4) × (length store.cells ≡ 4) × (store.count + store.want.words / 4 ≤ 4) };
}

impl CellStore {
    pub fn new() -> CellStore
        ensures { result.objects ≡ [] }
    {
        let empty = Cell {
            kept: false,
            site: 0,
            linked: false,
            word: 0,
        };
        CellStore {
            cells: [empty; 4],
            count: 0,
            want: Want { site: 0, words: 0 },
        }
    }

    /// The cell of an object.
    fn cell(&self, at: u64) -> Cell
        requires { IsTrue (is_kept self.now.objects at) }
        ensures { object_in self.now.objects at ≡ Some (object_of result) }
    {
        let cells = &self.cells;
        cells[at as usize - 1]
    }

    /// Puts another word into the cell of an object.
    fn set_word(&mut self, at: u64, i: u32, word: u64)
        requires { IsTrue (is_some (content_at self.old.objects at i)) }
        ensures number { IsTrue (is_number (content_at self.old.objects at i)) → self.new.objects ≡ with_content self.old.objects at i (Number (int_wrap w64 (pos word))) }
        ensures reference { IsTrue (is_reference (content_at self.old.objects at i)) → self.new.objects ≡ with_content self.old.objects at i (Reference word) }
        ensures granted { self.new.granted ≡ self.old.granted }
    {
        let _i = i;
        let cells = &mut self.cells;
        cells[at as usize - 1].word = word;
    }

    /// The place of an object that isn't marked and that a marked one refers to, where there is any.
    fn behind(&self, marked: &[bool; 4]) -> Option<usize>
        ensures { IsAny (IsBehind self.now.objects marked.now) result }
    {
        let cells = &self.cells;
        for i in 0..self.count {
            if marked[i] {
                if let Some(place) = unmarked(marked, cells[i].referent()) {
                    return Some(place);
                }
            }
        }
        None
    }

    /// The place of an object that is to be marked next, where there is any.
    fn next(&self, roots: &Roots, marked: &[bool; 4]) -> Option<usize>
        ensures { IsAny (IsNext (seen pred self.now.objects roots.now.roots) marked.now) result }
    {
        match named(roots, marked) {
            Some(place) => Some(place),
            None => self.behind(marked),
        }
    }

    /// Marks what is reached.
    fn mark(&self, roots: &Roots) -> [bool; 4]
        ensures { IsMarked (seen pred self.now.objects roots.now.roots) result }
    {
        let mut marked = [false; 4];
        while let Some(place) = self.next(roots, &marked) {
            marked[place] = true;
        }
        marked
    }

    /// The same store without the objects that aren't marked.
    fn only(&self, marked: &[bool; 4]) -> CellStore
        ensures objects { result.objects ≡ keep marked.now self.now.objects }
        ensures granted { result.granted ≡ self.now.granted }
        ensures few { length self.now.objects ≤ length marked.now }
    {
        let cells = &self.cells;
        CellStore {
            cells: [
                lower(&cells[0], marked[0]),
                lower(&cells[1], marked[1]),
                lower(&cells[2], marked[2]),
                lower(&cells[3], marked[3]),
            ],
            count: self.count,
            want: self.want,
        }
    }

    /// Empties the cells that nothing reaches.
    fn collect(&mut self, roots: &Roots)
        requires { IsClosed (seen pred self.old.objects roots.now.roots) }
        ensures taken { IsTaken every_site (seen pred self.old.objects roots.now.roots) (residents self.new.objects) }
        ensures collected { Collects (seen pred self.old.objects roots.now.roots) (seen pred self.new.objects roots.now.roots) }
        ensures granted { self.new.granted ≡ self.old.granted }
    {
        let marked = self.mark(roots);
        *self = self.only(&marked);
    }

    /// Grants what is asked for, where that is for one site and there are cells for it.
    fn grant(&mut self, request: &Request) -> bool
        ensures told { result ≡ fits (length self.old.objects) request.now }
        ensures objects { self.new.objects ≡ self.old.objects }
        ensures granted { IsTrue result → self.new.granted ≡ request.now }
        ensures refused { result ≡ false → self.new.granted ≡ self.old.granted }
        ensures bounded { IsTrue result → IsBounded true (length self.new.objects) request.now }
    {
        if request.len() != 1 {
            return false;
        }
        let want = request.at(0);
        if self.count as u64 + want.words / 4 > 4 {
            return false;
        }
        self.want = want;
        true
    }
}

/// A request for several sites is refused, and so is one for more cells than are left.
impl Store for CellStore {
    ghost Facts = { Unit {0} };

    ghost rules = { cell_rules };

    ghost storage = { λ store. record {
      kept = store.objects;
      index = pred;
      facts = tt;
      granted = store.granted;
      faults = 0;
      settings = record { shapes = cell_shapes; knows = λ site. true; allows = λ one other. true };
    } };

    ghost FIXED = { true };

    const FIXED: bool = true;

    ghost tells_fixed = { refl };

    ghost bounded = { cell_rules_are_bounded };

    fn make_room(&mut self, request: &Request, roots: &mut Roots) -> Result<(), NoRoom> {
        self.collect(roots);
        if self.grant(request) {
            return Ok(());
        }
        Err(NoRoom::Full {
            live: self.count as u64,
            asked: cells_asked(request),
            limit: 4,
        })
    }

    fn collect_all(&mut self, roots: &mut Roots) -> Result<(), NoRoom> {
        self.collect(roots);
        Ok(())
    }

    fn place(&mut self, site: u32, kind: u32, size: u32) -> u64 {
        self.want.words -= 3 + size as u64;
        self.cells[self.count] = Cell {
            kept: true,
            site,
            linked: kind == 1,
            word: 0,
        };
        self.count += 1;
        self.count as u64
    }

    fn kind(&self, at: u64) -> u32 {
        if self.cell(at).linked { 1 } else { 0 }
    }

    fn length(&self, at: u64) -> u32 {
        let _cell = self.cell(at);
        1
    }

    fn site(&self, at: u64) -> u32 {
        self.cell(at).site
    }

    fn serial(&self, at: u64) -> u64 {
        at
    }

    fn get(&self, at: u64, i: u32) -> u64 {
        let _i = i;
        self.cell(at).word
    }

    fn put(&mut self, at: u64, i: u32, word: u64) {
        self.set_word(at, i, word);
    }

    fn get_ref(&self, at: u64, i: u32) -> u64 {
        let _i = i;
        self.cell(at).word
    }

    fn put_ref(&mut self, at: u64, i: u32, to: u64) {
        self.set_word(at, i, to);
    }
}

/// How many cells are asked for.
fn cells_asked(request: &Request) -> u64
    ensures { result ≡ cells_asked request.now }
{
    let mut cells: u64 = 0;
    for i in 0..request.len() {
        cells = cells.saturating_add(request.at(i).words / 4);
    }
    cells
}

/// The place of what a reference names, where that isn't marked.
fn unmarked(marked: &[bool; 4], to: u64) -> Option<usize>
    ensures { IsAny (IsUnmarked marked.now to) result }
{
    if to == 0 || to > 4 {
        return None;
    }
    let place = to as usize - 1;
    if marked[place] { None } else { Some(place) }
}

/// The place of an object that isn't marked and that a root names, where there is any.
fn named(roots: &Roots, marked: &[bool; 4]) -> Option<usize>
    ensures { IsAny (IsNamed roots.now.roots marked.now) result }
{
    for i in 0..roots.reference_count() {
        if let Some(place) = unmarked(marked, roots.reference(i)) {
            return Some(place);
        }
    }
    None
}

/// A cell, which is emptied unless it stays.
fn lower(cell: &Cell, stays: bool) -> Cell
    ensures { result ≡ lowered stays cell.now }
{
    Cell {
        kept: cell.kept && stays,
        ..*cell
    }
}
