// A collection of a heap whose objects are all named.
ghost use Rattle.std.specs.Prelude.{◌≡◌, ◌<◌, ◌⊎◌, ℕ, true, length, IsTrue};
ghost use Rattle.std.specs.List.{Contains};
ghost use Rattle.cb_dag.specs.Graphs.{HasEdge};
ghost use Rattle.cb_dag.specs.Marks.{marked};
ghost use Rattle.cb_partheap.specs.Marks.{IsUnmarked};
ghost use Rattle.cb_partheap_tests.specs.Tried.{AllKept};
ghost use Rattle.cb_collection_cases.specs.Collected.{AreNamed, MayCollect};

use cb_dag::Grid;
use cb_frames::Roots;
use cb_partheap::PartHeap;
use cb_partheap_tests::Tried;
use cb_plain::{Set, Steps};
use cb_slide::slide;
use cb_trace::mark;
use std::marker::Brand;
use std::sync::ledger::{Blank, Ledger};

/// Whether an edge leads from one part to another that a set has.
fn is_edge_in(edges: &Grid, set: &Set, part: u32, other: u32) -> bool
    requires part { part < length edges.now }
    requires other { other < length edges.now }
    requires set { length set.now ≡ length edges.now }
    ensures { result ≡ true ⊎ (HasEdge edges.now part other → marked set.now other ≡ true → ⊥) }
{
    if set.has(other) {
        return edges.has(part, other);
    }
    false
}

/// Whether an edge leads from a part into a set.
fn leads_in(edges: &Grid, set: &Set, part: u32) -> bool
    requires part { part < length edges.now }
    requires set { length set.now ≡ length edges.now }
    ensures { result ≡ true ⊎ ((other : ℕ) → HasEdge edges.now part other → marked set.now other ≡ true → ⊥) }
{
    for other in 0..set.parts() {
        if is_edge_in(edges, set, part, other) {
            return true;
        }
    }
    false
}

/// Whether a set has a part, or no edge leads from there into it.
fn has_before(edges: &Grid, set: &Set, part: u32) -> bool
    requires part { part < length edges.now }
    requires set { length set.now ≡ length edges.now }
    ensures { IsTrue result → (other : ℕ) → HasEdge edges.now part other → marked set.now other ≡ true → marked set.now part ≡ true }
{
    if set.has(part) {
        return true;
    }
    !leads_in(edges, set, part)
}

/// Whether a set has with each part those from which edges lead there.
fn is_closed_set(edges: &Grid, set: &Set) -> bool
    requires { length set.now ≡ length edges.now }
    ensures { IsTrue result → (part other : ℕ) → HasEdge edges.now part other → marked set.now other ≡ true → marked set.now part ≡ true }
{
    for part in 0..edges.nodes() {
        if !has_before(edges, set, part) {
            return false;
        }
    }
    true
}

/// Whether a place is among these.
fn has_place(places: &[u64], at: u64) -> bool
    ensures { IsTrue result → Contains places.now at }
{
    for place in places {
        if *place == at {
            return true;
        }
    }
    false
}

/// Whether a place is null or among these.
fn is_named(places: &[u64], at: u64) -> bool
    ensures { IsTrue result → (at ≡ 0) ⊎ Contains places.now at }
{
    if at == 0 {
        return true;
    }
    has_place(places, at)
}

/// Whether each root refers to nothing or to one of these places.
fn are_named(roots: &Roots, places: &[u64]) -> bool
    ensures { IsTrue result → AreNamed roots.now.roots places.now }
{
    for i in 0..roots.reference_count() {
        if !is_named(places, roots.reference(i)) {
            return false;
        }
    }
    true
}

/// Whether a set of parts can be collected from roots: it has with each part those from which edges lead there, and the roots refer to objects.
fn may_collect(tried: &Tried, roots: &Roots, set: &Set) -> bool
    requires kept { AllKept tried.now.heap tried.now.places.items }
    requires unmarked { IsUnmarked tried.now.heap }
    ensures { IsTrue result → MayCollect tried.now.heap roots.now.roots set.now }
{
    tried.heap.is_whole();
    let nodes = tried.heap.edges.nodes();
    let parts = tried.heap.parts();
    if nodes != parts {
        return false;
    }
    if set.parts() != nodes {
        return false;
    }
    if !is_closed_set(&tried.heap.edges, set) {
        return false;
    }
    are_named(roots, tried.places.as_slice())
}

/// Marks a set of parts, and slides it.
fn mark_and_slide<L: Ledger>(heap: &mut PartHeap, roots: &mut Roots, set: &Set, blank: Blank)
    requires name { blank.name ≡ L.name }
    requires parts { blank.parts ≡ L.parts }
    requires some { 0 < blank.parts }
    requires may { MayCollect heap.old roots.old.roots set.now }
{
    let mut steps: Steps<L> = Steps::from_blank(blank);
    mark(heap, roots, set, &mut steps);
    slide(heap, roots, set, &mut steps);
}

/// Marks a set of parts.
fn mark_only<L: Ledger>(heap: &mut PartHeap, roots: &Roots, set: &Set, blank: Blank)
    requires name { blank.name ≡ L.name }
    requires parts { blank.parts ≡ L.parts }
    requires some { 0 < blank.parts }
    requires may { MayCollect heap.old roots.now.roots set.now }
{
    let mut steps: Steps<L> = Steps::from_blank(blank);
    mark(heap, roots, set, &mut steps);
}

/// Marks a set of parts and, where that is asked for, slides it. Tells whether that may be done; else it does nothing.
pub(crate) fn collect(tried: &mut Tried, roots: &mut Roots, set: &Set, slides: bool) -> bool
    requires kept { AllKept tried.old.heap tried.old.places.items }
    requires unmarked { IsUnmarked tried.old.heap }
{
    if !may_collect(tried, roots, set) {
        return false;
    }
    if slides {
        mark_and_slide::<Brand>(&mut tried.heap, roots, set, Blank::new(1));
    } else {
        mark_only::<Brand>(&mut tried.heap, roots, set, Blank::new(1));
    }
    true
}
