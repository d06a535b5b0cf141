// The first search through a graph: its nodes in the order in which they are left.
ghost use Rattle.std.specs.Prelude.{◌≡◌, ◌<◌, ◌≤◌, true, false, ℕ, [], length, slice_index, IfOk, OnOk};
ghost use Rattle.cb_dag.specs.Graphs.{HasEdge};
ghost use Rattle.cb_dag.specs.Marks.{IsTop, IsUnseen, marked};
ghost use Rattle.cb_dag.specs.Search.{IsFinishing, IsSearch, is_in, steps_left};

use crate::Grid;
use crate::stack::Stack;
use cb_plain::OutOfMemory;
use std::alloc::Global;

/// A search that goes on from a node to one that it wasn't at, as long as there is one, and else back: the nodes that it was at; for each the
/// first one of those that it can still go on to; the nodes that it came along; and those that it left.
#[derive(Drop)]
struct Search {
    seen: Vec<bool>,
    cursors: Vec<u32>,
    trail: Stack,
    left: Stack,
}

/// All nodes of a graph as a search leaves them, the one that is left last in front: what leads to a node is in one part with it, or with one that
/// is left after it. Takes time in the nodes, the edges, and the marks of the grid over 64. `OutOfMemory` where memory was not to be had.
pub(crate) fn nodes_left(alloc: Global, grid: &Grid) -> Result<Stack, OutOfMemory>
    ensures finishing { IfOk result (IsFinishing (HasEdge grid.now) (length grid.now)) }
    ensures all { IfOk result (λ left. (node : ℕ) → node < length grid.now → is_in node left ≡ true) }
    ensures nodes { IfOk result (λ left. (node : ℕ) → is_in node left ≡ true → node < length grid.now) }
{
    let nodes = grid.nodes();
    let mut search = Search {
        seen: vec![in alloc; false; nodes as usize]?,
        cursors: vec![in alloc; 0_u32; nodes as usize]?,
        trail: Stack::new(alloc),
        left: Stack::new(alloc),
    };
    for root in 0..nodes {
        search.go_from(grid, root)?;
    }
    Ok(search.left)
}

impl Search {
    /// Goes from a node as far as it can, if it wasn't there, and back.
    fn go_from(&mut self, grid: &Grid, root: u32) -> Result<(), OutOfMemory>
        requires before { IsSearch grid.now self.old.seen.items self.old.cursors.items self.old.trail self.old.left }
        requires at_start { self.old.trail ≡ [] }
        requires within { root < length grid.now }
        ensures search { OnOk result (IsSearch grid.now self.new.seen.items self.new.cursors.items self.new.trail self.new.left) }
        ensures at_end { OnOk result (self.new.trail ≡ []) }
        ensures seen { OnOk result (marked self.new.seen.items root ≡ true) }
        ensures kept { OnOk result ((node : ℕ) → marked self.old.seen.items node ≡ true → marked self.new.seen.items node ≡ true) }
    {
        if self.seen[root as usize] {
            return Ok(());
        }
        self.enter(grid, root)?;
        while let Some(node) = self.trail.top() {
            self.step(grid, node)?;
        }
        Ok(())
    }

    /// Enters a node that wasn't seen, at the start of a trail.
    fn enter(&mut self, grid: &Grid, node: u32) -> Result<(), OutOfMemory>
        requires before { IsSearch grid.now self.old.seen.items self.old.cursors.items self.old.trail self.old.left }
        requires at_start { self.old.trail ≡ [] }
        requires within { node < length grid.now }
        requires unseen { marked self.old.seen.items node ≡ false }
        ensures search { OnOk result (IsSearch grid.now self.new.seen.items self.new.cursors.items self.new.trail self.new.left) }
        ensures seen { OnOk result (marked self.new.seen.items node ≡ true) }
        ensures kept { OnOk result ((other : ℕ) → marked self.old.seen.items other ≡ true → marked self.new.seen.items other ≡ true) }
    {
        let _grid = grid.nodes();
        self.seen[node as usize] = true;
        self.cursors[node as usize] = 0;
        self.trail.push(node)?;
        Ok(())
    }

    /// Goes on from the last node of the trail, or leaves it.
    fn step(&mut self, grid: &Grid, node: u32) -> Result<(), OutOfMemory>
        requires before { IsSearch grid.now self.old.seen.items self.old.cursors.items self.old.trail self.old.left }
        requires top { IsTop self.old.trail node }
        ensures search { OnOk result (IsSearch grid.now self.new.seen.items self.new.cursors.items self.new.trail self.new.left) }
        ensures kept { OnOk result ((other : ℕ) → marked self.old.seen.items other ≡ true → marked self.new.seen.items other ≡ true) }
        ensures less { OnOk result (steps_left self.new.seen.items self.new.trail < steps_left self.old.seen.items self.old.trail) }
    {
        match self.next_unseen(grid, node) {
            Some(next) => self.go_on(grid, node, next),
            None => self.go_back(grid, node),
        }
    }

    /// Goes on from the last node of the trail to one that wasn't seen.
    fn go_on(&mut self, grid: &Grid, node: u32, next: u32) -> Result<(), OutOfMemory>
        requires before { IsSearch grid.now self.old.seen.items self.old.cursors.items self.old.trail self.old.left }
        requires top { IsTop self.old.trail node }
        requires within { node < length grid.now }
        requires unseen { IsUnseen grid.now self.old.seen.items node (slice_index self.old.cursors.items node) (Some next) }
        ensures search { OnOk result (IsSearch grid.now self.new.seen.items self.new.cursors.items self.new.trail self.new.left) }
        ensures kept { OnOk result ((other : ℕ) → marked self.old.seen.items other ≡ true → marked self.new.seen.items other ≡ true) }
        ensures less { OnOk result (steps_left self.new.seen.items self.new.trail < steps_left self.old.seen.items self.old.trail) }
    {
        let _nodes = grid.nodes();
        self.cursors[node as usize] = next + 1;
        self.seen[next as usize] = true;
        self.cursors[next as usize] = 0;
        self.trail.push(next)?;
        Ok(())
    }

    /// Leaves the last node of the trail.
    fn go_back(&mut self, grid: &Grid, node: u32) -> Result<(), OutOfMemory>
        requires before { IsSearch grid.now self.old.seen.items self.old.cursors.items self.old.trail self.old.left }
        requires top { IsTop self.old.trail node }
        requires unseen { IsUnseen grid.now self.old.seen.items node (slice_index self.old.cursors.items node) None }
        ensures search { OnOk result (IsSearch grid.now self.new.seen.items self.new.cursors.items self.new.trail self.new.left) }
        ensures kept { OnOk result ((other : ℕ) → marked self.old.seen.items other ≡ true → marked self.new.seen.items other ≡ true) }
        ensures less { OnOk result (steps_left self.new.seen.items self.new.trail < steps_left self.old.seen.items self.old.trail) }
    {
        let _grid = grid.nodes();
        let _ = self.trail.pop();
        self.left.push(node)?;
        Ok(())
    }

    /// The next node that wasn't seen to which an edge leads from one, if there is any.
    fn next_unseen(&self, grid: &Grid, node: u32) -> Option<u32>
        requires within { node < length grid.now }
        requires seen { length self.now.seen.items ≡ length grid.now }
        requires cursors { length self.now.cursors.items ≡ length grid.now }
        ensures { IsUnseen grid.now self.now.seen.items node (slice_index self.now.cursors.items node) result }
    {
        let _nodes = grid.nodes();
        let mut from = self.cursors[node as usize];
        while let Some(next) = grid.next(node, from) {
            if !self.seen[next as usize] {
                return Some(next);
            }
            from = next + 1;
        }
        None
    }
}
