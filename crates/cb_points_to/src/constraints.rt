// Constraints of a points-to analysis.
ghost use Rattle.std.specs.Prelude.{◌≡◌, ◌∷◌, ◌++◌, ◌<◌, ℕ, length, IfOk, OnErr, OnOk, None, Some, [], option_copied, slice_get, slice_index_or, slice_set, true, false, replicate};
ghost use Rattle.cb_points_to.specs.Inclusions.{System, callee_in, passes as passes_by, slot_in};
ghost use Rattle.cb_points_to.specs.Made.{AreCallees, AreSlots, IsInclusion, IsSystem, empty_system};

use crate::inclusion::Inclusion;
use crate::tables::{Callee, Callees, Slots, find_callee, find_slot};
use cb_plain::{List, Marks, OutOfMemory, number_of};
use std::alloc::Global;
use std::marker::Model;

/// Nodes and sites, both counted from 0, with inclusions between them.
#[derive(Debug, Drop)]
pub struct Constraints {
    nodes: u32,
    sites: u32,
    owners: List<Option<u32>>,
    statics: Marks,
    filters: List<Marks>,
    slots: List<Slots>,
    calls: List<Callees>,
    inclusions: List<Inclusion>,
}

impl Model for Constraints {
    ghost use Rattle.cb_points_to.specs.Inclusions.{System};
    ghost use Rattle.cb_points_to.specs.Made.{IsSystem};

    ghost Value = { System };

    ghost view = { λ c. record {
      nodes = c.nodes;
      sites = c.sites;
      owners = c.owners;
      statics = c.statics;
      filters = c.filters;
      slots = c.slots;
      calls = c.calls;
      inclusions = c.inclusions;
    } };

    ghost invariant = { λ c. IsSystem (record {
      nodes = c.nodes;
      sites = c.sites;
      owners = c.owners;
      statics = c.statics;
      filters = c.filters;
      slots = c.slots;
      calls = c.calls;
      inclusions = c.inclusions;
    }) };
}

impl Constraints {
    /// So many nodes and sites, without an owner, a static, a table or an inclusion. Takes time and memory in the nodes. `OutOfMemory` where memory
    /// was not to be had.
    pub fn make(alloc: Global, nodes: u32, sites: u32) -> Result<Self, OutOfMemory>
        ensures { IfOk result (λ constraints. constraints ≡ empty_system nodes sites) }
    {
        Ok(Constraints {
            nodes,
            sites,
            owners: no_owners(alloc, nodes)?,
            statics: no_marks(alloc, nodes)?,
            filters: List::new(alloc),
            slots: List::new(alloc),
            calls: List::new(alloc),
            inclusions: List::new(alloc),
        })
    }

    /// How many nodes there are.
    pub fn nodes(&self) -> u32
        ensures nodes { result ≡ self.now.nodes }
        ensures sound { IsSystem self.now }
    {
        let _ = &self.owners;
        self.nodes
    }

    /// How many sites there are.
    pub fn sites(&self) -> u32
        ensures { result ≡ self.now.sites }
    {
        self.sites
    }

    /// Says that a node stands for a field or for the elements of a site's objects.
    pub fn set_owner(&mut self, node: u32, site: u32)
        requires node { node < self.old.nodes }
        requires site { site < self.old.sites }
        ensures { self.new ≡ record self.old { owners = slice_set self.old.owners node (Some site) } }
    {
        self.owners.set(node as usize, Some(site));
    }

    /// Says that a node stands for a static.
    pub fn set_static(&mut self, node: u32)
        requires { node < self.old.nodes }
        ensures { self.new ≡ record self.old { statics = slice_set self.old.statics node true } }
    {
        self.statics.set(node as usize, true);
    }

    /// The site for whose field or elements a node stands, if it does.
    pub fn owner(&self, node: u32) -> Option<u32>
        requires { node < self.now.nodes }
        ensures { slice_get self.now.owners node ≡ Some result }
    {
        *self.owners.get(node as usize)
    }

    /// Whether a node stands for a static.
    pub fn is_static(&self, node: u32) -> bool
        requires { node < self.now.nodes }
        ensures { slice_get self.now.statics node ≡ Some result }
    {
        *self.statics.get(node as usize)
    }

    /// Adds a set of sites, as a mark for each site, and gives its place. A refused growth changes nothing.
    pub fn add_filter(&mut self, filter: Marks) -> Result<u32, OutOfMemory>
        requires { length filter ≡ self.old.sites }
        ensures place { IfOk result (λ place. place ≡ length self.old.filters) }
        ensures added { OnOk result (self.new ≡ record self.old { filters = self.old.filters ++ filter ∷ [] }) }
        ensures refused { OnErr result (self.new ≡ self.old) }
    {
        let place = number_of(self.filters.len())?;
        self.filters.push(filter)?;
        Ok(place)
    }

    /// Adds a table of slots, in ascending order of sites, and gives its place. A refused growth changes nothing.
    pub fn add_slots(&mut self, slots: Slots) -> Result<u32, OutOfMemory>
        requires { AreSlots self.old slots }
        ensures place { IfOk result (λ place. place ≡ length self.old.slots) }
        ensures added { OnOk result (self.new ≡ record self.old { slots = self.old.slots ++ slots ∷ [] }) }
        ensures refused { OnErr result (self.new ≡ self.old) }
    {
        let place = number_of(self.slots.len())?;
        self.slots.push(slots)?;
        Ok(place)
    }

    /// Adds a table of callees, in ascending order of sites, and gives its place. A refused growth changes nothing.
    pub fn add_calls(&mut self, callees: Callees) -> Result<u32, OutOfMemory>
        requires { AreCallees self.old callees }
        ensures place { IfOk result (λ place. place ≡ length self.old.calls) }
        ensures added { OnOk result (self.new ≡ record self.old { calls = self.old.calls ++ callees ∷ [] }) }
        ensures refused { OnErr result (self.new ≡ self.old) }
    {
        let place = number_of(self.calls.len())?;
        self.calls.push(callees)?;
        Ok(place)
    }

    /// Adds an inclusion. A refused growth changes nothing.
    pub fn add(&mut self, inclusion: Inclusion) -> Result<(), OutOfMemory>
        requires { IsInclusion self.old inclusion }
        ensures added { OnOk result (self.new ≡ record self.old { inclusions = self.old.inclusions ++ inclusion ∷ [] }) }
        ensures refused { OnErr result (self.new ≡ self.old) }
    {
        self.inclusions.push(inclusion)
    }

    /// How many sets of sites there are.
    pub fn filters(&self) -> usize
        ensures { result ≡ length self.now.filters }
    {
        self.filters.len()
    }

    /// How many tables of slots there are.
    pub fn slot_tables(&self) -> usize
        ensures { result ≡ length self.now.slots }
    {
        self.slots.len()
    }

    /// How many tables of callees there are.
    pub fn call_tables(&self) -> usize
        ensures { result ≡ length self.now.calls }
    {
        self.calls.len()
    }

    /// How many inclusions there are.
    pub fn inclusion_count(&self) -> usize
        ensures { result ≡ length self.now.inclusions }
    {
        self.inclusions.len()
    }

    /// The inclusion at a place.
    pub fn inclusion(&self, place: usize) -> &Inclusion
        requires { place < length self.now.inclusions }
        ensures { slice_get self.now.inclusions place ≡ Some result.now }
    {
        self.inclusions.get(place)
    }

    /// The node of a site in a table of slots, if it has one there. Takes time in the logarithm of the table's length.
    pub fn slot(&self, slots: u32, site: u32) -> Option<u32>
        requires { slots < length self.now.slots }
        ensures { result ≡ slot_in self.now slots site }
    {
        find_slot(self.slots.get(slots as usize), site)
    }

    /// The callee of a site in a table of callees, if it has one there. Takes time in the logarithm of the table's length.
    pub fn callee(&self, calls: u32, site: u32) -> Option<&Callee>
        requires { calls < length self.now.calls }
        ensures { option_copied result ≡ callee_in self.now calls site }
    {
        find_callee(self.calls.get(calls as usize), site)
    }

    /// Whether a filter lets a site pass.
    pub fn passes(&self, filter: u32, site: u32) -> bool
        requires filter { filter < length self.now.filters }
        requires site { site < self.now.sites }
        ensures { result ≡ passes_by self.now filter site }
    {
        *self.filters.get(filter as usize).get(site as usize)
    }
}

/// No owner, for each of so many nodes.
fn no_owners(alloc: Global, nodes: u32) -> Result<List<Option<u32>>, OutOfMemory>
    ensures { IfOk result (λ owners. owners ≡ replicate nodes None) }
{
    let mut owners = List::with_capacity(alloc, nodes as usize)?;
    for _node in 0..nodes {
        owners.push(None)?;
    }
    Ok(owners)
}

/// No mark, for each of so many nodes.
fn no_marks(alloc: Global, nodes: u32) -> Result<Marks, OutOfMemory>
    ensures { IfOk result (λ marks. marks ≡ replicate nodes false) }
{
    let mut marks = List::with_capacity(alloc, nodes as usize)?;
    for _node in 0..nodes {
        marks.push(false)?;
    }
    Ok(marks)
}
