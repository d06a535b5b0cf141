// Whether inclusions and tables name what is there.
ghost use Rattle.std.specs.Prelude.{◌≡◌, ◌<◌, ◌↔◌, ℕ, length, map, slice_index_or, IfSome, IsTrue};
ghost use Rattle.std.specs.List.{All};
ghost use Rattle.cb_points_to.specs.Made.{AreCallees, AreSlots, Ascend, IsCallee, IsInclusion, IsSlot};

use crate::constraints::Constraints;
use crate::inclusion::Inclusion;
use crate::tables::{Callee, Callees, Slot, Slots};
use cb_plain::Numbers;

impl Constraints {
    /// Whether all that an inclusion names is there. Takes time in a call's arguments.
    pub fn fits(&self, inclusion: &Inclusion) -> bool
        ensures { IsTrue result ↔ IsInclusion self.now inclusion.now }
    {
        let nodes = self.nodes();
        match inclusion {
            Inclusion::Has { node, site } => *node < nodes && *site < self.sites(),
            Inclusion::HasEach { base, slots, site } => {
                *base < nodes && (*slots as usize) < self.slot_tables() && *site < self.sites()
            }
            Inclusion::Copy { from, to } => *from < nodes && *to < nodes,
            Inclusion::Through { from, to, filter } => {
                *from < nodes && *to < nodes && (*filter as usize) < self.filters()
            }
            Inclusion::Load { base, slots, to } => {
                *base < nodes && (*slots as usize) < self.slot_tables() && *to < nodes
            }
            Inclusion::Store { from, base, slots } => {
                *from < nodes && *base < nodes && (*slots as usize) < self.slot_tables()
            }
            Inclusion::Between {
                source,
                target,
                slots,
            } => *source < nodes && *target < nodes && (*slots as usize) < self.slot_tables(),
            Inclusion::Call {
                receiver,
                calls,
                arguments,
                result,
            } => {
                *receiver < nodes
                    && (*calls as usize) < self.call_tables()
                    && are_below(arguments, nodes)
                    && is_below(*result, nodes)
            }
        }
    }

    /// Whether slots name what is there, in ascending order of sites. Takes time in their number.
    pub fn fit_slots(&self, slots: &Slots) -> bool
        ensures { IsTrue result ↔ AreSlots self.now slots.now }
    {
        slots.as_slice().iter().all(|slot| self.fits_slot(slot)) && slots_ascend(slots.as_slice())
    }

    /// Whether callees name what is there, in ascending order of sites. Takes time in their number, and in that of their arguments.
    pub fn fit_callees(&self, callees: &Callees) -> bool
        ensures { IsTrue result ↔ AreCallees self.now callees.now }
    {
        callees
            .as_slice()
            .iter()
            .all(|callee| self.fits_callee(callee))
            && callees_ascend(callees.as_slice())
    }

    fn fits_slot(&self, slot: &Slot) -> bool
        ensures { IsTrue result ↔ IsSlot self.now slot.now }
    {
        slot.site < self.sites() && slot.node < self.nodes()
    }

    fn fits_callee(&self, callee: &Callee) -> bool
        ensures { IsTrue result ↔ IsCallee self.now callee.now }
    {
        let nodes = self.nodes();
        callee.site < self.sites()
            && callee.receiver < nodes
            && are_below(&callee.arguments, nodes)
            && is_below(callee.result, nodes)
    }
}

/// Whether all nodes are below a number.
fn are_below(numbers: &Numbers, nodes: u32) -> bool
    ensures { IsTrue result ↔ All (λ node. node < nodes) numbers.now }
{
    numbers.as_slice().iter().all(|node| *node < nodes)
}

/// Whether a node, if there is one, is below a number.
fn is_below(number: Option<u32>, nodes: u32) -> bool
    ensures { IsTrue result ↔ IfSome number (λ node. node < nodes) }
{
    match number {
        Some(node) => node < nodes,
        None => true,
    }
}

/// Whether the sites of slots ascend.
fn slots_ascend(slots: &[Slot]) -> bool
    ensures { IsTrue result ↔ Ascend (map (λ slot. slot.site) slots.now) }
{
    for at in 1..slots.len() {
        if slots[at].site <= slots[at - 1].site {
            return false;
        }
    }
    true
}

/// Whether the sites of callees ascend.
fn callees_ascend(callees: &[Callee]) -> bool
    ensures { IsTrue result ↔ Ascend (map (λ callee. callee.site) callees.now) }
{
    for at in 1..callees.len() {
        if callees[at].site <= callees[at - 1].site {
            return false;
        }
    }
    true
}
