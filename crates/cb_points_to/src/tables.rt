// Tables by site.
ghost use Rattle.std.specs.Prelude.{◌≡◌, map, option_copied};
ghost use Rattle.cb_points_to.specs.Inclusions.{callee_of, slot_of};
ghost use Rattle.cb_points_to.specs.Made.{Ascend};

use cb_plain::{List, Numbers};

/// The node that stands for a field, or for the elements, of a site's objects.
#[derive(Clone, Copy, Debug, Drop)]
pub struct Slot {
    /// The site.
    pub site: u32,
    /// Its node.
    pub node: u32,
}

/// What a call runs for a receiver of a site.
#[derive(Debug, Drop)]
pub struct Callee {
    /// The site of the receiver.
    pub site: u32,
    /// The node in which the callee has its receiver.
    pub receiver: u32,
    /// The nodes in which it has its other arguments that are references, in order.
    pub arguments: Numbers,
    /// The node of its result, if that is a reference.
    pub result: Option<u32>,
}

/// Slots, by site in ascending order.
pub type Slots = List<Slot>;

/// Callees, by site in ascending order.
pub type Callees = List<Callee>;

/// The node of a site, if it is in the table.
pub(crate) fn find_slot(slots: &Slots, site: u32) -> Option<u32>
    requires { Ascend (map (λ slot. slot.site) slots.now) }
    ensures { result ≡ slot_of slots.now site }
{
    let all = slots.as_slice();
    match all.binary_search_by_key(&site, |slot| slot.site) {
        Ok(at) => Some(all[at].node),
        Err(_) => None,
    }
}

/// The callee of a site, if it is in the table.
pub(crate) fn find_callee(callees: &Callees, site: u32) -> Option<&Callee>
    requires { Ascend (map (λ callee. callee.site) callees.now) }
    ensures { option_copied result ≡ callee_of callees.now site }
{
    let all = callees.as_slice();
    match all.binary_search_by_key(&site, |callee| callee.site) {
        Ok(at) => Some(&all[at]),
        Err(_) => None,
    }
}
