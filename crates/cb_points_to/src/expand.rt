// What an inclusion says of a site of each of its bases.
ghost use Rattle.std.specs.Prelude.{◌≡◌, ℕ, List, None, Some, length, slice_get, OnOk};
ghost use Rattle.cb_points_to.specs.Inclusions.{System};
ghost use Rattle.cb_points_to.specs.Made.{IsInclusion};
ghost use Rattle.cb_points_to.specs.Says.{Enters, MustHave, MustLink, Says, first_base as first_of, second_base as second_of};
ghost use Rattle.cb_points_to.specs.Webs.{Entering, Expands, Holding, IsWeb, Joining, Passing};

use crate::constraints::Constraints;
use crate::inclusion::Inclusion;
use crate::lists::Lists;
use crate::member::{Edge, Member};
use crate::tables::Callee;
use crate::web::Web;
use cb_plain::{Numbers, OutOfMemory};

/// The node by whose sites an inclusion is looked at, if there is one.
pub(crate) fn first_base(inclusion: &Inclusion) -> Option<u32>
    ensures { result ≡ first_of inclusion.now }
{
    match inclusion {
        Inclusion::Has { .. } | Inclusion::Copy { .. } | Inclusion::Through { .. } => None,
        Inclusion::HasEach { base, .. }
        | Inclusion::Load { base, .. }
        | Inclusion::Store { base, .. } => Some(*base),
        Inclusion::Between { source, .. } => Some(*source),
        Inclusion::Call { receiver, .. } => Some(*receiver),
    }
}

/// The other node by whose sites it is looked at, if there is one.
pub(crate) fn second_base(inclusion: &Inclusion) -> Option<u32>
    ensures { result ≡ second_of inclusion.now }
{
    match inclusion {
        Inclusion::Between { target, .. } => Some(*target),
        _ => None,
    }
}

/// Lets the relation have what an inclusion says of a site of its first base and one of its second, 0 where it has none.
pub(crate) fn expand(
    web: &mut Web,
    constraints: &Constraints,
    looked: &Lists<u32>,
    inclusion: &Inclusion,
    own: u32,
    other: u32,
) -> Result<(), OutOfMemory>
    requires web { IsWeb constraints.now looked.now web.old }
    requires named { IsInclusion constraints.now inclusion.now }
    requires says { Says constraints.now (MustHave constraints.now) (MustLink constraints.now) inclusion.now own other }
    ensures { OnOk result (Expands constraints.now looked.now web.old web.new inclusion.now own other) }
{
    match inclusion {
        Inclusion::Has { node, site } => {
            return hold(web, Some(*node), *site);
        }
        Inclusion::HasEach { slots, site, .. } => {
            let slot = constraints.slot(*slots, own);
            return hold(web, slot, *site);
        }
        Inclusion::Copy { from, to } => {
            return join(web, constraints, looked, Some(*from), Some(*to));
        }
        Inclusion::Through { from, to, filter } => {
            let edge = Edge {
                to: *to,
                filter: Some(*filter),
            };
            return web.add_edge(constraints, looked, *from, edge);
        }
        Inclusion::Load { slots, to, .. } => {
            let slot = constraints.slot(*slots, own);
            return join(web, constraints, looked, slot, Some(*to));
        }
        Inclusion::Store { from, slots, .. } => {
            let slot = constraints.slot(*slots, own);
            return join(web, constraints, looked, Some(*from), slot);
        }
        Inclusion::Between { slots, .. } => {
            let slot = constraints.slot(*slots, own);
            let behind = constraints.slot(*slots, other);
            return join(web, constraints, looked, slot, behind);
        }
        Inclusion::Call {
            calls,
            arguments,
            result,
            ..
        } => {
            return match constraints.callee(*calls, own) {
                Some(callee) => enter(web, constraints, looked, own, arguments, *result, callee),
                None => Ok(()),
            };
        }
    }
}

/// Lets a node, if there is one, have a site.
fn hold(web: &mut Web, node: Option<u32>, site: u32) -> Result<(), OutOfMemory>
    requires { (system : System) × (looked : List (List ℕ)) × IsWeb system looked web.old × ((at : ℕ) → node ≡ Some at → MustHave system at site) }
    ensures { (system : System) → (looked : List (List ℕ)) → IsWeb system looked web.old → ((at : ℕ) → node ≡ Some at → MustHave system at site)
        → OnOk result (Holding system looked web.old web.new node site) }
{
    match node {
        Some(node) => web.add(Member { node, site }),
        None => Ok(()),
    }
}

/// Lets all sites of a node be in another one, if there are both.
fn join(
    web: &mut Web,
    constraints: &Constraints,
    looked: &Lists<u32>,
    from: Option<u32>,
    to: Option<u32>,
) -> Result<(), OutOfMemory>
    requires web { IsWeb constraints.now looked.now web.old }
    requires links { (a b : ℕ) → from ≡ Some a → to ≡ Some b → MustLink constraints.now a b None }
    ensures { OnOk result (Joining constraints.now looked.now web.old web.new from to) }
{
    if let (Some(from), Some(to)) = (from, to) {
        return web.add_edge(constraints, looked, from, Edge { to, filter: None });
    }
    Ok(())
}

/// Lets a receiver of a site enter its callee.
fn enter(
    web: &mut Web,
    constraints: &Constraints,
    looked: &Lists<u32>,
    own: u32,
    arguments: &Numbers,
    outcome: Option<u32>,
    callee: &Callee,
) -> Result<(), OutOfMemory>
    requires web { IsWeb constraints.now looked.now web.old }
    requires enters { Enters (MustHave constraints.now) (MustLink constraints.now) own arguments.now outcome callee.now }
    ensures { OnOk result (Entering constraints.now looked.now web.old web.new own arguments.now outcome callee.now) }
{
    hold(web, Some(callee.receiver), own)?;
    join(web, constraints, looked, callee.result, outcome)?;
    pass_arguments(web, constraints, looked, arguments, &callee.arguments)
}

/// Lets all sites of each argument be in the callee's argument of the same position.
fn pass_arguments(
    web: &mut Web,
    constraints: &Constraints,
    looked: &Lists<u32>,
    given: &Numbers,
    taken: &Numbers,
) -> Result<(), OutOfMemory>
    requires web { IsWeb constraints.now looked.now web.old }
    requires links { (i from to : ℕ) → slice_get given.now i ≡ Some from → slice_get taken.now i ≡ Some to → MustLink constraints.now from to None }
    ensures { OnOk result (Passing constraints.now looked.now web.old web.new given.now taken.now (length given.now)) }
{
    for at in 0..given.len() {
        if at < taken.len() {
            let edge = Edge {
                to: *taken.get(at),
                filter: None,
            };
            web.add_edge(constraints, looked, *given.get(at), edge)?;
        }
    }
    Ok(())
}
