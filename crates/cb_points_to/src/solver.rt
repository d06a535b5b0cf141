// Least relations.
ghost use Rattle.std.specs.Prelude.{◌≡◌, ℕ, [], length, slice_get, IfOk, OnOk, Some};
ghost use Rattle.std.specs.List.{All};
ghost use Rattle.cb_points_to.specs.Closed.{IsLeast, has};
ghost use Rattle.cb_points_to.specs.Lists.{InRow};
ghost use Rattle.cb_points_to.specs.Looking.{Ends, IsOf, IsSolving, Starts, StartsOne, Watches};
ghost use Rattle.cb_points_to.specs.Webs.{IsWeb};

use crate::constraints::Constraints;
use crate::expand::{expand, first_base};
use crate::inclusion::Inclusion;
use crate::lists::Lists;
use crate::look::look;
use crate::pts::Pts;
use crate::watch::watch;
use crate::web::Web;
use cb_plain::OutOfMemory;
use std::alloc::Global;

/// The least relation of which all inclusions hold. `OutOfMemory` where memory was not to be had.
///
/// Each site of a node is looked at once, for each inclusion that watches the node and each edge from there: so it takes time in the sites of the
/// bases of inclusions, and in the sites of the nodes from which edges lead, for each edge. A `Between` makes an edge for each two sites of its
/// bases. It takes a bit for each node and site, and memory in the sites of nodes and in the edges.
pub fn solve(alloc: Global, constraints: &Constraints) -> Result<Pts, OutOfMemory>
    ensures least { IfOk result (λ pts. IsLeast constraints.now (has pts)) }
    ensures nodes { IfOk result (λ pts. length pts ≡ constraints.now.nodes) }
    ensures sites { IfOk result (All (λ row. length row ≡ constraints.now.sites)) }
{
    let nodes = constraints.nodes();
    let watching = watch(alloc, constraints)?;
    let mut looked = Lists::make(alloc, nodes)?;
    let mut web = Web::make(alloc, nodes, constraints.sites())?;
    start(&mut web, constraints, &looked)?;
    look_at_waiting(&mut web, constraints, &mut looked, &watching)?;
    Ok(web.rows)
}

/// Lets the relation have what inclusions without a base say.
fn start(web: &mut Web, constraints: &Constraints, looked: &Lists<u32>) -> Result<(), OutOfMemory>
    requires web { IsWeb constraints.now looked.now web.old }
    requires nothing { (node site : ℕ) → InRow looked.now node site → ⊥ }
    ensures { OnOk result (Starts constraints.now looked.now web.old web.new) }
{
    for place in 0..constraints.inclusion_count() {
        start_at(web, constraints, looked, constraints.inclusion(place))?;
    }
    Ok(())
}

/// Lets it have what one inclusion says, if that has no base.
fn start_at(
    web: &mut Web,
    constraints: &Constraints,
    looked: &Lists<u32>,
    inclusion: &Inclusion,
) -> Result<(), OutOfMemory>
    requires web { IsWeb constraints.now looked.now web.old }
    requires among { IsOf constraints.now inclusion.now }
    ensures { OnOk result (StartsOne constraints.now looked.now web.old web.new inclusion.now) }
{
    match first_base(inclusion) {
        Some(_) => Ok(()),
        None => expand(web, constraints, looked, inclusion, 0, 0),
    }
}

/// Looks at sites until none waits.
fn look_at_waiting(
    web: &mut Web,
    constraints: &Constraints,
    looked: &mut Lists<u32>,
    watching: &Lists<u32>,
) -> Result<(), OutOfMemory>
    requires solving { IsSolving constraints.now looked.old web.old }
    requires watches { Watches constraints.now watching.now }
    ensures { OnOk result (Ends constraints.now looked.new web.new) }
{
    while let Some(member) = web.waiting.pop() {
        look(web, constraints, looked, watching, member)?;
    }
    Ok(())
}
