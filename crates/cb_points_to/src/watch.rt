// Which inclusions are to be looked at for a site of each node.
ghost use Rattle.std.specs.Prelude.{◌≡◌, ◌<◌, ℕ, length, IfOk, OnOk, Some};
ghost use Rattle.cb_points_to.specs.Looking.{AddsWatch, Watches};

use crate::constraints::Constraints;
use crate::expand::{first_base, second_base};
use crate::lists::Lists;
use cb_plain::{OutOfMemory, number_of};
use std::alloc::Global;

/// The places of the inclusions that have a node as a base, for each node. `OutOfMemory` where memory was not to be had.
pub(crate) fn watch(alloc: Global, constraints: &Constraints) -> Result<Lists<u32>, OutOfMemory>
    ensures { IfOk result (Watches constraints.now) }
{
    let mut watching = Lists::make(alloc, constraints.nodes())?;
    for place in 0..constraints.inclusion_count() {
        let number = number_of(place)?;
        let inclusion = constraints.inclusion(place);
        add_watch(&mut watching, first_base(inclusion), number)?;
        add_watch(&mut watching, second_base(inclusion), number)?;
    }
    Ok(watching)
}

/// Adds the place of an inclusion at one of its bases, if it has that.
fn add_watch(watching: &mut Lists<u32>, base: Option<u32>, place: u32) -> Result<(), OutOfMemory>
    requires { (node : ℕ) → base ≡ Some node → node < length watching.old }
    ensures { OnOk result (AddsWatch watching.old watching.new base place) }
{
    match base {
        Some(node) => watching.push_at(node, place),
        None => Ok(()),
    }
}
