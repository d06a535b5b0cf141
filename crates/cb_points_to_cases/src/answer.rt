// What there is to say of constraints.
ghost use Rattle.std.specs.Prelude.{◌≡◌, ◌<◌, length};
ghost use Rattle.std.specs.List.{All};

use cb_points_to::{Constraints, Pts, solve};
use std::alloc::{AllocError, Global};

/// The nodes, with what they stand for and the sites of each.
pub(crate) fn answer(alloc: Global, constraints: &Constraints) -> Result<String, AllocError> {
    let pts = solve(alloc, constraints)?;
    let mut told = String::new(alloc);
    for node in 0..constraints.nodes() {
        tell_node(constraints, node, &mut told)?;
        tell_sites(&pts, node, constraints.sites(), &mut told)?;
    }
    Ok(told)
}

/// Tells a node, its owner, and whether it stands for a static.
fn tell_node(constraints: &Constraints, node: u32, told: &mut String) -> Result<(), AllocError>
    requires { node < constraints.now.nodes }
{
    if node > 0 {
        told.push(' ')?;
    }
    write!(told, "{node}")?;
    if let Some(site) = constraints.owner(node) {
        write!(told, "@{site}")?;
    }
    if constraints.is_static(node) {
        told.push('!')?;
    }
    told.push(':')
}

/// Tells the sites of a node.
fn tell_sites(pts: &Pts, node: u32, sites: u32, told: &mut String) -> Result<(), AllocError>
    requires node { node < length pts.now }
    requires sites { All (λ row. length row ≡ sites) pts.now }
{
    let mut first = true;
    for site in 0..sites {
        if pts.has(node, site) {
            if !first {
                told.push(',')?;
            }
            write!(told, "{site}")?;
            first = false;
        }
    }
    Ok(())
}
