// Sites that are looked at, one by one.
ghost use Rattle.std.specs.Prelude.{◌≡◌, ◌<◌, ℕ, Some, length, OnOk};
ghost use Rattle.std.specs.Bool.{OnFalse, OnTrue};
ghost use Rattle.cb_points_to.specs.Closed.{has};
ghost use Rattle.cb_points_to.specs.Lists.{InRow};
ghost use Rattle.cb_points_to.specs.Says.{Had, MustHave, MustLink, Says};
ghost use Rattle.cb_points_to.specs.Looking.{ExpandsSources, ExpandsTargets, IsOf, IsSaid, Looks, LooksAll, LooksFirst, LooksOne, LooksSecond, Watches};
ghost use Rattle.cb_points_to.specs.Webs.{IsWeb};

use crate::constraints::Constraints;
use crate::expand::{expand, first_base, second_base};
use crate::inclusion::Inclusion;
use crate::lists::Lists;
use crate::member::Member;
use crate::web::Web;
use cb_plain::OutOfMemory;

/// Looks at a site of a node: what each inclusion says of it that watches the node, and where it goes along edges.
pub(crate) fn look(
    web: &mut Web,
    constraints: &Constraints,
    looked: &mut Lists<u32>,
    watching: &Lists<u32>,
    member: Member,
) -> Result<(), OutOfMemory>
    requires web { IsWeb constraints.now looked.old web.old }
    requires said { IsSaid constraints.now looked.old web.old }
    requires watches { Watches constraints.now watching.now }
    requires had { Had (has web.old.rows) member.node member.site }
    ensures { OnOk result (Looks constraints.now looked.old looked.new web.old web.new member.node member.site) }
{
    look_at_all(web, constraints, looked, watching, member)?;
    web.follow_all(constraints, member)?;
    looked.push_at(member.node, member.site)
}

/// Looks at a site for all inclusions that watch its node.
fn look_at_all(
    web: &mut Web,
    constraints: &Constraints,
    looked: &Lists<u32>,
    watching: &Lists<u32>,
    member: Member,
) -> Result<(), OutOfMemory>
    requires web { IsWeb constraints.now looked.now web.old }
    requires watches { Watches constraints.now watching.now }
    requires had { Had (has web.old.rows) member.node member.site }
    ensures { OnOk result (LooksAll constraints.now looked.now web.old web.new member.node member.site) }
{
    for place in watching.row(member.node).as_slice() {
        let inclusion = constraints.inclusion(*place as usize);
        look_at_one(web, constraints, looked, inclusion, member)?;
    }
    Ok(())
}

/// Looks at a site for one inclusion.
fn look_at_one(
    web: &mut Web,
    constraints: &Constraints,
    looked: &Lists<u32>,
    inclusion: &Inclusion,
    member: Member,
) -> Result<(), OutOfMemory>
    requires web { IsWeb constraints.now looked.now web.old }
    requires among { IsOf constraints.now inclusion.now }
    requires had { Had (has web.old.rows) member.node member.site }
    ensures { OnOk result (LooksOne constraints.now looked.now web.old web.new inclusion.now member.node member.site) }
{
    look_as_first(web, constraints, looked, inclusion, member)?;
    look_as_second(web, constraints, looked, inclusion, member)
}

/// Looks at a site of an inclusion's first base, with all sites of its second one that were looked at, and itself.
fn look_as_first(
    web: &mut Web,
    constraints: &Constraints,
    looked: &Lists<u32>,
    inclusion: &Inclusion,
    member: Member,
) -> Result<(), OutOfMemory>
    requires web { IsWeb constraints.now looked.now web.old }
    requires among { IsOf constraints.now inclusion.now }
    requires had { Had (has web.old.rows) member.node member.site }
    ensures { OnOk result (LooksFirst constraints.now looked.now web.old web.new inclusion.now member.node member.site) }
{
    if !is_at(first_base(inclusion), member.node) {
        return Ok(());
    }
    let Some(target) = second_base(inclusion) else {
        return expand(web, constraints, looked, inclusion, member.site, 0);
    };
    expand_targets(web, constraints, looked, inclusion, member.site, target)?;
    if target != member.node {
        return Ok(());
    }
    expand(
        web,
        constraints,
        looked,
        inclusion,
        member.site,
        member.site,
    )
}

/// Looks at a site of an inclusion's second base, with all sites of its first one that were looked at.
fn look_as_second(
    web: &mut Web,
    constraints: &Constraints,
    looked: &Lists<u32>,
    inclusion: &Inclusion,
    member: Member,
) -> Result<(), OutOfMemory>
    requires web { IsWeb constraints.now looked.now web.old }
    requires among { IsOf constraints.now inclusion.now }
    requires had { Had (has web.old.rows) member.node member.site }
    ensures { OnOk result (LooksSecond constraints.now looked.now web.old web.new inclusion.now member.node member.site) }
{
    if !is_at(second_base(inclusion), member.node) {
        return Ok(());
    }
    let Some(source) = first_base(inclusion) else {
        return Ok(());
    };
    expand_sources(web, constraints, looked, inclusion, source, member.site)
}

/// What an inclusion says of a site of its first base, with all sites of its second one that were looked at.
fn expand_targets(
    web: &mut Web,
    constraints: &Constraints,
    looked: &Lists<u32>,
    inclusion: &Inclusion,
    own: u32,
    target: u32,
) -> Result<(), OutOfMemory>
    requires web { IsWeb constraints.now looked.now web.old }
    requires among { IsOf constraints.now inclusion.now }
    requires target { target < constraints.now.nodes }
    requires must { (other : ℕ) → InRow looked.now target other → Says constraints.now (MustHave constraints.now) (MustLink constraints.now) inclusion.now own other }
    ensures { OnOk result (ExpandsTargets constraints.now looked.now web.old web.new inclusion.now own target) }
{
    for other in looked.row(target).as_slice() {
        expand(web, constraints, looked, inclusion, own, *other)?;
    }
    Ok(())
}

/// What an inclusion says of all sites of its first base that were looked at, with one of its second one.
fn expand_sources(
    web: &mut Web,
    constraints: &Constraints,
    looked: &Lists<u32>,
    inclusion: &Inclusion,
    source: u32,
    other: u32,
) -> Result<(), OutOfMemory>
    requires web { IsWeb constraints.now looked.now web.old }
    requires among { IsOf constraints.now inclusion.now }
    requires source { source < constraints.now.nodes }
    requires must { (own : ℕ) → InRow looked.now source own → Says constraints.now (MustHave constraints.now) (MustLink constraints.now) inclusion.now own other }
    ensures { OnOk result (ExpandsSources constraints.now looked.now web.old web.new inclusion.now source other) }
{
    for own in looked.row(source).as_slice() {
        expand(web, constraints, looked, inclusion, *own, other)?;
    }
    Ok(())
}

/// Whether a base, if there is one, is a node.
fn is_at(base: Option<u32>, node: u32) -> bool
    ensures yes { OnTrue result (base ≡ Some node) }
    ensures no_other { OnFalse result (base ≡ Some node → ⊥) }
{
    match base {
        Some(at) => at == node,
        None => false,
    }
}
