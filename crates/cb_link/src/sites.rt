// Where instructions make objects.
ghost use Rattle.std.specs.Prelude.{◌≡◌, ◌<◌, ◌≤◌, ◌+◌, ◌++◌, length, map, IfErr, IfOk, OnOk};
ghost use Rattle.std.specs.List.{flat_map};
ghost use Rattle.cb_link.specs.Inner.{IsTooMany};
ghost use Rattle.cb_link.specs.Judging.{site_count, site_limit};
ghost use Rattle.cb_link.specs.Making.{makings};
ghost use Rattle.cb_link.specs.Program.{linked_site};
ghost use Rattle.cb_link.specs.InnerSites.{Exceeds, body_makings, class_makings, insn_makings, made_at};

use crate::making::made_by;
use crate::site_list::SiteList;
use crate::{Refusal, Site, Sites};
use cb_classfile::{ClassFile, Method};
use cb_insn::Insn;
use cb_kinds::{Texts, kind_number};
use cb_plain::{number_of, one_more};
use cb_text::{Pool, Units};
use std::alloc::Global;

/// The sites of instructions by numbers. Refused where there are too many with the machine's own, or where no memory was to be
/// had. Takes expected time in the instructions.
pub(crate) fn sites_by_number(
    alloc: Global,
    classes: &[ClassFile],
    kinds: &Texts,
) -> Result<Sites, Refusal>
    ensures made { IfOk result (λ sites. (sites ≡ map (linked_site kinds.now) (makings classes.now)) × (site_count classes.now ≤ site_limit)) }
    ensures refused { IfErr result (IsTooMany (site_limit < site_count classes.now)) }
{
    let mut sites = SiteList::new(alloc);
    let mut number = 0;
    for class in classes {
        number = add_class(alloc, class, number, kinds, &mut sites)?;
    }
    Ok(sites.into_sites())
}

/// Adds the sites of a class whose methods count from a number on, and gives the number behind them.
fn add_class(
    alloc: Global,
    class: &ClassFile,
    first: u32,
    kinds: &Texts,
    sites: &mut SiteList,
) -> Result<u32, Refusal>
    ensures behind { IfOk result (λ behind. behind ≡ first + length class.now.methods) }
    ensures added { OnOk result (sites.new ≡ sites.old ++ map (linked_site kinds.now) (class_makings first class.now)) }
    ensures refused { IfErr result (IsTooMany (Exceeds sites.old (length (class_makings first class.now)))) }
{
    let mut number = first;
    let methods = class.methods.as_slice();
    for method in methods {
        add_method(alloc, &class.pool, number, method, kinds, sites)?;
        number = one_more(number)?;
    }
    Ok(number)
}

/// Adds the sites of a method.
fn add_method(
    alloc: Global,
    pool: &Pool,
    number: u32,
    method: &Method,
    kinds: &Texts,
    sites: &mut SiteList,
) -> Result<(), Refusal>
    ensures added { OnOk result (sites.new ≡ sites.old ++ map (linked_site kinds.now) (body_makings number pool.now method.now.body)) }
    ensures refused { IfErr result (IsTooMany (Exceeds sites.old (length (body_makings number pool.now method.now.body)))) }
{
    match &method.body {
        Some(body) => add_code(alloc, pool, number, body.code.as_slice(), kinds, sites),
        None => Ok(()),
    }
}

/// Adds the sites of the instructions of a method.
fn add_code(
    alloc: Global,
    pool: &Pool,
    number: u32,
    code: &[(u32, Insn)],
    kinds: &Texts,
    sites: &mut SiteList,
) -> Result<(), Refusal>
    ensures added { OnOk result (sites.new ≡ sites.old ++ map (linked_site kinds.now) (flat_map (insn_makings number pool.now) code.now)) }
    ensures refused { IfErr result (IsTooMany (Exceeds sites.old (length (flat_map (insn_makings number pool.now) code.now)))) }
{
    for (place, insn) in code {
        let made = made_by(alloc, pool, insn)?;
        add_made(number, *place, made.as_slice(), kinds, sites)?;
    }
    Ok(())
}

/// Adds the sites of an instruction that makes objects of these kinds.
fn add_made(
    method: u32,
    place: u32,
    made: &[Units],
    kinds: &Texts,
    sites: &mut SiteList,
) -> Result<(), Refusal>
    ensures added { OnOk result (sites.new ≡ sites.old ++ map (linked_site kinds.now) (made_at method place made.now)) }
    ensures refused { IfErr result (IsTooMany (Exceeds sites.old (length (made_at method place made.now)))) }
{
    for (index, name) in made.iter().enumerate() {
        sites.push(Site {
            method,
            place,
            dimension: number_of(index)?,
            kind: kind_number(kinds, name.as_slice()),
        })?;
    }
    Ok(())
}
