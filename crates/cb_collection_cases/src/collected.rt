// Collections of a heap in parts, as rows tell them.
ghost use Rattle.std.specs.Prelude.{OnOk};
ghost use Rattle.cb_partheap.specs.Marks.{IsUnmarked};
ghost use Rattle.cb_partheap_tests.specs.Tried.{AllKept};

use crate::collecting::collect;
use crate::rooted::{Named, make_roots};
use crate::walked::{tell_heap, walk};
use cb_frames::Roots;
use cb_partheap_tests::{Tried, link, next_number, read_heap, read_request};
use cb_plain::Set;
use cb_rows::Trouble;
use std::alloc::Global;
use std::str::SplitWhitespace;

/// The set of a row, of so many parts: how many it has, and which.
fn read_set(alloc: Global, words: &mut SplitWhitespace<'_>, parts: u32) -> Result<Set, Trouble> {
    let mut set = Set::make(alloc, parts)?;
    for _ in 0..next_number::<u32>(words)? {
        let part = next_number::<u32>(words)?;
        if part >= set.parts() {
            return Err(Trouble::NotUnderstood);
        }
        set.put(part, true);
    }
    Ok(set)
}

/// The place of an object by its serial, 0 for none.
fn read_place(words: &mut SplitWhitespace<'_>, places: &[u64]) -> Result<u64, Trouble> {
    let serial = next_number::<usize>(words)?;
    if serial == 0 {
        return Ok(0);
    }
    match places.get(serial - 1) {
        Some(at) => Ok(*at),
        None => Err(Trouble::NotUnderstood),
    }
}

/// What the roots of a row refer to, in the order of the entries of roots.
fn read_named(words: &mut SplitWhitespace<'_>, places: &[u64]) -> Result<Named, Trouble> {
    let local = read_place(words, places)?;
    let top = read_place(words, places)?;
    let field = read_place(words, places)?;
    let constant = read_place(words, places)?;
    let class = read_place(words, places)?;
    let boxed = read_place(words, places)?;
    let pending = read_place(words, places)?;
    let argument = read_place(words, places)?;
    Ok(Named {
        local,
        top,
        field,
        constant,
        class,
        boxed,
        pending,
        argument,
    })
}

/// Collects a set of parts from roots, and tells what is left.
fn collect_from(
    alloc: Global,
    tried: &mut Tried,
    roots: &mut Roots,
    set: &Set,
    told: &mut String,
) -> Result<(), Trouble>
    requires kept { AllKept tried.old.heap tried.old.places.items }
    requires unmarked { IsUnmarked tried.old.heap }
{
    if !collect(tried, roots, set, true) {
        told.push_str(" open")?;
        return Ok(());
    }
    let stood = walk(alloc, &tried.heap)?;
    tell_heap(&tried.heap, roots, stood.as_slice(), told)?;
    Ok(())
}

/// Reads what roots refer to, collects a set of parts from them, and tells what is left.
fn collect_set(
    alloc: Global,
    tried: &mut Tried,
    set: &Set,
    words: &mut SplitWhitespace<'_>,
    told: &mut String,
) -> Result<(), Trouble>
    requires kept { AllKept tried.old.heap tried.old.places.items }
    requires unmarked { IsUnmarked tried.old.heap }
{
    let named = read_named(words, tried.places.as_slice())?;
    let mut roots = make_roots(alloc, named)?;
    let done = collect_from(alloc, tried, &mut roots, set, told);
    drop(roots);
    done
}

/// Reads a set of parts and what roots refer to, collects it, and tells what is left.
fn collect_told(
    alloc: Global,
    tried: &mut Tried,
    words: &mut SplitWhitespace<'_>,
    told: &mut String,
) -> Result<(), Trouble>
    requires kept { AllKept tried.old.heap tried.old.places.items }
    requires unmarked { IsUnmarked tried.old.heap }
{
    let set = read_set(alloc, words, tried.heap.parts())?;
    let done = collect_set(alloc, tried, &set, words, told);
    drop(set);
    done
}

/// Grants room to a heap before its collection.
fn make_grant(tried: &mut Tried, words: &mut SplitWhitespace<'_>) -> Result<(), Trouble>
    requires kept { AllKept tried.old.heap tried.old.places.items }
    requires unmarked { IsUnmarked tried.old.heap }
    ensures kept { OnOk result (AllKept tried.new.heap tried.new.places.items) }
    ensures unmarked { OnOk result (IsUnmarked tried.new.heap) }
{
    let sites = tried.heap.site_parts.len() as u32;
    let request = read_request(words, sites)?;
    let _granted = tried.grant(&request).is_ok();
    Ok(())
}

/// Writes a word of an object before a collection.
fn make_write(
    tried: &mut Tried,
    links: bool,
    words: &mut SplitWhitespace<'_>,
) -> Result<(), Trouble>
    requires kept { AllKept tried.old.heap tried.old.places.items }
    requires unmarked { IsUnmarked tried.old.heap }
    ensures kept { OnOk result (AllKept tried.new.heap tried.new.places.items) }
    ensures unmarked { OnOk result (IsUnmarked tried.new.heap) }
{
    let serial = next_number::<usize>(words)?;
    let i = next_number(words)?;
    if serial == 0 || serial > tried.places.len() {
        return Err(Trouble::NotUnderstood);
    }
    let at = tried.places[serial - 1];
    if links {
        let _done = link(tried, at, i, next_number(words)?);
    } else {
        let _done = tried.put(at, i, next_number(words)?);
    }
    Ok(())
}

/// Makes a call on a heap before its collection.
fn make_call(tried: &mut Tried, name: &str, words: &mut SplitWhitespace<'_>) -> Result<(), Trouble>
    requires kept { AllKept tried.old.heap tried.old.places.items }
    requires unmarked { IsUnmarked tried.old.heap }
    ensures kept { OnOk result (AllKept tried.new.heap tried.new.places.items) }
    ensures unmarked { OnOk result (IsUnmarked tried.new.heap) }
{
    match name {
        "grant" => make_grant(tried, words),
        "place" => {
            let site = next_number(words)?;
            let kind = next_number(words)?;
            let _serial = tried.place(site, kind, next_number(words)?)?;
            Ok(())
        }
        "put" => make_write(tried, false, words),
        "link" => make_write(tried, true, words),
        _ => Err(Trouble::NotUnderstood),
    }
}

/// Makes the calls of a row on a heap in parts, up to its collection, and tells what is left.
fn make_calls(
    alloc: Global,
    tried: &mut Tried,
    words: &mut SplitWhitespace<'_>,
    most: usize,
    told: &mut String,
) -> Result<(), Trouble>
    requires kept { AllKept tried.old.heap tried.old.places.items }
    requires unmarked { IsUnmarked tried.old.heap }
{
    for _ in 0..most {
        let Some(name) = words.next() else {
            break;
        };
        if name == "collect" {
            return collect_told(alloc, tried, words, told);
        }
        make_call(tried, name, words)?;
    }
    Err(Trouble::NotUnderstood)
}

/// Reads a heap in parts, makes the calls of a row on it, up to its collection, and tells what is left.
pub(crate) fn tell(alloc: Global, told: &mut String, row: &str) -> Result<(), Trouble> {
    let mut words = row.split_whitespace();
    let mut tried = read_heap(alloc, &mut words)?;
    let done = make_calls(alloc, &mut tried, &mut words, row.len(), told);
    drop(tried);
    done
}
