// Calls of a heap in parts, as rows tell them.
ghost use Rattle.std.specs.Prelude.{OnOk};
ghost use Rattle.cb_partheap_tests.specs.Tried.{AllKept, IsKept};

use cb_partheap::{PartHeap, part_at};
use cb_partheap_tests::{Tried, link, next_number, read_heap, read_request, word_mark};
use cb_rows::Trouble;
use std::alloc::{AllocError, Global};
use std::str::SplitWhitespace;

// Places are below this.
const PLACES: u64 = 1 << 41;

/// What a call on an object is told to do.
#[derive(Clone, Copy)]
enum Call {
    Get(u32),
    GetRef(u32),
    Put(u32, u64),
    Link(u32, usize),
    Head,
    Mark,
}

/// The call of a name, with its numbers.
fn read_call(name: &str, words: &mut SplitWhitespace<'_>) -> Result<Call, Trouble> {
    Ok(match name {
        "get" => Call::Get(next_number(words)?),
        "ref" => Call::GetRef(next_number(words)?),
        "put" => {
            let i = next_number(words)?;
            Call::Put(i, next_number(words)?)
        }
        "link" => {
            let i = next_number(words)?;
            Call::Link(i, next_number(words)?)
        }
        "head" => Call::Head,
        "mark" => Call::Mark,
        _ => return Err(Trouble::NotUnderstood),
    })
}

/// Tells a word of an object: a number, or the serial of an object. One that holds no such thing is left out.
fn tell_word(tried: &Tried, at: u64, i: u32, mark: bool, told: &mut String) -> Result<(), Trouble>
    requires { IsKept tried.now.heap at }
{
    match word_mark(&tried.heap, at, i) {
        Some(false) if !mark => write!(told, " {}", tried.heap.get(at, i))?,
        Some(true) if mark => {
            let to = tried.heap.get_ref(at, i);
            let serial = tried.serial_at(to);
            write!(told, " {serial}")?;
        }
        _ => told.push_str(" left out")?,
    }
    Ok(())
}

/// Tells what a call came to, where it is left out.
fn tell_done(done: bool, told: &mut String) -> Result<(), AllocError> {
    if done {
        Ok(())
    } else {
        told.push_str(" left out")
    }
}

/// The kind of an object, its length, site, serial and part.
fn tell_head(heap: &PartHeap, at: u64, told: &mut String) -> Result<(), AllocError>
    requires { IsKept heap.now at }
{
    let part = part_at(at % PLACES);
    write!(
        told,
        " {} {} {} {} {part}",
        heap.kind(at),
        heap.length(at),
        heap.site(at),
        heap.serial(at)
    )
}

/// Makes a call on an object, and tells its answer. One whose conditions don't hold is left out.
fn call_on(tried: &mut Tried, at: u64, call: Call, told: &mut String) -> Result<(), Trouble>
    requires kept { AllKept tried.old.heap tried.old.places.items }
    requires there { IsKept tried.old.heap at }
    ensures { AllKept tried.new.heap tried.new.places.items }
{
    match call {
        Call::Get(i) => tell_word(tried, at, i, false, told)?,
        Call::GetRef(i) => tell_word(tried, at, i, true, told)?,
        Call::Put(i, number) => {
            let done = tried.put(at, i, number);
            tell_done(done, told)?;
        }
        Call::Link(i, serial) => {
            let done = link(tried, at, i, serial);
            tell_done(done, told)?;
        }
        Call::Head => tell_head(&tried.heap, at, told)?,
        Call::Mark => {
            let had = tried.mark(at);
            write!(told, " {had}")?;
        }
    }
    Ok(())
}

/// A number made of all words of an object.
fn add_words(tried: &Tried, at: u64, sum: u64) -> u64
    requires { IsKept tried.now.heap at }
{
    let heap = &tried.heap;
    let length = heap.length(at);
    let mut sum = with_word(sum, heap.kind(at).into());
    sum = with_word(sum, heap.site(at).into());
    sum = with_word(sum, length.into());
    for i in 0..length {
        let word = match word_mark(heap, at, i) {
            Some(true) => tried.serial_at(heap.get_ref(at, i)),
            Some(false) => heap.get(at, i),
            None => 0,
        };
        sum = with_word(sum, word);
    }
    sum
}

/// A number made of words, with one more.
fn with_word(sum: u64, word: u64) -> u64 {
    sum.wrapping_mul(31).wrapping_add(word)
}

/// A number made of all objects in the order of their serials.
fn sum_of(tried: &Tried) -> u64
    requires { AllKept tried.now.heap tried.now.places.items }
{
    let mut sum = 0;
    for at in tried.places.as_slice() {
        sum = add_words(tried, *at, sum);
    }
    sum
}

/// Makes a call on a heap, and tells its answer.
fn make_call(
    tried: &mut Tried,
    name: &str,
    words: &mut SplitWhitespace<'_>,
    told: &mut String,
) -> Result<(), Trouble>
    requires { AllKept tried.old.heap tried.old.places.items }
    ensures { OnOk result (AllKept tried.new.heap tried.new.places.items) }
{
    match name {
        "free" => write!(told, " {}", tried.heap.words.blocks_free())?,
        "sum" => write!(told, " {}", sum_of(tried))?,
        "grant" => {
            let sites = tried.heap.site_parts.len() as u32;
            let request = read_request(words, sites)?;
            let granted = tried.grant(&request);
            told.push_str(if granted.is_ok() { " granted" } else { " full" })?;
        }
        "place" => {
            let site = next_number(words)?;
            let kind = next_number(words)?;
            match tried.place(site, kind, next_number(words)?)? {
                Some(serial) => write!(told, " {serial}")?,
                None => told.push_str(" no room")?,
            }
        }
        _ => {
            let serial = next_number::<usize>(words)?;
            let call = read_call(name, words)?;
            if serial == 0 || serial > tried.places.len() {
                return Err(Trouble::NotUnderstood);
            }
            let at = tried.places[serial - 1];
            call_on(tried, at, call, told)?;
        }
    }
    Ok(())
}

/// Makes the calls of a row on a heap in parts, and tells their answers.
pub(crate) fn tell(alloc: Global, told: &mut String, row: &str) -> Result<(), Trouble> {
    let mut words = row.split_whitespace();
    let mut tried = read_heap(alloc, &mut words)?;
    for _ in 0..row.len() {
        let Some(name) = words.next() else {
            break;
        };
        make_call(&mut tried, name, &mut words, told)?;
    }
    Ok(())
}
