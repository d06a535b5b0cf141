// Loops over calls of stores, as rows tell them.
ghost use Rattle.std.specs.Prelude.{◌≡◌, ◌+◌, ◌*◌, ◌<◌, ◌≤◌, ◌^◌, length, IfSome};
ghost use Rattle.cb_plain.specs.Requests.{words_at};
ghost use Rattle.cb_plain.specs.State.{words_of};
ghost use Rattle.cb_memory_cases.specs.Timed.{array_kinds};

use crate::stores::{map_store, part_store};
use crate::turns::{Steps, get_ref_turns, get_turns, place_arrays, put_turns};
use cb_blocks::Blocks;
use cb_heap::Store;
use cb_partheap_tests::next_number;
use cb_rows::Trouble;
use std::alloc::Global;
use std::str::SplitWhitespace;

// How many words the objects of a loop may take: as many as are in all blocks that a heap can have.
const MOST: u32 = 1 << 28;

/// So many arrays of so many words each, how far a loop goes on with each turn, and how many turns it takes.
#[derive(Clone, Copy)]
struct Loop {
    count: u32,
    size: u32,
    steps: Steps,
    turns: u32,
}

/// The loop that the rest of a row tells, if it has objects and words, and goes on by no more than these.
fn read_loop(words: &mut SplitWhitespace<'_>) -> Result<Loop, Trouble> {
    let count = next_number(words)?;
    let size = next_number(words)?;
    let objects = next_number(words)?;
    let along = next_number(words)?;
    let turns = next_number(words)?;
    Ok(Loop {
        count,
        size,
        steps: Steps {
            objects,
            words: along,
        },
        turns,
    })
}

/// How many words a loop's objects take, where it has some, and goes on by no more than these.
fn words_for(timed: Loop) -> Option<u64>
    ensures words { IfSome result (λ words. words ≡ timed.count * words_of timed.size) }
    ensures few { IfSome result (λ words. words ≤ 2 ^ 28) }
    ensures some { IfSome result (λ words. 0 < timed.size) }
    ensures objects { IfSome result (λ words. 0 < timed.count) }
    ensures over_objects { IfSome result (λ words. timed.steps.objects ≤ timed.count) }
    ensures over_words { IfSome result (λ words. timed.steps.words ≤ timed.size) }
{
    let Loop { count, size, .. } = timed;
    if count == 0 || size == 0 || count > MOST || size > MOST {
        return None;
    }
    let words = u64::from(count) * (u64::from(size) + 3);
    if words > MOST.into() || timed.steps.objects > count || timed.steps.words > size {
        return None;
    }
    Some(words)
}

/// What a loop calls.
#[derive(Clone, Copy)]
enum Call {
    Place,
    Get,
    GetRef,
    Put,
}

/// The call of a name.
fn call_of(name: &str) -> Result<Call, Trouble> {
    match name {
        "place" => Ok(Call::Place),
        "get" => Ok(Call::Get),
        "get_ref" => Ok(Call::GetRef),
        "put" => Ok(Call::Put),
        _ => Err(Trouble::NotUnderstood),
    }
}

/// Does a loop over arrays that it places in a store, and tells what it came to.
fn turned<S: Store>(alloc: Global, store: &mut S, call: Call, timed: Loop) -> Result<u64, Trouble>
    requires shapes { (S.storage store.old).settings.shapes ≡ array_kinds }
    requires room { timed.count * words_of timed.size ≤ words_at (S.storage store.old).granted 0 }
    requires serials { length (S.storage store.old).kept + timed.count < 2 ^ 63 }
    requires some { 0 < timed.size }
    requires objects { 0 < timed.count }
    requires over_objects { timed.steps.objects ≤ timed.count }
    requires over_words { timed.steps.words ≤ timed.size }
{
    let Loop {
        count,
        size,
        steps,
        turns,
    } = timed;
    match call {
        Call::Place => {
            let places = place_arrays(alloc, store, false, count, size)?;
            Ok(places.len() as u64)
        }
        Call::Get => {
            let places = place_arrays(alloc, store, false, count, size)?;
            Ok(get_turns(store, places.as_slice(), size, steps, turns))
        }
        Call::GetRef => {
            let places = place_arrays(alloc, store, true, count, size)?;
            Ok(get_ref_turns(store, places.as_slice(), size, steps, turns))
        }
        Call::Put => {
            let places = place_arrays(alloc, store, false, count, size)?;
            put_turns(store, places.as_slice(), size, steps, turns);
            Ok(get_turns(store, places.as_slice(), size, steps, count))
        }
    }
}

/// Does a loop over a store that is made for it.
fn turned_once(alloc: Global, store: &str, call: Call, timed: Loop) -> Result<u64, Trouble> {
    let Some(words) = words_for(timed) else {
        return Err(Trouble::NotUnderstood);
    };
    match store {
        "parts" => {
            let mut store = part_store(alloc, words)?;
            turned(alloc, &mut store, call, timed)
        }
        "map" => {
            let mut store = map_store(alloc, words)?;
            turned(alloc, &mut store, call, timed)
        }
        _ => Err(Trouble::NotUnderstood),
    }
}

/// Places all objects anew for each turn, in a store that is made for it.
fn placed_turns(alloc: Global, store: &str, timed: Loop) -> Result<u64, Trouble> {
    let mut sum = 0_u64;
    for _ in 0..timed.turns {
        sum = sum.wrapping_add(turned_once(alloc, store, Call::Place, timed)?);
    }
    Ok(sum)
}

/// Moves the words of a part towards its front for each turn, from as far behind as the loop's step says.
fn moved_turns(alloc: Global, timed: Loop) -> Result<u64, Trouble> {
    let Loop {
        size,
        steps,
        turns,
        ..
    } = timed;
    if size > MOST / 2 {
        return Err(Trouble::NotUnderstood);
    }
    let mut blocks = Blocks::make(alloc, size / 256 + 1, 1)?;
    match blocks.grow(0, size.into()) {
        Ok(()) => {
            move_turns(&mut blocks, steps.words.into(), turns);
            Ok(blocks.used(0))
        }
        Err(_) => Err(Trouble::Refused),
    }
}

/// Moves the words behind so many of the first part to its front for each turn.
fn move_turns(blocks: &mut Blocks, step: u64, turns: u32)
    requires { 0 < length blocks.old.words }
    ensures { length blocks.new.words ≡ length blocks.old.words }
{
    for _ in 0..turns {
        let used = blocks.used(0);
        if step <= used {
            blocks.move_words(0, step, 0, used - step);
        }
    }
}

/// Does the loop of a row, and tells what it came to.
pub(crate) fn tell(alloc: Global, told: &mut String, row: &str) -> Result<(), Trouble> {
    let mut words = row.split_whitespace();
    let store = words.next().unwrap_or("");
    let call = words.next().unwrap_or("");
    let timed = read_loop(&mut words)?;
    let sum = match call {
        "move" => moved_turns(alloc, timed)?,
        "place" => placed_turns(alloc, store, timed)?,
        _ => turned_once(alloc, store, call_of(call)?, timed)?,
    };
    write!(told, "{sum}")?;
    Ok(())
}
