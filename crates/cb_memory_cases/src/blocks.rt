// Calls of a heap's parts in blocks, as rows tell them.
ghost use Rattle.std.specs.Prelude.{◌≡◌, ◌<◌, ◌≤◌, length};

use cb_blocks::{Blocks, NoBlocks};
use cb_partheap_tests::next_number;
use cb_rows::Trouble;
use std::alloc::{AllocError, Global};
use std::str::SplitWhitespace;

// How many blocks and parts a row may ask for.
const MOST_BLOCKS: u32 = 1 << 20;

const MOST_PARTS: u32 = 1 << 12;

/// What a call on a part is told to do.
#[derive(Clone, Copy)]
enum Call {
    Grow(u64),
    Shrink(u64),
    Read(u64),
    Write(u64, u64),
    Move(u64, u64, u64),
    Used,
    Sum,
}

/// The call of a name, with its numbers.
fn read_call(name: &str, words: &mut SplitWhitespace<'_>) -> Result<Call, Trouble> {
    Ok(match name {
        "grow" => Call::Grow(next_number(words)?),
        "shrink" => Call::Shrink(next_number(words)?),
        "read" => Call::Read(next_number(words)?),
        "write" => {
            let place = next_number(words)?;
            Call::Write(place, next_number(words)?)
        }
        "move" => {
            let from = next_number(words)?;
            let to = next_number(words)?;
            Call::Move(from, to, next_number(words)?)
        }
        "used" => Call::Used,
        "sum" => Call::Sum,
        _ => return Err(Trouble::NotUnderstood),
    })
}

/// A number made of all words of a part in their order.
fn sum_of(blocks: &Blocks, part: u32) -> u64
    requires { part < length blocks.now.words }
{
    let used = blocks.used(part);
    let mut sum = used;
    for i in 0..used {
        sum = sum.wrapping_mul(31).wrapping_add(blocks.word(part, i));
    }
    sum
}

/// Tells whether a part has grown.
fn tell_grown(told: &mut String, grown: Result<(), NoBlocks>) -> Result<(), AllocError> {
    told.push_str(if grown.is_ok() { " grown" } else { " full" })
}

/// Makes a call on a part, and tells its answer. One whose conditions don't hold is left out.
fn call_on(blocks: &mut Blocks, part: u32, call: Call, told: &mut String) -> Result<(), AllocError>
    requires { part < length blocks.old.words }
    ensures { length blocks.new.words ≡ length blocks.old.words }
{
    let used = blocks.used(part);
    match call {
        Call::Grow(words) => tell_grown(told, blocks.grow(part, words))?,
        Call::Shrink(words) if words <= used => blocks.shrink(part, words),
        Call::Read(i) if i < used => write!(told, " {}", blocks.word(part, i))?,
        Call::Write(i, word) if i < used => blocks.set_word(part, i, word),
        Call::Move(from, to, count) if to <= from && from <= used && count <= used - from => {
            blocks.move_words(part, from, to, count);
        }
        Call::Used => write!(told, " {used}")?,
        Call::Sum => write!(told, " {}", sum_of(blocks, part))?,
        _ => told.push_str(" left out")?,
    }
    Ok(())
}

/// Makes the calls of a row on blocks of so many parts, and tells their answers.
pub(crate) fn tell(alloc: Global, told: &mut String, row: &str) -> Result<(), Trouble> {
    let mut words = row.split_whitespace();
    let count = next_number::<u32>(&mut words)?;
    let parts = next_number::<u32>(&mut words)?;
    if count > MOST_BLOCKS || parts > MOST_PARTS {
        return Err(Trouble::NotUnderstood);
    }
    let mut blocks = Blocks::make(alloc, count, parts)?;
    for _ in 0..row.len() {
        let Some(name) = words.next() else {
            break;
        };
        if name == "free" {
            write!(told, " {}", blocks.blocks_free())?;
            continue;
        }
        let part = next_number::<u32>(&mut words)?;
        let call = read_call(name, &mut words)?;
        if part >= parts {
            return Err(Trouble::NotUnderstood);
        }
        call_on(&mut blocks, part, call, told)?;
    }
    Ok(())
}
