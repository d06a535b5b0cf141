// What builders have, and what they do to hold other units (Java SE 8 API, java.lang.StringBuilder).
ghost use Rattle.std.specs.Prelude.{◌≡◌, ◌≤◌, ◌++◌, ℕ, List, length, take};
ghost use Rattle.cb_heap.specs.Reading.{serial_of};
ghost use Rattle.cb_machine.specs.Builders.{grown};
ghost use Rattle.cb_machine.specs.Performing.{counted};
ghost use Rattle.cb_natives.specs.Given.{IsBuilder, units_in};
ghost use Rattle.cb_natives.specs.MakingOwn.{Decides, HasBuilt, held_by, rebuilt, renewed};
ghost use Rattle.cb_natives.specs.Pieces.{IsPiece, MayWrite, piece_units};

use crate::Exception;
use crate::held::{OfInt, int_in};
use crate::own_change::{Change, Own};
use crate::pieces::{Piece, Text};
use crate::reading::count;
use crate::writing::piece_size;
use cb_heap::Store;
use cb_link::Program;

/// The slots in which a builder has its array and how many of its units count.
const CHARS: u32 = 0;

const COUNT: u32 = 1;

/// No array is longer than this.
pub(crate) const MOST_ELEMENTS: u32 = 0x7fff_ffff;

/// What a builder has: the place of its array of chars, 0 where it has none, how many there are, and how many of these count.
#[derive(Clone, Copy, Debug, Drop)]
pub(crate) struct Built {
    pub array: u64,
    pub room: u32,
    pub count: u32,
}

/// How many of so many units count: none where their number is negative.
fn front(room: u32, number: i32) -> u32
    ensures within { result ≤ room }
    ensures same { (list : List ℕ) → length list ≡ room → take result list ≡ counted list number }
{
    if number < 0 {
        0
    } else {
        (number as u32).min(room)
    }
}

/// What the builder at a place has.
pub(crate) fn built_at<S: Store>(store: &S, at: u64) -> Built
    requires { IsBuilder (S.storage store.now).kept (serial_of (S.storage store.now).index at) }
    ensures { HasBuilt (S.storage store.now).kept (S.storage store.now).index (serial_of (S.storage store.now).index at) result }
{
    let array = store.get_ref(at, CHARS);
    let number = int_in::<S, OfInt>(store, at, COUNT);
    let room = count(store, array);
    Built {
        array,
        room,
        count: front(room, number),
    }
}

/// How much room there is in a new array for so many units, where the old one has too little.
fn grown(room: u32, count: u32) -> u32
    ensures { result ≡ grown room count }
{
    (2 * u64::from(room) + 2)
        .max(u64::from(count))
        .min(u64::from(MOST_ELEMENTS)) as u32
}

/// A builder gets a new array, with so many of its units and a piece behind them, which are so many together.
fn renewed(built: &Built, kept: u32, piece: &Piece, count: u32) -> Change
    ensures { result ≡ renewed built.now kept piece.now count }
{
    Change::Builds {
        text: Text {
            first: Piece::Range {
                array: built.array,
                from: 0,
                count: kept,
            },
            second: *piece,
            third: Piece::Zeros(0),
        },
        count,
        room: grown(built.room, count),
    }
}

/// How a builder comes to hold so many of its units with a piece behind them, which are so many together: in its array where that has room
/// for them, or else in a new one.
fn rebuilt(built: &Built, kept: u32, piece: &Piece, count: u32) -> Change
    ensures { result ≡ rebuilt built.now kept piece.now count }
{
    if built.array == 0 {
        return renewed(built, kept, piece, count);
    }
    if count > built.room {
        return renewed(built, kept, piece, count);
    }
    Change::Writes {
        array: built.array,
        from: kept,
        piece: *piece,
        count,
    }
}

/// A builder holds so many of its units from now on with a piece behind them, or throws a NegativeArraySizeException where these are more than
/// an array can have.
pub(crate) fn hold<S: Store>(
    program: &Program,
    store: &S,
    at: u64,
    gives: bool,
    built: &Built,
    kept: u32,
    piece: &Piece,
) -> Result<Own, Exception>
    requires built { HasBuilt (S.storage store.now).kept (S.storage store.now).index (serial_of (S.storage store.now).index at) built.now }
    requires within { kept ≤ built.now.count }
    requires piece { IsPiece program.now (S.storage store.now).kept (S.storage store.now).index piece.now }
    requires may { MayWrite (S.storage store.now).index (serial_of (S.storage store.now).index built.now.array) kept piece.now }
    ensures { Decides program.now (S.storage store.now).kept (S.storage store.now).index
        (λ call. held_by call (serial_of (S.storage store.now).index at) gives (take kept (units_in (S.storage store.now).kept (serial_of (S.storage store.now).index built.now.array)) ++ piece_units program.now (S.storage store.now).kept (S.storage store.now).index piece.now)) result }
{
    let count = u64::from(kept) + piece_size(program, store, piece);
    if count > u64::from(MOST_ELEMENTS) {
        return Err(Exception::NegativeArraySize);
    }
    Ok(Own {
        at,
        gives,
        change: rebuilt(built, kept, piece, count as u32),
    })
}
