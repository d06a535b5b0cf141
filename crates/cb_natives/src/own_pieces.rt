// Texts that natives make of what they are given, as pieces.
ghost use Rattle.cb_heap.specs.Reading.{serial_of};
ghost use Rattle.cb_natives.specs.Given.{HoldsUnits};
ghost use Rattle.cb_natives.specs.MakingOwn.{IsTextOf, IsWhole};
ghost use Rattle.cb_natives.specs.Pieces.{IsPiece, piece_units};

use crate::pieces::{Piece, Text};
use crate::reading::count;
use cb_heap::Store;
use cb_link::Program;

/// All units of an array of chars.
pub(crate) fn whole<S: Store>(program: &Program, store: &S, array: u64) -> Piece
    requires { HoldsUnits (S.storage store.now).kept (serial_of (S.storage store.now).index array) }
    ensures { IsWhole program.now (S.storage store.now).kept (S.storage store.now).index array result }
{
    let _ = program;
    Piece::Range {
        array,
        from: 0,
        count: count(store, array),
    }
}

/// The text of one piece.
pub(crate) fn text_of<S: Store>(program: &Program, store: &S, piece: Piece) -> Text
    requires { IsPiece program.now (S.storage store.now).kept (S.storage store.now).index piece }
    ensures { IsTextOf program.now (S.storage store.now).kept (S.storage store.now).index result (piece_units program.now (S.storage store.now).kept (S.storage store.now).index piece) }
{
    let _ = program;
    let _ = store;
    Text {
        first: piece,
        second: Piece::Zeros(0),
        third: Piece::Zeros(0),
    }
}
