// Texts of objects that natives make strings of (Java SE 8 API, java.lang.Object, String, StringBuilder, Class and Throwable).
ghost use Rattle.std.specs.Prelude.{◌≡◌, ◌∷◌, ◌++◌, [], ℕ, List, Option, codes, pos};
ghost use Rattle.cb_heap.specs.Reading.{serial_of};
ghost use Rattle.cb_link.specs.Program.{Linked};
ghost use Rattle.cb_library.specs.declared.native.Native.TheVariants as natives;
ghost use Rattle.cb_machine.specs.Machine.{Machine};
ghost use Rattle.cb_machine.specs.Performing.{counted, gives_text, on_text};
ghost use Rattle.cb_machine.specs.Texts.{class_name, gives_range};
ghost use Rattle.cb_machine.specs.Values.{natural};
ghost use Rattle.cb_plain.specs.State.{Object};
ghost use Rattle.cb_plain.specs.declared.value.Value.TheVariants as values;
ghost use Rattle.cb_natives.specs.Answers.{Beside, call_on};
ghost use Rattle.cb_natives.specs.Given.{ABuilder, AClass, AText, AThrowable, AnObject, Characters, HoldsUnits, IsReference, units_in};
ghost use Rattle.cb_natives.specs.MakingTexts.{IsTextOf, TellsText, text_answered};
ghost use Rattle.cb_natives.specs.Pieces.{IsPiece, IsText, piece_units, text_units};

use crate::Exception;
use crate::held::{OfInt, int_in};
use crate::low_bits::unit_of;
use crate::pieces::{Piece, Text};
use crate::reading::{chars_of, count};
use crate::short_texts::{ascii_text, hex_text, no_text};
use cb_heap::Store;

/// The slots in which a builder has its array and how many of its chars count, and that in which a class object has its kind.
const CHARS: u32 = 0;

const COUNT: u32 = 1;

const KIND: u32 = 0;

/// A text of one piece.
pub(crate) fn one_piece(piece: Piece) -> Text
    ensures units { (program : Linked) (objects : List (Option Object)) (index : ℕ → ℕ) → text_units program objects index result ≡ piece_units program objects index piece }
    ensures is { (program : Linked) (objects : List (Option Object)) (index : ℕ → ℕ) → IsPiece program objects index piece → IsText program objects index result }
{
    Text {
        first: piece,
        second: no_text(),
        third: no_text(),
    }
}

/// A text of two pieces.
fn two_pieces(first: Piece, second: Piece) -> Text
    ensures units { (program : Linked) (objects : List (Option Object)) (index : ℕ → ℕ) → text_units program objects index result ≡ piece_units program objects index first ++ piece_units program objects index second }
    ensures is { (program : Linked) (objects : List (Option Object)) (index : ℕ → ℕ) → IsPiece program objects index first → IsPiece program objects index second → IsText program objects index result }
{
    Text {
        first,
        second,
        third: no_text(),
    }
}

/// All units of an array of chars.
fn all_units<S: Store>(store: &S, array: u64) -> Piece
    requires { HoldsUnits (S.storage store.now).kept (serial_of (S.storage store.now).index array) }
    ensures units { (program : Linked) → piece_units program (S.storage store.now).kept (S.storage store.now).index result ≡ units_in (S.storage store.now).kept (serial_of (S.storage store.now).index array) }
    ensures is { (program : Linked) → IsPiece program (S.storage store.now).kept (S.storage store.now).index result }
{
    Piece::Range {
        array,
        from: 0,
        count: count(store, array),
    }
}

/// `toString` of an object that has none of its own: the name of its class, and its hash.
pub(crate) fn object_text<S: Store>(store: &S, at: u64, hash: i32) -> Result<Text, Exception>
    requires { IsReference (S.storage store.now).kept AnObject (serial_of (S.storage store.now).index at) }
    ensures text { TellsText (S.storage store.now).kept (S.storage store.now).index natives.ObjectSay (values.Ref (serial_of (S.storage store.now).index at) ∷ values.Int hash ∷ []) result }
    ensures is { IsTextOf (S.storage store.now).kept (S.storage store.now).index result }
{
    if at == 0 {
        return Err(Exception::NullPointer);
    }
    Ok(Text {
        first: Piece::Name(store.kind(at)),
        second: ascii_text(b"@"),
        third: hex_text(hash),
    })
}

/// `toString` of a throwable: the name of its class, and its message if it has one.
pub(crate) fn throwable_text<S: Store>(store: &S, at: u64, message: u64) -> Result<Text, Exception>
    requires own { IsReference (S.storage store.now).kept AThrowable (serial_of (S.storage store.now).index at) }
    requires other { IsReference (S.storage store.now).kept AText (serial_of (S.storage store.now).index message) }
    ensures text { TellsText (S.storage store.now).kept (S.storage store.now).index natives.ThrowableSay (values.Ref (serial_of (S.storage store.now).index at) ∷ values.Ref (serial_of (S.storage store.now).index message) ∷ []) result }
    ensures is { IsTextOf (S.storage store.now).kept (S.storage store.now).index result }
{
    if at == 0 {
        return Err(Exception::NullPointer);
    }
    let kind = store.kind(at);
    if message == 0 {
        return Ok(one_piece(Piece::Name(kind)));
    }
    message_text(store, kind, message)
}

/// The name of a kind and a message.
fn message_text<S: Store>(store: &S, kind: u32, message: u64) -> Result<Text, Exception>
    requires { IsReference (S.storage store.now).kept AText (serial_of (S.storage store.now).index message) }
    ensures text { (machine : Machine) (beside : Beside) → on_text (call_on machine (S.storage store.now).kept beside) (serial_of (S.storage store.now).index message) (λ units. gives_text (call_on machine (S.storage store.now).kept beside) (class_name machine.program kind ++ codes ": " ++ units))
        ≡ text_answered (S.storage store.now).index (call_on machine (S.storage store.now).kept beside) result }
    ensures is { IsTextOf (S.storage store.now).kept (S.storage store.now).index result }
{
    let Some(array) = chars_of(store, message) else {
        return Err(Exception::NullPointer);
    };
    Ok(Text {
        first: Piece::Name(kind),
        second: ascii_text(b": "),
        third: all_units(store, array),
    })
}

/// `concat`.
pub(crate) fn concat_text<S: Store>(store: &S, at: u64, other: u64) -> Result<Text, Exception>
    requires own { IsReference (S.storage store.now).kept AText (serial_of (S.storage store.now).index at) }
    requires other { IsReference (S.storage store.now).kept AText (serial_of (S.storage store.now).index other) }
    ensures text { TellsText (S.storage store.now).kept (S.storage store.now).index natives.StringConcat (values.Ref (serial_of (S.storage store.now).index at) ∷ values.Ref (serial_of (S.storage store.now).index other) ∷ []) result }
    ensures is { IsTextOf (S.storage store.now).kept (S.storage store.now).index result }
{
    let Some(array) = chars_of(store, at) else {
        return Err(Exception::NullPointer);
    };
    let Some(behind) = chars_of(store, other) else {
        return Err(Exception::NullPointer);
    };
    Ok(two_pieces(all_units(store, array), all_units(store, behind)))
}

/// `substring(int)`.
pub(crate) fn rest_text<S: Store>(store: &S, at: u64, from: i32) -> Result<Text, Exception>
    requires { IsReference (S.storage store.now).kept AText (serial_of (S.storage store.now).index at) }
    ensures text { TellsText (S.storage store.now).kept (S.storage store.now).index natives.StringSubstringFrom (values.Ref (serial_of (S.storage store.now).index at) ∷ values.Int from ∷ []) result }
    ensures is { IsTextOf (S.storage store.now).kept (S.storage store.now).index result }
{
    let Some(array) = chars_of(store, at) else {
        return Err(Exception::NullPointer);
    };
    range_text(store, array, from, count(store, array) as i32)
}

/// `substring(int, int)`.
pub(crate) fn part_text<S: Store>(store: &S, at: u64, from: i32, to: i32) -> Result<Text, Exception>
    requires { IsReference (S.storage store.now).kept AText (serial_of (S.storage store.now).index at) }
    ensures text { TellsText (S.storage store.now).kept (S.storage store.now).index natives.StringSubstring (values.Ref (serial_of (S.storage store.now).index at) ∷ values.Int from ∷ values.Int to ∷ []) result }
    ensures is { IsTextOf (S.storage store.now).kept (S.storage store.now).index result }
{
    let Some(array) = chars_of(store, at) else {
        return Err(Exception::NullPointer);
    };
    range_text(store, array, from, to)
}

/// The units of an array of chars from one index to another, or a StringIndexOutOfBoundsException where these are no range of it.
fn range_text<S: Store>(store: &S, array: u64, from: i32, to: i32) -> Result<Text, Exception>
    requires { HoldsUnits (S.storage store.now).kept (serial_of (S.storage store.now).index array) }
    ensures text { (machine : Machine) (beside : Beside) → gives_range (call_on machine (S.storage store.now).kept beside) (units_in (S.storage store.now).kept (serial_of (S.storage store.now).index array)) from to
        ≡ text_answered (S.storage store.now).index (call_on machine (S.storage store.now).kept beside) result }
    ensures is { IsTextOf (S.storage store.now).kept (S.storage store.now).index result }
{
    match u32::try_from(from) {
        Ok(from) => range_from(store, array, from, to),
        _ => Err(Exception::StringIndexOutOfBounds),
    }
}

/// The same from an index that isn't negative.
fn range_from<S: Store>(store: &S, array: u64, from: u32, to: i32) -> Result<Text, Exception>
    requires { HoldsUnits (S.storage store.now).kept (serial_of (S.storage store.now).index array) }
    ensures text { (machine : Machine) (beside : Beside) → gives_range (call_on machine (S.storage store.now).kept beside) (units_in (S.storage store.now).kept (serial_of (S.storage store.now).index array)) (pos from) to
        ≡ text_answered (S.storage store.now).index (call_on machine (S.storage store.now).kept beside) result }
    ensures is { IsTextOf (S.storage store.now).kept (S.storage store.now).index result }
{
    match u32::try_from(to) {
        Ok(to) if from <= to && to <= count(store, array) => Ok(one_piece(Piece::Range {
            array,
            from,
            count: to - from,
        })),
        _ => Err(Exception::StringIndexOutOfBounds),
    }
}

/// `replace`.
pub(crate) fn replaced_text<S: Store>(
    store: &S,
    at: u64,
    old: i32,
    new: i32,
) -> Result<Text, Exception>
    requires { IsReference (S.storage store.now).kept AText (serial_of (S.storage store.now).index at) }
    ensures text { TellsText (S.storage store.now).kept (S.storage store.now).index natives.StringReplace (values.Ref (serial_of (S.storage store.now).index at) ∷ values.Int old ∷ values.Int new ∷ []) result }
    ensures is { IsTextOf (S.storage store.now).kept (S.storage store.now).index result }
{
    let Some(array) = chars_of(store, at) else {
        return Err(Exception::NullPointer);
    };
    Ok(one_piece(Piece::Replaced {
        array,
        old: unit_of(old),
        new: unit_of(new),
    }))
}

/// `String.valueOf(char[])`.
pub(crate) fn characters_text<S: Store>(store: &S, at: u64) -> Result<Text, Exception>
    requires { IsReference (S.storage store.now).kept Characters (serial_of (S.storage store.now).index at) }
    ensures text { TellsText (S.storage store.now).kept (S.storage store.now).index natives.StringValueOfChars (values.Ref (serial_of (S.storage store.now).index at) ∷ []) result }
    ensures is { IsTextOf (S.storage store.now).kept (S.storage store.now).index result }
{
    if at == 0 {
        return Err(Exception::NullPointer);
    }
    Ok(one_piece(all_units(store, at)))
}

/// `toString` of a builder: so many of its units as count.
pub(crate) fn built_text<S: Store>(store: &S, at: u64) -> Result<Text, Exception>
    requires { IsReference (S.storage store.now).kept ABuilder (serial_of (S.storage store.now).index at) }
    ensures text { TellsText (S.storage store.now).kept (S.storage store.now).index natives.StringBuilderToString (values.Ref (serial_of (S.storage store.now).index at) ∷ []) result }
    ensures is { IsTextOf (S.storage store.now).kept (S.storage store.now).index result }
{
    if at == 0 {
        return Err(Exception::NullPointer);
    }
    let array = store.get_ref(at, CHARS);
    let number = int_in::<S, OfInt>(store, at, COUNT);
    Ok(one_piece(front_units(store, array, number)))
}

/// The units of an array of chars that count.
fn front_units<S: Store>(store: &S, array: u64, number: i32) -> Piece
    requires { HoldsUnits (S.storage store.now).kept (serial_of (S.storage store.now).index array) }
    ensures units { (program : Linked) → piece_units program (S.storage store.now).kept (S.storage store.now).index result ≡ counted (units_in (S.storage store.now).kept (serial_of (S.storage store.now).index array)) number }
    ensures is { (program : Linked) → IsPiece program (S.storage store.now).kept (S.storage store.now).index result }
{
    let units = count(store, array);
    Piece::Range {
        array,
        from: 0,
        count: if number < 0 {
            0
        } else {
            (number as u32).min(units)
        },
    }
}

/// `getName` of a class.
pub(crate) fn class_text<S: Store>(store: &S, at: u64) -> Result<Text, Exception>
    requires { IsReference (S.storage store.now).kept AClass (serial_of (S.storage store.now).index at) }
    ensures text { TellsText (S.storage store.now).kept (S.storage store.now).index natives.ClassGetName (values.Ref (serial_of (S.storage store.now).index at) ∷ []) result }
    ensures is { IsTextOf (S.storage store.now).kept (S.storage store.now).index result }
{
    if at == 0 {
        return Err(Exception::NullPointer);
    }
    let kind = int_in::<S, OfInt>(store, at, KIND);
    Ok(one_piece(Piece::Name(natural(kind))))
}

/// A number, or 0 in place of a negative one.
fn natural(number: i32) -> u32
    ensures { result ≡ natural number }
{
    if number < 0 { 0 } else { number as u32 }
}
