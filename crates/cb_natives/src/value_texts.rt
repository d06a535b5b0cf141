// Texts of numbers, chars and booleans, in boxes or not (Java SE 8 API, java.lang.String, Integer, Long, Character and Boolean).
ghost use Rattle.std.specs.Prelude.{◌≡◌, ◌∷◌, [], ℤ, Option};
ghost use Rattle.cb_heap.specs.Reading.{serial_of};
ghost use Rattle.cb_kinds.specs.declared.basic.Basic.TheVariants as basics;
ghost use Rattle.cb_library.specs.declared.native.Native.TheVariants as natives;
ghost use Rattle.cb_machine.specs.Machine.{Machine};
ghost use Rattle.cb_machine.specs.Performing.{Performed, on_number};
ghost use Rattle.cb_machine.specs.Texts.{digits, hex_digits, truth, unit_of};
ghost use Rattle.cb_plain.specs.declared.value.Value.TheVariants as values;
ghost use Rattle.cb_natives.specs.Answers.{Beside, call_on};
ghost use Rattle.cb_natives.specs.Given.{ABox, ALongBox, IsReference};
ghost use Rattle.cb_natives.specs.MakingTexts.{IsTextOf, SpellsText, TellsText, on_held};

use crate::Exception;
use crate::held::{Holds, OfBoolean, OfChar, OfInt, int_in, number_in};
use crate::pieces::Text;
use crate::short_texts::{decimal_text, hex_text, truth_text, unit_text};
use crate::texts::one_piece;
use cb_heap::Store;

/// The slot in which a box has what it holds.
const VALUE: u32 = 0;

/// A number in decimal.
pub(crate) fn in_decimal(number: i64) -> Text
    ensures { SpellsText (digits number) result }
{
    one_piece(decimal_text(number))
}

/// The low 32 bits of a number in base 16.
pub(crate) fn in_hex(number: i32) -> Text
    ensures { SpellsText (hex_digits number) result }
{
    one_piece(hex_text(number))
}

/// A boolean.
pub(crate) fn as_truth(number: i32) -> Text
    ensures { SpellsText (truth number) result }
{
    one_piece(truth_text(number))
}

/// A char.
pub(crate) fn as_unit(number: i32) -> Text
    ensures { SpellsText (unit_of number ∷ []) result }
{
    one_piece(unit_text(number))
}

/// `toString` of an Integer.
pub(crate) fn integer_text<S: Store>(store: &S, at: u64) -> Result<Text, Exception>
    requires { IsReference (S.storage store.now).kept (ABox basics.Int) (serial_of (S.storage store.now).index at) }
    ensures text { TellsText (S.storage store.now).kept (S.storage store.now).index natives.IntegerToString (values.Ref (serial_of (S.storage store.now).index at) ∷ []) result }
    ensures is { IsTextOf (S.storage store.now).kept (S.storage store.now).index result }
{
    match box_int::<S, OfInt>(store, at) {
        Some(number) => Ok(in_decimal(i64::from(number))),
        None => Err(Exception::NullPointer),
    }
}

/// `toString` of a Long.
pub(crate) fn long_text<S: Store>(store: &S, at: u64) -> Result<Text, Exception>
    requires { IsReference (S.storage store.now).kept ALongBox (serial_of (S.storage store.now).index at) }
    ensures text { TellsText (S.storage store.now).kept (S.storage store.now).index natives.LongToString (values.Ref (serial_of (S.storage store.now).index at) ∷ []) result }
    ensures is { IsTextOf (S.storage store.now).kept (S.storage store.now).index result }
{
    match box_long(store, at) {
        Some(number) => Ok(in_decimal(number)),
        None => Err(Exception::NullPointer),
    }
}

/// `toString` of a Character.
pub(crate) fn character_text<S: Store>(store: &S, at: u64) -> Result<Text, Exception>
    requires { IsReference (S.storage store.now).kept (ABox basics.Char) (serial_of (S.storage store.now).index at) }
    ensures text { TellsText (S.storage store.now).kept (S.storage store.now).index natives.CharacterToString (values.Ref (serial_of (S.storage store.now).index at) ∷ []) result }
    ensures is { IsTextOf (S.storage store.now).kept (S.storage store.now).index result }
{
    match box_int::<S, OfChar>(store, at) {
        Some(number) => Ok(as_unit(number)),
        None => Err(Exception::NullPointer),
    }
}

/// `toString` of a Boolean.
pub(crate) fn boolean_text<S: Store>(store: &S, at: u64) -> Result<Text, Exception>
    requires { IsReference (S.storage store.now).kept (ABox basics.Boolean) (serial_of (S.storage store.now).index at) }
    ensures text { TellsText (S.storage store.now).kept (S.storage store.now).index natives.BooleanToString (values.Ref (serial_of (S.storage store.now).index at) ∷ []) result }
    ensures is { IsTextOf (S.storage store.now).kept (S.storage store.now).index result }
{
    match box_int::<S, OfBoolean>(store, at) {
        Some(number) => Ok(as_truth(number)),
        None => Err(Exception::NullPointer),
    }
}

/// The int that a box holds, where there is a box.
fn box_int<S: Store, B: Holds>(store: &S, at: u64) -> Option<i32>
    requires { IsReference (S.storage store.now).kept (ABox B.basic) (serial_of (S.storage store.now).index at) }
    ensures { (machine : Machine) (beside : Beside) (go : ℤ → Option Performed)
        → on_number (call_on machine (S.storage store.now).kept beside) (serial_of (S.storage store.now).index at) go
        ≡ on_held (call_on machine (S.storage store.now).kept beside) go result }
{
    if at == 0 {
        return None;
    }
    Some(int_in::<S, B>(store, at, VALUE))
}

/// The long that an object holds, where there is one.
fn box_long<S: Store>(store: &S, at: u64) -> Option<i64>
    requires { IsReference (S.storage store.now).kept ALongBox (serial_of (S.storage store.now).index at) }
    ensures { (machine : Machine) (beside : Beside) (go : ℤ → Option Performed)
        → on_number (call_on machine (S.storage store.now).kept beside) (serial_of (S.storage store.now).index at) go
        ≡ on_held (call_on machine (S.storage store.now).kept beside) go result }
{
    if at == 0 {
        return None;
    }
    Some(number_in(store, at, VALUE))
}
