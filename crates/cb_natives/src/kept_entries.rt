// The objects that natives give from tables, or place: class objects and boxes (Java SE 8 API, java.lang; JLS §5.1.7).
ghost use Rattle.std.specs.Prelude.{◌≡◌, ◌∷◌, [], List, Ok, Option, map, true};
ghost use Rattle.cb_heap.specs.Reading.{read_value, serial_of};
ghost use Rattle.cb_library.specs.declared.native.Native.TheVariants as natives;
ghost use Rattle.cb_plain.specs.State.{Object};
ghost use Rattle.cb_plain.specs.declared.value.Value.TheVariants as values;
ghost use Rattle.cb_natives.specs.Given.{AnObject, AreGiven, IsReference, have_sorts, roles, sorts_of};
ghost use Rattle.cb_natives.specs.MakingKept.{Finds, FindsOr, IsLow, IsSmall, makes_kept};

use crate::Exception;
use crate::arguments::{int, long, reference};
use crate::low_bits::{low_bit, unit_of};
use cb_heap::Store;
use cb_library::Native;
use cb_plain::{Table, Value};

/// The site of class objects, and those of the boxes.
const CLASS_OBJECTS: u32 = 7;

const INTEGERS: u32 = 11;

const LONGS: u32 = 12;

const CHARACTERS: u32 = 13;

const BOOLEANS: u32 = 14;

/// How many chars have one box each.
const SMALL_CHARS: u16 = 128;

/// An object that holds a number alone: its site, and its place in a table where there is one such object at most.
#[derive(Clone, Copy, Debug, Drop, Eq, PartialEq)]
pub(crate) struct Entry {
    pub site: u32,
    pub number: i64,
    pub table: Table,
    pub place: Option<u32>,
}

/// What a native of class objects or of boxes gives, or a NullPointerException.
pub(crate) fn entry_of<S: Store>(
    store: &S,
    native: Native,
    arguments: &[Value],
) -> Result<Entry, Exception>
    requires makes { makes_kept native ≡ true }
    requires sorts { have_sorts (sorts_of native) arguments.now ≡ true }
    requires given { AreGiven (S.storage store.now).kept (roles native) (map (read_value
        (S.storage store.now).index) arguments.now) }
    ensures { FindsOr (S.storage store.now).kept native (map (read_value (S.storage store.now).index) arguments.now) result }
{
    match native {
        Native::ObjectGetClass => class_entry(store, reference(arguments)),
        Native::IntegerValueOf => Ok(integer_entry(int(arguments))),
        Native::LongValueOf => Ok(long_entry(long(arguments))),
        Native::CharacterValueOf => Ok(character_entry(int(arguments))),
        Native::BooleanValueOf => Ok(boolean_entry(int(arguments))),
        _ => unreachable!(),
    }
}

/// The class of an object, by its kind.
fn class_entry<S: Store>(store: &S, at: u64) -> Result<Entry, Exception>
    requires { IsReference (S.storage store.now).kept AnObject (serial_of (S.storage store.now).index at) }
    ensures { FindsOr (S.storage store.now).kept natives.ObjectGetClass (values.Ref (serial_of (S.storage store.now).index at) ∷ []) result }
{
    if at == 0 {
        return Err(Exception::NullPointer);
    }
    let kind = store.kind(at);
    Ok(Entry {
        site: CLASS_OBJECTS,
        number: i64::from(kind),
        table: Table::ClassObjects,
        place: Some(kind),
    })
}

/// The box of an int.
fn integer_entry(number: i32) -> Entry
    ensures { (objects : List (Option Object)) → Finds objects natives.IntegerValueOf (values.Int number ∷ []) result }
{
    let wide = i64::from(number);
    Entry {
        site: INTEGERS,
        number: wide,
        table: Table::Integers,
        place: small_place(wide),
    }
}

/// The box of a long.
fn long_entry(number: i64) -> Entry
    ensures { (objects : List (Option Object)) → Finds objects natives.LongValueOf (values.Long number ∷ []) result }
{
    Entry {
        site: LONGS,
        number,
        table: Table::Longs,
        place: small_place(number),
    }
}

/// The box of the char that the low 16 bits of an int are.
fn character_entry(number: i32) -> Entry
    ensures { (objects : List (Option Object)) → Finds objects natives.CharacterValueOf (values.Int number ∷ []) result }
{
    let unit = unit_of(number);
    Entry {
        site: CHARACTERS,
        number: i64::from(unit),
        table: Table::Characters,
        place: low_place(unit),
    }
}

/// The box of the boolean that the lowest bit of an int is.
fn boolean_entry(number: i32) -> Entry
    ensures { (objects : List (Option Object)) → Finds objects natives.BooleanValueOf (values.Int number ∷ []) result }
{
    let bit = low_bit(number);
    Entry {
        site: BOOLEANS,
        number: i64::from(bit),
        table: Table::Booleans,
        place: Some(bit as u32),
    }
}

/// The place of the box of an int or a long, from -128 to 127.
fn small_place(number: i64) -> Option<u32>
    ensures { IsSmall number result }
{
    if number < -128 || number > 127 {
        None
    } else {
        Some((number + 128) as u32)
    }
}

/// The place of the box of a char, from 0 to 127.
fn low_place(unit: u16) -> Option<u32>
    ensures { IsLow unit result }
{
    if unit < SMALL_CHARS {
        Some(u32::from(unit))
    } else {
        None
    }
}
