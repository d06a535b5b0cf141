// The text that a native gives as a new String.
ghost use Rattle.std.specs.Prelude.{◌≡◌, ◌∷◌, [], map, true};
ghost use Rattle.cb_heap.specs.Reading.{read_value};
ghost use Rattle.cb_plain.specs.declared.value.Value.TheVariants as values;
ghost use Rattle.cb_shapes.specs.declared.sort.Sort.TheVariants as sorts;
ghost use Rattle.cb_natives.specs.Given.{AreGiven, have_sorts, roles, sorts_of};
ghost use Rattle.cb_natives.specs.MakingTexts.{IsTextOf, TellsText, makes_box_text, makes_text, makes_value_text};

use crate::Exception;
use crate::arguments::{int, long, reference, reference_int, references};
use crate::pieces::Text;
use crate::texts::{
    built_text, characters_text, class_text, concat_text, object_text, part_text, replaced_text,
    rest_text, throwable_text,
};
use crate::value_texts::{
    as_truth, as_unit, boolean_text, character_text, in_decimal, in_hex, integer_text, long_text,
};
use cb_heap::Store;
use cb_library::Native;
use cb_plain::Value;

/// The text of a native, or the exception that it throws in its place. Takes constant time.
pub(crate) fn text_of<S: Store>(
    store: &S,
    native: Native,
    arguments: &[Value],
) -> Result<Text, Exception>
    requires makes { makes_text native ≡ true }
    requires sorts { have_sorts (sorts_of native) arguments.now ≡ true }
    requires given { AreGiven (S.storage store.now).kept (roles native) (map (read_value
        (S.storage store.now).index) arguments.now) }
    ensures text { TellsText (S.storage store.now).kept (S.storage store.now).index native (map (read_value
        (S.storage store.now).index) arguments.now) result }
    ensures is { IsTextOf (S.storage store.now).kept (S.storage store.now).index result }
{
    match native {
        Native::ObjectSay => {
            let (at, hash) = reference_int(arguments);
            object_text(store, at, hash)
        }
        Native::StringConcat => {
            let (at, other) = references(arguments);
            concat_text(store, at, other)
        }
        Native::StringSubstringFrom => {
            let (at, from) = reference_int(arguments);
            rest_text(store, at, from)
        }
        Native::StringSubstring => {
            let (at, from, to) = reference_ints(arguments);
            part_text(store, at, from, to)
        }
        Native::StringReplace => {
            let (at, old, new) = reference_ints(arguments);
            replaced_text(store, at, old, new)
        }
        Native::StringBuilderToString => built_text(store, reference(arguments)),
        Native::ClassGetName => class_text(store, reference(arguments)),
        Native::ThrowableSay => {
            let (at, message) = references(arguments);
            throwable_text(store, at, message)
        }
        _ => value_text(store, native, arguments),
    }
}

/// The text of a native of `String.valueOf`, or of numbers, chars and booleans.
fn value_text<S: Store>(store: &S, native: Native, arguments: &[Value]) -> Result<Text, Exception>
    requires makes { makes_value_text native ≡ true }
    requires sorts { have_sorts (sorts_of native) arguments.now ≡ true }
    requires given { AreGiven (S.storage store.now).kept (roles native) (map (read_value
        (S.storage store.now).index) arguments.now) }
    ensures text { TellsText (S.storage store.now).kept (S.storage store.now).index native (map (read_value
        (S.storage store.now).index) arguments.now) result }
    ensures is { IsTextOf (S.storage store.now).kept (S.storage store.now).index result }
{
    match native {
        Native::StringValueOfInt => Ok(in_decimal(i64::from(int(arguments)))),
        Native::StringValueOfLong => Ok(in_decimal(long(arguments))),
        Native::StringValueOfChar => Ok(as_unit(int(arguments))),
        Native::StringValueOfBoolean => Ok(as_truth(int(arguments))),
        Native::StringValueOfChars => characters_text(store, reference(arguments)),
        _ => box_text(store, native, arguments),
    }
}

/// The text of a native of numbers, chars and booleans.
fn box_text<S: Store>(store: &S, native: Native, arguments: &[Value]) -> Result<Text, Exception>
    requires makes { makes_box_text native ≡ true }
    requires sorts { have_sorts (sorts_of native) arguments.now ≡ true }
    requires given { AreGiven (S.storage store.now).kept (roles native) (map (read_value
        (S.storage store.now).index) arguments.now) }
    ensures text { TellsText (S.storage store.now).kept (S.storage store.now).index native (map (read_value
        (S.storage store.now).index) arguments.now) result }
    ensures is { IsTextOf (S.storage store.now).kept (S.storage store.now).index result }
{
    match native {
        Native::IntegerTextOf => Ok(in_decimal(i64::from(int(arguments)))),
        Native::IntegerToString => integer_text(store, reference(arguments)),
        Native::IntegerToHexString => Ok(in_hex(int(arguments))),
        Native::LongTextOf => Ok(in_decimal(long(arguments))),
        Native::LongToString => long_text(store, reference(arguments)),
        Native::CharacterTextOf => Ok(as_unit(int(arguments))),
        Native::CharacterToString => character_text(store, reference(arguments)),
        Native::BooleanTextOf => Ok(as_truth(int(arguments))),
        Native::BooleanToString => boolean_text(store, reference(arguments)),
        _ => unreachable!(),
    }
}

/// A reference and two ints.
fn reference_ints(arguments: &[Value]) -> (u64, i32, i32)
    requires { have_sorts (sorts.Reference ∷ sorts.Int ∷ sorts.Int ∷ []) arguments.now ≡ true }
    ensures { arguments.now ≡ values.Ref result.0 ∷ values.Int result.1 ∷ values.Int result.2 ∷ [] }
{
    match arguments {
        [Value::Ref(at), Value::Int(one), Value::Int(other)] => (*at, *one, *other),
        _ => unreachable!(),
    }
}
