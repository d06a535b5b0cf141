// Natives of strings and of builders (Java SE 8 API, java.lang.String and StringBuilder).
ghost use Rattle.std.specs.Prelude.{◌≡◌, ◌∷◌, [], IsTrue, length, map, pos, true};
ghost use Rattle.cb_heap.specs.Kept.{is_held};
ghost use Rattle.cb_heap.specs.Reading.{read_value, serial_of};
ghost use Rattle.cb_library.specs.declared.native.Native.TheVariants as natives;
ghost use Rattle.cb_machine.specs.Answering.{unit_at};
ghost use Rattle.cb_machine.specs.Machine.{Machine};
ghost use Rattle.cb_machine.specs.Performing.{gives_int};
ghost use Rattle.cb_plain.specs.declared.value.Value.TheVariants as values;
ghost use Rattle.cb_natives.specs.Answers.{Beside, Tells, answered, call_on, gives_text, on_built};
ghost use Rattle.cb_natives.specs.Given.{ABuilder, AText, AreGiven, HasCore, IsReference, have_sorts, roles, sorts_of};

use crate::arguments::{reference, reference_int, references};
use crate::boxes::box_answer;
use crate::object_answers::truth;
use crate::reading::{count, unit};
use crate::scanning::{begins_at, compare_units, ends_units, find_unit, find_units, hash_of_units};
use crate::string_reading::{built_in, is_string_of, text_in};
use crate::{Answer, Exception, Thrown};
use cb_heap::Store;
use cb_library::Native;
use cb_plain::Value;

/// What a native of strings, of boxes or of numbers gives or throws.
pub(crate) fn text_answer<S: Store>(
    store: &S,
    native: Native,
    arguments: &[Value],
) -> Result<Answer, Thrown>
    requires gives { gives_text native ≡ true }
    requires sorts { have_sorts (sorts_of native) arguments.now ≡ true }
    requires given { AreGiven (S.storage store.now).kept (roles native) (map (read_value
        (S.storage store.now).index) arguments.now) }
    requires core { HasCore (S.storage store.now).kept }
    ensures { Tells (S.storage store.now).kept native (map (read_value (S.storage store.now).index) arguments.now) result }
{
    match native {
        Native::StringLength => length_of(store, reference(arguments)),
        Native::StringIsEmpty => is_empty(store, reference(arguments)),
        Native::StringCharAt => {
            let (at, place) = reference_int(arguments);
            char_at(store, at, place)
        }
        Native::StringEquals => {
            let (at, other) = references(arguments);
            equal_strings(store, at, other)
        }
        Native::StringHashCode => string_hash(store, reference(arguments)),
        Native::StringCompareTo => {
            let (at, other) = references(arguments);
            compare_strings(store, at, other)
        }
        Native::StringIndexOfUnit => {
            let (at, wanted) = reference_int(arguments);
            index_of_unit(store, at, wanted)
        }
        Native::StringIndexOfString => {
            let (at, part) = references(arguments);
            index_of_string(store, at, part)
        }
        Native::StringStartsWith => {
            let (at, front) = references(arguments);
            starts_with(store, at, front)
        }
        Native::StringEndsWith => {
            let (at, end) = references(arguments);
            ends_with(store, at, end)
        }
        Native::StringBuilderLength => built_length(store, reference(arguments)),
        Native::StringBuilderCharAt => {
            let (at, place) = reference_int(arguments);
            built_char_at(store, at, place)
        }
        _ => box_answer(store, native, arguments),
    }
}

/// `length` of a string.
fn length_of<S: Store>(store: &S, at: u64) -> Result<Answer, Thrown>
    requires { IsReference (S.storage store.now).kept AText (serial_of (S.storage store.now).index at) }
    ensures { Tells (S.storage store.now).kept natives.StringLength (values.Ref (serial_of (S.storage store.now).index at) ∷ []) result }
{
    let array = text_in(store, at)?;
    Ok(Answer::Int(count(store, array) as i32))
}

/// `isEmpty`.
fn is_empty<S: Store>(store: &S, at: u64) -> Result<Answer, Thrown>
    requires { IsReference (S.storage store.now).kept AText (serial_of (S.storage store.now).index at) }
    ensures { Tells (S.storage store.now).kept natives.StringIsEmpty (values.Ref (serial_of (S.storage store.now).index at) ∷ []) result }
{
    let array = text_in(store, at)?;
    Ok(truth(count(store, array) == 0))
}

/// `charAt` of a string.
fn char_at<S: Store>(store: &S, at: u64, place: i32) -> Result<Answer, Thrown>
    requires { IsReference (S.storage store.now).kept AText (serial_of (S.storage store.now).index at) }
    ensures { Tells (S.storage store.now).kept natives.StringCharAt (values.Ref (serial_of (S.storage store.now).index at) ∷ values.Int place ∷ []) result }
{
    let array = text_in(store, at)?;
    match u32::try_from(place) {
        Ok(place) if place < count(store, array) => Ok(Answer::Int(i32::from(unit(
            store, array, place,
        )))),
        _ => Err(Thrown::Of(Exception::StringIndexOutOfBounds)),
    }
}

/// `equals` of a string.
fn equal_strings<S: Store>(store: &S, at: u64, other: u64) -> Result<Answer, Thrown>
    requires own { IsReference (S.storage store.now).kept AText (serial_of (S.storage store.now).index at) }
    requires other { IsTrue (is_held (S.storage store.now).kept (serial_of (S.storage store.now).index other)) }
    requires core { HasCore (S.storage store.now).kept }
    ensures { Tells (S.storage store.now).kept natives.StringEquals (values.Ref (serial_of (S.storage store.now).index at) ∷ values.Ref (serial_of (S.storage store.now).index other) ∷ []) result }
{
    let array = text_in(store, at)?;
    Ok(truth(is_string_of(store, array, other)))
}

/// `hashCode` of a string.
fn string_hash<S: Store>(store: &S, at: u64) -> Result<Answer, Thrown>
    requires { IsReference (S.storage store.now).kept AText (serial_of (S.storage store.now).index at) }
    ensures { Tells (S.storage store.now).kept natives.StringHashCode (values.Ref (serial_of (S.storage store.now).index at) ∷ []) result }
{
    let array = text_in(store, at)?;
    Ok(Answer::Int(hash_of_units(store, array)))
}

/// `compareTo` of strings.
fn compare_strings<S: Store>(store: &S, at: u64, other: u64) -> Result<Answer, Thrown>
    requires own { IsReference (S.storage store.now).kept AText (serial_of (S.storage store.now).index at) }
    requires other { IsReference (S.storage store.now).kept AText (serial_of (S.storage store.now).index other) }
    ensures { Tells (S.storage store.now).kept natives.StringCompareTo (values.Ref (serial_of (S.storage store.now).index at) ∷ values.Ref (serial_of (S.storage store.now).index other) ∷ []) result }
{
    let other = text_in(store, other)?;
    let array = text_in(store, at)?;
    Ok(Answer::Int(compare_units(store, array, other)))
}

/// `indexOf(int)`.
fn index_of_unit<S: Store>(store: &S, at: u64, wanted: i32) -> Result<Answer, Thrown>
    requires { IsReference (S.storage store.now).kept AText (serial_of (S.storage store.now).index at) }
    ensures { Tells (S.storage store.now).kept natives.StringIndexOfUnit (values.Ref (serial_of (S.storage store.now).index at) ∷ values.Int wanted ∷ []) result }
{
    let array = text_in(store, at)?;
    Ok(Answer::Int(find_unit(store, array, wanted)))
}

/// `indexOf(String)`.
fn index_of_string<S: Store>(store: &S, at: u64, part: u64) -> Result<Answer, Thrown>
    requires own { IsReference (S.storage store.now).kept AText (serial_of (S.storage store.now).index at) }
    requires other { IsReference (S.storage store.now).kept AText (serial_of (S.storage store.now).index part) }
    ensures { Tells (S.storage store.now).kept natives.StringIndexOfString (values.Ref (serial_of (S.storage store.now).index at) ∷ values.Ref (serial_of (S.storage store.now).index part) ∷ []) result }
{
    let other = text_in(store, part)?;
    let array = text_in(store, at)?;
    Ok(Answer::Int(find_units(store, array, other)))
}

/// `startsWith`.
fn starts_with<S: Store>(store: &S, at: u64, front: u64) -> Result<Answer, Thrown>
    requires own { IsReference (S.storage store.now).kept AText (serial_of (S.storage store.now).index at) }
    requires other { IsReference (S.storage store.now).kept AText (serial_of (S.storage store.now).index front) }
    ensures { Tells (S.storage store.now).kept natives.StringStartsWith (values.Ref (serial_of (S.storage store.now).index at) ∷ values.Ref (serial_of (S.storage store.now).index front) ∷ []) result }
{
    let other = text_in(store, front)?;
    let array = text_in(store, at)?;
    Ok(truth(begins_at(store, array, 0, other)))
}

/// `endsWith`.
fn ends_with<S: Store>(store: &S, at: u64, end: u64) -> Result<Answer, Thrown>
    requires own { IsReference (S.storage store.now).kept AText (serial_of (S.storage store.now).index at) }
    requires other { IsReference (S.storage store.now).kept AText (serial_of (S.storage store.now).index end) }
    ensures { Tells (S.storage store.now).kept natives.StringEndsWith (values.Ref (serial_of (S.storage store.now).index at) ∷ values.Ref (serial_of (S.storage store.now).index end) ∷ []) result }
{
    let other = text_in(store, end)?;
    let array = text_in(store, at)?;
    Ok(truth(ends_units(store, array, other)))
}

/// `length` of a builder.
fn built_length<S: Store>(store: &S, at: u64) -> Result<Answer, Thrown>
    requires { IsReference (S.storage store.now).kept ABuilder (serial_of (S.storage store.now).index at) }
    ensures { (machine : Machine) (beside : Beside) → on_built (call_on machine (S.storage store.now).kept beside) (serial_of (S.storage store.now).index at) (λ units. gives_int (call_on machine (S.storage store.now).kept beside) (pos (length units)))
        ≡ answered (call_on machine (S.storage store.now).kept beside) result }
{
    let (_, units) = built_in(store, at)?;
    Ok(Answer::Int(units as i32))
}

/// `charAt` of a builder.
fn built_char_at<S: Store>(store: &S, at: u64, place: i32) -> Result<Answer, Thrown>
    requires { IsReference (S.storage store.now).kept ABuilder (serial_of (S.storage store.now).index at) }
    ensures { (machine : Machine) (beside : Beside) → on_built (call_on machine (S.storage store.now).kept beside) (serial_of (S.storage store.now).index at) (unit_at (call_on machine (S.storage store.now).kept beside) place)
        ≡ answered (call_on machine (S.storage store.now).kept beside) result }
{
    let (array, units) = built_in(store, at)?;
    match u32::try_from(place) {
        Ok(place) if place < units => Ok(Answer::Int(i32::from(unit(store, array, place)))),
        _ => Err(Thrown::Of(Exception::StringIndexOutOfBounds)),
    }
}
