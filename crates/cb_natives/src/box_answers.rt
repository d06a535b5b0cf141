// Natives of boxes (Java SE 8 API, java.lang.Integer, Long, Character and Boolean).
ghost use Rattle.std.specs.Prelude.{◌≡◌, ◌∷◌, [], IsTrue, List, Ok, Option};
ghost use Rattle.cb_heap.specs.Kept.{is_held};
ghost use Rattle.cb_heap.specs.Reading.{serial_of};
ghost use Rattle.cb_kinds.specs.declared.basic.Basic.TheVariants as basics;
ghost use Rattle.cb_library.specs.declared.native.Native.TheVariants as natives;
ghost use Rattle.cb_machine.specs.Machine.{Machine};
ghost use Rattle.cb_machine.specs.Performing.{gives_int, on_number};
ghost use Rattle.cb_plain.specs.State.{Object};
ghost use Rattle.cb_plain.specs.declared.value.Value.TheVariants as values;
ghost use Rattle.cb_natives.specs.Answers.{Beside, Tells, answered, call_on};
ghost use Rattle.cb_natives.specs.Given.{ABox, ALongBox, HasCore, IsReference};

use crate::held::{Holds, OfBoolean, OfChar, OfInt, held_int, held_long, is_box_of};
use crate::object_answers::truth;
use crate::wrapping::{int_less, long_hash, low_int};
use crate::{Answer, Thrown};
use cb_arith::compare;
use cb_heap::Store;

/// The kinds of the boxes.
const INTEGER: u32 = 15;

const LONG: u32 = 16;

const CHARACTER: u32 = 17;

const BOOLEAN: u32 = 18;

/// `compare` of two ints.
pub(crate) fn compare_ints(one: i32, other: i32) -> Answer
    ensures { (objects : List (Option Object)) → Tells objects natives.IntegerCompare (values.Int one ∷ values.Int other ∷ []) (Ok result) }
{
    Answer::Int(compare(i64::from(one), i64::from(other)))
}

/// `compare` of two longs.
pub(crate) fn compare_longs(one: i64, other: i64) -> Answer
    ensures { (objects : List (Option Object)) → Tells objects natives.LongCompare (values.Long one ∷ values.Long other ∷ []) (Ok result) }
{
    Answer::Int(compare(one, other))
}

/// What a box of an int, a char or a boolean holds.
pub(crate) fn int_held<S: Store, B: Holds>(store: &S, at: u64) -> Result<Answer, Thrown>
    requires { IsReference (S.storage store.now).kept (ABox B.basic) (serial_of (S.storage store.now).index at) }
    ensures { (machine : Machine) (beside : Beside) → on_number (call_on machine (S.storage store.now).kept beside) (serial_of (S.storage store.now).index at) (gives_int (call_on machine (S.storage store.now).kept beside))
        ≡ answered (call_on machine (S.storage store.now).kept beside) result }
{
    Ok(Answer::Int(held_int::<S, B>(store, at)?))
}

/// `longValue` of an Integer.
pub(crate) fn int_as_long<S: Store>(store: &S, at: u64) -> Result<Answer, Thrown>
    requires { IsReference (S.storage store.now).kept (ABox basics.Int) (serial_of (S.storage store.now).index at) }
    ensures { Tells (S.storage store.now).kept natives.IntegerLongValue (values.Ref (serial_of (S.storage store.now).index at) ∷ []) result }
{
    Ok(Answer::Long(i64::from(held_int::<S, OfInt>(store, at)?)))
}

/// `hashCode` of a Boolean.
pub(crate) fn boolean_hash<S: Store>(store: &S, at: u64) -> Result<Answer, Thrown>
    requires { IsReference (S.storage store.now).kept (ABox basics.Boolean) (serial_of (S.storage store.now).index at) }
    ensures { Tells (S.storage store.now).kept natives.BooleanHashCode (values.Ref (serial_of (S.storage store.now).index at) ∷ []) result }
{
    let number = held_int::<S, OfBoolean>(store, at)?;
    Ok(Answer::Int(if number == 0 { 1237 } else { 1231 }))
}

/// `longValue` of a Long.
pub(crate) fn long_held<S: Store>(store: &S, at: u64) -> Result<Answer, Thrown>
    requires { IsReference (S.storage store.now).kept ALongBox (serial_of (S.storage store.now).index at) }
    ensures { Tells (S.storage store.now).kept natives.LongLongValue (values.Ref (serial_of (S.storage store.now).index at) ∷ []) result }
{
    Ok(Answer::Long(held_long(store, at)?))
}

/// `intValue` of a Long.
pub(crate) fn long_as_int<S: Store>(store: &S, at: u64) -> Result<Answer, Thrown>
    requires { IsReference (S.storage store.now).kept ALongBox (serial_of (S.storage store.now).index at) }
    ensures { Tells (S.storage store.now).kept natives.LongIntValue (values.Ref (serial_of (S.storage store.now).index at) ∷ []) result }
{
    Ok(Answer::Int(low_int(held_long(store, at)?)))
}

/// `hashCode` of a Long.
pub(crate) fn hash_of_long<S: Store>(store: &S, at: u64) -> Result<Answer, Thrown>
    requires { IsReference (S.storage store.now).kept ALongBox (serial_of (S.storage store.now).index at) }
    ensures { Tells (S.storage store.now).kept natives.LongHashCode (values.Ref (serial_of (S.storage store.now).index at) ∷ []) result }
{
    Ok(Answer::Int(long_hash(held_long(store, at)?)))
}

/// `compareTo` of Integers.
pub(crate) fn compare_integers<S: Store>(store: &S, at: u64, other: u64) -> Result<Answer, Thrown>
    requires own { IsReference (S.storage store.now).kept (ABox basics.Int) (serial_of (S.storage store.now).index at) }
    requires other { IsReference (S.storage store.now).kept (ABox basics.Int) (serial_of (S.storage store.now).index other) }
    ensures { Tells (S.storage store.now).kept natives.IntegerCompareTo (values.Ref (serial_of (S.storage store.now).index at) ∷ values.Ref (serial_of (S.storage store.now).index other) ∷ []) result }
{
    let second = held_int::<S, OfInt>(store, other)?;
    let first = held_int::<S, OfInt>(store, at)?;
    Ok(compare_ints(first, second))
}

/// `compareTo` of Longs.
pub(crate) fn compare_long_boxes<S: Store>(store: &S, at: u64, other: u64) -> Result<Answer, Thrown>
    requires own { IsReference (S.storage store.now).kept ALongBox (serial_of (S.storage store.now).index at) }
    requires other { IsReference (S.storage store.now).kept ALongBox (serial_of (S.storage store.now).index other) }
    ensures { Tells (S.storage store.now).kept natives.LongCompareTo (values.Ref (serial_of (S.storage store.now).index at) ∷ values.Ref (serial_of (S.storage store.now).index other) ∷ []) result }
{
    let second = held_long(store, other)?;
    let first = held_long(store, at)?;
    Ok(compare_longs(first, second))
}

/// `compareTo` of Characters: the difference of their units.
pub(crate) fn compare_characters<S: Store>(store: &S, at: u64, other: u64) -> Result<Answer, Thrown>
    requires own { IsReference (S.storage store.now).kept (ABox basics.Char) (serial_of (S.storage store.now).index at) }
    requires other { IsReference (S.storage store.now).kept (ABox basics.Char) (serial_of (S.storage store.now).index other) }
    ensures { Tells (S.storage store.now).kept natives.CharacterCompareTo (values.Ref (serial_of (S.storage store.now).index at) ∷ values.Ref (serial_of (S.storage store.now).index other) ∷ []) result }
{
    let second = held_int::<S, OfChar>(store, other)?;
    let first = held_int::<S, OfChar>(store, at)?;
    Ok(Answer::Int(int_less(first, second)))
}

/// `compareTo` of Booleans: `false` is less.
pub(crate) fn compare_booleans<S: Store>(store: &S, at: u64, other: u64) -> Result<Answer, Thrown>
    requires own { IsReference (S.storage store.now).kept (ABox basics.Boolean) (serial_of (S.storage store.now).index at) }
    requires other { IsReference (S.storage store.now).kept (ABox basics.Boolean) (serial_of (S.storage store.now).index other) }
    ensures { Tells (S.storage store.now).kept natives.BooleanCompareTo (values.Ref (serial_of (S.storage store.now).index at) ∷ values.Ref (serial_of (S.storage store.now).index other) ∷ []) result }
{
    let second = held_int::<S, OfBoolean>(store, other)?;
    let first = held_int::<S, OfBoolean>(store, at)?;
    Ok(Answer::Int(int_less(first, second)))
}

/// `equals` of an Integer.
pub(crate) fn equal_integers<S: Store>(store: &S, at: u64, other: u64) -> Result<Answer, Thrown>
    requires own { IsReference (S.storage store.now).kept (ABox basics.Int) (serial_of (S.storage store.now).index at) }
    requires other { IsTrue (is_held (S.storage store.now).kept (serial_of (S.storage store.now).index other)) }
    requires core { HasCore (S.storage store.now).kept }
    ensures { Tells (S.storage store.now).kept natives.IntegerEquals (values.Ref (serial_of (S.storage store.now).index at) ∷ values.Ref (serial_of (S.storage store.now).index other) ∷ []) result }
{
    let number = held_int::<S, OfInt>(store, at)?;
    Ok(truth(is_box_of(store, INTEGER, i64::from(number), other)))
}

/// `equals` of a Long.
pub(crate) fn equal_long_boxes<S: Store>(store: &S, at: u64, other: u64) -> Result<Answer, Thrown>
    requires own { IsReference (S.storage store.now).kept ALongBox (serial_of (S.storage store.now).index at) }
    requires other { IsTrue (is_held (S.storage store.now).kept (serial_of (S.storage store.now).index other)) }
    requires core { HasCore (S.storage store.now).kept }
    ensures { Tells (S.storage store.now).kept natives.LongEquals (values.Ref (serial_of (S.storage store.now).index at) ∷ values.Ref (serial_of (S.storage store.now).index other) ∷ []) result }
{
    let number = held_long(store, at)?;
    Ok(truth(is_box_of(store, LONG, number, other)))
}

/// `equals` of a Character.
pub(crate) fn equal_characters<S: Store>(store: &S, at: u64, other: u64) -> Result<Answer, Thrown>
    requires own { IsReference (S.storage store.now).kept (ABox basics.Char) (serial_of (S.storage store.now).index at) }
    requires other { IsTrue (is_held (S.storage store.now).kept (serial_of (S.storage store.now).index other)) }
    requires core { HasCore (S.storage store.now).kept }
    ensures { Tells (S.storage store.now).kept natives.CharacterEquals (values.Ref (serial_of (S.storage store.now).index at) ∷ values.Ref (serial_of (S.storage store.now).index other) ∷ []) result }
{
    let number = held_int::<S, OfChar>(store, at)?;
    Ok(truth(is_box_of(store, CHARACTER, i64::from(number), other)))
}

/// `equals` of a Boolean.
pub(crate) fn equal_booleans<S: Store>(store: &S, at: u64, other: u64) -> Result<Answer, Thrown>
    requires own { IsReference (S.storage store.now).kept (ABox basics.Boolean) (serial_of (S.storage store.now).index at) }
    requires other { IsTrue (is_held (S.storage store.now).kept (serial_of (S.storage store.now).index other)) }
    requires core { HasCore (S.storage store.now).kept }
    ensures { Tells (S.storage store.now).kept natives.BooleanEquals (values.Ref (serial_of (S.storage store.now).index at) ∷ values.Ref (serial_of (S.storage store.now).index other) ∷ []) result }
{
    let number = held_int::<S, OfBoolean>(store, at)?;
    Ok(truth(is_box_of(store, BOOLEAN, i64::from(number), other)))
}
