// Which native of boxes it is (Java SE 8 API, java.lang.Integer, Long, Character and Boolean).
ghost use Rattle.std.specs.Prelude.{◌≡◌, map, true};
ghost use Rattle.cb_heap.specs.Reading.{read_value};
ghost use Rattle.cb_natives.specs.Answers.{Tells, gives_box};
ghost use Rattle.cb_natives.specs.Given.{AreGiven, HasCore, have_sorts, roles, sorts_of};

use crate::arguments::{ints, longs, reference, references};
use crate::box_answers::{
    boolean_hash, compare_booleans, compare_characters, compare_integers, compare_ints,
    compare_long_boxes, compare_longs, equal_booleans, equal_characters, equal_integers,
    equal_long_boxes, hash_of_long, int_as_long, int_held, long_as_int, long_held,
};
use crate::held::{OfBoolean, OfChar, OfInt};
use crate::math_answers::math_answer;
use crate::parsing::{parse_int, parse_long};
use crate::{Answer, Thrown};
use cb_heap::Store;
use cb_library::Native;
use cb_plain::Value;

/// What a native of boxes or of numbers gives or throws.
pub(crate) fn box_answer<S: Store>(
    store: &S,
    native: Native,
    arguments: &[Value],
) -> Result<Answer, Thrown>
    requires gives { gives_box native ≡ true }
    requires sorts { have_sorts (sorts_of native) arguments.now ≡ true }
    requires given { AreGiven (S.storage store.now).kept (roles native) (map (read_value
        (S.storage store.now).index) arguments.now) }
    requires core { HasCore (S.storage store.now).kept }
    ensures { Tells (S.storage store.now).kept native (map (read_value (S.storage store.now).index) arguments.now) result }
{
    match native {
        Native::IntegerParseInt => parse_int(store, reference(arguments)),
        Native::IntegerCompare => {
            let (one, other) = ints(arguments);
            Ok(compare_ints(one, other))
        }
        Native::IntegerIntValue | Native::IntegerHashCode => int_held::<S, OfInt>(
            store,
            reference(arguments),
        ),
        Native::IntegerLongValue => int_as_long(store, reference(arguments)),
        Native::IntegerEquals => {
            let (at, other) = references(arguments);
            equal_integers(store, at, other)
        }
        Native::IntegerCompareTo => {
            let (at, other) = references(arguments);
            compare_integers(store, at, other)
        }
        Native::LongParseLong => parse_long(store, reference(arguments)),
        Native::LongCompare => {
            let (one, other) = longs(arguments);
            Ok(compare_longs(one, other))
        }
        Native::LongIntValue => long_as_int(store, reference(arguments)),
        Native::LongLongValue => long_held(store, reference(arguments)),
        Native::LongEquals => {
            let (at, other) = references(arguments);
            equal_long_boxes(store, at, other)
        }
        Native::LongHashCode => hash_of_long(store, reference(arguments)),
        Native::LongCompareTo => {
            let (at, other) = references(arguments);
            compare_long_boxes(store, at, other)
        }
        Native::CharacterCharValue | Native::CharacterHashCode => int_held::<S, OfChar>(
            store,
            reference(arguments),
        ),
        Native::CharacterEquals => {
            let (at, other) = references(arguments);
            equal_characters(store, at, other)
        }
        Native::CharacterCompareTo => {
            let (at, other) = references(arguments);
            compare_characters(store, at, other)
        }
        Native::BooleanBooleanValue => int_held::<S, OfBoolean>(store, reference(arguments)),
        Native::BooleanEquals => {
            let (at, other) = references(arguments);
            equal_booleans(store, at, other)
        }
        Native::BooleanHashCode => boolean_hash(store, reference(arguments)),
        Native::BooleanCompareTo => {
            let (at, other) = references(arguments);
            compare_booleans(store, at, other)
        }
        _ => math_answer(native, arguments),
    }
}
