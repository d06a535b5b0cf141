// Strings and builders that natives read.
ghost use Rattle.std.specs.Prelude.{◌≡◌, ◌≤◌, ◌<◌, ℕ, IfOk, IfSome, IsTrue, List, Option, Some, length, take};
ghost use Rattle.cb_heap.specs.Kept.{is_held};
ghost use Rattle.cb_heap.specs.Reading.{serial_of};
ghost use Rattle.cb_machine.specs.Answering.{equal_texts, of_kind};
ghost use Rattle.cb_machine.specs.Machine.{Machine};
ghost use Rattle.cb_machine.specs.Performing.{Performed, counted, on_text};
ghost use Rattle.cb_plain.specs.State.{Object};
ghost use Rattle.cb_plain.specs.Updates.{object_in};
ghost use Rattle.cb_natives.specs.Answers.{Beside, call_on, on_built, on_given, with_front, with_units};
ghost use Rattle.cb_natives.specs.Equal.{equal_units};
ghost use Rattle.cb_natives.specs.Given.{ABuilder, AText, HasText, HoldsUnits, IsReference, units_in};

use crate::held::{OfInt, int_in};
use crate::reading::{chars_of, count};
use crate::scanning::same_units;
use crate::{Exception, Thrown};
use cb_heap::Store;

/// The kind of strings.
const STRING: u32 = 8;

/// The slots in which a builder has its array and how many of its chars count.
const CHARS: u32 = 0;

const COUNT: u32 = 1;

/// The place of the array of a string's chars, 0 where it has none, or a NullPointerException where there is no string.
pub(crate) fn text_in<S: Store>(store: &S, at: u64) -> Result<u64, Thrown>
    requires { IsReference (S.storage store.now).kept AText (serial_of (S.storage store.now).index at) }
    ensures text { (machine : Machine) (beside : Beside) (go : List ℕ → Option Performed)
        → on_text (call_on machine (S.storage store.now).kept beside) (serial_of (S.storage store.now).index at) go
        ≡ on_given (call_on machine (S.storage store.now).kept beside) (with_units (call_on machine (S.storage store.now).kept beside) (S.storage store.now).index go) result }
    ensures units { IfOk result (λ array. HoldsUnits (S.storage store.now).kept (serial_of
        (S.storage store.now).index array)) }
{
    match chars_of(store, at) {
        Some(array) => Ok(array),
        None => Err(Thrown::Of(Exception::NullPointer)),
    }
}

/// How many of so many units count.
fn front(units: u32, number: i32) -> u32
    ensures within { result ≤ units }
    ensures same { (list : List ℕ) → length list ≡ units → take result list ≡ counted list number }
{
    if number < 0 {
        0
    } else {
        (number as u32).min(units)
    }
}

/// The place of a builder's array of chars, and how many of these count, or a NullPointerException where there is no builder.
pub(crate) fn built_in<S: Store>(store: &S, at: u64) -> Result<(u64, u32), Thrown>
    requires { IsReference (S.storage store.now).kept ABuilder (serial_of (S.storage store.now).index at) }
    ensures built { (machine : Machine) (beside : Beside) (go : List ℕ → Option Performed)
        → on_built (call_on machine (S.storage store.now).kept beside) (serial_of (S.storage store.now).index at) go
        ≡ on_given (call_on machine (S.storage store.now).kept beside) (with_front (call_on machine (S.storage store.now).kept beside) (S.storage store.now).index go) result }
    ensures units { IfOk result (λ front. HoldsUnits (S.storage store.now).kept (serial_of
        (S.storage store.now).index front.0)) }
    ensures within { IfOk result (λ front. front.1 ≤ length (units_in (S.storage store.now).kept (serial_of
        (S.storage store.now).index front.0))) }
{
    if at == 0 {
        return Err(Thrown::Of(Exception::NullPointer));
    }
    let array = store.get_ref(at, CHARS);
    let number = int_in::<S, OfInt>(store, at, COUNT);
    Ok((array, front(count(store, array), number)))
}

/// The place of the array of a string's chars, if the object is a string.
fn string_at<S: Store>(store: &S, other: u64) -> Option<u64>
    requires held { IsTrue (is_held (S.storage store.now).kept (serial_of (S.storage store.now).index other)) }
    requires text { (object : Object) → object_in (S.storage store.now).kept (serial_of (S.storage store.now).index other) ≡ Some object → object.kind ≡ 8
        → HasText (S.storage store.now).kept (serial_of (S.storage store.now).index other) }
    ensures text { (machine : Machine) (beside : Beside) (units : List ℕ)
        → equal_texts (call_on machine (S.storage store.now).kept beside).state units (of_kind (S.storage store.now).kept 8 (serial_of (S.storage store.now).index other))
        ≡ equal_units (S.storage store.now).kept (S.storage store.now).index units result }
    ensures units { IfSome result (λ array. HoldsUnits (S.storage store.now).kept (serial_of
        (S.storage store.now).index array)) }
{
    if other == 0 || store.kind(other) != STRING {
        return None;
    }
    Some(store.get_ref(other, CHARS))
}

/// Whether an object is a string of these units.
pub(crate) fn is_string_of<S: Store>(store: &S, array: u64, other: u64) -> bool
    requires units { HoldsUnits (S.storage store.now).kept (serial_of (S.storage store.now).index array) }
    requires held { IsTrue (is_held (S.storage store.now).kept (serial_of (S.storage store.now).index other)) }
    requires text { (object : Object) → object_in (S.storage store.now).kept (serial_of (S.storage store.now).index other) ≡ Some object → object.kind ≡ 8
        → HasText (S.storage store.now).kept (serial_of (S.storage store.now).index other) }
    ensures { (machine : Machine) (beside : Beside)
        → equal_texts (call_on machine (S.storage store.now).kept beside).state (units_in (S.storage store.now).kept (serial_of (S.storage store.now).index array)) (of_kind (S.storage store.now).kept 8 (serial_of (S.storage store.now).index other))
        ≡ result }
{
    match string_at(store, other) {
        Some(against) => same_units(store, array, against),
        None => false,
    }
}
