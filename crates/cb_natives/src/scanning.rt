// What is asked of the units of strings, which are arrays of chars (Java SE 8 API, java.lang.String).
ghost use Rattle.std.specs.Prelude.{◌≡◌, ◌+◌, ◌<◌, ◌≤◌, ◌∷◌, ◌*ℤ◌, ◌+ℤ◌, ℤ, drop, length, pos};
ghost use Rattle.std.specs.Int.{int_wrap, w32};
ghost use Rattle.cb_heap.specs.Reading.{serial_of};
ghost use Rattle.cb_kinds.specs.Texts.{same_text};
ghost use Rattle.cb_machine.specs.Answering.{begins, compared, ends_with, found_from, text_hash, unit_index};
ghost use Rattle.cb_natives.specs.Given.{HoldsUnits, units_in};

use crate::reading::{count, unit};
use crate::wrapping::{int_product, int_sum};
use cb_heap::Store;

/// A unit, with which the rest of an array begins.
pub(crate) fn unit_at<S: Store>(store: &S, array: u64, place: u32) -> u16
    requires units { HoldsUnits (S.storage store.now).kept (serial_of (S.storage store.now).index array) }
    requires low { place < length (units_in (S.storage store.now).kept (serial_of (S.storage store.now).index array)) }
    ensures { drop place (units_in (S.storage store.now).kept (serial_of (S.storage store.now).index array)) ≡ result ∷ drop (place + 1) (units_in (S.storage store.now).kept (serial_of (S.storage store.now).index array)) }
{
    unit(store, array, place)
}

/// A hash with one more unit.
fn next_hash(sum: i32, unit: u16) -> i32
    ensures { (before : ℤ) → sum ≡ int_wrap w32 before → result ≡ int_wrap w32 (before *ℤ pos 31 +ℤ pos unit) }
{
    int_sum(int_product(sum, 31), i32::from(unit))
}

/// The hash of a string. Linear in its units.
pub(crate) fn hash_of_units<S: Store>(store: &S, array: u64) -> i32
    requires { HoldsUnits (S.storage store.now).kept (serial_of (S.storage store.now).index array) }
    ensures { result ≡ text_hash (units_in (S.storage store.now).kept (serial_of (S.storage store.now).index array)) }
{
    let mut sum = 0;
    for place in 0..count(store, array) {
        sum = next_hash(sum, unit_at(store, array, place));
    }
    sum
}

/// How strings compare: by the first units that differ, or else by their lengths. Linear in their units.
pub(crate) fn compare_units<S: Store>(store: &S, one: u64, other: u64) -> i32
    requires one { HoldsUnits (S.storage store.now).kept (serial_of (S.storage store.now).index one) }
    requires other { HoldsUnits (S.storage store.now).kept (serial_of (S.storage store.now).index other) }
    ensures { result ≡ compared (units_in (S.storage store.now).kept (serial_of (S.storage store.now).index one)) (units_in (S.storage store.now).kept (serial_of (S.storage store.now).index other)) }
{
    let (units, others) = (count(store, one), count(store, other));
    for place in 0..units.min(others) {
        let (unit, against) = (unit_at(store, one, place), unit_at(store, other, place));
        if unit != against {
            return i32::from(unit) - i32::from(against);
        }
    }
    units as i32 - others as i32
}

/// Whether a string goes on with another one from a place on. Linear in the other one's units.
pub(crate) fn begins_at<S: Store>(store: &S, array: u64, start: u32, part: u64) -> bool
    requires array { HoldsUnits (S.storage store.now).kept (serial_of (S.storage store.now).index array) }
    requires part { HoldsUnits (S.storage store.now).kept (serial_of (S.storage store.now).index part) }
    requires low { start ≤ length (units_in (S.storage store.now).kept (serial_of (S.storage store.now).index array)) }
    ensures { result ≡ begins (drop start (units_in (S.storage store.now).kept (serial_of (S.storage store.now).index array))) (units_in (S.storage store.now).kept (serial_of (S.storage store.now).index part)) }
{
    if count(store, array) - start < count(store, part) {
        return false;
    }
    for place in 0..count(store, part) {
        if unit_at(store, array, start + place) != unit_at(store, part, place) {
            return false;
        }
    }
    true
}

/// Whether two strings have the same units. Linear in them.
pub(crate) fn same_units<S: Store>(store: &S, one: u64, other: u64) -> bool
    requires one { HoldsUnits (S.storage store.now).kept (serial_of (S.storage store.now).index one) }
    requires other { HoldsUnits (S.storage store.now).kept (serial_of (S.storage store.now).index other) }
    ensures { result ≡ same_text (units_in (S.storage store.now).kept (serial_of (S.storage store.now).index one)) (units_in (S.storage store.now).kept (serial_of (S.storage store.now).index other)) }
{
    count(store, one) == count(store, other) && begins_at(store, one, 0, other)
}

/// Whether a string ends with another one. Linear in the other one's units.
pub(crate) fn ends_units<S: Store>(store: &S, array: u64, end: u64) -> bool
    requires array { HoldsUnits (S.storage store.now).kept (serial_of (S.storage store.now).index array) }
    requires end { HoldsUnits (S.storage store.now).kept (serial_of (S.storage store.now).index end) }
    ensures { result ≡ ends_with (units_in (S.storage store.now).kept (serial_of (S.storage store.now).index array)) (units_in (S.storage store.now).kept (serial_of (S.storage store.now).index end)) }
{
    let (units, ends) = (count(store, array), count(store, end));
    ends <= units && begins_at(store, array, units - ends, end)
}

/// Where a unit stands first, or -1. Linear in the string's units.
pub(crate) fn find_unit<S: Store>(store: &S, array: u64, wanted: i32) -> i32
    requires { HoldsUnits (S.storage store.now).kept (serial_of (S.storage store.now).index array) }
    ensures { result ≡ unit_index (units_in (S.storage store.now).kept (serial_of (S.storage store.now).index array)) wanted }
{
    for place in 0..count(store, array) {
        if i32::from(unit(store, array, place)) == wanted {
            return place as i32;
        }
    }
    -1
}

/// Where a string stands first in another one, or -1. As Java's, of the product of their lengths at worst.
pub(crate) fn find_units<S: Store>(store: &S, array: u64, part: u64) -> i32
    requires array { HoldsUnits (S.storage store.now).kept (serial_of (S.storage store.now).index array) }
    requires part { HoldsUnits (S.storage store.now).kept (serial_of (S.storage store.now).index part) }
    ensures { result ≡ found_from 0 (units_in (S.storage store.now).kept (serial_of (S.storage store.now).index array)) (units_in (S.storage store.now).kept (serial_of (S.storage store.now).index part)) }
{
    let units = count(store, array);
    for place in 0..units {
        if begins_at(store, array, place, part) {
            return place as i32;
        }
    }
    if count(store, part) == 0 {
        units as i32
    } else {
        -1
    }
}
