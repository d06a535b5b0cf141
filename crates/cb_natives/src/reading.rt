// What natives read of objects.
ghost use Rattle.std.specs.Prelude.{◌≡◌, ◌<◌, ℕ, List, Option, length, slice_get, IfSome, Some};
ghost use Rattle.cb_heap.specs.Reading.{serial_of};
ghost use Rattle.cb_machine.specs.Machine.{Machine};
ghost use Rattle.cb_machine.specs.Performing.{Performed, on_text};
ghost use Rattle.cb_natives.specs.Answers.{Beside, call_on, on_units};
ghost use Rattle.cb_natives.specs.Given.{HoldsUnits, IsReference, units_in};
ghost use Rattle.cb_natives.specs.Given.{AText};

use cb_heap::Store;

/// The place of the array of a string's chars, 0 where it has none; or nothing where there is no string.
pub(crate) fn chars_of<S: Store>(store: &S, at: u64) -> Option<u64>
    requires { IsReference (S.storage store.now).kept AText (serial_of (S.storage store.now).index at) }
    ensures text { (machine : Machine) (beside : Beside) (go : List ℕ → Option Performed)
        → on_text (call_on machine (S.storage store.now).kept beside) (serial_of (S.storage store.now).index at) go
        ≡ on_units (call_on machine (S.storage store.now).kept beside) (S.storage store.now).index go result }
    ensures units { IfSome result (λ array. HoldsUnits (S.storage store.now).kept (serial_of
        (S.storage store.now).index array)) }
{
    if at == 0 {
        return None;
    }
    Some(store.get_ref(at, 0))
}

/// How many units an array of chars has, none where it is null.
pub(crate) fn count<S: Store>(store: &S, array: u64) -> u32
    requires { HoldsUnits (S.storage store.now).kept (serial_of (S.storage store.now).index array) }
    ensures count { result ≡ length (units_in (S.storage store.now).kept (serial_of (S.storage store.now).index array)) }
    ensures few { result < 2147483648 }
{
    if array == 0 { 0 } else { store.length(array) }
}

/// A unit of an array of chars.
pub(crate) fn unit<S: Store>(store: &S, array: u64, place: u32) -> u16
    requires units { HoldsUnits (S.storage store.now).kept (serial_of (S.storage store.now).index array) }
    requires low { place < length (units_in (S.storage store.now).kept (serial_of (S.storage store.now).index array)) }
    ensures { slice_get (units_in (S.storage store.now).kept (serial_of (S.storage store.now).index array)) place
        ≡ Some result }
{
    store.get(array, place) as u16
}
