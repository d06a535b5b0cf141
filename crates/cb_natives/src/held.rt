// Numbers that objects hold.
ghost use Rattle.std.specs.Prelude.{◌≡◌, ℤ, IfOk, IsTrue, Option, Some};
ghost use Rattle.cb_heap.specs.Kept.{content_at, is_held, is_number};
ghost use Rattle.cb_heap.specs.Reading.{serial_of};
ghost use Rattle.cb_kinds.specs.declared.basic.Basic.{Basic};
ghost use Rattle.cb_kinds.specs.declared.basic.Basic.TheVariants as basics;
ghost use Rattle.cb_machine.specs.Answering.{equal_numbers, of_kind, on_ordinal};
ghost use Rattle.cb_machine.specs.Machine.{Machine};
ghost use Rattle.cb_machine.specs.Performing.{Performed, on_number};
ghost use Rattle.cb_machine.specs.Values.{kept_int};
ghost use Rattle.cb_plain.specs.State.{Number, Object};
ghost use Rattle.cb_plain.specs.Updates.{object_in};
ghost use Rattle.cb_natives.specs.Answers.{Beside, call_on, on_given};
ghost use Rattle.cb_natives.specs.Given.{ABox, AConstant, ALongBox, HoldsInt, IsReference};

use crate::wrapping::long_in;
use crate::{Exception, Thrown};
use cb_heap::Store;

/// The slot in which a box has what it holds, and that in which a constant of an enum has its ordinal.
const VALUE: u32 = 0;

const ORDINAL: u32 = 1;

/// Which ints a word holds.
pub(crate) trait Holds {
    ghost basic: { Basic };
}

/// Each int.
pub(crate) struct OfInt;

impl Holds for OfInt {
    ghost basic = { basics.Int };
}

/// The units of UTF-16.
pub(crate) struct OfChar;

impl Holds for OfChar {
    ghost basic = { basics.Char };
}

/// 0 and 1.
pub(crate) struct OfBoolean;

impl Holds for OfBoolean {
    ghost basic = { basics.Boolean };
}

/// The number that a word of an object holds.
pub(crate) fn number_in<S: Store>(store: &S, at: u64, slot: u32) -> i64
    requires { IsTrue (is_number (content_at (S.storage store.now).kept (serial_of (S.storage store.now).index at) slot)) }
    ensures { content_at (S.storage store.now).kept (serial_of (S.storage store.now).index at) slot ≡ Some (Number result) }
{
    long_in(store.get(at, slot))
}

/// The int that a word of an object holds.
pub(crate) fn int_in<S: Store, B: Holds>(store: &S, at: u64, slot: u32) -> i32
    requires { HoldsInt (S.storage store.now).kept (serial_of (S.storage store.now).index at) slot B.basic }
    ensures is { content_at (S.storage store.now).kept (serial_of (S.storage store.now).index at) slot ≡ Some (Number result) }
    ensures kept { kept_int B.basic result ≡ result }
{
    number_in(store, at, slot) as i32
}

/// The ordinal of a constant of an enum, or a NullPointerException where there is none.
pub(crate) fn ordinal_in<S: Store>(store: &S, at: u64) -> Result<i32, Thrown>
    requires { IsReference (S.storage store.now).kept AConstant (serial_of (S.storage store.now).index at) }
    ensures { (machine : Machine) (beside : Beside) (go : ℤ → Option Performed)
        → on_ordinal (call_on machine (S.storage store.now).kept beside) (serial_of (S.storage store.now).index at) go
        ≡ on_given (call_on machine (S.storage store.now).kept beside) go result }
{
    if at == 0 {
        return Err(Thrown::Of(Exception::NullPointer));
    }
    Ok(int_in::<S, OfInt>(store, at, ORDINAL))
}

/// The long that an object holds, or a NullPointerException where there is no object.
pub(crate) fn held_long<S: Store>(store: &S, at: u64) -> Result<i64, Thrown>
    requires { IsReference (S.storage store.now).kept ALongBox (serial_of (S.storage store.now).index at) }
    ensures { (machine : Machine) (beside : Beside) (go : ℤ → Option Performed)
        → on_number (call_on machine (S.storage store.now).kept beside) (serial_of (S.storage store.now).index at) go
        ≡ on_given (call_on machine (S.storage store.now).kept beside) go result }
{
    if at == 0 {
        return Err(Thrown::Of(Exception::NullPointer));
    }
    Ok(number_in(store, at, VALUE))
}

/// Whether an object is of a kind of boxes and holds this number.
pub(crate) fn is_box_of<S: Store>(store: &S, kind: u32, number: i64, other: u64) -> bool
    requires held { IsTrue (is_held (S.storage store.now).kept (serial_of (S.storage store.now).index other)) }
    requires boxed { (object : Object) → object_in (S.storage store.now).kept (serial_of (S.storage store.now).index other) ≡ Some object → object.kind ≡ kind
        → IsTrue (is_number (content_at (S.storage store.now).kept (serial_of (S.storage store.now).index other) 0)) }
    ensures { equal_numbers number (of_kind (S.storage store.now).kept kind (serial_of (S.storage store.now).index other)) ≡ result }
{
    other != 0 && store.kind(other) == kind && number_in(store, other, VALUE) == number
}

/// The serial of an object, 0 of null.
pub(crate) fn serial_in<S: Store>(store: &S, at: u64) -> u64
    requires { IsTrue (is_held (S.storage store.now).kept (serial_of (S.storage store.now).index at)) }
    ensures { result ≡ serial_of (S.storage store.now).index at }
{
    if at == 0 { 0 } else { store.serial(at) }
}

/// The int that a box holds, or a NullPointerException where there is none.
pub(crate) fn held_int<S: Store, B: Holds>(store: &S, at: u64) -> Result<i32, Thrown>
    requires { IsReference (S.storage store.now).kept (ABox B.basic) (serial_of (S.storage store.now).index at) }
    ensures number { (machine : Machine) (beside : Beside) (go : ℤ → Option Performed)
        → on_number (call_on machine (S.storage store.now).kept beside) (serial_of (S.storage store.now).index at) go
        ≡ on_given (call_on machine (S.storage store.now).kept beside) go result }
    ensures kept { IfOk result (λ number. kept_int B.basic number ≡ number) }
{
    if at == 0 {
        return Err(Thrown::Of(Exception::NullPointer));
    }
    Ok(int_in::<S, B>(store, at, VALUE))
}
