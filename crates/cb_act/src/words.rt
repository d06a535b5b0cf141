// Values in the words of objects.
ghost use Rattle.std.specs.Prelude.{◌≡◌, FitsSigned, IsTrue, option_map, pos, true, Some};
ghost use Rattle.std.specs.Int.{int_wrap, w32, w64};
ghost use Rattle.cb_frames.specs.Entries.{referent};
ghost use Rattle.cb_heap.specs.Kept.{content_at, is_held, with_content};
ghost use Rattle.cb_heap.specs.Reading.{read_value, serial_of};
ghost use Rattle.cb_heap.specs.Store.{may_point};
ghost use Rattle.cb_machine.specs.Values.{content_of, kept_int, kept_value, value_in};
ghost use Rattle.cb_act.specs.Objects.{Suits, takes};

use cb_arith::{Narrow, narrow};
use cb_heap::Store;
use cb_kinds::Basic;
use cb_plain::Value;

/// The value in a word of an object that holds one of a type.
#[inline(always)]
pub fn value_at<S: Store>(store: &S, at: u64, i: u32, basic: Basic) -> Value
    requires suits { Suits basic (content_at (S.storage store.now).kept (serial_of
        (S.storage store.now).index at) i) }
    ensures { option_map (value_in basic) (content_at (S.storage store.now).kept (serial_of
        (S.storage store.now).index at) i)
        ≡ Some (read_value (S.storage store.now).index result) }
{
    match basic {
        Basic::Reference(_) => Value::Ref(store.get_ref(at, i)),
        Basic::Long => Value::Long(long_in(store.get(at, i))),
        Basic::Boolean | Basic::Byte | Basic::Char | Basic::Short | Basic::Int => {
            Value::Int(int_in(store.get(at, i)))
        }
    }
}

/// Puts a value into a word of an object that holds one like it.
#[inline(always)]
pub(crate) fn put_value<S: Store>(store: &mut S, at: u64, i: u32, value: Value)
    requires takes { takes value (content_at (S.storage store.old).kept (serial_of
        (S.storage store.old).index at) i) ≡ true }
    requires held { IsTrue (is_held (S.storage store.old).kept (serial_of (S.storage store.old).index
        (referent value))) }
    requires allowed { IsTrue (may_point (S.storage store.old).settings.allows (S.storage store.old).kept (serial_of
        (S.storage store.old).index at)
        (serial_of (S.storage store.old).index (referent value))) }
    ensures kept { (S.storage store.new).kept
        ≡ with_content (S.storage store.old).kept (serial_of (S.storage store.old).index at) i (content_of
        (read_value (S.storage store.old).index value)) }
    ensures places { (S.storage store.new).index ≡ (S.storage store.old).index }
    ensures facts { (S.storage store.new).facts ≡ (S.storage store.old).facts }
    ensures granted { (S.storage store.new).granted ≡ (S.storage store.old).granted }
    ensures faults { (S.storage store.new).faults ≡ (S.storage store.old).faults }
    ensures settings { (S.storage store.new).settings ≡ (S.storage store.old).settings }
{
    match value {
        Value::Int(number) => store.put(at, i, word_of(i64::from(number))),
        Value::Long(number) => store.put(at, i, word_of(number)),
        Value::Ref(to) => store.put_ref(at, i, to),
    }
}

/// What a field or an element of a type keeps of a value: of an int the low bits, where it has fewer (JVMS §6.5, putfield, bastore,
/// castore, sastore).
#[inline(always)]
pub fn kept_value(basic: Basic, value: Value) -> Value
    ensures { result ≡ kept_value basic value }
{
    match value {
        Value::Int(number) => Value::Int(kept_int(basic, number)),
        Value::Long(_) | Value::Ref(_) => value,
    }
}

/// What a field or an element of a type keeps of an int (JVMS §6.5, bastore, castore, sastore, putfield).
#[inline(always)]
fn kept_int(basic: Basic, number: i32) -> i32
    ensures { result ≡ kept_int basic number }
{
    match basic {
        Basic::Boolean => number & 1,
        Basic::Byte => narrow(Narrow::Byte, number),
        Basic::Char => narrow(Narrow::Char, number),
        Basic::Short => narrow(Narrow::Short, number),
        Basic::Int | Basic::Long | Basic::Reference(_) => number,
    }
}

/// The long that a word holds in two's complement.
#[inline(always)]
fn long_in(word: u64) -> i64
    ensures { result ≡ int_wrap w64 (pos word) }
{
    word.cast_signed()
}

/// The int that a word holds in two's complement, where it is one.
#[inline(always)]
fn int_in(word: u64) -> i32
    requires { FitsSigned w32 (int_wrap w64 (pos word)) }
    ensures { result ≡ int_wrap w64 (pos word) }
{
    long_in(word) as i32
}

/// A long in two's complement.
#[inline(always)]
fn word_of(number: i64) -> u64
    ensures { int_wrap w64 (pos result) ≡ number }
{
    number.cast_unsigned()
}
