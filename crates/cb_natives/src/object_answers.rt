// Natives of any object, of constants of enums, and those that tell nothing (Java SE 8 API, java.lang.Object, Enum, System and Class).
ghost use Rattle.std.specs.Prelude.{◌≡◌, ◌∷◌, ◌-ℤ◌, [], IsTrue, Ok};
ghost use Rattle.std.specs.Int.{int_wrap, w32};
ghost use Rattle.cb_heap.specs.Kept.{is_held};
ghost use Rattle.cb_heap.specs.Reading.{serial_of};
ghost use Rattle.cb_library.specs.declared.native.Native.TheVariants as natives;
ghost use Rattle.cb_machine.specs.Answering.{on_ordinal};
ghost use Rattle.cb_machine.specs.Machine.{Machine};
ghost use Rattle.cb_machine.specs.Performing.{Call, gives, gives_int};
ghost use Rattle.cb_machine.specs.Testing.{int_of};
ghost use Rattle.cb_plain.specs.declared.value.Value.TheVariants as values;
ghost use Rattle.cb_natives.specs.Answers.{Beside, Tells, answered, call_on, given_as};
ghost use Rattle.cb_natives.specs.Given.{AConstant, IsReference};

use crate::held::{ordinal_in, serial_in};
use crate::wrapping::int_less;
use crate::{Answer, Thrown};
use cb_heap::Store;

/// A boolean.
pub(crate) fn truth(is: bool) -> Answer
    ensures { (call : Call) → given_as call result ≡ gives call (int_of is ∷ []) }
{
    Answer::Int(if is { 1 } else { 0 })
}

/// The identity hash of an object: of its serial the low 31 bits, and of null 0.
pub(crate) fn identity_hash<S: Store>(store: &S, at: u64) -> Answer
    requires { IsTrue (is_held (S.storage store.now).kept (serial_of (S.storage store.now).index at)) }
    ensures { Tells (S.storage store.now).kept natives.ObjectHashCode (values.Ref (serial_of (S.storage store.now).index at) ∷ []) (Ok result) }
{
    Answer::Int((serial_in(store, at) % (1 << 31)) as i32)
}

/// Whether two references are to one object.
pub(crate) fn same_object<S: Store>(store: &S, at: u64, other: u64) -> Answer
    requires held { IsTrue (is_held (S.storage store.now).kept (serial_of (S.storage store.now).index at)) }
    requires other { IsTrue (is_held (S.storage store.now).kept (serial_of (S.storage store.now).index other)) }
    ensures { Tells (S.storage store.now).kept natives.ObjectEquals (values.Ref (serial_of (S.storage store.now).index at) ∷ values.Ref (serial_of (S.storage store.now).index other) ∷ []) (Ok result) }
{
    truth(serial_in(store, at) == serial_in(store, other))
}

/// `compareTo` of constants of an enum: the difference of their ordinals.
pub(crate) fn compare_constants<S: Store>(store: &S, at: u64, other: u64) -> Result<Answer, Thrown>
    requires own { IsReference (S.storage store.now).kept AConstant (serial_of (S.storage store.now).index at) }
    requires other { IsReference (S.storage store.now).kept AConstant (serial_of (S.storage store.now).index other) }
    ensures { (machine : Machine) (beside : Beside) → on_ordinal (call_on machine (S.storage store.now).kept beside) (serial_of (S.storage store.now).index other) (λ second. on_ordinal (call_on machine (S.storage store.now).kept beside) (serial_of (S.storage store.now).index at) (λ first. gives_int (call_on machine (S.storage store.now).kept beside) (int_wrap w32 (first -ℤ second))))
        ≡ answered (call_on machine (S.storage store.now).kept beside) result }
{
    let second = ordinal_in(store, other)?;
    let first = ordinal_in(store, at)?;
    Ok(Answer::Int(int_less(first, second)))
}
