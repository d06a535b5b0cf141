// Natives that give a number or nothing (Java SE 8 API, java.lang).
ghost use Rattle.std.specs.Prelude.{◌≡◌, map, true};
ghost use Rattle.cb_heap.specs.Reading.{read_value};
ghost use Rattle.cb_natives.specs.Answers.{Tells, gives_answer};
ghost use Rattle.cb_natives.specs.Given.{AreGiven, HasCore, have_sorts, roles, sorts_of};

use crate::arguments::{reference, references};
use crate::object_answers::{compare_constants, identity_hash, same_object, truth};
use crate::string_answers::text_answer;
use crate::{Answer, Thrown};
use cb_heap::Store;
use cb_library::Native;
use cb_plain::Value;

/// What a native gives or throws that places nothing but an exception. Constant but where a native reads strings: then linear in their
/// units, and `indexOf(String)` in the product of their lengths at worst.
pub fn answer<S: Store>(store: &S, native: Native, arguments: &[Value]) -> Result<Answer, Thrown>
    requires gives { gives_answer native ≡ true }
    requires sorts { have_sorts (sorts_of native) arguments.now ≡ true }
    requires given { AreGiven (S.storage store.now).kept (roles native) (map (read_value
        (S.storage store.now).index) arguments.now) }
    requires core { HasCore (S.storage store.now).kept }
    ensures { Tells (S.storage store.now).kept native (map (read_value (S.storage store.now).index) arguments.now) result }
{
    match native {
        Native::ObjectHashCode | Native::SystemIdentityHashCode | Native::EnumHashCode => {
            Ok(identity_hash(store, reference(arguments)))
        }
        Native::ObjectEquals | Native::EnumEquals => {
            let (at, other) = references(arguments);
            Ok(same_object(store, at, other))
        }
        Native::ClassDesiredAssertionStatus => Ok(truth(false)),
        Native::Flush => Ok(Answer::Nothing),
        Native::EnumCompareTo => {
            let (at, other) = references(arguments);
            compare_constants(store, at, other)
        }
        _ => text_answer(store, native, arguments),
    }
}
