// What natives of strings and of builders do that set the text of their own object (Java SE 8 API, java.lang.String and StringBuilder).
ghost use Rattle.std.specs.Prelude.{◌≡◌, map, true};
ghost use Rattle.cb_heap.specs.Reading.{read_value};
ghost use Rattle.cb_machine.specs.Builders.{own_native};
ghost use Rattle.cb_natives.specs.Given.{AreGiven, have_sorts, roles, sorts_of};
ghost use Rattle.cb_natives.specs.MakingOwn.{Decides, changes_builder, makes_own};

use crate::Exception;
use crate::arguments::{reference, reference_int, references};
use crate::own_appending::{
    append_boolean, append_char, append_chars, append_int, append_long, append_string,
};
use crate::own_arguments::{reference_ints, reference_long, references_ints};
use crate::own_building::{
    new_builder, new_builder_of, new_builder_sized, new_string, new_string_of, new_string_range,
};
use crate::own_change::Own;
use crate::own_editing::{delete_char_at, set_char_at, set_length};
use cb_heap::Store;
use cb_library::Native;
use cb_link::Program;
use cb_plain::Value;

/// What a native of strings or of builders does to its own object, or throws. Constant in time.
pub(crate) fn own_of<S: Store>(
    program: &Program,
    store: &S,
    native: Native,
    arguments: &[Value],
) -> Result<Own, Exception>
    requires makes { makes_own native ≡ true }
    requires sorts { have_sorts (sorts_of native) arguments.now ≡ true }
    requires given { AreGiven (S.storage store.now).kept (roles native) (map (read_value
        (S.storage store.now).index) arguments.now) }
    ensures { Decides program.now (S.storage store.now).kept (S.storage store.now).index (λ call. own_native call native (map (read_value (S.storage store.now).index) arguments.now)) result }
{
    match native {
        Native::StringNew => new_string(program, store, reference(arguments)),
        Native::StringNewChars => {
            let (at, array) = references(arguments);
            new_string_of(program, store, at, array)
        }
        Native::StringNewRange => {
            let (at, array, from, count) = references_ints(arguments);
            new_string_range(program, store, at, array, from, count)
        }
        Native::StringBuilderNew => new_builder(program, store, reference(arguments)),
        Native::StringBuilderNewCapacity => {
            let (at, room) = reference_int(arguments);
            new_builder_sized(program, store, at, room)
        }
        Native::StringBuilderNewString => {
            let (at, string) = references(arguments);
            new_builder_of(program, store, at, string)
        }
        _ => changed_builder(program, store, native, arguments),
    }
}

/// Of a builder that is changed.
fn changed_builder<S: Store>(
    program: &Program,
    store: &S,
    native: Native,
    arguments: &[Value],
) -> Result<Own, Exception>
    requires makes { changes_builder native ≡ true }
    requires sorts { have_sorts (sorts_of native) arguments.now ≡ true }
    requires given { AreGiven (S.storage store.now).kept (roles native) (map (read_value
        (S.storage store.now).index) arguments.now) }
    ensures { Decides program.now (S.storage store.now).kept (S.storage store.now).index (λ call. own_native call native (map (read_value (S.storage store.now).index) arguments.now)) result }
{
    match native {
        Native::StringBuilderAppendString => {
            let (at, string) = references(arguments);
            append_string(program, store, at, string)
        }
        Native::StringBuilderAppendInt => {
            let (at, number) = reference_int(arguments);
            append_int(program, store, at, number)
        }
        Native::StringBuilderAppendLong => {
            let (at, number) = reference_long(arguments);
            append_long(program, store, at, number)
        }
        Native::StringBuilderAppendChar => {
            let (at, unit) = reference_int(arguments);
            append_char(program, store, at, unit)
        }
        Native::StringBuilderAppendBoolean => {
            let (at, is) = reference_int(arguments);
            append_boolean(program, store, at, is)
        }
        Native::StringBuilderAppendChars => {
            let (at, array) = references(arguments);
            append_chars(program, store, at, array)
        }
        Native::StringBuilderSetCharAt => {
            let (at, place, unit) = reference_ints(arguments);
            set_char_at(program, store, at, place, unit)
        }
        Native::StringBuilderDeleteCharAt => {
            let (at, place) = reference_int(arguments);
            delete_char_at(program, store, at, place)
        }
        Native::StringBuilderSetLength => {
            let (at, length) = reference_int(arguments);
            set_length(program, store, at, length)
        }
        _ => unreachable!(),
    }
}
