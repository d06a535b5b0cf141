// Natives that set a unit or the length of what a builder has, or leave a unit out (Java SE 8 API, java.lang.StringBuilder).
ghost use Rattle.std.specs.Prelude.{◌∷◌, []};
ghost use Rattle.cb_heap.specs.Reading.{serial_of};
ghost use Rattle.cb_library.specs.declared.native.Native.TheVariants as natives;
ghost use Rattle.cb_machine.specs.Builders.{own_native};
ghost use Rattle.cb_plain.specs.declared.value.Value.TheVariants as values;
ghost use Rattle.cb_natives.specs.Given.{ABuilder, IsReference};
ghost use Rattle.cb_natives.specs.MakingOwn.{Decides};

use crate::Exception;
use crate::own_change::{Change, Own};
use crate::own_ranges::{natural_in, place_in};
use crate::own_reading::{built_at, hold};
use crate::pieces::Piece;
use crate::short_texts::unit_text;
use cb_heap::Store;
use cb_link::Program;

/// `setCharAt`.
pub(crate) fn set_char_at<S: Store>(
    program: &Program,
    store: &S,
    at: u64,
    place: i32,
    unit: i32,
) -> Result<Own, Exception>
    requires { IsReference (S.storage store.now).kept ABuilder (serial_of (S.storage store.now).index at) }
    ensures { Decides program.now (S.storage store.now).kept (S.storage store.now).index (λ call. own_native call natives.StringBuilderSetCharAt (values.Ref (serial_of (S.storage store.now).index at) ∷ values.Int place ∷ values.Int unit ∷ [])) result }
{
    let _ = program;
    if at == 0 {
        return Err(Exception::NullPointer);
    }
    let built = built_at(store, at);
    match place_in(place, built.count) {
        Some(from) => Ok(Own {
            at,
            gives: false,
            change: Change::Writes {
                array: built.array,
                from,
                piece: unit_text(unit),
                count: built.count,
            },
        }),
        None => Err(Exception::StringIndexOutOfBounds),
    }
}

/// `deleteCharAt`.
pub(crate) fn delete_char_at<S: Store>(
    program: &Program,
    store: &S,
    at: u64,
    place: i32,
) -> Result<Own, Exception>
    requires { IsReference (S.storage store.now).kept ABuilder (serial_of (S.storage store.now).index at) }
    ensures { Decides program.now (S.storage store.now).kept (S.storage store.now).index (λ call. own_native call natives.StringBuilderDeleteCharAt (values.Ref (serial_of (S.storage store.now).index at) ∷ values.Int place ∷ [])) result }
{
    let _ = program;
    if at == 0 {
        return Err(Exception::NullPointer);
    }
    let built = built_at(store, at);
    match place_in(place, built.count) {
        Some(place) => Ok(Own {
            at,
            gives: true,
            change: Change::Deletes {
                array: built.array,
                place,
                count: built.count - 1,
            },
        }),
        None => Err(Exception::StringIndexOutOfBounds),
    }
}

/// `setLength`.
pub(crate) fn set_length<S: Store>(
    program: &Program,
    store: &S,
    at: u64,
    length: i32,
) -> Result<Own, Exception>
    requires { IsReference (S.storage store.now).kept ABuilder (serial_of (S.storage store.now).index at) }
    ensures { Decides program.now (S.storage store.now).kept (S.storage store.now).index (λ call. own_native call natives.StringBuilderSetLength (values.Ref (serial_of (S.storage store.now).index at) ∷ values.Int length ∷ [])) result }
{
    if at == 0 {
        return Err(Exception::NullPointer);
    }
    let built = built_at(store, at);
    match natural_in(length) {
        Some(length) => {
            let kept = length.min(built.count);
            hold(
                program,
                store,
                at,
                false,
                &built,
                kept,
                &Piece::Zeros(length - kept),
            )
        }
        None => Err(Exception::StringIndexOutOfBounds),
    }
}
