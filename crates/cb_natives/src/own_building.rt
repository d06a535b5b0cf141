// Constructors of strings and of builders (Java SE 8 API, java.lang.String and StringBuilder).
ghost use Rattle.std.specs.Prelude.{◌≡◌, ◌≤◌, ◌<◌, ◌^◌, ◌∷◌, [], length};
ghost use Rattle.cb_heap.specs.Reading.{serial_of};
ghost use Rattle.cb_library.specs.declared.native.Native.TheVariants as natives;
ghost use Rattle.cb_machine.specs.Builders.{builds, own_native, sets_text};
ghost use Rattle.cb_machine.specs.Performing.{on_object};
ghost use Rattle.cb_plain.specs.declared.value.Value.TheVariants as values;
ghost use Rattle.cb_natives.specs.Given.{ABuilder, AText, Characters, IsReference};
ghost use Rattle.cb_natives.specs.MakingOwn.{Decides};
ghost use Rattle.cb_natives.specs.Pieces.{IsText, text_units};

use crate::Exception;
use crate::own_change::{Change, Own};
use crate::own_pieces::{text_of, whole};
use crate::own_ranges::{natural_in, range_in};
use crate::own_reading::MOST_ELEMENTS;
use crate::pieces::{Piece, Text};
use crate::reading::{chars_of, count};
use cb_heap::Store;
use cb_link::Program;

/// The room that a builder has at first, and beside the units of a string.
const ROOM: u32 = 16;

/// A string gets the units of a text, so many.
fn set_text<S: Store>(
    program: &Program,
    store: &S,
    at: u64,
    text: &Text,
    size: u32,
) -> Result<Own, Exception>
    requires own { IsReference (S.storage store.now).kept AText (serial_of (S.storage store.now).index at) }
    requires text { IsText program.now (S.storage store.now).kept (S.storage store.now).index text.now }
    requires size { size ≡ length (text_units program.now (S.storage store.now).kept (S.storage store.now).index text.now) }
    requires few { size < 2 ^ 31 }
    ensures { Decides program.now (S.storage store.now).kept (S.storage store.now).index (λ call. on_object call (serial_of (S.storage store.now).index at) (sets_text call (serial_of (S.storage store.now).index at) (text_units program.now (S.storage store.now).kept (S.storage store.now).index text.now))) result }
{
    let _ = program;
    let _ = store;
    if at == 0 {
        return Err(Exception::NullPointer);
    }
    Ok(Own {
        at,
        gives: false,
        change: Change::Sets { text: *text, size },
    })
}

/// `new String()`.
pub(crate) fn new_string<S: Store>(program: &Program, store: &S, at: u64) -> Result<Own, Exception>
    requires { IsReference (S.storage store.now).kept AText (serial_of (S.storage store.now).index at) }
    ensures { Decides program.now (S.storage store.now).kept (S.storage store.now).index (λ call. own_native call natives.StringNew (values.Ref (serial_of (S.storage store.now).index at) ∷ [])) result }
{
    set_text(
        program,
        store,
        at,
        &text_of(program, store, Piece::Zeros(0)),
        0,
    )
}

/// `new String(char[])`.
pub(crate) fn new_string_of<S: Store>(
    program: &Program,
    store: &S,
    at: u64,
    array: u64,
) -> Result<Own, Exception>
    requires own { IsReference (S.storage store.now).kept AText (serial_of (S.storage store.now).index at) }
    requires array { IsReference (S.storage store.now).kept Characters (serial_of (S.storage store.now).index array) }
    ensures { Decides program.now (S.storage store.now).kept (S.storage store.now).index (λ call. own_native call natives.StringNewChars (values.Ref (serial_of (S.storage store.now).index at) ∷ values.Ref (serial_of (S.storage store.now).index array) ∷ [])) result }
{
    if array == 0 {
        return Err(Exception::NullPointer);
    }
    let text = text_of(program, store, whole(program, store, array));
    set_text(program, store, at, &text, count(store, array))
}

/// `new String(char[], int, int)`.
pub(crate) fn new_string_range<S: Store>(
    program: &Program,
    store: &S,
    at: u64,
    array: u64,
    from: i32,
    size: i32,
) -> Result<Own, Exception>
    requires own { IsReference (S.storage store.now).kept AText (serial_of (S.storage store.now).index at) }
    requires array { IsReference (S.storage store.now).kept Characters (serial_of (S.storage store.now).index array) }
    ensures { Decides program.now (S.storage store.now).kept (S.storage store.now).index (λ call. own_native call natives.StringNewRange (values.Ref (serial_of (S.storage store.now).index at) ∷ values.Ref (serial_of (S.storage store.now).index array) ∷ values.Int from ∷ values.Int size ∷ [])) result }
{
    if array == 0 {
        return Err(Exception::NullPointer);
    }
    if at == 0 {
        return Err(Exception::NullPointer);
    }
    match range_in(from, size, count(store, array)) {
        Some(range) => {
            let piece = Piece::Range {
                array,
                from: range.0,
                count: range.1,
            };
            set_text(program, store, at, &text_of(program, store, piece), range.1)
        }
        None => Err(Exception::StringIndexOutOfBounds),
    }
}

/// A builder gets a new array with so much room, and the units of a text, so many, in front.
fn build<S: Store>(
    program: &Program,
    store: &S,
    at: u64,
    text: &Text,
    count: u32,
    room: u32,
) -> Result<Own, Exception>
    requires own { IsReference (S.storage store.now).kept ABuilder (serial_of (S.storage store.now).index at) }
    requires text { IsText program.now (S.storage store.now).kept (S.storage store.now).index text.now }
    requires count { count ≡ length (text_units program.now (S.storage store.now).kept (S.storage store.now).index text.now) }
    requires fits { count ≤ room }
    requires few { room < 2 ^ 31 }
    ensures { Decides program.now (S.storage store.now).kept (S.storage store.now).index (λ call. on_object call (serial_of (S.storage store.now).index at) (builds call (serial_of (S.storage store.now).index at) (text_units program.now (S.storage store.now).kept (S.storage store.now).index text.now) room)) result }
{
    let _ = program;
    let _ = store;
    if at == 0 {
        return Err(Exception::NullPointer);
    }
    Ok(Own {
        at,
        gives: false,
        change: Change::Builds {
            text: *text,
            count,
            room,
        },
    })
}

/// `new StringBuilder()`.
pub(crate) fn new_builder<S: Store>(program: &Program, store: &S, at: u64) -> Result<Own, Exception>
    requires { IsReference (S.storage store.now).kept ABuilder (serial_of (S.storage store.now).index at) }
    ensures { Decides program.now (S.storage store.now).kept (S.storage store.now).index (λ call. own_native call natives.StringBuilderNew (values.Ref (serial_of (S.storage store.now).index at) ∷ [])) result }
{
    build(
        program,
        store,
        at,
        &text_of(program, store, Piece::Zeros(0)),
        0,
        ROOM,
    )
}

/// `new StringBuilder(int)`.
pub(crate) fn new_builder_sized<S: Store>(
    program: &Program,
    store: &S,
    at: u64,
    room: i32,
) -> Result<Own, Exception>
    requires { IsReference (S.storage store.now).kept ABuilder (serial_of (S.storage store.now).index at) }
    ensures { Decides program.now (S.storage store.now).kept (S.storage store.now).index (λ call. own_native call natives.StringBuilderNewCapacity (values.Ref (serial_of (S.storage store.now).index at) ∷ values.Int room ∷ [])) result }
{
    if at == 0 {
        return Err(Exception::NullPointer);
    }
    match natural_in(room) {
        Some(room) => build(
            program,
            store,
            at,
            &text_of(program, store, Piece::Zeros(0)),
            0,
            room,
        ),
        None => Err(Exception::NegativeArraySize),
    }
}

/// `new StringBuilder(String)`.
pub(crate) fn new_builder_of<S: Store>(
    program: &Program,
    store: &S,
    at: u64,
    string: u64,
) -> Result<Own, Exception>
    requires own { IsReference (S.storage store.now).kept ABuilder (serial_of (S.storage store.now).index at) }
    requires string { IsReference (S.storage store.now).kept AText (serial_of (S.storage store.now).index string) }
    ensures { Decides program.now (S.storage store.now).kept (S.storage store.now).index (λ call. own_native call natives.StringBuilderNewString (values.Ref (serial_of (S.storage store.now).index at) ∷ values.Ref (serial_of (S.storage store.now).index string) ∷ [])) result }
{
    match chars_of(store, string) {
        Some(array) => {
            let text = text_of(program, store, whole(program, store, array));
            let count = count(store, array);
            build(
                program,
                store,
                at,
                &text,
                count,
                (count + ROOM).min(MOST_ELEMENTS),
            )
        }
        None => Err(Exception::NullPointer),
    }
}
