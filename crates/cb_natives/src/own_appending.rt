// `append` of builders (Java SE 8 API, java.lang.StringBuilder).
ghost use Rattle.std.specs.Prelude.{◌∷◌, []};
ghost use Rattle.cb_heap.specs.Reading.{serial_of};
ghost use Rattle.cb_library.specs.declared.native.Native.TheVariants as natives;
ghost use Rattle.cb_machine.specs.Builders.{appends, own_native};
ghost use Rattle.cb_plain.specs.declared.value.Value.TheVariants as values;
ghost use Rattle.cb_natives.specs.Given.{ABuilder, AText, Characters, IsReference};
ghost use Rattle.cb_natives.specs.MakingOwn.{Decides, MayAppend};
ghost use Rattle.cb_natives.specs.Pieces.{piece_units};

use crate::Exception;
use crate::own_change::Own;
use crate::own_pieces::whole;
use crate::own_reading::{built_at, hold};
use crate::pieces::Piece;
use crate::reading::chars_of;
use crate::short_texts::{ascii_text, decimal_text, truth_text, unit_text};
use cb_heap::Store;
use cb_link::Program;

/// A piece behind the units of a builder.
fn append<S: Store>(program: &Program, store: &S, at: u64, piece: &Piece) -> Result<Own, Exception>
    requires own { IsReference (S.storage store.now).kept ABuilder (serial_of (S.storage store.now).index at) }
    requires may { MayAppend program.now (S.storage store.now).kept (S.storage store.now).index piece.now }
    ensures { Decides program.now (S.storage store.now).kept (S.storage store.now).index (λ call. appends call (serial_of (S.storage store.now).index at) (piece_units program.now (S.storage store.now).kept (S.storage store.now).index piece.now)) result }
{
    if at == 0 {
        return Err(Exception::NullPointer);
    }
    let built = built_at(store, at);
    hold(program, store, at, true, &built, built.count, piece)
}

/// `append` of a string: `null` where there is none.
pub(crate) fn append_string<S: Store>(
    program: &Program,
    store: &S,
    at: u64,
    string: u64,
) -> Result<Own, Exception>
    requires own { IsReference (S.storage store.now).kept ABuilder (serial_of (S.storage store.now).index at) }
    requires string { IsReference (S.storage store.now).kept AText (serial_of (S.storage store.now).index string) }
    ensures { Decides program.now (S.storage store.now).kept (S.storage store.now).index (λ call. own_native call natives.StringBuilderAppendString (values.Ref (serial_of (S.storage store.now).index at) ∷ values.Ref (serial_of (S.storage store.now).index string) ∷ [])) result }
{
    if string == 0 {
        return append(program, store, at, &ascii_text(b"null"));
    }
    match chars_of(store, string) {
        Some(array) => append(program, store, at, &whole(program, store, array)),
        None => Err(Exception::NullPointer),
    }
}

/// `append` of an int.
pub(crate) fn append_int<S: Store>(
    program: &Program,
    store: &S,
    at: u64,
    number: i32,
) -> Result<Own, Exception>
    requires { IsReference (S.storage store.now).kept ABuilder (serial_of (S.storage store.now).index at) }
    ensures { Decides program.now (S.storage store.now).kept (S.storage store.now).index (λ call. own_native call natives.StringBuilderAppendInt (values.Ref (serial_of (S.storage store.now).index at) ∷ values.Int number ∷ [])) result }
{
    append(program, store, at, &decimal_text(i64::from(number)))
}

/// `append` of a long.
pub(crate) fn append_long<S: Store>(
    program: &Program,
    store: &S,
    at: u64,
    number: i64,
) -> Result<Own, Exception>
    requires { IsReference (S.storage store.now).kept ABuilder (serial_of (S.storage store.now).index at) }
    ensures { Decides program.now (S.storage store.now).kept (S.storage store.now).index (λ call. own_native call natives.StringBuilderAppendLong (values.Ref (serial_of (S.storage store.now).index at) ∷ values.Long number ∷ [])) result }
{
    append(program, store, at, &decimal_text(number))
}

/// `append` of a char.
pub(crate) fn append_char<S: Store>(
    program: &Program,
    store: &S,
    at: u64,
    unit: i32,
) -> Result<Own, Exception>
    requires { IsReference (S.storage store.now).kept ABuilder (serial_of (S.storage store.now).index at) }
    ensures { Decides program.now (S.storage store.now).kept (S.storage store.now).index (λ call. own_native call natives.StringBuilderAppendChar (values.Ref (serial_of (S.storage store.now).index at) ∷ values.Int unit ∷ [])) result }
{
    append(program, store, at, &unit_text(unit))
}

/// `append` of a boolean.
pub(crate) fn append_boolean<S: Store>(
    program: &Program,
    store: &S,
    at: u64,
    is: i32,
) -> Result<Own, Exception>
    requires { IsReference (S.storage store.now).kept ABuilder (serial_of (S.storage store.now).index at) }
    ensures { Decides program.now (S.storage store.now).kept (S.storage store.now).index (λ call. own_native call natives.StringBuilderAppendBoolean (values.Ref (serial_of (S.storage store.now).index at) ∷ values.Int is ∷ [])) result }
{
    append(program, store, at, &truth_text(is))
}

/// `append` of an array of chars.
pub(crate) fn append_chars<S: Store>(
    program: &Program,
    store: &S,
    at: u64,
    array: u64,
) -> Result<Own, Exception>
    requires own { IsReference (S.storage store.now).kept ABuilder (serial_of (S.storage store.now).index at) }
    requires array { IsReference (S.storage store.now).kept Characters (serial_of (S.storage store.now).index array) }
    ensures { Decides program.now (S.storage store.now).kept (S.storage store.now).index (λ call. own_native call natives.StringBuilderAppendChars (values.Ref (serial_of (S.storage store.now).index at) ∷ values.Ref (serial_of (S.storage store.now).index array) ∷ [])) result }
{
    if array == 0 {
        return Err(Exception::NullPointer);
    }
    append(program, store, at, &whole(program, store, array))
}
