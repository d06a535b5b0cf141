// The text of strings, written piece by piece.
ghost use Rattle.std.specs.Prelude.{◌≡◌, ◌<◌, ◌≤◌, ◌+◌, ◌++◌, ◌⊎◌, ℕ, Bool, List, [], drop, length, pos, slice_get, take, true, IsErr, IsTrue, OnErr, OnOk, Some, false};
ghost use Rattle.std.specs.Char.Utf16.{is_high_surrogate};
ghost use Rattle.std.specs.Io.KnownBytes.{Appends};
ghost use Rattle.cb_heap.specs.Kept.{content_at, contents_at, is_held};
ghost use Rattle.cb_heap.specs.Reading.{serial_of};
ghost use Rattle.cb_io.specs.Faults.{CountsFaults};
ghost use Rattle.cb_io.specs.Sink.{AppendsProperPrefix};
ghost use Rattle.cb_io.specs.Utf8.{utf8};
ghost use Rattle.cb_plain.specs.State.{Number};
ghost use Rattle.cb_library.specs.declared.native.Native.{Native};
ghost use Rattle.cb_interp.specs.Printing.{AreChars, HoldsUnits, array_of, as_line, is_text, line_of, string_text, units_at};

use crate::printing::{NEWLINE, write_text};
use cb_act::value_at;
use cb_heap::Store;
use cb_io::{Failed, Sink, utf8_of};
use cb_kinds::Basic;
use cb_library::Native;
use cb_plain::Value;

/// How many units are written in one call at most.
const PIECE: usize = 256;

/// Whether a native prints a newline behind a string, if it prints one.
pub(crate) fn line_of(native: Native) -> Option<bool>
    ensures { result ≡ line_of native }
{
    match native {
        Native::PrintString => Some(false),
        Native::PrintlnString => Some(true),
        _ => None,
    }
}

/// The place of the array of a string's chars, 0 where the string is null or has none.
pub(crate) fn chars_of<S: Store>(store: &S, at: u64) -> u64
    requires text { is_text (S.storage store.now).kept (serial_of (S.storage store.now).index at) ≡ true }
    requires units { HoldsUnits (S.storage store.now).kept (array_of (S.storage store.now).kept (serial_of
        (S.storage store.now).index at)) }
    ensures { AreChars (S.storage store.now).kept (serial_of (S.storage store.now).index at) (serial_of
        (S.storage store.now).index result) }
{
    if at == 0 {
        return 0;
    }
    store.get_ref(at, 0)
}

/// Writes a string as UTF-8, `null` for null, by the place of the array of its chars. After a failed call a proper prefix of it was taken.
/// Takes time in the number of its units. A string of some hundred units is written in one call, unless the sink takes less than the whole.
pub(crate) fn write_string<S: Store, O: Sink>(
    store: &S,
    at: u64,
    array: u64,
    line: bool,
    out: &mut O,
) -> Result<(), Failed>
    requires { AreChars (S.storage store.now).kept (serial_of (S.storage store.now).index at) (serial_of
        (S.storage store.now).index array) }
    ensures all { OnOk result (Appends (O.taken out.old) (O.taken out.new) (utf8
        (as_line line (string_text (S.storage store.now).kept (serial_of (S.storage store.now).index at))))) }
    ensures part { OnErr result (AppendsProperPrefix (O.taken out.old) (O.taken out.new) (utf8
        (as_line line (string_text (S.storage store.now).kept (serial_of (S.storage store.now).index at))))) }
    ensures cause { CountsFaults (O.faults out.old) (O.faults out.new) (IsErr result) }
{
    if at == 0 {
        write_text(b"null", line, out)
    } else {
        write_units(store, array, line, out)
    }
}

/// Writes the chars of an array as UTF-8, none where it is null, with a newline behind them or without.
pub(crate) fn write_units<S: Store, O: Sink>(
    store: &S,
    array: u64,
    line: bool,
    out: &mut O,
) -> Result<(), Failed>
    requires held { IsTrue (is_held (S.storage store.now).kept (serial_of (S.storage store.now).index array)) }
    requires units { HoldsUnits (S.storage store.now).kept (serial_of (S.storage store.now).index array) }
    ensures all { OnOk result (Appends (O.taken out.old) (O.taken out.new) (utf8
        (as_line line (units_at (S.storage store.now).kept (serial_of (S.storage store.now).index array))))) }
    ensures part { OnErr result (AppendsProperPrefix (O.taken out.old) (O.taken out.new) (utf8
        (as_line line (units_at (S.storage store.now).kept (serial_of (S.storage store.now).index array))))) }
    ensures cause { CountsFaults (O.faults out.old) (O.faults out.new) (IsErr result) }
{
    let total = total_of(char_count(store, array), line);
    let mut from = 0;
    while from < total {
        let mut piece = [0; PIECE];
        let filled = next_piece(store, array, line, from, total, &mut piece);
        utf8_of(&piece[..filled], out)?;
        from += filled;
    }
    Ok(())
}

/// How many chars an array has, none where it is null.
fn char_count<S: Store>(store: &S, array: u64) -> u32
    requires { IsTrue (is_held (S.storage store.now).kept (serial_of (S.storage store.now).index array)) }
    ensures { result ≡ length (contents_at (S.storage store.now).kept (serial_of
        (S.storage store.now).index array)) }
{
    if array == 0 { 0 } else { store.length(array) }
}

/// How many units a text has, with a newline behind it or without.
fn total_of(count: u32, line: bool) -> usize
    ensures { (units : List ℕ) → length units ≡ count → result ≡ length (as_line line units) }
{
    if line {
        count as usize + 1
    } else {
        count as usize
    }
}

/// Fills a piece with units of a text from a place on, as many as there is room for, but never the first unit of a pair of surrogates alone.
/// Gives how many.
fn next_piece<S: Store>(
    store: &S,
    array: u64,
    line: bool,
    from: usize,
    total: usize,
    piece: &mut [u16; PIECE],
) -> usize
    requires held { IsTrue (is_held (S.storage store.now).kept (serial_of (S.storage store.now).index array)) }
    requires units { HoldsUnits (S.storage store.now).kept (serial_of (S.storage store.now).index array) }
    requires total { total ≡ length (as_line line (units_at (S.storage store.now).kept (serial_of
        (S.storage store.now).index array))) }
    requires within { from < total }
    ensures some { 0 < result }
    ensures few { result ≤ PIECE }
    ensures within { from + result ≤ total }
    ensures read { utf8 (drop from (as_line line (units_at (S.storage store.now).kept (serial_of
        (S.storage store.now).index array)))) ≡ utf8 (take result piece.new) ++ utf8 (drop (from + result)
        (as_line line (units_at (S.storage store.now).kept (serial_of (S.storage store.now).index array)))) }
{
    let left = total - from;
    let copied = if left < PIECE { left } else { PIECE };
    copy_units(store, array, line, from, copied, piece);
    whole_front(&piece[..copied], copied == left)
}

/// Copies so many units of a text from a place on to the front of a piece.
fn copy_units<S: Store>(
    store: &S,
    array: u64,
    line: bool,
    from: usize,
    copied: usize,
    piece: &mut [u16; PIECE],
)
    requires held { IsTrue (is_held (S.storage store.now).kept (serial_of (S.storage store.now).index array)) }
    requires units { HoldsUnits (S.storage store.now).kept (serial_of (S.storage store.now).index array) }
    requires few { copied ≤ PIECE }
    requires within { from + copied ≤ length (as_line line (units_at (S.storage store.now).kept (serial_of
        (S.storage store.now).index array))) }
    ensures { take copied piece.new ≡ take copied (drop from (as_line line (units_at
        (S.storage store.now).kept (serial_of (S.storage store.now).index array)))) }
{
    let _ = line;
    let count = char_count(store, array);
    for index in 0..copied {
        piece[index] = text_unit(store, array, count, from + index);
    }
}

/// The unit at a place of a text: a char of an array, or the newline behind them.
fn text_unit<S: Store>(store: &S, array: u64, count: u32, place: usize) -> u16
    requires units { HoldsUnits (S.storage store.now).kept (serial_of (S.storage store.now).index array) }
    requires count { count ≡ length (contents_at (S.storage store.now).kept (serial_of
        (S.storage store.now).index array)) }
    ensures { (line : Bool) → place < length (as_line line (units_at (S.storage store.now).kept (serial_of
        (S.storage store.now).index array))) → slice_get (as_line line (units_at (S.storage store.now).kept
        (serial_of (S.storage store.now).index array))) place ≡ Some result }
{
    if place < count as usize {
        unit_at(store, array, place as u32)
    } else {
        NEWLINE
    }
}

/// A char of an array.
fn unit_at<S: Store>(store: &S, array: u64, place: u32) -> u16
    requires units { HoldsUnits (S.storage store.now).kept (serial_of (S.storage store.now).index array) }
    requires low { place < length (contents_at (S.storage store.now).kept (serial_of
        (S.storage store.now).index array)) }
    ensures { content_at (S.storage store.now).kept (serial_of (S.storage store.now).index array) place
        ≡ Some (Number (pos result)) }
{
    match value_at(store, array, place, Basic::Char) {
        Value::Int(unit) => unit as u16,
        Value::Long(_) | Value::Ref(_) => 0,
    }
}

/// How many units at the front of a piece are written: all but the first unit of a pair of surrogates at its end, unless the text ends there.
fn whole_front(units: &[u16], ends: bool) -> usize
    requires some { 0 < length units.now }
    requires long { ends ≡ true ⊎ (1 < length units.now) }
    ensures some { 0 < result }
    ensures few { result ≤ length units.now }
    ensures cut { (rest : List ℕ) → (ends ≡ true → rest ≡ []) → utf8 (units.now ++ rest)
        ≡ utf8 (take result units.now) ++ utf8 (drop result units.now ++ rest) }
{
    let length = units.len();
    if ends {
        return length;
    }
    if is_high(units[length - 1]) {
        return length - 1;
    }
    length
}

/// Whether a unit is the first of a pair of surrogates.
fn is_high(unit: u16) -> bool
    ensures { result ≡ is_high_surrogate unit }
{
    matches!(unit, 0xD800..=0xDBFF)
}
