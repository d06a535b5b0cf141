// Natives that read (Java SE 8 API, java.io.InputStream).
ghost use Rattle.std.specs.Prelude.{◌≡◌, ◌+◌, ◌<◌, ◌≤◌, ◌^◌, length, map, true, IfOk, IsErr, OnErr};
ghost use Rattle.std.specs.Io.KnownBytes.{Keeps};
ghost use Rattle.cb_heap.specs.Kept.{contents_at};
ghost use Rattle.cb_heap.specs.Reading.{read_value, serial_of};
ghost use Rattle.cb_io.specs.Faults.{CountsFaults};
ghost use Rattle.cb_library.specs.declared.native.Native.TheVariants as natives;
ghost use Rattle.cb_natives.specs.Given.{AreGiven, HoldsBytes, have_sorts, roles, sorts_of};
ghost use Rattle.cb_natives.specs.Input.{Loses, PlansRange, ReadsByte, ReadsRange, byte_number, count_number};
ghost use Rattle.cb_natives.specs.declared.answers.Answer.TheVariants as answers;

use crate::answers::{Answer, Exception};
use crate::input::{read_front, read_range};
use crate::own_arguments::references_ints;
use crate::own_ranges::range_in;
use cb_heap::Store;
use cb_io::{Failed, Source};
use cb_plain::Value;

/// A range of an array.
#[derive(Clone, Copy, Debug, Drop, Eq, PartialEq)]
pub struct ArrayRange {
    /// The place of the array.
    pub at: u64,
    /// The index at which it begins.
    pub from: u32,
    /// How many elements it has.
    pub count: u32,
}

/// `read()`: one call of the input for a byte, also behind its end. Answers the byte, or -1 at the end.
pub fn read_byte<I: Source>(input: &mut I) -> Result<Answer, Failed>
    ensures read { IfOk result (λ answer. ReadsByte I.gave input.old input.new (I.left input.old) (I.left input.new) answer) }
    ensures lost { OnErr result (Keeps (I.left input.old) (I.left input.new)) }
    ensures cause { CountsFaults (I.faults input.old) (I.faults input.new) (IsErr result) }
{
    let mut byte = [0];
    let buffer = &mut byte[..];
    let moved = read_front(input, 1, buffer)?;
    Ok(byte_answer(&buffer[..moved]))
}

/// What `read(byte[], int, int)` reads into: the range of the array, or the exception that it throws where the array is null or hasn't that
/// range.
pub fn range_to_read<S: Store>(store: &S, arguments: &[Value]) -> Result<ArrayRange, Exception>
    requires sorts { have_sorts (sorts_of natives.ReadRange) arguments.now ≡ true }
    requires given { AreGiven (S.storage store.now).kept (roles natives.ReadRange) (map (read_value (S.storage store.now).index) arguments.now) }
    ensures { PlansRange (S.storage store.now).kept (S.storage store.now).index (map (read_value (S.storage store.now).index) arguments.now) result }
{
    let (_, at, from, count) = references_ints(arguments);
    if at == 0 {
        return Err(Exception::NullPointer);
    }
    match range_in(from, count, store.length(at)) {
        Some(range) => Ok(ArrayRange {
            at,
            from: range.0,
            count: range.1,
        }),
        None => Err(Exception::IndexOutOfBounds),
    }
}

/// `read(byte[], int, int)` for a range that isn't empty: as many bytes as it has or there are go into the array. Answers how many, or -1 for
/// none. A failed call leaves in the array what was read before it, which are fewer bytes than it has room for. Takes time in the bytes that
/// are read.
pub fn read_into<S: Store, I: Source>(
    store: &mut S,
    input: &mut I,
    range: ArrayRange,
) -> Result<Answer, Failed>
    requires holds { HoldsBytes (S.storage store.old).kept (serial_of (S.storage store.old).index range.at) }
    requires within { range.from + range.count ≤ length (contents_at (S.storage store.old).kept (serial_of (S.storage store.old).index range.at)) }
    requires some { 0 < range.count }
    ensures read { IfOk result (λ answer. ReadsRange I.gave input.old input.new (I.left input.old) (I.left input.new) range.count (S.storage store.old).kept (S.storage store.new).kept (serial_of (S.storage store.old).index range.at) range.from answer) }
    ensures lost { OnErr result (Loses I.gave range.count input.old (I.left input.old) (I.left input.new)) }
    ensures cause { CountsFaults (I.faults input.old) (I.faults input.new) (IsErr result) }
    ensures places { (S.storage store.new).index ≡ (S.storage store.old).index }
    ensures facts { (S.storage store.new).facts ≡ (S.storage store.old).facts }
    ensures granted { (S.storage store.new).granted ≡ (S.storage store.old).granted }
    ensures faults { (S.storage store.new).faults ≡ (S.storage store.old).faults }
    ensures settings { (S.storage store.new).settings ≡ (S.storage store.old).settings }
{
    let taken = read_range(store, input, range.at, range.from, range.count)?;
    Ok(count_answer(taken))
}

/// What is answered for the bytes that were read: the first of them, or -1 for none.
fn byte_answer(bytes: &[u8]) -> Answer
    ensures { result ≡ answers.Int (byte_number bytes.now) }
{
    match bytes {
        [byte, ..] => Answer::Int(i32::from(*byte)),
        [] => Answer::Int(-1),
    }
}

/// What is answered for so many bytes: how many they are, or -1 for none.
fn count_answer(count: u32) -> Answer
    requires { count < 2 ^ 31 }
    ensures { result ≡ answers.Int (count_number count) }
{
    if count == 0 {
        Answer::Int(-1)
    } else {
        Answer::Int(count as i32)
    }
}
