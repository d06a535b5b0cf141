// Bytes of an input that are read into arrays.
ghost use Rattle.std.specs.Prelude.{◌≡◌, ◌+◌, ◌<◌, ◌≤◌, length, pos, take, IfOk, IsErr, OnErr};
ghost use Rattle.std.specs.Int.{int_wrap, w64};
ghost use Rattle.std.specs.Io.KnownBytes.{Keeps};
ghost use Rattle.cb_heap.specs.Kept.{contents_at};
ghost use Rattle.cb_heap.specs.Reading.{serial_of};
ghost use Rattle.cb_io.specs.Faults.{CountsFaults};
ghost use Rattle.cb_machine.specs.Outside.{stored_byte};
ghost use Rattle.cb_plain.specs.State.{Number};
ghost use Rattle.cb_natives.specs.Given.{HoldsBytes};
ghost use Rattle.cb_natives.specs.Input.{GaveIn, Loses, ReadsFront, TakesInto, TakesPiece, with_bytes};

use crate::low_bits::word_of;
use cb_arith::{Narrow, narrow};
use cb_heap::Store;
use cb_io::{Failed, Source};

/// How many bytes an input is asked for in one call at most.
const PIECE: usize = 512;

/// Reads bytes of an input into an array of bytes from an index on, until so many are read or the input is at its end, and answers how many.
/// A failed call leaves in the array what was read before it. Takes time in the bytes that are read.
pub(crate) fn read_range<S: Store, I: Source>(
    store: &mut S,
    input: &mut I,
    at: u64,
    from: u32,
    count: u32,
) -> Result<u32, Failed>
    requires holds { HoldsBytes (S.storage store.old).kept (serial_of (S.storage store.old).index at) }
    requires within { from + count ≤ length (contents_at (S.storage store.old).kept (serial_of (S.storage store.old).index at)) }
    ensures taken { IfOk result (λ taken. TakesInto I.gave input.old input.new (I.left input.old) (I.left input.new) count (S.storage store.old).kept (S.storage store.new).kept (serial_of (S.storage store.old).index at) from taken) }
    ensures lost { OnErr result (Loses I.gave count input.old (I.left input.old) (I.left input.new)) }
    ensures cause { CountsFaults (I.faults input.old) (I.faults input.new) (IsErr result) }
    ensures places { (S.storage store.new).index ≡ (S.storage store.old).index }
    ensures facts { (S.storage store.new).facts ≡ (S.storage store.old).facts }
    ensures granted { (S.storage store.new).granted ≡ (S.storage store.old).granted }
    ensures faults { (S.storage store.new).faults ≡ (S.storage store.old).faults }
    ensures settings { (S.storage store.new).settings ≡ (S.storage store.old).settings }
{
    let mut taken: u32 = 0;
    while taken < count {
        let more = read_piece(store, input, at, from + taken, count - taken)?;
        if more == 0 {
            return Ok(taken);
        }
        taken += more;
    }
    Ok(taken)
}

/// Reads bytes in one call of an input, so many at most, and answers how many: none only at the end of the input.
fn read_piece<S: Store, I: Source>(
    store: &mut S,
    input: &mut I,
    at: u64,
    from: u32,
    most: u32,
) -> Result<u32, Failed>
    requires holds { HoldsBytes (S.storage store.old).kept (serial_of (S.storage store.old).index at) }
    requires within { from + most ≤ length (contents_at (S.storage store.old).kept (serial_of (S.storage store.old).index at)) }
    requires some { 0 < most }
    ensures moved { IfOk result (λ moved. TakesPiece I.gave input.old input.new (I.left input.old) (I.left input.new) most (S.storage store.old).kept (S.storage store.new).kept (serial_of (S.storage store.old).index at) from moved) }
    ensures lost { OnErr result (Keeps (I.left input.old) (I.left input.new)) }
    ensures cause { CountsFaults (I.faults input.old) (I.faults input.new) (IsErr result) }
    ensures places { (S.storage store.new).index ≡ (S.storage store.old).index }
    ensures facts { (S.storage store.new).facts ≡ (S.storage store.old).facts }
    ensures granted { (S.storage store.new).granted ≡ (S.storage store.old).granted }
    ensures faults { (S.storage store.new).faults ≡ (S.storage store.old).faults }
    ensures settings { (S.storage store.new).settings ≡ (S.storage store.old).settings }
{
    let mut piece = [0; PIECE];
    let room = &mut piece[..(most as usize).min(PIECE)];
    let moved = read_front(input, most, room)?;
    write_bytes(store, at, from, &room[..moved]);
    Ok(moved as u32)
}

/// Reads bytes in one call of an input to the front of a buffer, and answers how many.
pub(crate) fn read_front<I: Source>(
    input: &mut I,
    most: u32,
    buffer: &mut [u8],
) -> Result<usize, Failed>
    requires some { 0 < length buffer.old }
    requires few { length buffer.old ≤ most }
    ensures moved { IfOk result (λ moved. ReadsFront (I.left input.old) (I.left input.new) most buffer.new moved) }
    ensures given { IfOk result (λ moved. GaveIn I.gave input.old input.new (take moved buffer.new)) }
    ensures within { IfOk result (λ moved. moved ≤ length buffer.new) }
    ensures lost { OnErr result (Keeps (I.left input.old) (I.left input.new)) }
    ensures cause { CountsFaults (I.faults input.old) (I.faults input.new) (IsErr result) }
{
    let _ = most;
    input.read(buffer)
}

/// Writes bytes into an array of bytes from an index on. Takes time in the bytes.
fn write_bytes<S: Store>(store: &mut S, at: u64, from: u32, bytes: &[u8])
    requires holds { HoldsBytes (S.storage store.old).kept (serial_of (S.storage store.old).index at) }
    requires within { from + length bytes.now ≤ length (contents_at (S.storage store.old).kept (serial_of (S.storage store.old).index at)) }
    ensures kept { (S.storage store.new).kept ≡ with_bytes (S.storage store.old).kept (serial_of (S.storage store.old).index at) from bytes.now }
    ensures places { (S.storage store.new).index ≡ (S.storage store.old).index }
    ensures facts { (S.storage store.new).facts ≡ (S.storage store.old).facts }
    ensures granted { (S.storage store.new).granted ≡ (S.storage store.old).granted }
    ensures faults { (S.storage store.new).faults ≡ (S.storage store.old).faults }
    ensures settings { (S.storage store.new).settings ≡ (S.storage store.old).settings }
{
    let mut left = bytes.len() as u32;
    while left > 0 {
        left -= 1;
        store.put(at, from + left, word_of_byte(bytes[left as usize]));
    }
}

/// The word that an array of bytes has for a byte: a number from -128 to 127.
fn word_of_byte(byte: u8) -> u64
    ensures { Number (int_wrap w64 (pos result)) ≡ stored_byte byte }
{
    let number = narrow(Narrow::Byte, i32::from(byte));
    word_of(i64::from(number))
}
