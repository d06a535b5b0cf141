// An input that is read to its end.
ghost use Rattle.std.specs.Prelude.{◌≡◌, ◌<◌, ◌^◌, IsErrOf};
ghost use Rattle.cb_io.specs.Faults.{CountsFaults};
ghost use Rattle.cb_runner.specs.Inner.{Reads, ReadsPiece};
ghost use Rattle.cb_runner.specs.declared.stop.Stop.TheVariants as stops;

use crate::stop::Stop;
use cb_io::{Failed, Source};
use std::alloc::Global;

/// How many bytes are read in one call at most.
const PIECE: usize = 4096;

/// What an input had.
#[derive(Debug, Drop)]
pub(crate) enum Input {
    /// All its bytes.
    Whole(Vec<u8>),
    /// More bytes than were allowed.
    TooLong,
}

/// All bytes that an input has left, or `TooLong` where they are more than `limit`. Of so many it reads one more than the
/// limit. Takes time in the bytes that are read.
pub(crate) fn read_input<S: Source>(
    alloc: Global,
    input: &mut S,
    limit: usize,
) -> Result<Input, Stop>
    ensures read { Reads S.left S.gave limit input.old input.new result }
    ensures fault { CountsFaults (S.faults input.old) (S.faults input.new) (IsErrOf result stops.InputFault) }
{
    let mut bytes = Vec::new(alloc);
    while bytes.len() <= limit {
        match read_piece(input, limit - bytes.len(), &mut bytes) {
            Ok(true) => {}
            Ok(false) => return Ok(Input::Whole(bytes)),
            Err(stop) => return Err(stop),
        }
    }
    Ok(Input::TooLong)
}

/// Puts more bytes of an input behind some, one more than `most` at most, and tells whether there were any.
fn read_piece<S: Source>(input: &mut S, most: usize, bytes: &mut Vec<u8>) -> Result<bool, Stop>
    ensures read { ReadsPiece S.left S.gave most input.old input.new bytes.old.items bytes.new.items result }
    ensures fault { CountsFaults (S.faults input.old) (S.faults input.new) (IsErrOf result stops.InputFault) }
{
    let mut piece = [0; PIECE];
    let room = most.min(PIECE - 1) + 1;
    let count = match input.read(&mut piece[..room]) {
        Ok(count) => count,
        Err(Failed) => return Err(Stop::InputFault),
    };
    match bytes.extend_from_slice(&piece[..count]) {
        Ok(()) => Ok(count > 0),
        Err(_) => Err(Stop::OutOfMemory),
    }
}
