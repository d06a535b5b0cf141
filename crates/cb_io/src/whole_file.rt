// A file that is read to its end.
ghost use Rattle.std.specs.Prelude.{IfOk, IfSome, Some};
ghost use Rattle.cb_io.specs.Folder.{FindsAt, IsThere, IsWithin};

use crate::Found;
use std::alloc::Global;
use std::io;
use std::io::Read;

/// All bytes that the reader has left, or `TooLong` where they are more than `limit`. Of so many it reads one more
/// than the limit.
pub(crate) fn whole_within<R: Read>(alloc: Global, reader: R, limit: usize) -> io::Result<Found>
where
    R: Drop,
    ensures found { IfSome (R.remaining reader) (λ bytes. IfOk result (FindsAt (Some bytes) limit)) }
    ensures within { IfOk result (IsWithin limit) }
    ensures there { IfOk result IsThere }
{
    let most = (limit as u64).saturating_add(1);
    let mut bytes = Vec::new(alloc);
    reader.take(most).read_to_end(&mut bytes)?;
    if bytes.len() > limit {
        Ok(Found::TooLong)
    } else {
        Ok(Found::Bytes(bytes))
    }
}
