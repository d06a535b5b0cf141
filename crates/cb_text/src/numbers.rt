// The numbers of class files, which stand with their high bytes first (JVMS §4).
ghost use Rattle.std.specs.Prelude.{◌≡◌, ◌<◌, ◌++◌, length, MatchOption};
ghost use Rattle.std.specs.Int.{w16, w32, w64, to_be_bytes};

/// A number of two bytes at the front, and what stands behind it.
pub(crate) fn u2_at(bytes: &[u8]) -> Option<(u16, &[u8])>
    ensures { MatchOption result (length bytes.now < 2) (λ read. bytes.now ≡ to_be_bytes w16 read.0 ++ read.1.now) }
{
    match bytes {
        [one, two, rest @ ..] => Some((u16::from_be_bytes([*one, *two]), rest)),
        _ => None,
    }
}

/// A number of four bytes at the front, and what stands behind it.
pub(crate) fn u4_at(bytes: &[u8]) -> Option<(u32, &[u8])>
    ensures { MatchOption result (length bytes.now < 4) (λ read. bytes.now ≡ to_be_bytes w32 read.0 ++ read.1.now) }
{
    match bytes {
        [one, two, three, four, rest @ ..] => {
            Some((u32::from_be_bytes([*one, *two, *three, *four]), rest))
        }
        _ => None,
    }
}

/// A number of eight bytes at the front, and what stands behind it.
pub(crate) fn u8_at(bytes: &[u8]) -> Option<(u64, &[u8])>
    ensures { MatchOption result (length bytes.now < 8) (λ read. bytes.now ≡ to_be_bytes w64 read.0 ++ read.1.now) }
{
    match bytes {
        [one, two, three, four, five, six, seven, eight, rest @ ..] => {
            let number = [*one, *two, *three, *four, *five, *six, *seven, *eight];
            Some((u64::from_be_bytes(number), rest))
        }
        _ => None,
    }
}
