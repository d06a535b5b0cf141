// The numbers of code, which stand with their high bytes first (JVMS §6.5).
ghost use Rattle.std.specs.Prelude.{◌≡◌, ◌≤◌, length, drop};
ghost use Rattle.cb_insn.specs.Faults.{u2_at, s2_at, s4_at};

/// The number in the first two bytes.
pub(crate) fn u2_at(bytes: &[u8]) -> u16
    requires { 2 ≤ length bytes.now }
    ensures { result ≡ u2_at bytes.now }
{
    u16::from_be_bytes([bytes[0], bytes[1]])
}

/// The number with a sign in the first two bytes.
pub(crate) fn s2_at(bytes: &[u8]) -> i16
    requires { 2 ≤ length bytes.now }
    ensures { result ≡ s2_at bytes.now }
{
    i16::from_be_bytes([bytes[0], bytes[1]])
}

/// The number with a sign in the first four bytes.
pub(crate) fn s4_at(bytes: &[u8]) -> i32
    requires { 4 ≤ length bytes.now }
    ensures { result ≡ s4_at bytes.now }
{
    i32::from_be_bytes([bytes[0], bytes[1], bytes[2], bytes[3]])
}

/// What stands behind so many bytes, or nothing where there are fewer.
pub(crate) fn after(bytes: &[u8], count: usize) -> &[u8]
    ensures { result.now ≡ drop count bytes.now }
{
    if bytes.len() < count {
        return &[];
    }
    &bytes[count..]
}
