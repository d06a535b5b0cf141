// The parts of a switch, which stand behind its padding (JVMS §6.5.tableswitch, §6.5.lookupswitch).
ghost use Rattle.std.specs.Prelude.{◌≡◌, ◌^◌, ◌+◌, ◌*◌, ◌-◌, ◌<◌, ◌≤◌, ℕ, ℤ, pos, ◌+ℤ◌, ◌-ℤ◌, length, drop};
ghost use Rattle.cb_insn.specs.Faults.{padding_length, table_count, table_length, lookup_count, lookup_length, numbers_at, keys_fall};

use crate::numbers::{after, s4_at};

/// How many bytes of padding a switch at this place has.
pub(crate) fn padding_length(pc: usize) -> usize
    ensures { result ≡ padding_length pc }
{
    3 - pc % 4
}

/// What stands behind the padding, or nothing where there is less.
pub(crate) fn behind_padding(pc: usize, behind: &[u8]) -> &[u8]
    ensures { result.now ≡ drop (padding_length pc) behind.now }
{
    after(behind, padding_length(pc))
}

/// How many offsets a table has behind its bounds.
pub(crate) fn table_count(switch: &[u8]) -> usize
    requires { 12 ≤ length switch.now }
    ensures { result ≡ table_count switch.now }
{
    let low = i64::from(s4_at(after(switch, 4)));
    let high = i64::from(s4_at(after(switch, 8)));
    (high + 1 - low).max(0) as usize
}

/// The high bound of a table with so many targets.
pub(crate) fn high_bound(low: i32, count: usize) -> i64
    requires { count ≤ 2 ^ 32 }
    ensures { result ≡ (low +ℤ pos count) -ℤ pos 1 }
{
    i64::from(low) + count as i64 - 1
}

/// How many bytes a table has behind its padding, as far as these tell.
#[inline(never)]
pub(crate) fn table_length(switch: &[u8]) -> usize
    ensures exact { result ≡ table_length switch.now }
    ensures bound { result < 2 ^ 35 }
{
    if switch.len() < 12 {
        return 12;
    }
    12 + 4 * table_count(switch)
}

/// How many pairs a lookup has.
pub(crate) fn lookup_count(switch: &[u8]) -> usize
    requires { 8 ≤ length switch.now }
    ensures exact { result ≡ lookup_count switch.now }
    ensures bound { result < 2 ^ 31 }
{
    s4_at(after(switch, 4)).max(0) as usize
}

/// How many bytes a lookup has behind its padding, as far as these tell.
#[inline(never)]
pub(crate) fn lookup_length(switch: &[u8]) -> usize
    ensures exact { result ≡ lookup_length switch.now }
    ensures bound { result < 2 ^ 35 }
{
    if switch.len() < 8 {
        return 8;
    }
    8 + 8 * lookup_count(switch)
}

/// Whether some key of so many pairs isn't above the one before it. Takes time in the number of pairs.
#[inline(never)]
pub(crate) fn keys_fall(count: usize, pairs: &[u8]) -> bool
    requires { 8 * count ≤ length pairs.now }
    ensures { result ≡ keys_fall (numbers_at 8 count pairs.now) }
{
    let mut rest = pairs;
    let mut left = count;
    while left > 1 {
        let next = after(rest, 8);
        if s4_at(rest) >= s4_at(next) {
            return true;
        }
        rest = next;
        left -= 1;
    }
    false
}
