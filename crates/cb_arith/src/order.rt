// Longs compared.
ghost use Rattle.std.specs.Prelude.{◌≡◌, ◌<ℤ◌, ◌↔◌, neg_ℤ, pos};
ghost use Rattle.cb_arith.specs.Order.{compare};

use std::cmp::Ordering;

/// `lcmp`: -1 where the first is less, 0 where they are the same, 1 where it is greater (JVMS §6.5).
#[inline(always)]
pub fn compare(a: i64, b: i64) -> i32
    ensures exact { result ≡ compare a b }
    ensures less { (result ≡ neg_ℤ (pos 1)) ↔ (a <ℤ b) }
    ensures same { (result ≡ pos 0) ↔ (a ≡ b) }
    ensures greater { (result ≡ pos 1) ↔ (b <ℤ a) }
{
    match a.cmp(&b) {
        Ordering::Less => -1,
        Ordering::Equal => 0,
        Ordering::Greater => 1,
    }
}
