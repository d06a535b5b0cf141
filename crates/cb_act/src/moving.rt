// Instructions that move values between local variables and the stack.
ghost use Rattle.std.specs.Prelude.{◌≡◌, ◌<◌, is_some, true, Some};
ghost use Rattle.cb_frames.specs.Tops.{top_room};
ghost use Rattle.cb_act.specs.Effects.{behind_increase, behind_load, behind_store};

use cb_arith::{IntOp, int_op};
use cb_frames::Roots;
use cb_plain::Value;
use cb_shapes::Sort;

/// Loads a local variable onto the stack of the topmost frame: `iload`, `lload`, `aload` (JVMS §6.5).
#[inline(always)]
pub(crate) fn load(roots: &mut Roots, sort: Sort, local: u16)
    requires there { is_some (behind_load sort local roots.old.roots) ≡ true }
    requires room { 0 < top_room roots.old.roots }
    ensures behind { behind_load sort local roots.old.roots ≡ Some roots.new.roots }
    ensures limit { roots.new.limit ≡ roots.old.limit }
{
    let _ = sort;
    roots.push_local(local as u32);
}

/// Stores the topmost value into a local variable, a long into two, of which the second holds the int 0 then: `istore`, `lstore`, `astore`
/// (JVMS §6.5, §2.6.1).
#[inline(always)]
pub(crate) fn store(roots: &mut Roots, sort: Sort, local: u16)
    requires there { is_some (behind_store sort local roots.old.roots) ≡ true }
    ensures behind { behind_store sort local roots.old.roots ≡ Some roots.new.roots }
    ensures limit { roots.new.limit ≡ roots.old.limit }
{
    let _ = sort;
    if roots.pop_into(local as u32) {
        roots.set_local(local as u32 + 1, Value::Int(0));
    }
}

/// Adds to an int in a local variable, and wraps: `iinc` (JVMS §6.5).
#[inline(always)]
pub(crate) fn increase(roots: &mut Roots, local: u16, by: i32)
    requires there { is_some (behind_increase local by roots.old.roots) ≡ true }
    ensures behind { behind_increase local by roots.old.roots ≡ Some roots.new.roots }
    ensures limit { roots.new.limit ≡ roots.old.limit }
{
    let number = roots.int_local(local as u32);
    if let Some(sum) = int_op(IntOp::Add, number, by) {
        roots.set_local(local as u32, Value::Int(sum));
    }
}
