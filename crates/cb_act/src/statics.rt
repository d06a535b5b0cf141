// Static fields.
ghost use Rattle.std.specs.Prelude.{◌≡◌, ◌<◌, is_some, length, true, Some};
ghost use Rattle.cb_frames.specs.Tops.{top_room};
ghost use Rattle.cb_act.specs.Going.{behind_get_static, behind_put_static};

use crate::operands::take_one;
use crate::words::kept_value;
use cb_frames::Roots;
use cb_kinds::Basic;

/// Puts the value of a static field on the stack of the topmost frame: `getstatic`, of a class that may be used (JVMS §6.5).
#[inline(always)]
pub fn get_static(roots: &mut Roots, slot: u32)
    requires there { is_some (behind_get_static slot roots.old.roots) ≡ true }
    requires room { 0 < top_room roots.old.roots }
    ensures behind { behind_get_static slot roots.old.roots ≡ Some roots.new.roots }
    ensures limit { roots.new.limit ≡ roots.old.limit }
{
    let value = roots.static_value(slot);
    roots.push(value);
}

/// Puts the value on the stack of the topmost frame into a static field of a type: `putstatic`, of a class that may be used (JVMS §6.5).
#[inline(always)]
pub fn put_static(roots: &mut Roots, slot: u32, basic: Basic)
    requires there { is_some (behind_put_static slot basic roots.old.roots) ≡ true }
    requires low { slot < length roots.old.roots.statics }
    ensures behind { behind_put_static slot basic roots.old.roots ≡ Some roots.new.roots }
    ensures limit { roots.new.limit ≡ roots.old.limit }
{
    let value = kept_value(basic, roots.peek(0));
    roots.set_static(slot, value);
    take_one(roots);
}
