// Pending exceptions.
ghost use Rattle.std.specs.Prelude.{◌≡◌, ◌<◌, true};
ghost use Rattle.cb_frames.specs.Limited.{with_roots};
ghost use Rattle.cb_frames.specs.Tops.{cleared, runs_method, top_room};
ghost use Rattle.cb_act.specs.Unwound.{caught};

use cb_frames::Roots;
use cb_plain::Value;

/// A handler at a place of the topmost method takes the pending exception, which stands alone on its stack (JVMS §2.10).
pub fn catch(roots: &mut Roots, pc: u32)
    requires stands { runs_method roots.old.roots ≡ true }
    requires room { 0 < top_room (cleared roots.old.roots) }
    ensures { roots.new ≡ with_roots roots.old (caught pc roots.old.roots) }
{
    let at = roots.pending();
    roots.clear_stack();
    roots.push(Value::Ref(at));
    roots.set_place(pc);
    roots.set_pending(0);
}
