// Returns.
ghost use Rattle.std.specs.Prelude.{◌≡◌, ◌<◌, is_some, option_map, true, Some};
ghost use Rattle.cb_frames.specs.Tops.{left, runs_method, top_room};
ghost use Rattle.cb_plain.specs.Roots.{with_frames};
ghost use Rattle.cb_act.specs.Going.{answers, behind_return, returned_to};

use cb_frames::{Frame, Roots};
use cb_link::Program;
use cb_plain::Value;
use cb_shapes::Sort;

/// Ends the topmost frame, and lays its answer, if it has one, on the stack of the method below that waits for it, which goes on behind its
/// call: `ireturn`, `lreturn`, `areturn`, `return` (JVMS §6.5). Takes time in the slots of the frame that ends.
#[inline(always)]
pub fn give_back(program: &Program, roots: &mut Roots, sort: Option<Sort>)
    requires there { is_some (behind_return program.now sort roots.old.roots) ≡ true }
    requires stands { runs_method roots.old.roots ≡ true }
    requires room { is_some sort ≡ true → runs_method (left roots.old.roots) ≡ true
        → 0 < top_room (left roots.old.roots) }
    ensures behind { behind_return program.now sort roots.old.roots ≡ Some roots.new.roots }
    ensures limit { roots.new.limit ≡ roots.old.limit }
{
    let answer = match sort {
        Some(_) => Some(roots.pop()),
        None => None,
    };
    roots.leave();
    go_on(program, roots, answer);
}

/// Lays an answer on the stack of the topmost frame, and goes on behind its call, where that is a method's.
#[inline(always)]
fn go_on(program: &Program, roots: &mut Roots, answer: Option<Value>)
    requires there { is_some (returned_to program.now (answers answer) roots.old.roots.frames)
        ≡ true }
    requires room { is_some answer ≡ true → runs_method roots.old.roots ≡ true
        → 0 < top_room roots.old.roots }
    ensures behind { option_map (with_frames roots.old.roots) (returned_to program.now
        (answers answer) roots.old.roots.frames)
        ≡ Some roots.new.roots }
    ensures limit { roots.new.limit ≡ roots.old.limit }
{
    if let Some(Frame::Running { method, pc }) = roots.top() {
        if let Some(next) = program.behind(method, pc) {
            if let Some(value) = answer {
                roots.push(value);
            }
            roots.set_place(next);
        }
    }
}
