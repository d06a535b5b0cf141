// Turns of a run in which `Enum.valueOf` is performed (Java SE 8 API, java.lang.Enum).
ghost use Rattle.cb_heap.specs.Storage.{view_in};
ghost use Rattle.std.specs.Prelude.{◌≡◌, ◌<◌, ◌≤◌, [], ◌∷◌, length, Some};
ghost use Rattle.cb_act.specs.Here.{Here};
ghost use Rattle.cb_act.specs.Turning.{Outside, machine_of, state_of};
ghost use Rattle.cb_frames.specs.Limited.{with_roots};
ghost use Rattle.cb_frames.specs.Tops.{top_stack};
ghost use Rattle.cb_library.specs.declared.native.Native.TheVariants as natives;
ghost use Rattle.cb_interp.specs.Answering.{behind_answer};
ghost use Rattle.cb_interp.specs.Performed.{AsksNative};
ghost use Rattle.cb_interp.specs.Running.{Ready, TurnEnds};

use crate::Stop;
use crate::answer_turns::{argument_count, arguments_on};
use crate::frame_turns::begins_class;
use crate::linked::{linked_constants, linked_programs_fit};
use crate::need_turns::throw_of;
use cb_act::give_for;
use cb_frames::Roots;
use cb_heap::Store;
use cb_link::{Decoded, Program};
use cb_natives::{EnumAnswer, find_constant};
use cb_plain::{Request, Value};
use cb_safety::linked_has_natives;

/// A turn in which this native is performed, for which the instruction at the topmost frame's place asks: the constant stands on the stack in
/// place of the arguments, or an exception is thrown, or the class of the enum begins to be initialised, and behind that the call is made
/// again. Takes time in the names of the enum's constants.
pub(crate) fn enum_turn<S: Store>(
    program: &Program,
    store: &mut S,
    roots: &mut Roots,
    request: &mut Request,
    decoded: &Decoded,
) -> Result<(), Stop>
    ghost outside: { Outside }
    requires ready { Ready S.rules program.now (S.storage store.old) roots.old outside }
    requires here { Here (machine_of program.now roots.old.limit) (state_of (view_in (S.storage store.old) roots.old.roots) outside) decoded.now }
    requires asked { AsksNative program.now roots.old.limit decoded.now (view_in (S.storage store.old) roots.old.roots) natives.EnumValueOf }
    ensures { TurnEnds S.rules program.now outside (S.storage store.old) (S.storage store.new) roots.old roots.new result }
{
    linked_programs_fit();
    linked_constants();
    linked_has_natives();
    let count = argument_count(program, decoded);
    let arguments = arguments_on(roots, count);
    match find_constant(program, store, roots, &arguments[..count as usize]) {
        EnumAnswer::Gives(value) => {
            let Some(next) = decoded.next else {
                unreachable!()
            };
            leave_value(roots, count, value, next);
            Ok(())
        }
        EnumAnswer::Throws(exception) => {
            throw_of(program, store, roots, request, exception.site())
        }
        EnumAnswer::Begins(class) => begins_class(program, store, roots, request, class),
    }
}

/// Lays a value on the stack in place of so many arguments, and goes on at a place.
fn leave_value(roots: &mut Roots, count: u32, value: Value, next: u32)
    requires some { 0 < count }
    requires few { count ≤ 5 }
    requires there { count ≤ length (top_stack roots.old.roots) }
    ensures { roots.new ≡ with_roots roots.old (behind_answer count (value ∷ []) next
        roots.old.roots) }
{
    give_for(roots, count - 1, value);
    roots.set_place(next);
}
