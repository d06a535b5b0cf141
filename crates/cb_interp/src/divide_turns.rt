// Turns of a run in which the exception of a division by zero is thrown, which has a message (JVMS §6.5, idiv).
ghost use Rattle.cb_heap.specs.Storage.{view_in};
ghost use Rattle.std.specs.Prelude.{◌≡◌, ◌+◌, ◌<◌, ◌≤◌, ◌^◌, ℕ, length, true, IsTrue, Some};
ghost use Rattle.std.specs.List.{list_all};
ghost use Rattle.cb_heap.specs.Kept.{is_held, is_kept};
ghost use Rattle.cb_heap.specs.Reading.{read_roots, serial_of};
ghost use Rattle.cb_heap.specs.Shaped.{has_size, new_object};
ghost use Rattle.cb_heap.specs.declared.no_room.NoRoom.TheVariants as rooms;
ghost use Rattle.cb_machine.specs.Computing.{throws_by_zero};
ghost use Rattle.cb_machine.specs.Plans.{object_of};
ghost use Rattle.cb_machine.specs.Sites.{arithmetic};
ghost use Rattle.cb_machine.specs.Steps.{plan};
ghost use Rattle.cb_machine.specs.Throwing.{exception_contents};
ghost use Rattle.cb_plain.specs.Reach.{root_references};
ghost use Rattle.cb_plain.specs.Requests.{words_at};
ghost use Rattle.cb_plain.specs.State.{Object, words_of};
ghost use Rattle.cb_plain.specs.Updates.{object_in};
ghost use Rattle.cb_unwind.specs.Strings.{IsNew};
ghost use Rattle.cb_interp.specs.Dividing.{thrown_with};
ghost use Rattle.cb_interp.specs.Loading.{MayPlace};
ghost use Rattle.cb_act.specs.Placing.{exception_size};
ghost use Rattle.cb_interp.specs.Running.{Ready, RoomEnds, TurnEnds};
ghost use Rattle.cb_act.specs.Turning.{Outside, machine_of, state_of};
ghost use Rattle.cb_interp.specs.declared.stop.Stop.TheVariants as stops;

use crate::Stop;
use crate::linked::{linked_constants, linked_programs_fit};
use crate::load_turns::{CONSTANT_CHARACTERS, CONSTANT_STRINGS, STRING_WORDS, text_words};
use crate::stopping::stopped;
use cb_frames::Roots;
use cb_heap::{NoRoom, Store};
use cb_link::Program;
use cb_plain::{Request, Table};
use cb_unwind::constant_string;

/// The site of the exception of a division by zero.
const ARITHMETIC: u32 = 17;

/// The words of an exception, with its header and without.
const EXCEPTION_WORDS: u64 = 6;

const EXCEPTION_SIZE: u32 = 3;

/// Which of them has its message.
const MESSAGE_WORD: u32 = 0;

/// The text of its message, which is the first one of a program.
const DIVIDE_MESSAGE: u32 = 0;

/// The exception of a division by zero is thrown. Takes time in the units of its message where that has no object yet.
pub(crate) fn divide_need<S: Store>(
    program: &Program,
    store: &mut S,
    roots: &mut Roots,
    request: &mut Request,
) -> Result<(), Stop>
    ghost outside: { Outside }
    requires ready { Ready S.rules program.now (S.storage store.old) roots.old outside }
    requires plans { plan (machine_of program.now roots.old.limit) (state_of (view_in (S.storage store.old) roots.old.roots) outside)
        ≡ Some (throws_by_zero (machine_of program.now roots.old.limit) (state_of (view_in (S.storage store.old) roots.old.roots) outside)) }
    ensures { TurnEnds S.rules program.now outside (S.storage store.old) (S.storage store.new) roots.old roots.new result }
{
    linked_constants();
    if roots.table(Table::Constants, DIVIDE_MESSAGE) != 0 {
        stopped(divide_known(program, store, roots, request))
    } else {
        stopped(divide_new(program, store, roots, request))
    }
}

/// It is thrown, and its message has an object.
fn divide_known<S: Store>(
    program: &Program,
    store: &mut S,
    roots: &mut Roots,
    request: &mut Request,
) -> Result<(), NoRoom>
    ghost outside: { Outside }
    requires ready { Ready S.rules program.now (S.storage store.old) roots.old outside }
    requires plans { plan (machine_of program.now roots.old.limit) (state_of (view_in (S.storage store.old) roots.old.roots) outside)
        ≡ Some (throws_by_zero (machine_of program.now roots.old.limit) (state_of (view_in (S.storage store.old) roots.old.roots) outside)) }
    requires there { 0 < length program.now.constants }
    requires table { 0 < length roots.old.roots.tables.constants }
    requires known { IsNew roots.old.roots 0 → ⊥ }
    ensures { RoomEnds S.rules program.now outside (S.storage store.old) (S.storage store.new) roots.old roots.new result }
{
    linked_programs_fit();
    request.clear();
    request.add(ARITHMETIC, EXCEPTION_WORDS);
    store.make_room(request, roots)?;
    let message = roots.table(Table::Constants, DIVIDE_MESSAGE);
    throw_message(store, roots, program.site_kind(ARITHMETIC), message);
    Ok(())
}

/// It is thrown, and its message is placed before it.
fn divide_new<S: Store>(
    program: &Program,
    store: &mut S,
    roots: &mut Roots,
    request: &mut Request,
) -> Result<(), NoRoom>
    ghost outside: { Outside }
    requires ready { Ready S.rules program.now (S.storage store.old) roots.old outside }
    requires plans { plan (machine_of program.now roots.old.limit) (state_of (view_in (S.storage store.old) roots.old.roots) outside)
        ≡ Some (throws_by_zero (machine_of program.now roots.old.limit) (state_of (view_in (S.storage store.old) roots.old.roots) outside)) }
    requires there { 0 < length program.now.constants }
    requires table { 0 < length roots.old.roots.tables.constants }
    requires new { IsNew roots.old.roots 0 }
    requires may { MayPlace program.now 0 }
    ensures { RoomEnds S.rules program.now outside (S.storage store.old) (S.storage store.new) roots.old roots.new result }
{
    linked_programs_fit();
    let words = text_words(program, DIVIDE_MESSAGE);
    request.clear();
    request.add(CONSTANT_CHARACTERS, words);
    request.add(CONSTANT_STRINGS, STRING_WORDS);
    request.add(ARITHMETIC, EXCEPTION_WORDS);
    store.make_room(request, roots)?;
    let message = constant_string(program, store, roots, DIVIDE_MESSAGE);
    throw_message(store, roots, program.site_kind(ARITHMETIC), message);
    Ok(())
}

/// Places the exception of a division by zero with its message, which becomes pending.
fn throw_message<S: Store>(store: &mut S, roots: &mut Roots, kind: u32, message: u64)
    requires granted { words_of exception_size ≤ words_at (S.storage store.old).granted arithmetic }
    requires sized { IsTrue (has_size (S.storage store.old).settings.shapes kind exception_size) }
    requires shaped { new_object (S.storage store.old).settings.shapes arithmetic kind exception_size
        ≡ object_of arithmetic kind (exception_contents 0 0) }
    requires serials { length (S.storage store.old).kept + 1 < 2 ^ 63 }
    requires held { IsTrue (list_all (is_held (S.storage store.old).kept) (root_references (read_roots
        (S.storage store.old).index roots.old.roots))) }
    requires there { IsTrue (is_kept (S.storage store.old).kept (serial_of (S.storage store.old).index message)) }
    requires allowed { (object : Object) → object_in (S.storage store.old).kept (serial_of (S.storage store.old).index message) ≡ Some object
        → (S.storage store.old).settings.allows arithmetic object.site ≡ true }
    ensures behind { view_in (S.storage store.new) roots.new.roots
        ≡ thrown_with arithmetic kind (serial_of (S.storage store.old).index message) (view_in (S.storage store.old) roots.old.roots) }
    ensures limit { roots.new.limit ≡ roots.old.limit }
    ensures facts { (S.storage store.new).facts ≡ S.rules.placed
        (S.storage store.old).facts arithmetic exception_size }
    ensures faults { (S.storage store.new).faults ≡ (S.storage store.old).faults }
    ensures settings { (S.storage store.new).settings ≡ (S.storage store.old).settings }
{
    let at = store.place(ARITHMETIC, kind, EXCEPTION_SIZE);
    store.put_ref(at, MESSAGE_WORD, message);
    roots.set_pending(at);
}
