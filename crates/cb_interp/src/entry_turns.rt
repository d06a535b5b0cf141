// Turns of a run in which no frame stands: main is entered once its class is ready (JLS §12.1.4, JVMS §5.2).
ghost use Rattle.cb_heap.specs.Storage.{view_in};
ghost use Rattle.std.specs.Prelude.{◌≡◌, ◌∷◌, ◌<◌, [], slice_get, true, None, OnErr, OnOk, Some};
ghost use Rattle.cb_frames.specs.Tops.{topmost};
ghost use Rattle.cb_heap.specs.declared.no_room.NoRoom.TheVariants as rooms;
ghost use Rattle.cb_heap.specs.Reading.{serial_of};
ghost use Rattle.cb_machine.specs.Entering.{entered_from};
ghost use Rattle.cb_machine.specs.Sites.{stack_overflow};
ghost use Rattle.cb_machine.specs.Steps.{plan};
ghost use Rattle.cb_machine.specs.Throwing.{throws};
ghost use Rattle.cb_plain.specs.declared.value.Value.TheVariants.{Ref};
ghost use Rattle.cb_plain.specs.Updates.{with_argument};
ghost use Rattle.cb_interp.specs.declared.stop.Stop.TheVariants as stops;
ghost use Rattle.cb_act.specs.Going.{is_ready};
ghost use Rattle.cb_interp.specs.Running.{Ready, TurnEnds};
ghost use Rattle.cb_act.specs.Turning.{Outside, TurnMade, machine_of, moment_of, state_of};

use crate::Stop;
use crate::frame_turns::{begins_class, throws_at};
use cb_act::{NO_CLASS_DEFINITION, STACK_OVERFLOW};
use cb_classfile::Body;
use cb_frames::{Deep, Roots};
use cb_heap::Store;
use cb_link::Program;
use cb_plain::{ClassState, Request, Value};

/// The next turn of a run in which no exception is pending and no frame stands: `main` is entered, once its class is ready. Where no array
/// of arguments waits for it the run has ended.
pub(crate) fn idle_turn<S: Store>(
    program: &Program,
    store: &mut S,
    roots: &mut Roots,
    request: &mut Request,
) -> Result<(), Stop>
    ghost outside: { Outside }
    requires ready { Ready S.rules program.now (S.storage store.old) roots.old outside }
    requires quiet { roots.old.roots.pending ≡ 0 }
    requires none { topmost roots.old.roots.frames ≡ None }
    ensures { TurnEnds S.rules program.now outside (S.storage store.old) (S.storage store.new) roots.old roots.new result }
{
    if roots.argument() == 0 {
        return Err(Stop::Returned);
    }
    starts_main(program, store, roots, request)
}

/// The same where one waits.
fn starts_main<S: Store>(
    program: &Program,
    store: &mut S,
    roots: &mut Roots,
    request: &mut Request,
) -> Result<(), Stop>
    ghost outside: { Outside }
    requires ready { Ready S.rules program.now (S.storage store.old) roots.old outside }
    requires quiet { roots.old.roots.pending ≡ 0 }
    requires none { topmost roots.old.roots.frames ≡ None }
    requires waits { 0 < roots.old.roots.argument }
    ensures { TurnEnds S.rules program.now outside (S.storage store.old) (S.storage store.new) roots.old roots.new result }
{
    let class = program.main_class();
    match roots.state(class) {
        ClassState::Untouched => begins_class(program, store, roots, request, class),
        ClassState::Failed => throws_at(program, store, roots, request, NO_CLASS_DEFINITION),
        ClassState::Busy | ClassState::Done => enters_main(program, store, roots, request),
    }
}

/// And the class of `main` is ready.
fn enters_main<S: Store>(
    program: &Program,
    store: &mut S,
    roots: &mut Roots,
    request: &mut Request,
) -> Result<(), Stop>
    ghost outside: { Outside }
    requires ready { Ready S.rules program.now (S.storage store.old) roots.old outside }
    requires quiet { roots.old.roots.pending ≡ 0 }
    requires none { topmost roots.old.roots.frames ≡ None }
    requires waits { 0 < roots.old.roots.argument }
    requires begun { is_ready (slice_get roots.old.roots.classes program.now.main_class) ≡ true }
    ensures { TurnEnds S.rules program.now outside (S.storage store.old) (S.storage store.new) roots.old roots.new result }
{
    let method = program.main_method();
    match &program.method(method).body {
        Some(body) => enters_first(program, store, roots, request, method, body),
        None => unreachable!(),
    }
}

/// A method with this code is entered as the first one, with the array that waits as its argument, or a StackOverflowError is thrown where
/// there is no room for its frame.
fn enters_first<S: Store>(
    program: &Program,
    store: &mut S,
    roots: &mut Roots,
    request: &mut Request,
    method: u32,
    body: &Body,
) -> Result<(), Stop>
    ghost outside: { Outside }
    requires ready { Ready S.rules program.now (S.storage store.old) roots.old outside }
    requires none { topmost roots.old.roots.frames ≡ None }
    requires plans { plan (machine_of program.now roots.old.limit) (state_of (view_in (S.storage store.old) roots.old.roots) outside)
        ≡ Some (entered_from (machine_of program.now roots.old.limit) (state_of (view_in (S.storage store.old) roots.old.roots) outside) (with_argument (state_of
        (view_in (S.storage store.old) roots.old.roots) outside) 0) [] method (Ref
        (serial_of (S.storage store.old).index roots.old.roots.argument) ∷ []) body.now) }
    requires locals { 0 < body.now.max_locals }
    ensures { TurnEnds S.rules program.now outside (S.storage store.old) (S.storage store.new) roots.old roots.new result }
{
    match enter_turn(program, store, roots, method, body) {
        Ok(()) => Ok(()),
        Err(Deep) => throws_at(program, store, roots, request, STACK_OVERFLOW),
    }
}

/// A turn in which a method with this code is entered as the first one, with the array that waits as its argument: it is its first local
/// variable, and no longer waits. Where it is `Deep` there is no room for its frame, and a StackOverflowError is thrown in its place; then
/// nothing has changed.
fn enter_turn<S: Store>(
    program: &Program,
    store: &S,
    roots: &mut Roots,
    method: u32,
    body: &Body,
) -> Result<(), Deep>
    ghost outside: { Outside }
    requires none { topmost roots.old.roots.frames ≡ None }
    requires plans { plan (machine_of program.now roots.old.limit) (state_of (view_in (S.storage store.now) roots.old.roots) outside)
        ≡ Some (entered_from (machine_of program.now roots.old.limit) (state_of (view_in (S.storage store.now) roots.old.roots) outside) (with_argument (state_of
        (view_in (S.storage store.now) roots.old.roots) outside) 0) [] method (Ref
        (serial_of (S.storage store.now).index roots.old.roots.argument) ∷ []) body.now) }
    requires locals { 0 < body.now.max_locals }
    ensures made { OnOk result (TurnMade S.rules (machine_of program.now roots.old.limit) (moment_of
        (view_in (S.storage store.now) roots.old.roots) outside (S.storage store.now).facts)
        (moment_of (view_in (S.storage store.now) roots.new.roots) outside
        (S.storage store.now).facts)) }
    ensures deep { OnErr result (plan (machine_of program.now roots.old.limit) (state_of (view_in (S.storage store.now) roots.old.roots) outside)
        ≡ Some (throws (machine_of program.now roots.old.limit) (state_of (view_in (S.storage store.now) roots.old.roots) outside) stack_overflow)) }
    ensures same { OnErr result (roots.new ≡ roots.old) }
    ensures limit { roots.new.limit ≡ roots.old.limit }
{
    let _ = program;
    let _ = store;
    let argument = roots.argument();
    let locals = body.max_locals as u32;
    match roots.enter(method, 0, locals, body.max_stack as u32) {
        Ok(()) => {
            roots.set_local(0, Value::Ref(argument));
            roots.set_argument(0);
            Ok(())
        }
        Err(Deep) => Err(Deep),
    }
}
