// Pending exceptions that look for their handlers.
ghost use Rattle.cb_heap.specs.Storage.{view_in};
ghost use Rattle.std.specs.Prelude.{◌≡◌, ◌<◌, ℕ, false, length, true, IsTrue, Some};
ghost use Rattle.cb_frames.specs.Tops.{cleared, top_room};
ghost use Rattle.cb_heap.specs.Kept.{is_kept};
ghost use Rattle.cb_heap.specs.Reading.{seen, serial_of};
ghost use Rattle.cb_link.specs.Subtypes.{instance};
ghost use Rattle.cb_machine.specs.Library.{error};
ghost use Rattle.cb_machine.specs.Sites.{exception_in_initializer};
ghost use Rattle.cb_plain.specs.Requests.{spent};
ghost use Rattle.cb_plain.specs.State.{words_of};
ghost use Rattle.cb_unwind.specs.Initialised.{ClassBelow};
ghost use Rattle.cb_unwind.specs.Unwound.{HasPendingKind, IsPendingKind, MayCatch, MayWrap, MethodBelow, RunsOnTop, exception_size, handler_for, past_class, past_method, unwound, wraps};

use crate::answers::Unwound;
use crate::catching::catch;
use crate::ending::end_init;
use crate::handlers::handler_for;
use crate::wrapping::{EXCEPTION_IN_INITIALIZER, wrap};
use cb_frames::{Frame, Roots};
use cb_heap::Store;
use cb_link::Program;
use cb_plain::ClassState;

/// The number of the kind of java/lang/Error.
const ERROR: u32 = 25;

/// Whether the next step of unwinding wraps the pending exception: the topmost frame is that of an initialisation, and the exception is no
/// Error (JVMS §5.5).
pub fn wraps<S: Store>(program: &Program, store: &S, roots: &Roots) -> bool
    requires there { IsTrue (is_kept (S.storage store.now).kept (serial_of (S.storage store.now).index
        roots.now.roots.pending)) }
    requires kind { HasPendingKind program.now (view_in (S.storage store.now)
        roots.now.roots) }
    requires error { error < length program.now.kinds }
    ensures { result ≡ wraps program.now (view_in (S.storage store.now)
        roots.now.roots) }
{
    let kind = pending_kind(store, roots);
    match roots.top() {
        Some(Frame::Initialising { class: _, place: _ }) => !program.instance(kind, ERROR),
        Some(Frame::Running { method: _, pc: _ }) => false,
        None => false,
    }
}

/// Takes a step of the pending exception (JVMS §2.10). The first handler of the topmost method that takes it goes on, with the exception
/// alone on the stack; else the frame ends. Where the frame is that of an initialisation, this has failed and the frame ends; an exception
/// that is no Error is then wrapped, for which there has to be room: `wraps` says so beforehand. Takes time in the slots of the frame and
/// the handlers of its method.
pub fn unwind_step<S: Store>(program: &Program, store: &mut S, roots: &mut Roots) -> Unwound
    requires there { IsTrue (is_kept (S.storage store.old).kept (serial_of (S.storage store.old).index
        roots.old.roots.pending)) }
    requires kind { HasPendingKind program.now (view_in (S.storage store.old)
        roots.old.roots) }
    requires error { error < length program.now.kinds }
    requires method { MethodBelow (length program.now.methods) roots.old.roots }
    requires catches { MayCatch program.now roots.old.roots }
    requires class { ClassBelow (length roots.old.roots.classes) roots.old.roots }
    requires may { wraps program.now (view_in (S.storage store.old) roots.old.roots)
        ≡ true → MayWrap program.now (S.storage store.old).settings.shapes (S.storage store.old).granted
        (S.storage store.old).settings.allows (view_in (S.storage store.old) roots.old.roots) }
    ensures behind { unwound program.now (S.storage store.old).settings.shapes (view_in (S.storage store.old) roots.old.roots)
        ≡ Some (result, view_in (S.storage store.new) roots.new.roots) }
    ensures limit { roots.new.limit ≡ roots.old.limit }
    ensures same { (result ≡ Unwound.Wrapped → ⊥) → store.new ≡ store.old }
    ensures facts { result ≡ Unwound.Wrapped → (S.storage store.new).facts
        ≡ S.rules.placed (S.storage store.old).facts exception_in_initializer exception_size }
    ensures granted { result ≡ Unwound.Wrapped → (S.storage store.new).granted
        ≡ spent (S.storage store.old).granted exception_in_initializer (words_of exception_size) }
    ensures faults { (S.storage store.new).faults ≡ (S.storage store.old).faults }
    ensures settings { (S.storage store.new).settings ≡ (S.storage store.old).settings }
{
    let kind = pending_kind(store, roots);
    match roots.top() {
        Some(Frame::Running { method, pc }) => past_method(program, roots, method, pc, kind),
        Some(Frame::Initialising { class, place: _ }) => {
            past_class(program, store, roots, class, kind)
        }
        None => Unwound::NoFrame,
    }
}

/// The kind of the pending exception.
fn pending_kind<S: Store>(store: &S, roots: &Roots) -> u32
    requires { IsTrue (is_kept (S.storage store.now).kept (serial_of (S.storage store.now).index
        roots.now.roots.pending)) }
    ensures { IsPendingKind (view_in (S.storage store.now) roots.now.roots) result }
{
    store.kind(roots.pending())
}

/// Takes the step of an exception of a kind where a method's frame is the topmost one.
fn past_method(program: &Program, roots: &mut Roots, method: u32, pc: u32, kind: u32) -> Unwound
    requires top { RunsOnTop roots.old.roots method pc }
    requires method { method < length program.now.methods }
    requires kind { kind < length program.now.kinds }
    requires catches { (place : ℕ) → handler_for program.now method pc kind ≡ Some place
        → 0 < top_room (cleared roots.old.roots) }
    ensures behind { past_method roots.old.roots (handler_for program.now method pc kind)
        ≡ (result, roots.new.roots) }
    ensures never { result ≡ Unwound.Wrapped → ⊥ }
    ensures limit { roots.new.limit ≡ roots.old.limit }
{
    match handler_for(program, method, pc, kind) {
        Some(handler) => {
            catch(roots, handler);
            Unwound::Caught
        }
        None => {
            roots.leave();
            Unwound::Popped
        }
    }
}

/// Takes the step of an exception of a kind where the frame of a class's initialisation is the topmost one.
fn past_class<S: Store>(
    program: &Program,
    store: &mut S,
    roots: &mut Roots,
    class: u32,
    kind: u32,
) -> Unwound
    requires frame { 0 < length roots.old.roots.frames }
    requires class { class < length roots.old.roots.classes }
    requires kind { kind < length program.now.kinds }
    requires error { error < length program.now.kinds }
    requires there { IsTrue (is_kept (S.storage store.old).kept (serial_of (S.storage store.old).index
        roots.old.roots.pending)) }
    requires may { (instance program.now kind error ≡ false) → MayWrap program.now
        (S.storage store.old).settings.shapes (S.storage store.old).granted (S.storage store.old).settings.allows (view_in (S.storage store.old) roots.old.roots) }
    ensures behind { past_class program.now (S.storage store.old).settings.shapes (view_in (S.storage store.old) roots.old.roots) kind class
        ≡ (result, view_in (S.storage store.new) roots.new.roots) }
    ensures limit { roots.new.limit ≡ roots.old.limit }
    ensures same { (result ≡ Unwound.Wrapped → ⊥) → store.new ≡ store.old }
    ensures facts { result ≡ Unwound.Wrapped → (S.storage store.new).facts
        ≡ S.rules.placed (S.storage store.old).facts exception_in_initializer exception_size }
    ensures granted { result ≡ Unwound.Wrapped → (S.storage store.new).granted
        ≡ spent (S.storage store.old).granted exception_in_initializer (words_of exception_size) }
    ensures faults { (S.storage store.new).faults ≡ (S.storage store.old).faults }
    ensures settings { (S.storage store.new).settings ≡ (S.storage store.old).settings }
{
    if program.instance(kind, ERROR) {
        end_init(roots, class, ClassState::Failed);
        return Unwound::Popped;
    }
    wrap(store, roots, program.site_kind(EXCEPTION_IN_INITIALIZER));
    end_init(roots, class, ClassState::Failed);
    Unwound::Wrapped
}
