// Exceptions of initialisers that are wrapped.
ghost use Rattle.cb_heap.specs.Storage.{view_in};
ghost use Rattle.std.specs.Prelude.{◌≡◌, ◌+◌, ◌<◌, ◌≤◌, ◌^◌, ◌∷◌, [], length, slice_get, true, IsTrue, Some};
ghost use Rattle.cb_heap.specs.Closed.{IsClosed};
ghost use Rattle.cb_heap.specs.Kept.{is_kept};
ghost use Rattle.cb_heap.specs.Reading.{seen, serial_of};
ghost use Rattle.cb_machine.specs.Sites.{exception_in_initializer};
ghost use Rattle.cb_plain.specs.declared.shape.Shape.TheVariants.{Fields};
ghost use Rattle.cb_plain.specs.Requests.{spent, words_at};
ghost use Rattle.cb_plain.specs.State.{Object, words_of};
ghost use Rattle.cb_plain.specs.Updates.{object_in};
ghost use Rattle.cb_unwind.specs.Unwound.{exception_size, wrapped};

use cb_frames::Roots;
use cb_heap::Store;

/// The site of an ExceptionInInitializerError.
pub(crate) const EXCEPTION_IN_INITIALIZER: u32 = 23;

/// The words of an exception.
const EXCEPTION_SIZE: u32 = 3;

/// Which of them has its cause.
const CAUSE_WORD: u32 = 1;

/// Places an ExceptionInInitializerError of a kind whose cause is the pending exception, and which becomes pending (JVMS §5.5).
pub(crate) fn wrap<S: Store>(store: &mut S, roots: &mut Roots, kind: u32)
    requires granted { words_of exception_size ≤ words_at (S.storage store.old).granted
        exception_in_initializer }
    requires shape { slice_get (S.storage store.old).settings.shapes kind ≡ Some (Fields (true ∷ true ∷ true ∷ [])) }
    requires serials { length (S.storage store.old).kept + 1 < 2 ^ 63 }
    requires closed { IsClosed (view_in (S.storage store.old) roots.old.roots) }
    requires there { IsTrue (is_kept (S.storage store.old).kept (serial_of (S.storage store.old).index
        roots.old.roots.pending)) }
    requires allowed { (object : Object) → object_in (S.storage store.old).kept (serial_of
        (S.storage store.old).index roots.old.roots.pending) ≡ Some object
        → (S.storage store.old).settings.allows exception_in_initializer object.site ≡ true }
    ensures behind { view_in (S.storage store.new) roots.new.roots
        ≡ wrapped (S.storage store.old).settings.shapes kind (view_in (S.storage store.old)
        roots.old.roots) }
    ensures frames { roots.new.roots.frames ≡ roots.old.roots.frames }
    ensures classes { roots.new.roots.classes ≡ roots.old.roots.classes }
    ensures limit { roots.new.limit ≡ roots.old.limit }
    ensures facts { (S.storage store.new).facts ≡ S.rules.placed (S.storage store.old).facts
        exception_in_initializer exception_size }
    ensures granted { (S.storage store.new).granted ≡ spent (S.storage store.old).granted exception_in_initializer
        (words_of exception_size) }
    ensures faults { (S.storage store.new).faults ≡ (S.storage store.old).faults }
    ensures settings { (S.storage store.new).settings ≡ (S.storage store.old).settings }
{
    let cause = roots.pending();
    let at = store.place(EXCEPTION_IN_INITIALIZER, kind, EXCEPTION_SIZE);
    store.put_ref(at, CAUSE_WORD, cause);
    roots.set_pending(at);
}
