// Ranges of words of arrays that are copied, as far as they fit (Java SE 8 API, System.arraycopy).
ghost use Rattle.std.specs.Prelude.{◌≡◌, ◌≤◌, ◌<◌, ℕ, length, take, true, Some};
ghost use Rattle.cb_heap.specs.Kept.{content_at, is_reference};
ghost use Rattle.cb_heap.specs.Reading.{serial_of};
ghost use Rattle.cb_kinds.specs.Basics.{is_reference as refers};
ghost use Rattle.cb_kinds.specs.declared.basic.Basic.TheVariants as basics;
ghost use Rattle.cb_link.specs.Having.{IsBelow};
ghost use Rattle.cb_machine.specs.Copying.{fits};
ghost use Rattle.cb_natives.specs.Answers.{Beside};
ghost use Rattle.cb_natives.specs.Copies.{MayCopy, RefersHeld, copied, word_of, words_from};
ghost use Rattle.cb_natives.specs.Following.{FollowsFrom};
ghost use Rattle.cb_natives.specs.MakingKept.{HasKinds};
ghost use Rattle.cb_natives.specs.MakingOwn.{call_of};
ghost use Rattle.cb_natives.specs.RangeCopies.{MayFit, fitting_from};

use crate::copies::{copy_up, copy_words};
use cb_heap::Store;
use cb_kinds::Basic;
use cb_link::Program;
use cb_plain::Shape;

/// Copies so many words as through a second array: those that go towards the end of their own array the last first. Takes time in them.
pub(crate) fn copy_range<S: Store>(
    store: &mut S,
    shape: &Shape,
    source: u64,
    start: u32,
    to: u64,
    at: u32,
    count: u32,
)
    requires may { MayCopy (S.storage store.old).kept shape.now (serial_of (S.storage store.old).index source) start (serial_of (S.storage store.old).index to) at count }
    requires follows { FollowsFrom (S.storage store.old).settings.allows (copied (S.storage store.old).kept (serial_of (S.storage store.old).index source) start (serial_of (S.storage store.old).index to) at count) (serial_of (S.storage store.old).index to) }
    ensures kept { (S.storage store.new).kept ≡ copied (S.storage store.old).kept (serial_of (S.storage store.old).index source) start (serial_of (S.storage store.old).index to) at count }
    ensures places { (S.storage store.new).index ≡ (S.storage store.old).index }
    ensures facts { (S.storage store.new).facts ≡ (S.storage store.old).facts }
    ensures granted { (S.storage store.new).granted ≡ (S.storage store.old).granted }
    ensures faults { (S.storage store.new).faults ≡ (S.storage store.old).faults }
    ensures settings { (S.storage store.new).settings ≡ (S.storage store.old).settings }
{
    if start <= at {
        copy_words(store, shape, source, start, to, at, count);
    } else {
        copy_up(store, shape, source, start, to, at, count);
    }
}

/// How many words of an array there are from one on, up to the first that doesn't fit such elements. Takes time in these.
pub(crate) fn fitting_count<S: Store>(
    program: &Program,
    store: &S,
    element: Basic,
    source: u64,
    start: u32,
    count: u32,
) -> u32
    requires known { IsBelow (length program.now.kinds) element }
    requires may { refers element ≡ true → MayFit program.now (S.storage store.now).kept (serial_of (S.storage store.now).index source) start count }
    ensures fit { (frames : ℕ) (beside : Beside) → fitting_from program.now (S.storage store.now).kept frames beside element (serial_of (S.storage store.now).index source) start count ≡ take result (words_from (S.storage store.now).kept (serial_of (S.storage store.now).index source) start count) }
    ensures few { result ≤ count }
{
    match element {
        Basic::Reference(kind) => instances(program, store, kind, source, start, count),
        _ => count,
    }
}

/// How many words of an array there are from one on, up to the first that refers to an object which is no instance of a kind.
fn instances<S: Store>(
    program: &Program,
    store: &S,
    kind: u32,
    source: u64,
    start: u32,
    count: u32,
) -> u32
    requires known { kind < length program.now.kinds }
    requires may { MayFit program.now (S.storage store.now).kept (serial_of (S.storage store.now).index source) start count }
    ensures fit { (frames : ℕ) (beside : Beside) → fitting_from program.now (S.storage store.now).kept frames beside (basics.Reference kind) (serial_of (S.storage store.now).index source) start count ≡ take result (words_from (S.storage store.now).kept (serial_of (S.storage store.now).index source) start count) }
    ensures few { result ≤ count }
{
    for i in 0..count {
        if !fits(program, store, kind, source, start + i) {
            return i;
        }
    }
    count
}

/// Whether a word refers to null or to an instance of a kind.
fn fits<S: Store>(program: &Program, store: &S, kind: u32, source: u64, word: u32) -> bool
    requires known { kind < length program.now.kinds }
    requires kinds { HasKinds program.now (S.storage store.now).kept }
    requires read { is_reference (content_at (S.storage store.now).kept (serial_of (S.storage store.now).index source) word) ≡ true }
    requires held { RefersHeld (S.storage store.now).kept (content_at (S.storage store.now).kept (serial_of (S.storage store.now).index source) word) }
    ensures { (frames : ℕ) (beside : Beside) → fits (call_of program.now (S.storage store.now).kept frames beside) (Some (basics.Reference kind)) (word_of (content_at (S.storage store.now).kept (serial_of (S.storage store.now).index source) word)) ≡ result }
{
    let at = store.get_ref(source, word);
    at == 0 || program.instance(store.kind(at), kind)
}
