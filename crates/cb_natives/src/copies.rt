// Words of objects that are copied from one object to another.
ghost use Rattle.std.specs.Prelude.{◌≡◌, ◌≤◌, true};
ghost use Rattle.cb_heap.specs.Kept.{content_at, with_content};
ghost use Rattle.cb_heap.specs.Reading.{serial_of};
ghost use Rattle.cb_natives.specs.Copies.{HasWord, MayCopy, RefersHeld, copied, holds, refers_at, word_of};
ghost use Rattle.cb_natives.specs.Following.{FollowsFrom, MayRefer};

use cb_heap::Store;
use cb_plain::Shape;

/// Copies so many words of an object from one on into another object, or into itself where they go towards its end, from a word on. Takes
/// time in these.
pub(crate) fn copy_words<S: Store>(
    store: &mut S,
    shape: &Shape,
    source: u64,
    start: u32,
    to: u64,
    at: u32,
    count: u32,
)
    requires may { MayCopy (S.storage store.old).kept shape.now (serial_of (S.storage store.old).index source) start (serial_of (S.storage store.old).index to) at count }
    requires order { serial_of (S.storage store.old).index source ≡ serial_of (S.storage store.old).index to → start ≤ at }
    requires follows { FollowsFrom (S.storage store.old).settings.allows (copied (S.storage store.old).kept (serial_of (S.storage store.old).index source) start (serial_of (S.storage store.old).index to) at count) (serial_of (S.storage store.old).index to) }
    ensures kept { (S.storage store.new).kept ≡ copied (S.storage store.old).kept (serial_of (S.storage store.old).index source) start (serial_of (S.storage store.old).index to) at count }
    ensures places { (S.storage store.new).index ≡ (S.storage store.old).index }
    ensures facts { (S.storage store.new).facts ≡ (S.storage store.old).facts }
    ensures granted { (S.storage store.new).granted ≡ (S.storage store.old).granted }
    ensures faults { (S.storage store.new).faults ≡ (S.storage store.old).faults }
    ensures settings { (S.storage store.new).settings ≡ (S.storage store.old).settings }
{
    let mut left = count;
    while left > 0 {
        left -= 1;
        copy_word(
            store,
            refers_at(shape, left),
            source,
            start + left,
            to,
            at + left,
        );
    }
}

/// Copies so many words in the same way, where they go towards the front of their own object.
pub(crate) fn copy_up<S: Store>(
    store: &mut S,
    shape: &Shape,
    source: u64,
    start: u32,
    to: u64,
    at: u32,
    count: u32,
)
    requires may { MayCopy (S.storage store.old).kept shape.now (serial_of (S.storage store.old).index source) start (serial_of (S.storage store.old).index to) at count }
    requires order { serial_of (S.storage store.old).index source ≡ serial_of (S.storage store.old).index to → at ≤ start }
    requires follows { FollowsFrom (S.storage store.old).settings.allows (copied (S.storage store.old).kept (serial_of (S.storage store.old).index source) start (serial_of (S.storage store.old).index to) at count) (serial_of (S.storage store.old).index to) }
    ensures kept { (S.storage store.new).kept ≡ copied (S.storage store.old).kept (serial_of (S.storage store.old).index source) start (serial_of (S.storage store.old).index to) at count }
    ensures places { (S.storage store.new).index ≡ (S.storage store.old).index }
    ensures facts { (S.storage store.new).facts ≡ (S.storage store.old).facts }
    ensures granted { (S.storage store.new).granted ≡ (S.storage store.old).granted }
    ensures faults { (S.storage store.new).faults ≡ (S.storage store.old).faults }
    ensures settings { (S.storage store.new).settings ≡ (S.storage store.old).settings }
{
    for i in 0..count {
        copy_word(store, refers_at(shape, i), source, start + i, to, at + i);
    }
}

/// Copies a word, which holds a reference, or a number, as the one does to which it goes.
fn copy_word<S: Store>(store: &mut S, refers: bool, source: u64, word: u32, to: u64, place: u32)
    requires read { holds refers (content_at (S.storage store.old).kept (serial_of (S.storage store.old).index source) word) ≡ true }
    requires held { RefersHeld (S.storage store.old).kept (content_at (S.storage store.old).kept (serial_of (S.storage store.old).index source) word) }
    requires put { holds refers (content_at (S.storage store.old).kept (serial_of (S.storage store.old).index to) place) ≡ true }
    requires allowed { MayRefer (S.storage store.old).settings.allows (S.storage store.old).kept (serial_of (S.storage store.old).index to) (content_at (S.storage store.old).kept (serial_of (S.storage store.old).index source) word) }
    ensures kept { (S.storage store.new).kept ≡ with_content (S.storage store.old).kept (serial_of (S.storage store.old).index to) place (word_of (content_at (S.storage store.old).kept (serial_of (S.storage store.old).index source) word)) }
    ensures places { (S.storage store.new).index ≡ (S.storage store.old).index }
    ensures facts { (S.storage store.new).facts ≡ (S.storage store.old).facts }
    ensures granted { (S.storage store.new).granted ≡ (S.storage store.old).granted }
    ensures faults { (S.storage store.new).faults ≡ (S.storage store.old).faults }
    ensures settings { (S.storage store.new).settings ≡ (S.storage store.old).settings }
{
    if refers {
        let held = store.get_ref(source, word);
        store.put_ref(to, place, held);
    } else {
        let number = store.get(source, word);
        store.put(to, place, number);
    }
}

/// Whether a word of an object of a shape refers.
fn refers_at(shape: &Shape, word: u32) -> bool
    requires { HasWord shape.now word }
    ensures { result ≡ refers_at shape.now word }
{
    match shape {
        Shape::Fields(marks) => *marks.get(word as usize),
        Shape::Elements(mark) => *mark,
    }
}
