// Loops over calls of a store, which are timed.
ghost use Rattle.std.specs.Prelude.{◌≡◌, ◌+◌, ◌-◌, ◌*◌, ◌<◌, ◌≤◌, ◌^◌, false, true, length, IfOk};
ghost use Rattle.std.specs.List.{All};
ghost use Rattle.cb_plain.specs.Requests.{words_at};
ghost use Rattle.cb_plain.specs.State.{words_of};
ghost use Rattle.cb_memory_cases.specs.Timed.{HasWords, Stays, array_kinds, kind_of};

use cb_heap::Store;
use cb_plain::OutOfMemory;
use std::alloc::Global;

/// How far a loop goes on with each turn, in the list of objects and in the words of one.
#[derive(Clone, Copy)]
pub(crate) struct Steps {
    pub objects: u32,
    pub words: u32,
}

/// The place so many further, from the front again past the end.
fn further(place: u32, step: u32, count: u32) -> u32
    requires place { place < count }
    requires step { step ≤ count }
    ensures { result < count }
{
    let left = count - place;
    if step < left {
        place + step
    } else {
        step - left
    }
}

/// The kind of arrays of references, or of numbers.
fn kind_for(mark: bool) -> u32
    ensures { result ≡ kind_of mark }
{
    if mark { 1 } else { 0 }
}

/// Places an array of so many words at the site 0: of references, or of numbers.
pub(crate) fn place_array<S: Store>(store: &mut S, mark: bool, size: u32) -> u64
    requires shapes { (S.storage store.old).settings.shapes ≡ array_kinds }
    requires room { words_of size ≤ words_at (S.storage store.old).granted 0 }
    requires serials { length (S.storage store.old).kept + 1 < 2 ^ 63 }
    ensures words { HasWords (S.storage store.new) mark size result }
    ensures stays { Stays (S.storage store.old) (S.storage store.new) }
    ensures shapes { (S.storage store.new).settings.shapes ≡ array_kinds }
    ensures room { words_at (S.storage store.new).granted 0 + words_of size ≡ words_at (S.storage store.old).granted 0 }
    ensures serials { length (S.storage store.new).kept ≡ length (S.storage store.old).kept + 1 }
{
    store.place(0, kind_for(mark), size)
}

/// Places so many arrays of so many words each.
#[inline(never)]
pub(crate) fn place_arrays<S: Store>(
    alloc: Global,
    store: &mut S,
    mark: bool,
    count: u32,
    size: u32,
) -> Result<Vec<u64>, OutOfMemory>
    requires shapes { (S.storage store.old).settings.shapes ≡ array_kinds }
    requires room { count * words_of size ≤ words_at (S.storage store.old).granted 0 }
    requires serials { length (S.storage store.old).kept + count < 2 ^ 63 }
    ensures count { IfOk result (λ places. length places.items ≡ count) }
    ensures words { IfOk result (λ places. All (HasWords (S.storage store.new) mark size) places.items) }
{
    let mut places = Vec::with_capacity(alloc, count as usize)?;
    for _ in 0..count {
        let at = place_array(store, mark, size);
        places.push_reserved(at);
    }
    Ok(places)
}

/// Adds up a word of one of the objects for each turn.
#[inline(never)]
pub(crate) fn get_turns<S: Store>(
    store: &S,
    places: &[u64],
    size: u32,
    steps: Steps,
    turns: u32,
) -> u64
    requires words { All (HasWords (S.storage store.now) false size) places.now }
    requires some { 0 < size }
    requires objects { 0 < length places.now }
    requires few { length places.now < 2 ^ 32 }
    requires over_objects { steps.objects ≤ length places.now }
    requires over_words { steps.words ≤ size }
{
    let count = places.len() as u32;
    let mut object = 0;
    let mut word = 0;
    let mut sum = 0_u64;
    for _ in 0..turns {
        let at = places[object as usize];
        sum = sum.wrapping_add(store.get(at, word));
        object = further(object, steps.objects, count);
        word = further(word, steps.words, size);
    }
    sum
}

/// Adds up a reference of one of the objects for each turn.
#[inline(never)]
pub(crate) fn get_ref_turns<S: Store>(
    store: &S,
    places: &[u64],
    size: u32,
    steps: Steps,
    turns: u32,
) -> u64
    requires words { All (HasWords (S.storage store.now) true size) places.now }
    requires some { 0 < size }
    requires objects { 0 < length places.now }
    requires few { length places.now < 2 ^ 32 }
    requires over_objects { steps.objects ≤ length places.now }
    requires over_words { steps.words ≤ size }
{
    let count = places.len() as u32;
    let mut object = 0;
    let mut word = 0;
    let mut sum = 0_u64;
    for _ in 0..turns {
        let at = places[object as usize];
        sum = sum.wrapping_add(store.get_ref(at, word));
        object = further(object, steps.objects, count);
        word = further(word, steps.words, size);
    }
    sum
}

/// Puts a number into a word of an array of numbers.
fn put_number<S: Store>(store: &mut S, at: u64, size: u32, word: u32, number: u64)
    requires words { HasWords (S.storage store.old) false size at }
    requires below { word < size }
    ensures { Stays (S.storage store.old) (S.storage store.new) }
{
    let _size = size;
    store.put(at, word, number);
}

/// Puts the number of the turn into a word of one of the objects for each turn.
#[inline(never)]
pub(crate) fn put_turns<S: Store>(
    store: &mut S,
    places: &[u64],
    size: u32,
    steps: Steps,
    turns: u32,
)
    requires words { All (HasWords (S.storage store.old) false size) places.now }
    requires some { 0 < size }
    requires objects { 0 < length places.now }
    requires few { length places.now < 2 ^ 32 }
    requires over_objects { steps.objects ≤ length places.now }
    requires over_words { steps.words ≤ size }
    ensures { All (HasWords (S.storage store.new) false size) places.now }
{
    let count = places.len() as u32;
    let mut object = 0;
    let mut word = 0;
    for turn in 0..turns {
        let at = places[object as usize];
        put_number(store, at, size, word, u64::from(turn));
        object = further(object, steps.objects, count);
        word = further(word, steps.words, size);
    }
}
