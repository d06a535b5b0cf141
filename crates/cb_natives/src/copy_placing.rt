// Copies of the words of objects that natives place.
ghost use Rattle.std.specs.Prelude.{◌≡◌, ◌+◌, ◌<◌, ◌≤◌, ◌^◌, ◌++◌, ◌∷◌, [], length, slice_get, true, IsTrue, Some};
ghost use Rattle.cb_heap.specs.Follows.{Follows};
ghost use Rattle.cb_heap.specs.Kept.{contents_at, is_held};
ghost use Rattle.cb_heap.specs.Reading.{serial_of};
ghost use Rattle.cb_heap.specs.Store.{ReadsAsBefore};
ghost use Rattle.cb_machine.specs.Plans.{object_of};
ghost use Rattle.cb_machine.specs.Sites.{suppressed};
ghost use Rattle.cb_plain.specs.Requests.{words_at};
ghost use Rattle.cb_plain.specs.State.{words_of};
ghost use Rattle.cb_plain.specs.declared.shape.Shape.TheVariants.{Elements};
ghost use Rattle.cb_natives.specs.Following.{FollowsFrom};
ghost use Rattle.cb_natives.specs.Making.{HasRoom, MayMake, facts_behind, given_back};
ghost use Rattle.cb_natives.specs.MakingArrays.{IsLaid, MayAdd, MayGive, MayHold, MayMakeCopy, given_by, made_by, wanted_by, with_reference};
ghost use Rattle.cb_natives.specs.MakingOwn.{objects_behind};
ghost use Rattle.cb_natives.specs.declared.copying.Copying.TheVariants as copyings;

use crate::copies::copy_words;
use crate::copying::Copying;
use cb_heap::Store;
use cb_link::Program;
use cb_plain::Shape;

/// The site of arrays of exceptions that were suppressed.
pub(crate) const SUPPRESSED: u32 = 15;

/// The slot in which an exception has its own.
pub(crate) const SUPPRESSED_SLOT: u32 = 2;

/// Places a copy of an object of a shape at a site, and answers its place. Takes time in its words.
fn place_copy<S: Store>(
    store: &mut S,
    shape: &Shape,
    from: u64,
    site: u32,
    kind: u32,
    size: u32,
) -> u64
    requires laid { IsLaid (S.storage store.old).kept shape.now (serial_of (S.storage store.old).index from) }
    requires size { size ≡ length (contents_at (S.storage store.old).kept (serial_of (S.storage store.old).index from)) }
    requires granted { words_of size ≤ words_at (S.storage store.old).granted site }
    requires shape { slice_get (S.storage store.old).settings.shapes kind ≡ Some shape.now }
    requires serials { length (S.storage store.old).kept + 1 < 2 ^ 63 }
    requires follows { FollowsFrom (S.storage store.old).settings.allows ((S.storage store.old).kept ++ Some (object_of site kind (contents_at (S.storage store.old).kept (serial_of (S.storage store.old).index from))) ∷ []) (length (S.storage store.old).kept + 1) }
    ensures kept { (S.storage store.new).kept ≡ (S.storage store.old).kept ++ Some (object_of site kind (contents_at (S.storage store.old).kept (serial_of (S.storage store.old).index from))) ∷ [] }
    ensures serial { serial_of (S.storage store.new).index result ≡ length (S.storage store.old).kept + 1 }
    ensures places { ReadsAsBefore (S.storage store.old).kept (S.storage store.old).index (S.storage store.new).index }
    ensures facts { (S.storage store.new).facts ≡ S.rules.placed (S.storage store.old).facts site size }
    ensures faults { (S.storage store.new).faults ≡ (S.storage store.old).faults }
    ensures settings { (S.storage store.new).settings ≡ (S.storage store.old).settings }
{
    let at = store.place(site, kind, size);
    copy_words(store, shape, from, 0, at, 0, size);
    at
}

/// Places an array of references with those of another one, so many, and one more, and answers its place. Takes time in these.
fn place_longer<S: Store>(store: &mut S, kind: u32, from: u64, other: u64, size: u32) -> u64
    requires laid { IsLaid (S.storage store.old).kept (Elements true) (serial_of (S.storage store.old).index from) }
    requires other { IsTrue (is_held (S.storage store.old).kept (serial_of (S.storage store.old).index other)) }
    requires size { size ≡ length (contents_at (S.storage store.old).kept (serial_of (S.storage store.old).index from)) }
    requires few { size + 1 < 2 ^ 31 }
    requires granted { words_of (size + 1) ≤ words_at (S.storage store.old).granted suppressed }
    requires shape { slice_get (S.storage store.old).settings.shapes kind ≡ Some (Elements true) }
    requires serials { length (S.storage store.old).kept + 1 < 2 ^ 63 }
    requires follows { FollowsFrom (S.storage store.old).settings.allows ((S.storage store.old).kept ++ Some (object_of suppressed kind (with_reference (S.storage store.old).kept (serial_of (S.storage store.old).index from) (serial_of (S.storage store.old).index other))) ∷ []) (length (S.storage store.old).kept + 1) }
    ensures kept { (S.storage store.new).kept ≡ (S.storage store.old).kept ++ Some (object_of suppressed kind (with_reference (S.storage store.old).kept (serial_of (S.storage store.old).index from) (serial_of (S.storage store.old).index other))) ∷ [] }
    ensures serial { serial_of (S.storage store.new).index result ≡ length (S.storage store.old).kept + 1 }
    ensures places { ReadsAsBefore (S.storage store.old).kept (S.storage store.old).index (S.storage store.new).index }
    ensures facts { (S.storage store.new).facts ≡ S.rules.placed (S.storage store.old).facts suppressed (size + 1) }
    ensures faults { (S.storage store.new).faults ≡ (S.storage store.old).faults }
    ensures settings { (S.storage store.new).settings ≡ (S.storage store.old).settings }
{
    let at = store.place(SUPPRESSED, kind, size + 1);
    let shape = Shape::Elements(true);
    copy_words(store, &shape, from, 0, at, 0, size);
    store.put_ref(at, size, other);
    at
}

/// Gives a copy of an object, whose words are so many. Takes time in these.
fn give<S: Store>(
    program: &Program,
    store: &mut S,
    from: u64,
    site: u32,
    kind: u32,
    size: u32,
) -> u64
    requires may { MayGive program.now (S.storage store.old).kept (serial_of (S.storage store.old).index from) site kind size }
    requires room { HasRoom (S.storage store.old).kept (wanted_by (copyings.Gives from site kind size)) (S.storage store.old).granted }
    requires shaped { MayMake program.now (S.storage store.old).settings.shapes }
    requires holds { MayHold program.now (S.storage store.old).settings.shapes }
    requires follows { Follows (S.storage store.old).settings.allows (objects_behind (made_by program.now (S.storage store.old).kept (S.storage store.old).index (copyings.Gives from site kind size))) }
    ensures kept { (S.storage store.new).kept ≡ objects_behind (made_by program.now (S.storage store.old).kept (S.storage store.old).index (copyings.Gives from site kind size)) }
    ensures serial { serial_of (S.storage store.new).index result ≡ length (S.storage store.old).kept + 1 }
    ensures places { ReadsAsBefore (S.storage store.old).kept (S.storage store.old).index (S.storage store.new).index }
    ensures facts { (S.storage store.new).facts ≡ facts_behind S.rules (S.storage store.old).facts (made_by program.now (S.storage store.old).kept (S.storage store.old).index (copyings.Gives from site kind size)).placed }
    ensures faults { (S.storage store.new).faults ≡ (S.storage store.old).faults }
    ensures settings { (S.storage store.new).settings ≡ (S.storage store.old).settings }
{
    place_copy(store, program.shape(kind), from, site, kind, size)
}

/// An exception refers to a new array of those that it suppressed, and another one. Takes time in these.
fn add<S: Store>(program: &Program, store: &mut S, at: u64, from: u64, other: u64, size: u32)
    requires may { MayAdd (S.storage store.old).kept (serial_of (S.storage store.old).index at) (serial_of (S.storage store.old).index from) (serial_of (S.storage store.old).index other) size }
    requires room { HasRoom (S.storage store.old).kept (wanted_by (copyings.Adds at from other size)) (S.storage store.old).granted }
    requires shaped { MayMake program.now (S.storage store.old).settings.shapes }
    requires holds { MayHold program.now (S.storage store.old).settings.shapes }
    requires follows { Follows (S.storage store.old).settings.allows (objects_behind (made_by program.now (S.storage store.old).kept (S.storage store.old).index (copyings.Adds at from other size))) }
    ensures kept { (S.storage store.new).kept ≡ objects_behind (made_by program.now (S.storage store.old).kept (S.storage store.old).index (copyings.Adds at from other size)) }
    ensures places { ReadsAsBefore (S.storage store.old).kept (S.storage store.old).index (S.storage store.new).index }
    ensures facts { (S.storage store.new).facts ≡ facts_behind S.rules (S.storage store.old).facts (made_by program.now (S.storage store.old).kept (S.storage store.old).index (copyings.Adds at from other size)).placed }
    ensures faults { (S.storage store.new).faults ≡ (S.storage store.old).faults }
    ensures settings { (S.storage store.new).settings ≡ (S.storage store.old).settings }
{
    let array = place_longer(store, program.site_kind(SUPPRESSED), from, other, size);
    store.put_ref(at, SUPPRESSED_SLOT, array);
}

/// Makes a copy for which there is room, and answers its place where it is given. Takes time in its words.
pub(crate) fn make_copy<S: Store>(program: &Program, store: &mut S, copying: Copying) -> Option<u64>
    requires may { MayMakeCopy program.now (S.storage store.old).kept (S.storage store.old).index copying }
    requires room { HasRoom (S.storage store.old).kept (wanted_by copying) (S.storage store.old).granted }
    requires shaped { MayMake program.now (S.storage store.old).settings.shapes }
    requires holds { MayHold program.now (S.storage store.old).settings.shapes }
    requires follows { Follows (S.storage store.old).settings.allows (objects_behind (made_by program.now (S.storage store.old).kept (S.storage store.old).index copying)) }
    ensures kept { (S.storage store.new).kept ≡ objects_behind (made_by program.now (S.storage store.old).kept (S.storage store.old).index copying) }
    ensures given { given_back (S.storage store.new).index result ≡ given_by (S.storage store.old).kept copying }
    ensures places { ReadsAsBefore (S.storage store.old).kept (S.storage store.old).index (S.storage store.new).index }
    ensures facts { (S.storage store.new).facts ≡ facts_behind S.rules (S.storage store.old).facts (made_by program.now (S.storage store.old).kept (S.storage store.old).index copying).placed }
    ensures faults { (S.storage store.new).faults ≡ (S.storage store.old).faults }
    ensures settings { (S.storage store.new).settings ≡ (S.storage store.old).settings }
{
    match copying {
        Copying::Gives {
            from,
            site,
            kind,
            size,
        } => Some(give(program, store, from, site, kind, size)),
        Copying::Adds {
            at,
            from,
            other,
            size,
        } => {
            add(program, store, at, from, other, size);
            None
        }
    }
}
