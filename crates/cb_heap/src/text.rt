// Strings with their characters.
ghost use Rattle.std.specs.Prelude.{◌≡◌, ◌+◌, ◌<◌, ◌≤◌, ◌^◌, ◌++◌, ◌∷◌, [], false, length, pos, replicate, slice_get, true, IsTrue, Some};
ghost use Rattle.cb_plain.specs.declared.shape.Shape.TheVariants.{Elements, Fields};
ghost use Rattle.cb_plain.specs.Requests.{spent, words_at};
ghost use Rattle.cb_plain.specs.State.{Number, words_of};
ghost use Rattle.cb_plain.specs.Updates.{with_contents_in};
ghost use Rattle.cb_heap.specs.Kept.{contents_at, is_kept};
ghost use Rattle.cb_heap.specs.Reading.{serial_of};
ghost use Rattle.cb_heap.specs.Store.{ReadsAsBefore};
ghost use Rattle.cb_heap.specs.Text.{array_of, unit_contents, with_text};

use crate::{Store, TextSites};

/// Places a string of these units (JLS §3.10.5): first an array of chars with them, and then an object of one word, which refers to it.
/// Answers the place of the second. There has to be room for both, also where they have one site. Takes time in the units.
pub fn place_text<S: Store>(store: &mut S, sites: TextSites, units: &[u16]) -> u64
    requires array { words_of (length units.now) ≤ words_at (S.storage store.old).granted sites.characters }
    requires string { words_of 1 ≤ words_at (spent (S.storage store.old).granted sites.characters
        (words_of (length units.now))) sites.site }
    requires elements { slice_get (S.storage store.old).settings.shapes sites.array ≡ Some (Elements false) }
    requires field { slice_get (S.storage store.old).settings.shapes sites.kind ≡ Some (Fields (true ∷ [])) }
    requires serials { length (S.storage store.old).kept + 2 < 2 ^ 63 }
    requires few { length units.now < 2 ^ 32 }
    requires allowed { (S.storage store.old).settings.allows sites.site sites.characters ≡ true }
    ensures kept { (S.storage store.new).kept ≡ with_text sites units.now (S.storage store.old).kept }
    ensures serial { serial_of (S.storage store.new).index result ≡ length (S.storage store.old).kept + 2 }
    ensures places { ReadsAsBefore (S.storage store.old).kept (S.storage store.old).index (S.storage store.new).index }
    ensures facts { (S.storage store.new).facts ≡ S.rules.placed (S.rules.placed (S.storage store.old).facts
        sites.characters (length units.now)) sites.site 1 }
    ensures granted { (S.storage store.new).granted ≡ spent (spent (S.storage store.old).granted sites.characters
        (words_of (length units.now))) sites.site (words_of 1) }
    ensures faults { (S.storage store.new).faults ≡ (S.storage store.old).faults }
    ensures settings { (S.storage store.new).settings ≡ (S.storage store.old).settings }
{
    let array = place_units(store, sites.characters, sites.array, units);
    let at = store.place(sites.site, sites.kind, 1);
    store.put_ref(at, 0, array);
    at
}

/// Places an array of chars with these units.
fn place_units<S: Store>(store: &mut S, site: u32, kind: u32, units: &[u16]) -> u64
    requires granted { words_of (length units.now) ≤ words_at (S.storage store.old).granted site }
    requires shape { slice_get (S.storage store.old).settings.shapes kind ≡ Some (Elements false) }
    requires serials { length (S.storage store.old).kept + 1 < 2 ^ 63 }
    requires few { length units.now < 2 ^ 32 }
    ensures kept { (S.storage store.new).kept ≡ (S.storage store.old).kept ++ Some (array_of site kind units.now) ∷ [] }
    ensures serial { serial_of (S.storage store.new).index result ≡ length (S.storage store.old).kept + 1 }
    ensures places { ReadsAsBefore (S.storage store.old).kept (S.storage store.old).index (S.storage store.new).index }
    ensures facts { (S.storage store.new).facts ≡ S.rules.placed (S.storage store.old).facts site (length units.now) }
    ensures granted { (S.storage store.new).granted ≡ spent (S.storage store.old).granted site (words_of
        (length units.now)) }
    ensures faults { (S.storage store.new).faults ≡ (S.storage store.old).faults }
    ensures settings { (S.storage store.new).settings ≡ (S.storage store.old).settings }
{
    let at = store.place(site, kind, units.len() as u32);
    write_units(store, at, units);
    at
}

/// Writes units into the words of an object that hold 0.
fn write_units<S: Store>(store: &mut S, at: u64, units: &[u16])
    requires there { IsTrue (is_kept (S.storage store.old).kept (serial_of (S.storage store.old).index at)) }
    requires blank { contents_at (S.storage store.old).kept (serial_of (S.storage store.old).index at)
        ≡ replicate (length units.now) (Number (pos 0)) }
    requires few { length units.now < 2 ^ 32 }
    ensures kept { (S.storage store.new).kept ≡ with_contents_in (S.storage store.old).kept (serial_of
        (S.storage store.old).index at) (unit_contents units.now) }
    ensures places { (S.storage store.new).index ≡ (S.storage store.old).index }
    ensures facts { (S.storage store.new).facts ≡ (S.storage store.old).facts }
    ensures granted { (S.storage store.new).granted ≡ (S.storage store.old).granted }
    ensures faults { (S.storage store.new).faults ≡ (S.storage store.old).faults }
    ensures settings { (S.storage store.new).settings ≡ (S.storage store.old).settings }
{
    for (i, unit) in units.iter().enumerate() {
        store.put(at, i as u32, u64::from(*unit));
    }
}
