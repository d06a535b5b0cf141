// A store of objects.
ghost use Rattle.std.specs.Prelude.{◌≡◌, ◌+◌, ◌<◌, ◌≤◌, ◌^◌, ◌++◌, Bool, [], Result, ◌∷◌, false, length, option_map, pos, IsTrue, IsErr, OnOk, Some};
ghost use Rattle.std.specs.Int.{int_wrap, w64};
ghost use Rattle.std.specs.List.{AllByRecursion};
ghost use Rattle.cb_plain.specs.Requests.{spent, words_at};
ghost use Rattle.cb_plain.specs.State.{Number, Reference, words_of};
ghost use Rattle.cb_plain.specs.Updates.{object_in};
ghost use Rattle.cb_io.specs.Faults.{CountsFaults};
ghost use Rattle.cb_heap.specs.Closed.{Collects, IsClosed};
ghost use Rattle.cb_heap.specs.Grants.{IsBounded};
ghost use Rattle.cb_heap.specs.Kept.{content_at, is_held, is_kept, is_number, is_reference, residents, with_content};
ghost use Rattle.cb_heap.specs.Reading.{serial_of};
ghost use Rattle.cb_heap.specs.Rules.{AreBounded, Rules};
ghost use Rattle.cb_heap.specs.Shaped.{has_size, new_object};
ghost use Rattle.cb_heap.specs.Storage.{Storage, view_in};
ghost use Rattle.cb_heap.specs.Store.{IsFault, ReadsAsBefore, may_point};

use crate::NoRoom;
use cb_frames::Roots;
use cb_plain::Request;

/// Objects by their places. An object is named by its place, and contracts see it by its serial: that of serial n + 1 stands at n in the
/// list of the objects that were ever placed, where it is kept.
pub trait Store {
    /// What the store knows besides the objects that it keeps.
    ghost Facts: { Type 0 };

    /// What it does beyond what every store does.
    ghost rules: { Rules Facts };

    /// What it is seen as.
    ghost storage: { Self → Storage Facts };

    ghost FIXED: { Bool };

    /// Whether all room was taken when the store was made.
    const FIXED: bool;

    /// Makes room for what is asked for. It may let objects go that nothing reaches, and give others new places, which it writes into the
    /// roots, also where it refuses.
    fn make_room(&mut self, request: &Request, roots: &mut Roots) -> Result<(), NoRoom>
        requires closed { IsClosed (view_in (storage self.old) roots.old.roots) }
        requires sites { AllByRecursion (λ want. IsTrue ((storage self.old).settings.knows want.site)) request.now }
        ensures collected { Collects (view_in (storage self.old) roots.old.roots) (view_in (storage self.new) roots.new.roots) }
        ensures limit { roots.new.limit ≡ roots.old.limit }
        ensures ruled { rules.makes_room (storage self.old).facts (view_in (storage self.old) roots.old.roots) request.now result (record { facts = (storage self.new).facts; residents = residents (storage self.new).kept }) }
        ensures granted { OnOk result ((storage self.new).granted ≡ request.now) }
        ensures withheld { IsErr result → (storage self.new).granted ≡ (storage self.old).granted }
        ensures bounded { OnOk result (IsBounded rules.fixed (length (storage self.new).kept) request.now) }
        ensures counted { CountsFaults (storage self.old).faults (storage self.new).faults (IsFault result) }
        ensures settings { (storage self.new).settings ≡ (storage self.old).settings };

    /// Lets all objects go that nothing reaches, where it lets any go. A refusal is a `ReportFault`.
    fn collect_all(&mut self, roots: &mut Roots) -> Result<(), NoRoom>
        requires closed { IsClosed (view_in (storage self.old) roots.old.roots) }
        ensures collected { Collects (view_in (storage self.old) roots.old.roots) (view_in (storage self.new) roots.new.roots) }
        ensures limit { roots.new.limit ≡ roots.old.limit }
        ensures ruled { rules.collects_all (storage self.old).facts (view_in (storage self.old) roots.old.roots) result (record { facts = (storage self.new).facts; residents = residents (storage self.new).kept }) }
        ensures refused { IsErr result → IsFault result }
        ensures granted { (storage self.new).granted ≡ (storage self.old).granted }
        ensures counted { CountsFaults (storage self.old).faults (storage self.new).faults (IsFault result) }
        ensures settings { (storage self.new).settings ≡ (storage self.old).settings };

    /// Places an object of a kind at a site, with so many words of contents, each 0. Its place is never 0.
    fn place(&mut self, site: u32, kind: u32, size: u32) -> u64
        requires granted { words_of size ≤ words_at (storage self.old).granted site }
        requires shaped { IsTrue (has_size (storage self.old).settings.shapes kind size) }
        requires serials { length (storage self.old).kept + 1 < 2 ^ 63 }
        ensures kept { (storage self.new).kept ≡ (storage self.old).kept ++ Some (new_object (storage self.old).settings.shapes site kind size) ∷ [] }
        ensures serial { serial_of (storage self.new).index result ≡ length (storage self.old).kept + 1 }
        ensures places { ReadsAsBefore (storage self.old).kept (storage self.old).index (storage self.new).index }
        ensures facts { (storage self.new).facts ≡ rules.placed (storage self.old).facts site size }
        ensures granted { (storage self.new).granted ≡ spent (storage self.old).granted site (words_of size) }
        ensures faults { (storage self.new).faults ≡ (storage self.old).faults }
        ensures settings { (storage self.new).settings ≡ (storage self.old).settings };

    /// The kind of an object.
    fn kind(&self, at: u64) -> u32
        requires { IsTrue (is_kept (storage self.now).kept (serial_of (storage self.now).index at)) }
        ensures { option_map (λ object. object.kind) (object_in (storage self.now).kept (serial_of (storage self.now).index at)) ≡ Some result };

    /// How many words of contents it has.
    fn length(&self, at: u64) -> u32
        requires { IsTrue (is_kept (storage self.now).kept (serial_of (storage self.now).index at)) }
        ensures { option_map (λ object. length object.contents) (object_in (storage self.now).kept (serial_of (storage self.now).index at)) ≡ Some result };

    /// Its site.
    fn site(&self, at: u64) -> u32
        requires { IsTrue (is_kept (storage self.now).kept (serial_of (storage self.now).index at)) }
        ensures { option_map (λ object. object.site) (object_in (storage self.now).kept (serial_of (storage self.now).index at)) ≡ Some result };

    /// Its serial, which is never 0 and stays the same wherever it lies. Two references name one object where their serials are the same.
    fn serial(&self, at: u64) -> u64
        requires { IsTrue (is_kept (storage self.now).kept (serial_of (storage self.now).index at)) }
        ensures { result ≡ serial_of (storage self.now).index at };

    /// A word of it that holds a number, in two's complement.
    fn get(&self, at: u64, i: u32) -> u64
        requires { IsTrue (is_number (content_at (storage self.now).kept (serial_of (storage self.now).index at) i)) }
        ensures { content_at (storage self.now).kept (serial_of (storage self.now).index at) i ≡ Some (Number (int_wrap w64 (pos result))) };

    /// Puts another number, in two's complement, into a word that holds one.
    fn put(&mut self, at: u64, i: u32, word: u64)
        requires { IsTrue (is_number (content_at (storage self.old).kept (serial_of (storage self.old).index at) i)) }
        ensures kept { (storage self.new).kept ≡ with_content (storage self.old).kept (serial_of (storage self.old).index at) i (Number (int_wrap w64 (pos word))) }
        ensures places { (storage self.new).index ≡ (storage self.old).index }
        ensures facts { (storage self.new).facts ≡ (storage self.old).facts }
        ensures granted { (storage self.new).granted ≡ (storage self.old).granted }
        ensures faults { (storage self.new).faults ≡ (storage self.old).faults }
        ensures settings { (storage self.new).settings ≡ (storage self.old).settings };

    /// A word of it that holds a reference: the place of an object, or 0.
    fn get_ref(&self, at: u64, i: u32) -> u64
        requires { IsTrue (is_reference (content_at (storage self.now).kept (serial_of (storage self.now).index at) i)) }
        ensures { content_at (storage self.now).kept (serial_of (storage self.now).index at) i ≡ Some (Reference (serial_of (storage self.now).index result)) };

    /// Puts another reference into a word that holds one.
    fn put_ref(&mut self, at: u64, i: u32, to: u64)
        requires there { IsTrue (is_reference (content_at (storage self.old).kept (serial_of (storage self.old).index at) i)) }
        requires held { IsTrue (is_held (storage self.old).kept (serial_of (storage self.old).index to)) }
        requires allowed { IsTrue (may_point (storage self.old).settings.allows (storage self.old).kept (serial_of (storage self.old).index at) (serial_of (storage self.old).index to)) }
        ensures kept { (storage self.new).kept ≡ with_content (storage self.old).kept (serial_of (storage self.old).index at) i (Reference (serial_of (storage self.old).index to)) }
        ensures places { (storage self.new).index ≡ (storage self.old).index }
        ensures facts { (storage self.new).facts ≡ (storage self.old).facts }
        ensures granted { (storage self.new).granted ≡ (storage self.old).granted }
        ensures faults { (storage self.new).faults ≡ (storage self.old).faults }
        ensures settings { (storage self.new).settings ≡ (storage self.old).settings };

    ghost tells_fixed: { FIXED ≡ rules.fixed };

    ghost bounded: { AreBounded rules };
}
