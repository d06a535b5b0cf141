// Objects that are placed where there is room for them.
ghost use Rattle.cb_heap.specs.Storage.{view_in};
ghost use Rattle.std.specs.Prelude.{◌≡◌, ◌+◌, ◌<◌, ◌≤◌, ◌^◌, length, IsTrue};
ghost use Rattle.cb_frames.specs.Tops.{top_room, top_stack};
ghost use Rattle.cb_heap.specs.Closed.{IsClosed};
ghost use Rattle.cb_heap.specs.Reading.{seen};
ghost use Rattle.cb_heap.specs.Shaped.{has_size};
ghost use Rattle.cb_plain.specs.Requests.{spent, words_at};
ghost use Rattle.cb_plain.specs.State.{words_of};
ghost use Rattle.cb_act.specs.Placing.{exception_size, made_array, made_object, thrown};

use crate::operands::give_for_one;
use cb_frames::Roots;
use cb_heap::Store;
use cb_plain::Value;

/// The words of an exception.
const EXCEPTION_SIZE: u32 = 3;

/// Places an exception of the machine without a message, which becomes pending: the step of an instruction that throws it (JVMS §2.10).
pub fn throw<S: Store>(store: &mut S, roots: &mut Roots, site: u32, kind: u32)
    requires granted { words_of exception_size ≤ words_at (S.storage store.old).granted site }
    requires sized { IsTrue (has_size (S.storage store.old).settings.shapes kind exception_size) }
    requires serials { length (S.storage store.old).kept + 1 < 2 ^ 63 }
    requires closed { IsClosed (view_in (S.storage store.old) roots.old.roots) }
    ensures behind { view_in (S.storage store.new) roots.new.roots
        ≡ thrown (S.storage store.old).settings.shapes site kind (view_in (S.storage store.old) roots.old.roots) }
    ensures limit { roots.new.limit ≡ roots.old.limit }
    ensures facts { (S.storage store.new).facts ≡ S.rules.placed (S.storage store.old).facts site exception_size }
    ensures granted { (S.storage store.new).granted ≡ spent (S.storage store.old).granted site
        (words_of exception_size) }
    ensures faults { (S.storage store.new).faults ≡ (S.storage store.old).faults }
    ensures settings { (S.storage store.new).settings ≡ (S.storage store.old).settings }
{
    let at = store.place(site, kind, EXCEPTION_SIZE);
    roots.set_pending(at);
}

/// Places an object of so many words, each 0, and lays it on the stack of the topmost frame: `new` (JVMS §6.5).
pub fn make_object<S: Store>(store: &mut S, roots: &mut Roots, site: u32, kind: u32, size: u32)
    requires granted { words_of size ≤ words_at (S.storage store.old).granted site }
    requires sized { IsTrue (has_size (S.storage store.old).settings.shapes kind size) }
    requires serials { length (S.storage store.old).kept + 1 < 2 ^ 63 }
    requires closed { IsClosed (view_in (S.storage store.old) roots.old.roots) }
    requires room { 0 < top_room roots.old.roots }
    ensures behind { view_in (S.storage store.new) roots.new.roots
        ≡ made_object (S.storage store.old).settings.shapes site kind size (view_in (S.storage store.old) roots.old.roots) }
    ensures limit { roots.new.limit ≡ roots.old.limit }
    ensures facts { (S.storage store.new).facts ≡ S.rules.placed (S.storage store.old).facts site size }
    ensures granted { (S.storage store.new).granted ≡ spent (S.storage store.old).granted site (words_of size) }
    ensures faults { (S.storage store.new).faults ≡ (S.storage store.old).faults }
    ensures settings { (S.storage store.new).settings ≡ (S.storage store.old).settings }
{
    let at = store.place(site, kind, size);
    roots.push(Value::Ref(at));
}

/// Places an array of so many elements, each 0, in place of their number on the stack of the topmost frame: `newarray`, `anewarray`
/// (JVMS §6.5). That the number isn't negative is looked at before there is room.
pub fn make_array<S: Store>(store: &mut S, roots: &mut Roots, site: u32, kind: u32, size: u32)
    requires granted { words_of size ≤ words_at (S.storage store.old).granted site }
    requires sized { IsTrue (has_size (S.storage store.old).settings.shapes kind size) }
    requires serials { length (S.storage store.old).kept + 1 < 2 ^ 63 }
    requires closed { IsClosed (view_in (S.storage store.old) roots.old.roots) }
    requires there { 0 < length (top_stack roots.old.roots) }
    ensures behind { view_in (S.storage store.new) roots.new.roots
        ≡ made_array (S.storage store.old).settings.shapes site kind size (view_in (S.storage store.old) roots.old.roots) }
    ensures limit { roots.new.limit ≡ roots.old.limit }
    ensures facts { (S.storage store.new).facts ≡ S.rules.placed (S.storage store.old).facts site size }
    ensures granted { (S.storage store.new).granted ≡ spent (S.storage store.old).granted site (words_of size) }
    ensures faults { (S.storage store.new).faults ≡ (S.storage store.old).faults }
    ensures settings { (S.storage store.new).settings ≡ (S.storage store.old).settings }
{
    let at = store.place(site, kind, size);
    give_for_one(roots, Value::Ref(at));
}
