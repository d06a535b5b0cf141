// Turns of a run in which an instruction makes an object or an array.
ghost use Rattle.cb_heap.specs.Storage.{view_in};
ghost use Rattle.std.specs.Prelude.{◌≡◌, ◌+◌, ◌<◌, ◌^◌, length, replicate, true, IsTrue, Some};
ghost use Rattle.cb_frames.specs.Tops.{top_room, top_stack};
ghost use Rattle.cb_heap.specs.Closed.{IsClosed};
ghost use Rattle.cb_heap.specs.Shaped.{has_size, new_object};
ghost use Rattle.cb_link.specs.Having.{site_kinds};
ghost use Rattle.cb_machine.specs.Creating.{blank_element, blank_fields};
ghost use Rattle.cb_machine.specs.Machine.{kind_of_site};
ghost use Rattle.cb_machine.specs.Plans.{object_of};
ghost use Rattle.cb_machine.specs.Steps.{plan};
ghost use Rattle.cb_plain.specs.State.{words_of};
ghost use Rattle.cb_interp.specs.Making.{makes_array, makes_one};
ghost use Rattle.cb_interp.specs.Running.{RoomEnds};
ghost use Rattle.cb_act.specs.Turning.{Outside, machine_of, most_at_once, state_of};

use cb_act::{make_array, make_object};
use cb_frames::Roots;
use cb_heap::{NoRoom, Store};
use cb_link::Program;
use cb_plain::Request;

/// The words of the header of an object.
const HEADER_WORDS: u64 = 3;

/// A turn in which an object of a class that may be used is made, at the next place: `new` (JVMS §6.5). `size` is the number of its words.
pub fn make_object_turn<S: Store>(
    program: &Program,
    store: &mut S,
    roots: &mut Roots,
    request: &mut Request,
    site: u32,
    size: u32,
    pc: u32,
) -> Result<(), NoRoom>
    ghost outside: { Outside }
    requires plans { plan (machine_of program.now roots.old.limit) (state_of (view_in (S.storage store.old) roots.old.roots) outside)
        ≡ Some (makes_one (machine_of program.now roots.old.limit) (state_of (view_in (S.storage store.old) roots.old.roots) outside) site pc) }
    requires site { site < length (site_kinds program.now) }
    requires shaped { new_object (S.storage store.old).settings.shapes site (kind_of_site program.now site) size
        ≡ object_of site (kind_of_site program.now site) (blank_fields program.now
        (kind_of_site program.now site)) }
    requires sized { IsTrue (has_size (S.storage store.old).settings.shapes (kind_of_site program.now site) size) }
    requires knows { IsTrue ((S.storage store.old).settings.knows site) }
    requires serials { S.rules.fixed ≡ true → length (S.storage store.old).kept + most_at_once < 2 ^ 63 }
    requires closed { IsClosed (view_in (S.storage store.old) roots.old.roots) }
    requires room { 0 < top_room roots.old.roots }
    ensures { RoomEnds S.rules program.now outside (S.storage store.old) (S.storage store.new) roots.old roots.new result }
{
    request.clear();
    request.add(site, words_of(size));
    store.make_room(request, roots)?;
    make_object(store, roots, site, program.site_kind(site), size);
    roots.set_place(pc);
    Ok(())
}

/// A turn in which an array of so many elements is made, at the next place: `newarray`, `anewarray` (JVMS §6.5).
pub fn make_array_turn<S: Store>(
    program: &Program,
    store: &mut S,
    roots: &mut Roots,
    request: &mut Request,
    site: u32,
    size: u32,
    pc: u32,
) -> Result<(), NoRoom>
    ghost outside: { Outside }
    requires plans { plan (machine_of program.now roots.old.limit) (state_of (view_in (S.storage store.old) roots.old.roots) outside)
        ≡ Some (makes_array (machine_of program.now roots.old.limit) (state_of (view_in (S.storage store.old) roots.old.roots) outside) site size pc) }
    requires site { site < length (site_kinds program.now) }
    requires shaped { new_object (S.storage store.old).settings.shapes site (kind_of_site program.now site) size
        ≡ object_of site (kind_of_site program.now site) (replicate size (blank_element program.now
        (kind_of_site program.now site))) }
    requires sized { IsTrue (has_size (S.storage store.old).settings.shapes (kind_of_site program.now site) size) }
    requires knows { IsTrue ((S.storage store.old).settings.knows site) }
    requires serials { S.rules.fixed ≡ true → length (S.storage store.old).kept + most_at_once < 2 ^ 63 }
    requires closed { IsClosed (view_in (S.storage store.old) roots.old.roots) }
    requires there { 0 < length (top_stack roots.old.roots) }
    ensures { RoomEnds S.rules program.now outside (S.storage store.old) (S.storage store.new) roots.old roots.new result }
{
    request.clear();
    request.add(site, words_of(size));
    store.make_room(request, roots)?;
    make_array(store, roots, site, program.site_kind(site), size);
    roots.set_place(pc);
    Ok(())
}

/// The words that an object with so many words of contents takes.
fn words_of(size: u32) -> u64
    ensures { result ≡ words_of size }
{
    HEADER_WORDS + u64::from(size)
}
