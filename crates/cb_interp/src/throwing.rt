// Turns of a run in which an exception of the machine is thrown.
ghost use Rattle.cb_heap.specs.Storage.{view_in};
ghost use Rattle.std.specs.Prelude.{◌≡◌, ◌+◌, ◌<◌, ◌^◌, length, true, IsTrue, Some};
ghost use Rattle.cb_heap.specs.Closed.{IsClosed};
ghost use Rattle.cb_heap.specs.Shaped.{has_size, new_object};
ghost use Rattle.cb_link.specs.Having.{site_kinds};
ghost use Rattle.cb_machine.specs.Machine.{kind_of_site};
ghost use Rattle.cb_machine.specs.Plans.{object_of};
ghost use Rattle.cb_machine.specs.Steps.{plan};
ghost use Rattle.cb_machine.specs.Throwing.{exception_contents, throws};
ghost use Rattle.cb_act.specs.Placing.{exception_size};
ghost use Rattle.cb_interp.specs.Running.{RoomEnds};
ghost use Rattle.cb_act.specs.Turning.{Outside, machine_of, most_at_once, state_of};

use cb_act::throw;
use cb_frames::Roots;
use cb_heap::{NoRoom, Store};
use cb_link::Program;
use cb_plain::Request;

/// The words that an exception takes.
const EXCEPTION_WORDS: u64 = 6;

/// A turn in which an exception of the machine without a message is thrown: room is made for it, and it is placed and becomes pending.
pub fn throw_turn<S: Store>(
    program: &Program,
    store: &mut S,
    roots: &mut Roots,
    request: &mut Request,
    site: u32,
) -> Result<(), NoRoom>
    ghost outside: { Outside }
    requires plans { plan (machine_of program.now roots.old.limit) (state_of (view_in (S.storage store.old) roots.old.roots) outside)
        ≡ Some (throws (machine_of program.now roots.old.limit) (state_of (view_in (S.storage store.old) roots.old.roots) outside) site) }
    requires site { site < length (site_kinds program.now) }
    requires shaped { new_object (S.storage store.old).settings.shapes site
        (kind_of_site program.now site) exception_size ≡ object_of site
        (kind_of_site program.now site) (exception_contents 0 0) }
    requires sized { IsTrue (has_size (S.storage store.old).settings.shapes
        (kind_of_site program.now site) exception_size) }
    requires knows { IsTrue ((S.storage store.old).settings.knows site) }
    requires serials { S.rules.fixed ≡ true → length (S.storage store.old).kept + most_at_once < 2 ^ 63 }
    requires closed { IsClosed (view_in (S.storage store.old) roots.old.roots) }
    ensures { RoomEnds S.rules program.now outside (S.storage store.old) (S.storage store.new) roots.old roots.new result }
{
    request.clear();
    request.add(site, EXCEPTION_WORDS);
    store.make_room(request, roots)?;
    throw(store, roots, site, program.site_kind(site));
    Ok(())
}
