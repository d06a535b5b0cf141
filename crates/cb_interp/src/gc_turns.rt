// Turns of a run in which a collection is asked for.
ghost use Rattle.cb_heap.specs.Storage.{view_in};
ghost use Rattle.std.specs.Prelude.{◌≡◌, IfErr, OnOk, Some};
ghost use Rattle.cb_act.specs.Here.{Here};
ghost use Rattle.cb_act.specs.Turning.{Outside, WholeTurn, machine_of, moment_in, state_of};
ghost use Rattle.cb_heap.specs.Store.{IsFault};
ghost use Rattle.cb_io.specs.Faults.{CountsFaults};
ghost use Rattle.cb_library.specs.declared.native.Native.TheVariants as natives;
ghost use Rattle.cb_interp.specs.Performed.{AsksNative};
ghost use Rattle.cb_interp.specs.Running.{NotDone, Ready};

use crate::linked::linked_programs_fit;
use cb_frames::Roots;
use cb_heap::{NoRoom, Store};
use cb_link::{Decoded, Program};
use cb_safety::linked_has_natives;

/// A turn in which `System.gc` is performed, for which the instruction at the topmost frame's place asks (Java SE 8 API, java.lang.System).
/// The run goes on at the next place, and the store lets go what nothing reaches, where it does. A refusal is a `ReportFault`, with which the
/// step is made all the same. Takes what the store takes.
pub(crate) fn gc_turn<S: Store>(
    program: &Program,
    store: &mut S,
    roots: &mut Roots,
    decoded: &Decoded,
) -> Result<(), NoRoom>
    ghost outside: { Outside }
    requires ready { Ready S.rules program.now (S.storage store.old) roots.old outside }
    requires here { Here (machine_of program.now roots.old.limit) (state_of (view_in (S.storage store.old) roots.old.roots) outside) decoded.now }
    requires asked { AsksNative program.now roots.old.limit decoded.now (view_in (S.storage store.old) roots.old.roots) natives.SystemGc }
    ensures made { OnOk result (WholeTurn S.rules (machine_of program.now roots.old.limit) (moment_in (S.storage store.old) roots.old.roots outside) (moment_in (S.storage store.new) roots.new.roots outside)) }
    ensures unreported { IfErr result (λ reason. NotDone S.rules (machine_of program.now roots.old.limit) reason (moment_in (S.storage store.old) roots.old.roots outside) (moment_in (S.storage store.new) roots.new.roots outside)) }
    ensures counted { CountsFaults (S.storage store.old).faults (S.storage store.new).faults (IsFault result) }
    ensures limit { roots.new.limit ≡ roots.old.limit }
    ensures settings { (S.storage store.new).settings ≡ (S.storage store.old).settings }
{
    linked_programs_fit();
    linked_has_natives();
    let Some(next) = decoded.next else {
        unreachable!()
    };
    roots.set_place(next);
    store.collect_all(roots)
}
