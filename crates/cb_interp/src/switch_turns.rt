// Turns of a run in which a switch is done.
ghost use Rattle.cb_heap.specs.Storage.{view_in};
ghost use Rattle.std.specs.Prelude.{◌≡◌, is_some, true, Some};
ghost use Rattle.cb_machine.specs.Steps.{plan};
ghost use Rattle.cb_interp.specs.Making.{AtSwitch, operand_here};
ghost use Rattle.cb_act.specs.Turning.{Outside, TurnMade, machine_of, moment_of, state_of};

use cb_act::switch;
use cb_frames::Roots;
use cb_heap::Store;
use cb_insn::Operand;
use cb_link::Program;

/// A turn in which the switch at which the topmost frame stands, of this operand, is done (JVMS §6.5, tableswitch and lookupswitch). Takes
/// constant time for a table, and time in its pairs for the other.
pub fn switch_turn<S: Store>(program: &Program, store: &S, roots: &mut Roots, operand: &Operand)
    ghost outside: { Outside }
    requires here { AtSwitch (machine_of program.now roots.old.limit) (state_of (view_in (S.storage store.now) roots.old.roots) outside) }
    requires operand { operand_here program.now roots.old.roots ≡ Some operand.now }
    requires steps { is_some (plan (machine_of program.now roots.old.limit) (state_of (view_in (S.storage store.now) roots.old.roots) outside)) ≡ true }
    ensures made { TurnMade S.rules (machine_of program.now roots.old.limit) (moment_of (view_in (S.storage store.now) roots.old.roots) outside (S.storage store.now).facts)
        (moment_of (view_in (S.storage store.now) roots.new.roots) outside
        (S.storage store.now).facts) }
    ensures limit { roots.new.limit ≡ roots.old.limit }
{
    let target = switch(roots, operand);
    roots.set_place(target);
}
