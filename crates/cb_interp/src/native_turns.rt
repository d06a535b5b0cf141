// Turns of a run in which a native prints.
ghost use Rattle.cb_heap.specs.Storage.{view_in};
ghost use Rattle.std.specs.Prelude.{◌≡◌, ◌<◌, ◌≤◌, length, true, IfErr, IsErrOf, None, OnErr, OnOk};
ghost use Rattle.cb_frames.specs.Limited.{with_roots};
ghost use Rattle.cb_frames.specs.Tops.{top_stack};
ghost use Rattle.cb_io.specs.Faults.{CountsFaults};
ghost use Rattle.cb_act.specs.Here.{Here};
ghost use Rattle.cb_interp.specs.Performed.{AsksNative};
ghost use Rattle.cb_interp.specs.Printing.{behind_taken, is_print, print_of, taken_by};
ghost use Rattle.cb_interp.specs.Running.{Ready, SaysBy, Turned};
ghost use Rattle.cb_act.specs.Turning.{Outside, machine_of, state_of};
ghost use Rattle.cb_interp.specs.declared.stop.Stop.TheVariants as stops;

use crate::Stop;
use crate::printing::{Print, print_of, write_print};
use crate::string_text::{chars_of, line_of, write_string};
use cb_act::{reference_at, take_one, take_two};
use cb_frames::Roots;
use cb_heap::Store;
use cb_io::Sink;
use cb_library::Native;
use cb_link::{Decoded, Program};

/// A turn in which the native for which the instruction at the topmost frame's place asks is performed, where it prints: a boolean, a char,
/// an int, a long, a string or a newline (Java SE 8 API, java.io.PrintStream). What is printed is written before anything is changed, so an
/// `OutputFault` leaves the roots as they were. Takes constant time, and for a string time in its units.
pub(crate) fn native_turn<S: Store, O: Sink>(
    program: &Program,
    store: &S,
    roots: &mut Roots,
    out: &mut O,
    decoded: &Decoded,
    native: Native,
) -> Result<(), Stop>
    ghost outside: { Outside }
    requires ready { Ready S.rules program.now (S.storage store.now) roots.old outside }
    requires here { Here (machine_of program.now roots.old.limit) (state_of (view_in (S.storage store.now) roots.old.roots) outside) decoded.now }
    requires asked { AsksNative program.now roots.old.limit decoded.now (view_in (S.storage store.now) roots.old.roots) native }
    requires prints { is_print native ≡ true }
    ensures made { OnOk result (Turned S.rules (machine_of program.now roots.old.limit) outside
        (view_in (S.storage store.now) roots.old.roots) (view_in (S.storage store.now) roots.new.roots) (S.storage store.now).facts (S.storage store.now).facts
        (O.taken out.old) (O.taken out.new)) }
    ensures same { OnErr result (roots.new ≡ roots.old) }
    ensures left { IfErr result (λ stop. SaysBy (machine_of program.now roots.old.limit) (state_of
        (view_in (S.storage store.now) roots.old.roots) outside) stop
        (O.taken out.old) (O.taken out.new)) }
    ensures only { IfErr result (λ stop. stop ≡ stops.OutputFault) }
    ensures output { CountsFaults (O.faults out.old) (O.faults out.new)
        (IsErrOf result stops.OutputFault) }
    ensures limit { roots.new.limit ≡ roots.old.limit }
{
    let Some(print) = print_of(native) else {
        return string_turn(program, store, roots, out, decoded, native);
    };
    let Some(next) = decoded.next else {
        unreachable!()
    };
    if write_print(roots, print, out).is_err() {
        return Err(Stop::OutputFault);
    }
    leave_print(roots, print, next);
    Ok(())
}

/// A turn in which the native for which the instruction at the topmost frame's place asks is performed, where it prints a string. Takes time
/// in the units of the string.
fn string_turn<S: Store, O: Sink>(
    program: &Program,
    store: &S,
    roots: &mut Roots,
    out: &mut O,
    decoded: &Decoded,
    native: Native,
) -> Result<(), Stop>
    ghost outside: { Outside }
    requires ready { Ready S.rules program.now (S.storage store.now) roots.old outside }
    requires here { Here (machine_of program.now roots.old.limit) (state_of (view_in (S.storage store.now) roots.old.roots) outside) decoded.now }
    requires asked { AsksNative program.now roots.old.limit decoded.now (view_in (S.storage store.now) roots.old.roots) native }
    requires other { print_of native ≡ None }
    requires prints { is_print native ≡ true }
    ensures made { OnOk result (Turned S.rules (machine_of program.now roots.old.limit) outside
        (view_in (S.storage store.now) roots.old.roots) (view_in (S.storage store.now) roots.new.roots) (S.storage store.now).facts (S.storage store.now).facts
        (O.taken out.old) (O.taken out.new)) }
    ensures same { OnErr result (roots.new ≡ roots.old) }
    ensures left { IfErr result (λ stop. SaysBy (machine_of program.now roots.old.limit) (state_of
        (view_in (S.storage store.now) roots.old.roots) outside) stop
        (O.taken out.old) (O.taken out.new)) }
    ensures only { IfErr result (λ stop. stop ≡ stops.OutputFault) }
    ensures output { CountsFaults (O.faults out.old) (O.faults out.new)
        (IsErrOf result stops.OutputFault) }
    ensures limit { roots.new.limit ≡ roots.old.limit }
{
    let Some(line) = line_of(native) else {
        unreachable!()
    };
    let Some(next) = decoded.next else {
        unreachable!()
    };
    let at = reference_at(roots, 0);
    let array = chars_of(store, at);
    if write_string(store, at, array, line, out).is_err() {
        return Err(Stop::OutputFault);
    }
    leave_two(roots, next);
    Ok(())
}

/// Takes the stream, and what was printed, from the stack, and goes on at a place.
fn leave_print(roots: &mut Roots, print: Print, next: u32)
    requires { taken_by print ≤ length (top_stack roots.old.roots) }
    ensures { roots.new ≡ with_roots roots.old (behind_taken
        (taken_by print) next roots.old.roots) }
{
    match print {
        Print::Line => {
            take_one(roots);
            roots.set_place(next);
        }
        Print::Truth { .. } | Print::Char { .. } | Print::Int { .. } | Print::Long { .. } => {
            leave_two(roots, next)
        }
    }
}

/// Takes two values from the stack, and goes on at a place.
fn leave_two(roots: &mut Roots, next: u32)
    requires { 1 < length (top_stack roots.old.roots) }
    ensures { roots.new ≡ with_roots roots.old (behind_taken 2 next roots.old.roots) }
{
    take_two(roots);
    roots.set_place(next);
}
