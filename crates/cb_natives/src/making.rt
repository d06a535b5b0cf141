// Natives that place objects or change them (Java SE 8 API, java.lang).
ghost use Rattle.cb_heap.specs.Storage.{view_in};
ghost use Rattle.std.specs.Prelude.{◌≡◌, ◌<◌, ◌≤◌, [], ℕ, List, OnOk, length, map, true};
ghost use Rattle.std.specs.List.{AllByRecursion};
ghost use Rattle.cb_frames.specs.Tops.{top_stack};
ghost use Rattle.cb_heap.specs.Closed.{IsClosed};
ghost use Rattle.cb_heap.specs.Reading.{read_roots, read_value};
ghost use Rattle.cb_heap.specs.Store.{ReadsAsBefore};
ghost use Rattle.cb_link.specs.Having.{site_kinds};
ghost use Rattle.cb_plain.specs.State.{Roots as Held};
ghost use Rattle.cb_plain.specs.declared.want.Want.{Want};
ghost use Rattle.cb_natives.specs.Given.{AreGiven, have_sorts, roles, sorts_of};
ghost use Rattle.cb_natives.specs.Makers.{makes, makes_beside};
ghost use Rattle.cb_natives.specs.Making.{Asks, HasRoom, MayLeave, MayMake, Performs, Planned, given_back};
ghost use Rattle.cb_natives.specs.MakingArrays.{AreLaid, MayHold};
ghost use Rattle.cb_natives.specs.MakingKept.{HasKinds, HasTables};

use crate::Exception;
use crate::arrays::{makes_array, plan_array, run_array};
use crate::kept_objects::{makes_kept, plan_kept, run_kept};
use crate::makes_texts::makes_text;
use crate::number_boxes::{makes_number, plan_number, run_number};
use crate::own::{makes_own, plan_own, run_own};
use crate::text_making::{plan_text, run_text};
use cb_frames::Roots;
use cb_heap::{Store, closes_again};
use cb_library::Native;
use cb_link::Program;
use cb_plain::{Request, Value};

/// Whether a native places objects or changes them, and does nothing else.
pub fn makes(native: Native) -> bool
    ensures { result ≡ makes native }
{
    makes_beside(native) || makes_kept(native)
}

/// Whether it does so without a look at the roots.
fn makes_beside(native: Native) -> bool
    ensures { result ≡ makes_beside native }
{
    makes_text(native) || makes_own(native) || makes_number(native) || makes_array(native)
}

/// What room a native asks for, which replaces what the request holds, or which exception it throws. Takes time in the units that it reads.
pub fn plan_native<S: Store>(
    program: &Program,
    store: &S,
    roots: &Roots,
    native: Native,
    arguments: &[Value],
    request: &mut Request,
) -> Result<(), Exception>
    requires known { 32 ≤ length (site_kinds program.now) }
    requires makes { makes native ≡ true }
    requires sorts { have_sorts (sorts_of native) arguments.now ≡ true }
    requires given { AreGiven (S.storage store.now).kept (roles native) (map (read_value
        (S.storage store.now).index) arguments.now) }
    requires laid { AreLaid program.now (S.storage store.now).kept native (map (read_value (S.storage store.now).index) arguments.now) }
    requires tables { HasTables program.now roots.now.roots.tables }
    requires kinds { HasKinds program.now (S.storage store.now).kept }
    ensures planned { Planned program.now (view_in (S.storage store.now) roots.now.roots) native (map (read_value (S.storage store.now).index) arguments.now) request.new result }
    ensures sites { OnOk result (AllByRecursion (λ (want : Want). want.site < length (site_kinds program.now)) request.new) }
{
    if makes_text(native) {
        plan_text(program, store, native, arguments, request)
    } else if makes_own(native) {
        plan_own(program, store, native, arguments, request)
    } else if makes_number(native) {
        plan_number(program, store, native, arguments, request)
    } else if makes_array(native) {
        plan_array(program, store, native, arguments, request)
    } else {
        plan_kept(program, store, roots, native, arguments, request)
    }
}

/// Performs a native for which room was made, and answers the place of the object that it gives, if it gives one. Takes time in the units
/// that it reads and writes.
pub fn run_native<S: Store>(
    program: &Program,
    store: &mut S,
    roots: &mut Roots,
    native: Native,
    arguments: &[Value],
) -> Option<u64>
    ghost asked: { Held × List Want }
    requires held { asked.0 ≡ read_roots (S.storage store.old).index roots.old.roots }
    requires makes { makes native ≡ true }
    requires sorts { have_sorts (sorts_of native) arguments.now ≡ true }
    requires given { AreGiven (S.storage store.old).kept (roles native) (map (read_value
        (S.storage store.old).index) arguments.now) }
    requires laid { AreLaid program.now (S.storage store.old).kept native (map (read_value (S.storage store.old).index) arguments.now) }
    requires asks { Asks program.now (view_in (S.storage store.old) roots.old.roots)
        native (map (read_value (S.storage store.old).index) arguments.now) asked.1 }
    requires room { (asked.1 ≡ [] → ⊥) → HasRoom (S.storage store.old).kept asked.1 (S.storage store.old).granted }
    requires shaped { MayMake program.now (S.storage store.old).settings.shapes }
    requires holds { MayHold program.now (S.storage store.old).settings.shapes }
    requires follows { MayLeave program.now (S.storage store.old).settings.allows (view_in (S.storage store.old) roots.old.roots) native (map (read_value (S.storage store.old).index) arguments.now) }
    requires closed { IsClosed (view_in (S.storage store.old) roots.old.roots) }
    requires tables { HasTables program.now roots.old.roots.tables }
    requires kinds { HasKinds program.now (S.storage store.old).kept }
    ensures made { Performs S.rules program.now native (map (read_value (S.storage store.old).index) arguments.now) (view_in (S.storage store.old) roots.old.roots) (S.storage store.old).facts (view_in (S.storage store.new) roots.new.roots) (S.storage store.new).facts (given_back (S.storage store.new).index result) }
    ensures frames { (read_roots (S.storage store.new).index roots.new.roots).frames ≡ (read_roots
        (S.storage store.old).index roots.old.roots).frames }
    ensures stack { top_stack roots.new.roots ≡ top_stack roots.old.roots }
    ensures limit { roots.new.limit ≡ roots.old.limit }
    ensures faults { (S.storage store.new).faults ≡ (S.storage store.old).faults }
    ensures settings { (S.storage store.new).settings ≡ (S.storage store.old).settings }
{
    closes_again();
    if makes_kept(native) {
        Some(run_kept(program, store, roots, native, arguments))
    } else {
        run_beside(program, store, native, arguments)
    }
}

/// Performs one that doesn't look at the roots.
fn run_beside<S: Store>(
    program: &Program,
    store: &mut S,
    native: Native,
    arguments: &[Value],
) -> Option<u64>
    ghost asked: { Held × List Want }
    requires makes { makes_beside native ≡ true }
    requires sorts { have_sorts (sorts_of native) arguments.now ≡ true }
    requires given { AreGiven (S.storage store.old).kept (roles native) (map (read_value
        (S.storage store.old).index) arguments.now) }
    requires laid { AreLaid program.now (S.storage store.old).kept native (map (read_value (S.storage store.old).index) arguments.now) }
    requires asks { Asks program.now (record { roots = asked.0; objects = (S.storage store.old).kept }) native
        (map (read_value (S.storage store.old).index) arguments.now) asked.1 }
    requires room { (asked.1 ≡ [] → ⊥) → HasRoom (S.storage store.old).kept asked.1 (S.storage store.old).granted }
    requires shaped { MayMake program.now (S.storage store.old).settings.shapes }
    requires holds { MayHold program.now (S.storage store.old).settings.shapes }
    requires follows { MayLeave program.now (S.storage store.old).settings.allows (record { roots = asked.0; objects = (S.storage store.old).kept }) native (map (read_value (S.storage store.old).index) arguments.now) }
    ensures made { (roots : Held) → Performs S.rules program.now native (map (read_value
        (S.storage store.old).index) arguments.now) (record { roots = roots; objects = (S.storage store.old).kept }) (S.storage store.old).facts (record { roots = roots; objects = (S.storage store.new).kept }) (S.storage store.new).facts
        (given_back (S.storage store.new).index result) }
    ensures places { ReadsAsBefore (S.storage store.old).kept (S.storage store.old).index (S.storage store.new).index }
    ensures faults { (S.storage store.new).faults ≡ (S.storage store.old).faults }
    ensures settings { (S.storage store.new).settings ≡ (S.storage store.old).settings }
{
    if makes_text(native) {
        Some(run_text(program, store, native, arguments))
    } else if makes_own(native) {
        run_own(program, store, native, arguments)
    } else if makes_array(native) {
        run_array(program, store, native, arguments)
    } else {
        run_number(program, store, native, arguments);
        None
    }
}
