// The start of a run.
ghost use Rattle.cb_heap.specs.Storage.{view_in};
ghost use Rattle.std.specs.Prelude.{◌≡◌, ◌+◌, ◌*◌, ◌<◌, ◌≤◌, ◌^◌, ◌++◌, ◌∷◌, [], ℕ, List, length, IfErr, IfOk, IsTrue, OnOk, Some};
ghost use Rattle.std.specs.List.{AllByRecursion, fold};
ghost use Rattle.cb_frames.specs.Limited.{with_roots};
ghost use Rattle.cb_heap.specs.Follows.{Follows};
ghost use Rattle.cb_heap.specs.Reading.{serial_of};
ghost use Rattle.cb_heap.specs.Store.{IsFault, ReadsAsBefore};
ghost use Rattle.cb_io.specs.Faults.{CountsFaults};
ghost use Rattle.cb_link.specs.Having.{site_kinds};
ghost use Rattle.cb_link.specs.Program.{Linked};
ghost use Rattle.cb_link.specs.Slots.{statics};
ghost use Rattle.cb_machine.specs.Initialising.{own_statics};
ghost use Rattle.cb_machine.specs.Library.{system};
ghost use Rattle.cb_machine.specs.Machine.{Machine, kind_of_site};
ghost use Rattle.cb_machine.specs.Performing.{most_elements};
ghost use Rattle.cb_machine.specs.Sites.{arguments};
ghost use Rattle.cb_machine.specs.Starting.{empty_roots, start};
ghost use Rattle.cb_machine.specs.Values.{blank_value};
ghost use Rattle.cb_plain.specs.Requests.{add_want, spent, words_at};
ghost use Rattle.cb_plain.specs.State.{words_of};
ghost use Rattle.cb_plain.specs.declared.shape.Shape.{Shape};
ghost use Rattle.cb_safety.specs.Linked.{IsLinked};
ghost use Rattle.cb_safety.specs.States.{IsInput, IsTypedState};
ghost use Rattle.cb_safety.specs.Strings.{IsText};
ghost use Rattle.cb_verify.specs.Typed.{IsTyped};
ghost use Rattle.cb_interp.specs.Arguments.{Covers, all_wants};
ghost use Rattle.cb_interp.specs.Fit.{IsPlacedAs, ShapesOf};
ghost use Rattle.cb_interp.specs.Starting.{BeginsWith, MayStart, RefusesStart, bare, blank_array, first_objects, first_state, knows_first, new_roots, set_first, set_ready, settled, unread, with_first, with_ready, with_streams};
ghost use Rattle.cb_act.specs.Turning.{Moment, StandsAt, machine_of, moment_of};

use crate::arguments::{ask_texts, place_texts};
use cb_frames::{RootSizes, Roots};
use cb_heap::{NoRoom, Store};
use cb_kinds::Basic;
use cb_link::Program;
use cb_plain::{ClassState, OutOfMemory, Request, Value};
use cb_safety::{linked_has_natives, linked_has_start, linked_programs};
use cb_text::Units;
use std::alloc::Global;

/// The site of the array of arguments, and those of the two streams of System.
const ARGUMENTS: u32 = 0;

const SYSTEM_OUT: u32 = 3;

const SYSTEM_IN: u32 = 4;

/// The number of System.
const SYSTEM: u32 = 11;

/// How many classes the library has.
const LIBRARY_CLASSES: u32 = 50;

/// The words of an object that has a header alone.
const BARE_WORDS: u64 = 3;

/// The places of what is there at the start.
#[derive(Clone, Copy, Debug, Drop, Eq, PartialEq)]
struct First {
    /// The array of arguments.
    array: u64,
    /// The stream that System writes to.
    out: u64,
    /// The stream that it reads.
    input: u64,
}

/// What is asked of a program for its start, each linked one has: by the shapes of its kinds the array of arguments refers to objects, a
/// string to its characters, and the streams of System have no words; and System has two static fields.
pub fn linked_programs_start()
    ensures { (program : Linked) (shapes : List Shape) → IsLinked program → IsTyped program
        → ShapesOf program shapes → MayStart program shapes }
{
    linked_programs();
    linked_has_start();
    linked_has_natives();
}

/// Roots for a program, of which nothing has run: at most so many frames may stand. Takes the room that `Roots::make` says. `OutOfMemory`
/// where that was not to be had.
pub fn make_roots(alloc: Global, program: &Program, frames: u32) -> Result<Roots, OutOfMemory>
    requires { IsLinked program.now }
    ensures limit { IfOk result (λ roots. roots.limit ≡ frames) }
    ensures new { IfOk result (λ roots. roots.roots ≡ new_roots program.now) }
{
    let sizes = RootSizes {
        frames,
        statics: program.static_count(),
        constants: program.constant_count(),
        kinds: program.kind_count(),
        classes: classes_of(program),
    };
    Roots::make(alloc, sizes)
}

/// How many classes a program has.
fn classes_of(program: &Program) -> u32
    requires { length program.now.classes < 2 ^ 32 }
    ensures { result ≡ length program.now.classes }
{
    program.class_count() as u32
}

/// The moment with which a run begins is typed, and stands for the state with which the machine that never frees begins, where each
/// argument is a text, there are no more than an array has elements, and the input is bytes.
pub fn starts_stand<S: Store>()
    ensures typed { (machine : Machine) (given : List (List ℕ)) (input : List ℕ) (known : S.Facts)
        (moment : Moment S.Facts) → IsLinked machine.program → AllByRecursion IsText given
        → length given ≤ most_elements → IsInput input
        → BeginsWith S.rules machine given input known moment
        → IsTypedState machine.program moment.state }
    ensures stands { (machine : Machine) (given : List (List ℕ)) (input : List ℕ) (known : S.Facts)
        (moment : Moment S.Facts) → IsLinked machine.program → AllByRecursion IsText given
        → length given ≤ most_elements → IsInput input
        → BeginsWith S.rules machine given input known moment
        → StandsAt moment (start machine given input) }
{
    linked_has_start();
}

/// Places what is there when a run begins, the array of arguments with its strings and the two streams of System, and puts the roots in
/// order: the streams stand in the static fields of System, each other static field holds the first value of its type, the library's
/// classes are ready, and `main` waits for the array (JLS §12.1.4). An error is that there is no room, and then the store keeps nothing. Takes
/// time in the classes and the static fields of the program, and in the arguments.
pub fn start<S: Store>(
    program: &Program,
    store: &mut S,
    roots: &mut Roots,
    request: &mut Request,
    given: &[Units],
) -> Result<(), NoRoom>
    requires linked { IsLinked program.now }
    requires fits { IsTyped program.now }
    requires shaped { ShapesOf program.now (S.storage store.old).settings.shapes }
    requires new { roots.old.roots ≡ new_roots program.now }
    requires empty { (S.storage store.old).kept ≡ [] }
    requires sites { (site : ℕ) → site < length (site_kinds program.now)
        → IsTrue ((S.storage store.old).settings.knows site) }
    requires follows { Follows (S.storage store.old).settings.allows (start
        (machine_of program.now roots.old.limit) given.now []).objects }
    requires few { length given.now ≤ most_elements }
    requires short { AllByRecursion IsText given.now }
    ensures begun { OnOk result ((input : List ℕ) → BeginsWith S.rules
        (machine_of program.now roots.old.limit) given.now input (S.storage store.old).facts (moment_of
        (view_in (S.storage store.new) roots.new.roots) (unread input)
        (S.storage store.new).facts)) }
    ensures refused { IfErr result (λ reason. RefusesStart S.rules
        (machine_of program.now roots.old.limit) given.now (S.storage store.old).facts reason
        (S.storage store.new).facts) }
    ensures nothing { IfErr result (λ _. (S.storage store.new).kept ≡ []) }
    ensures counted { CountsFaults (S.storage store.old).faults (S.storage store.new).faults (IsFault result) }
    ensures limit { roots.new.limit ≡ roots.old.limit }
    ensures settings { (S.storage store.new).settings ≡ (S.storage store.old).settings }
{
    linked_programs_start();
    ready(program, roots);
    ask(request, given);
    store.make_room(request, roots)?;
    let first = place_first(program, store, given);
    settle(program, roots, first);
    Ok(())
}

/// Puts new roots in order, but for what is placed: the library's classes are ready, and each static field holds the first value of its
/// type.
fn ready(program: &Program, roots: &mut Roots)
    requires few { length program.now.classes < 2 ^ 32 }
    requires new { roots.old.roots ≡ new_roots program.now }
    ensures { roots.new ≡ with_roots roots.old (empty_roots program.now) }
{
    ready_classes(program, roots);
    set_values(program, roots);
}

/// Says of each class how far it is at first.
fn ready_classes(program: &Program, roots: &mut Roots)
    requires few { length program.now.classes < 2 ^ 32 }
    requires held { length program.now.classes ≤ length roots.old.roots.classes }
    ensures { roots.new ≡ with_roots roots.old (with_ready program.now roots.old.roots) }
{
    let count = classes_of(program);
    for class in 0..count {
        ready_class(roots, class);
    }
}

/// Says of a class how far it is at first: one of the library is ready, and another hasn't begun to be initialised.
fn ready_class(roots: &mut Roots, class: u32)
    requires { class < length roots.old.roots.classes }
    ensures { roots.new ≡ with_roots roots.old (set_ready roots.old.roots class) }
{
    let state = first_state(class);
    roots.set_state(class, state);
}

/// How far a class is at first.
fn first_state(class: u32) -> ClassState
    ensures { result ≡ first_state class }
{
    if class < LIBRARY_CLASSES {
        ClassState::Done
    } else {
        ClassState::Untouched
    }
}

/// Gives each static field the first value of its type.
fn set_values(program: &Program, roots: &mut Roots)
    requires { length (statics program.now.classes) ≤ length roots.old.roots.statics }
    ensures { roots.new ≡ with_roots roots.old (with_first program.now roots.old.roots) }
{
    let count = program.static_count();
    for slot in 0..count {
        set_value(program, roots, slot);
    }
}

/// Gives a static field the first value of its type.
fn set_value(program: &Program, roots: &mut Roots, slot: u32)
    requires there { slot < length (statics program.now.classes) }
    requires held { slot < length roots.old.roots.statics }
    ensures { roots.new ≡ with_roots roots.old (set_first program.now roots.old.roots slot) }
{
    let value = blank_value(program.static_basic(slot));
    roots.set_static(slot, value);
}

/// What a static field of a type holds at first (JVMS §2.3, §2.4).
fn blank_value(basic: Basic) -> Value
    ensures { result ≡ blank_value basic }
{
    match basic {
        Basic::Long => Value::Long(0),
        Basic::Reference(_) => Value::Ref(0),
        Basic::Boolean | Basic::Byte | Basic::Char | Basic::Short | Basic::Int => Value::Int(0),
    }
}

/// Asks for room for what is there at the start, and nothing else.
fn ask(request: &mut Request, given: &[Units])
    requires few { length given.now ≤ most_elements }
    requires short { AllByRecursion IsText given.now }
    ensures { request.new ≡ fold add_want [] (all_wants given.now) }
{
    request.clear();
    request.add(ARGUMENTS, BARE_WORDS + given.len() as u64);
    ask_texts(request, given);
    request.add(SYSTEM_OUT, BARE_WORDS);
    request.add(SYSTEM_IN, BARE_WORDS);
}

/// Places the array with its strings and the two streams, over no objects.
fn place_first<S: Store>(program: &Program, store: &mut S, given: &[Units]) -> First
    requires fits { MayStart program.now (S.storage store.old).settings.shapes }
    requires granted { Covers (S.storage store.old).granted (all_wants given.now) }
    requires empty { (S.storage store.old).kept ≡ [] }
    requires few { length given.now ≤ most_elements }
    requires short { AllByRecursion IsText given.now }
    requires follows { Follows (S.storage store.old).settings.allows (first_objects program.now given.now) }
    ensures kept { (S.storage store.new).kept ≡ first_objects program.now given.now }
    ensures array { serial_of (S.storage store.new).index result.array ≡ 1 }
    ensures out { serial_of (S.storage store.new).index result.out ≡ 2 * length given.now + 2 }
    ensures input { serial_of (S.storage store.new).index result.input ≡ 2 * length given.now + 3 }
    ensures places { ReadsAsBefore [] (S.storage store.old).index (S.storage store.new).index }
    ensures facts { (S.storage store.new).facts ≡ knows_first S.rules (S.storage store.old).facts given.now }
    ensures faults { (S.storage store.new).faults ≡ (S.storage store.old).faults }
    ensures settings { (S.storage store.new).settings ≡ (S.storage store.old).settings }
{
    let array = place_array(program, store, given.len() as u32);
    place_texts(program, store, array, given);
    let out = place_bare(program, store, SYSTEM_OUT);
    let input = place_bare(program, store, SYSTEM_IN);
    First { array, out, input }
}

/// Places an array for so many arguments, over no objects.
fn place_array<S: Store>(program: &Program, store: &mut S, size: u32) -> u64
    requires fits { MayStart program.now (S.storage store.old).settings.shapes }
    requires granted { words_of size ≤ words_at (S.storage store.old).granted arguments }
    requires empty { (S.storage store.old).kept ≡ [] }
    ensures kept { (S.storage store.new).kept ≡ Some (blank_array program.now size) ∷ [] }
    ensures serial { serial_of (S.storage store.new).index result ≡ 1 }
    ensures places { ReadsAsBefore [] (S.storage store.old).index (S.storage store.new).index }
    ensures facts { (S.storage store.new).facts ≡ S.rules.placed (S.storage store.old).facts arguments size }
    ensures granted { (S.storage store.new).granted ≡ spent (S.storage store.old).granted arguments
        (words_of size) }
    ensures faults { (S.storage store.new).faults ≡ (S.storage store.old).faults }
    ensures settings { (S.storage store.new).settings ≡ (S.storage store.old).settings }
{
    store.place(ARGUMENTS, program.site_kind(ARGUMENTS), size)
}

/// Places an object without words at a site.
fn place_bare<S: Store>(program: &Program, store: &mut S, site: u32) -> u64
    requires site { site < length (site_kinds program.now) }
    requires granted { words_of 0 ≤ words_at (S.storage store.old).granted site }
    requires fits { IsPlacedAs (S.storage store.old).settings.shapes site (kind_of_site program.now site) 0 [] }
    requires serials { length (S.storage store.old).kept + 1 < 2 ^ 63 }
    ensures kept { (S.storage store.new).kept ≡ (S.storage store.old).kept ++ Some (bare program.now site) ∷ [] }
    ensures serial { serial_of (S.storage store.new).index result ≡ length (S.storage store.old).kept + 1 }
    ensures places { ReadsAsBefore (S.storage store.old).kept (S.storage store.old).index (S.storage store.new).index }
    ensures facts { (S.storage store.new).facts ≡ S.rules.placed (S.storage store.old).facts site 0 }
    ensures granted { (S.storage store.new).granted ≡ spent (S.storage store.old).granted site (words_of 0) }
    ensures faults { (S.storage store.new).faults ≡ (S.storage store.old).faults }
    ensures settings { (S.storage store.new).settings ≡ (S.storage store.old).settings }
{
    store.place(site, program.site_kind(site), 0)
}

/// Puts the streams into the static fields of System, and lets the array wait for `main`.
fn settle(program: &Program, roots: &mut Roots, first: First)
    requires { length (statics program.now.classes) ≤ length roots.old.roots.statics }
    ensures { roots.new ≡ with_roots roots.old (settled program.now first.array first.out first.input
        roots.old.roots) }
{
    set_streams(program, roots, first.out, first.input);
    roots.set_argument(first.array);
}

/// Puts the streams into the static fields of System, of which the first is the one that it writes to.
fn set_streams(program: &Program, roots: &mut Roots, out: u64, input: u64)
    requires { length (statics program.now.classes) ≤ length roots.old.roots.statics }
    ensures { roots.new ≡ with_roots roots.old (with_streams (own_statics program.now system) out
        input roots.old.roots) }
{
    let mut next = out;
    let count = program.static_count();
    for slot in 0..count {
        let owner = program.static_class(slot);
        if owner == SYSTEM {
            roots.set_static(slot, Value::Ref(next));
            next = input;
        }
    }
}
