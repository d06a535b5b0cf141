// What is placed where a class begins to be initialised of which static fields have strings as constants.
ghost use Rattle.cb_heap.specs.Storage.{view_in};
ghost use Rattle.std.specs.Prelude.{◌≡◌, ◌<◌, ◌≤◌, ◌^◌, [], ℕ, length, true};
ghost use Rattle.std.specs.List.{fold};
ghost use Rattle.cb_frames.specs.Limited.{with_roots};
ghost use Rattle.cb_heap.specs.Closed.{IsClosed};
ghost use Rattle.cb_heap.specs.Follows.{Follows};
ghost use Rattle.cb_link.specs.Named.{static_initial};
ghost use Rattle.cb_link.specs.Slots.{statics};
ghost use Rattle.cb_link.specs.declared.named.Named.TheVariants as meanings;
ghost use Rattle.cb_machine.specs.Initialising.{begun_upon, own_statics};
ghost use Rattle.cb_machine.specs.Machine.{listed};
ghost use Rattle.cb_machine.specs.Plans.{asked, leaving, made};
ghost use Rattle.cb_plain.specs.Depth.{has_room};
ghost use Rattle.cb_plain.specs.Requests.{add_want};
ghost use Rattle.cb_unwind.specs.Begun as begun;
ghost use Rattle.cb_unwind.specs.Strings.{IsNew, MayEnter, units_of, with_constant};
ghost use Rattle.cb_interp.specs.Arguments.{Covers};
ghost use Rattle.cb_interp.specs.Fit.{ShapesOf};
ghost use Rattle.cb_interp.specs.TextStatics.{AskedAt, AsksTexts, HasSerials, MayPlaceOwn, knows_if_new, knows_to, seen_to, set_initial, spent_if_new, spent_to, text_wants, wants_behind, with_found};
ghost use Rattle.cb_act.specs.Turning.{Outside, facts_behind, machine_of, state_of};

use crate::load_turns::{CONSTANT_CHARACTERS, CONSTANT_STRINGS, STRING_WORDS, text_words};
use crate::text_slots::{new_at, text_at};
use cb_act::kept_value;
use cb_frames::Roots;
use cb_heap::Store;
use cb_link::{Named, Program};
use cb_plain::{Request, Value};
use cb_unwind::constant_string;

/// Asks for the room of all strings that are constants of static fields of a class and have no object yet, each once. Takes time in the
/// square of the static fields of the program.
pub(crate) fn ask_own<S: Store>(
    program: &Program,
    store: &S,
    roots: &Roots,
    request: &mut Request,
    class: u32,
)
    ghost outside: { Outside }
    requires clear { request.old ≡ [] }
    requires may { MayPlaceOwn program.now class }
    requires tables { length program.now.constants ≤ length roots.now.roots.tables.constants }
    requires room { has_room roots.now.limit roots.now.roots.frames 0 ≡ true }
    ensures asks { request.new ≡ asked (begun_upon (machine_of program.now roots.now.limit)
        (state_of (view_in (S.storage store.now) roots.now.roots) outside)
        (view_in (S.storage store.now) roots.now.roots).roots.frames class) }
    ensures sites { AsksTexts request.new }
{
    let _ = store;
    let count = program.static_count();
    for slot in 0..count {
        ask_at(program, roots, request, class, slot);
    }
}

/// Asks for room for the string of a static field, if it has no object yet, and no field before asked for it.
fn ask_at(program: &Program, roots: &Roots, request: &mut Request, class: u32, slot: u32)
    requires slot { slot < length (statics program.now.classes) }
    requires tables { length program.now.constants ≤ length roots.now.roots.tables.constants }
    requires may { MayPlaceOwn program.now class }
    requires asks { AsksTexts request.old }
    ensures { AskedAt program.now roots.now.roots class slot request.old request.new }
{
    match new_at(program, roots, class, slot) {
        Some(text) => ask_text(program, request, text),
        None => {}
    }
}

/// Asks for room for the string of a text.
fn ask_text(program: &Program, request: &mut Request, text: u32)
    requires text { text < length program.now.constants }
    requires few { length (units_of program.now text) < 2 ^ 32 }
    requires asks { AsksTexts request.old }
    ensures { request.new ≡ fold add_want request.old (text_wants program.now text) }
{
    let words = text_words(program, text);
    request.add(CONSTANT_CHARACTERS, words);
    request.add(CONSTANT_STRINGS, STRING_WORDS);
}

/// Gives the static fields of a class that have constants their values, for which there is room. Takes time in the static fields of the
/// program, and in the units of strings that are new.
pub(crate) fn place_own<S: Store>(program: &Program, store: &mut S, roots: &mut Roots, class: u32)
    ghost outside: { Outside }
    requires may { MayPlaceOwn program.now class }
    requires shaped { ShapesOf program.now (S.storage store.old).settings.shapes }
    requires follows { Follows (S.storage store.old).settings.allows (made (fold (set_initial (machine_of program.now roots.old.limit))
        (leaving (state_of (view_in (S.storage store.old) roots.old.roots) outside)) (own_statics program.now class))).objects }
    requires closed { IsClosed (view_in (S.storage store.old) roots.old.roots) }
    requires statics { length (statics program.now.classes) ≤ length roots.old.roots.statics }
    requires tables { length program.now.constants ≤ length roots.old.roots.tables.constants }
    requires covers { Covers (S.storage store.old).granted (wants_behind
        (machine_of program.now roots.old.limit) (leaving (state_of (view_in (S.storage store.old) roots.old.roots) outside)) (own_statics program.now class)) }
    requires serials { HasSerials (length (S.storage store.old).kept) (S.storage store.old).granted (wants_behind
        (machine_of program.now roots.old.limit) (leaving (state_of (view_in (S.storage store.old) roots.old.roots) outside)) (own_statics program.now class)) }
    ensures made { state_of (view_in (S.storage store.new) roots.new.roots) outside
        ≡ made (fold (set_initial (machine_of program.now roots.old.limit)) (leaving (state_of
        (view_in (S.storage store.old) roots.old.roots) outside))
        (own_statics program.now class)) }
    ensures facts { (S.storage store.new).facts ≡ facts_behind S.rules (S.storage store.old).facts (fold
        (set_initial (machine_of program.now roots.old.limit)) (leaving (state_of (view_in (S.storage store.old) roots.old.roots) outside))
        (own_statics program.now class)).placed }
    ensures limit { roots.new.limit ≡ roots.old.limit }
    ensures faults { (S.storage store.new).faults ≡ (S.storage store.old).faults }
    ensures settings { (S.storage store.new).settings ≡ (S.storage store.old).settings }
{
    let count = program.static_count();
    for slot in 0..count {
        let owner = program.static_class(slot);
        if owner == class {
            set_one(program, store, roots, slot);
        }
    }
}

/// Gives a static field the value of its constant, if it has one.
fn set_one<S: Store>(program: &Program, store: &mut S, roots: &mut Roots, slot: u32)
    requires slot { slot < length (statics program.now.classes) }
    requires statics { length (statics program.now.classes) ≤ length roots.old.roots.statics }
    requires tables { length program.now.constants ≤ length roots.old.roots.tables.constants }
    requires low { (text : ℕ) → static_initial program.now slot ≡ meanings.Text text
        → text < length program.now.constants }
    requires may { (text : ℕ) → static_initial program.now slot ≡ meanings.Text text
        → IsNew roots.old.roots text → MayEnter program.now text (S.storage store.old).settings.shapes
        (S.storage store.old).granted (S.storage store.old).settings.allows (view_in (S.storage store.old)
        roots.old.roots) }
    ensures set { view_in (S.storage store.new) roots.new.roots
        ≡ seen_to program.now slot (view_in (S.storage store.old) roots.old.roots)
        (static_initial program.now slot) }
    ensures facts { (S.storage store.new).facts ≡ knows_to S.rules program.now (view_in (S.storage store.old) roots.old.roots).roots.tables.constants (S.storage store.old).facts
        (static_initial program.now slot) }
    ensures granted { (S.storage store.new).granted ≡ spent_to program.now (view_in (S.storage store.old) roots.old.roots).roots.tables.constants (S.storage store.old).granted
        (static_initial program.now slot) }
    ensures limit { roots.new.limit ≡ roots.old.limit }
    ensures faults { (S.storage store.new).faults ≡ (S.storage store.old).faults }
    ensures settings { (S.storage store.new).settings ≡ (S.storage store.old).settings }
{
    match text_at(program, slot) {
        Some(text) => set_text(program, store, roots, slot, text),
        None => set_number(program, roots, slot),
    }
}

/// Gives a static field the string of a text.
fn set_text<S: Store>(program: &Program, store: &mut S, roots: &mut Roots, slot: u32, text: u32)
    requires text { text < length program.now.constants }
    requires table { text < length roots.old.roots.tables.constants }
    requires slot { slot < length roots.old.roots.statics }
    requires may { IsNew roots.old.roots text → MayEnter program.now text (S.storage store.old).settings.shapes
        (S.storage store.old).granted (S.storage store.old).settings.allows (view_in (S.storage store.old)
        roots.old.roots) }
    ensures set { view_in (S.storage store.new) roots.new.roots
        ≡ with_found slot (with_constant program.now text (view_in (S.storage store.old) roots.old.roots)) }
    ensures facts { (S.storage store.new).facts ≡ knows_if_new S.rules program.now (S.storage store.old).facts text
        (listed (view_in (S.storage store.old)
        roots.old.roots).roots.tables.constants text) }
    ensures granted { (S.storage store.new).granted ≡ spent_if_new program.now (S.storage store.old).granted text
        (listed (view_in (S.storage store.old)
        roots.old.roots).roots.tables.constants text) }
    ensures limit { roots.new.limit ≡ roots.old.limit }
    ensures faults { (S.storage store.new).faults ≡ (S.storage store.old).faults }
    ensures settings { (S.storage store.new).settings ≡ (S.storage store.old).settings }
{
    let at = constant_string(program, store, roots, text);
    roots.set_static(slot, Value::Ref(at));
}

/// Gives a static field the value of its constant, if that is a number.
fn set_number(program: &Program, roots: &mut Roots, slot: u32)
    requires there { slot < length (statics program.now.classes) }
    requires held { slot < length roots.old.roots.statics }
    ensures { roots.new ≡ with_roots roots.old (begun.set_initial program.now roots.old.roots
        slot) }
{
    if let Named::Whole(value) = program.static_initial(slot) {
        let value = kept_value(program.static_basic(slot), value);
        roots.set_static(slot, value);
    }
}
