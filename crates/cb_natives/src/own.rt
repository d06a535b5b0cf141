// Natives that set the text of their own object, in two calls: room is asked for, and what was asked for is done (Java SE 8 API,
// java.lang.String and StringBuilder).
ghost use Rattle.std.specs.Prelude.{◌≡◌, ◌<◌, ℕ, List, [], map, true, OnOk};
ghost use Rattle.std.specs.List.{AllByRecursion};
ghost use Rattle.cb_heap.specs.Reading.{read_value};
ghost use Rattle.cb_heap.specs.Store.{ReadsAsBefore};
ghost use Rattle.cb_plain.specs.State.{Roots};
ghost use Rattle.cb_plain.specs.declared.want.Want.{Want};
ghost use Rattle.cb_natives.specs.Given.{AreGiven, have_sorts, roles, sorts_of};
ghost use Rattle.cb_natives.specs.Making.{Asks, HasRoom, MayLeave, MayMake, Performs, Planned, given_back};
ghost use Rattle.cb_natives.specs.MakingOwn.{changes_builder, itself_at, makes_own, wanted_by};

use crate::Exception;
use crate::own_change::{Change, Own};
use crate::own_natives::own_of;
use crate::own_placing::{BUILDER_CHARACTERS, MADE_CHARACTERS, make_change};
use cb_heap::Store;
use cb_library::Native;
use cb_link::Program;
use cb_plain::{Request, Value};

/// The words of the header of an object.
const HEADER_WORDS: u64 = 3;

/// Whether a native sets the text of its own object.
pub(crate) fn makes_own(native: Native) -> bool
    ensures { result ≡ makes_own native }
{
    match native {
        Native::StringNew
        | Native::StringNewChars
        | Native::StringNewRange
        | Native::StringBuilderNew
        | Native::StringBuilderNewCapacity
        | Native::StringBuilderNewString => true,
        _ => changes_builder(native),
    }
}

/// Whether it changes a builder.
fn changes_builder(native: Native) -> bool
    ensures { result ≡ changes_builder native }
{
    matches!(
        native,
        Native::StringBuilderAppendString
            | Native::StringBuilderAppendInt
            | Native::StringBuilderAppendLong
            | Native::StringBuilderAppendChar
            | Native::StringBuilderAppendBoolean
            | Native::StringBuilderAppendChars
            | Native::StringBuilderSetCharAt
            | Native::StringBuilderDeleteCharAt
            | Native::StringBuilderSetLength
    )
}

/// Asks for the room that a native takes which sets the text of its own object, and for nothing else; or answers what it throws. Constant
/// in time.
pub(crate) fn plan_own<S: Store>(
    program: &Program,
    store: &S,
    native: Native,
    arguments: &[Value],
    request: &mut Request,
) -> Result<(), Exception>
    requires makes { makes_own native ≡ true }
    requires sorts { have_sorts (sorts_of native) arguments.now ≡ true }
    requires given { AreGiven (S.storage store.now).kept (roles native) (map (read_value
        (S.storage store.now).index) arguments.now) }
    ensures planned { (roots : Roots) → Planned program.now (record { roots = roots; objects = (S.storage store.now).kept }) native (map (read_value
        (S.storage store.now).index) arguments.now) request.new result }
    ensures sites { OnOk result (AllByRecursion (λ (want : Want). want.site < 32) request.new) }
{
    request.clear();
    match own_of(program, store, native, arguments) {
        Ok(own) => {
            ask(&own.change, request);
            Ok(())
        }
        Err(exception) => Err(exception),
    }
}

/// Asks for the room that a change takes.
fn ask(change: &Change, request: &mut Request)
    requires { request.old ≡ [] }
    ensures { request.new ≡ wanted_by change.now }
{
    match change {
        Change::Sets { size, .. } => {
            request.add(MADE_CHARACTERS, HEADER_WORDS + u64::from(*size));
        }
        Change::Builds { room, .. } => {
            request.add(BUILDER_CHARACTERS, HEADER_WORDS + u64::from(*room));
        }
        _ => {}
    }
}

/// Does what a native does that sets the text of its own object, where room was made as it asks for it, and answers the place of what it
/// gives back, if it does. Takes time in the units that are written and in the room of a new array.
pub(crate) fn run_own<S: Store>(
    program: &Program,
    store: &mut S,
    native: Native,
    arguments: &[Value],
) -> Option<u64>
    ghost asked: { Roots × List Want }
    requires makes { makes_own native ≡ true }
    requires sorts { have_sorts (sorts_of native) arguments.now ≡ true }
    requires given { AreGiven (S.storage store.old).kept (roles native) (map (read_value
        (S.storage store.old).index) arguments.now) }
    requires asks { Asks program.now (record { roots = asked.0; objects = (S.storage store.old).kept }) native (map (read_value
        (S.storage store.old).index) arguments.now) asked.1 }
    requires room { (asked.1 ≡ [] → ⊥) → HasRoom (S.storage store.old).kept asked.1 (S.storage store.old).granted }
    requires shaped { MayMake program.now (S.storage store.old).settings.shapes }
    requires follows { MayLeave program.now (S.storage store.old).settings.allows (record { roots = asked.0; objects = (S.storage store.old).kept }) native (map (read_value (S.storage store.old).index) arguments.now) }
    ensures made { (roots : Roots) → Performs S.rules program.now native (map (read_value (S.storage store.old).index) arguments.now)
        (record { roots = roots; objects = (S.storage store.old).kept }) (S.storage store.old).facts (record { roots = roots; objects = (S.storage store.new).kept }) (S.storage store.new).facts
        (given_back (S.storage store.new).index result) }
    ensures places { ReadsAsBefore (S.storage store.old).kept (S.storage store.old).index (S.storage store.new).index }
    ensures faults { (S.storage store.new).faults ≡ (S.storage store.old).faults }
    ensures settings { (S.storage store.new).settings ≡ (S.storage store.old).settings }
{
    let Ok(own) = own_of(program, store, native, arguments) else {
        unreachable!()
    };
    make_change(program, store, own.at, &own.change);
    itself(&own)
}

/// The place of the object that is given back, if it is.
fn itself(own: &Own) -> Option<u64>
    ensures { result ≡ itself_at own.now.gives own.now.at }
{
    if own.gives { Some(own.at) } else { None }
}
