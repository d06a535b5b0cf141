// `Enum.valueOf` (Java SE 8 API, java.lang.Enum).
ghost use Rattle.cb_heap.specs.Storage.{view_in};
ghost use Rattle.std.specs.Prelude.{◌≡◌, ◌<◌, ◌≤◌, IfSome, Some, length, map, option_and_then, true};
ghost use Rattle.cb_heap.specs.Kept.{content_at};
ghost use Rattle.cb_heap.specs.Reading.{read_value, serial_of};
ghost use Rattle.cb_kinds.specs.Texts.{same_text};
ghost use Rattle.cb_kinds.specs.declared.basic.Basic.TheVariants as basics;
ghost use Rattle.cb_library.specs.declared.native.Native.TheVariants as natives;
ghost use Rattle.cb_link.specs.Calls.{class_of_kind};
ghost use Rattle.cb_link.specs.Slots.{statics};
ghost use Rattle.cb_machine.specs.Enums.{constant_named, gives_static, kind_of_number, of_class};
ghost use Rattle.cb_machine.specs.Machine.{Machine};
ghost use Rattle.cb_machine.specs.Performing.{on_text, stops};
ghost use Rattle.cb_machine.specs.Sites.{illegal_argument};
ghost use Rattle.cb_natives.specs.Answers.{Beside, call_on};
ghost use Rattle.cb_natives.specs.Enums.{Comes, FindsConstant, IfBegins, class_of_word};
ghost use Rattle.cb_natives.specs.Exceptions.{site_of};
ghost use Rattle.cb_natives.specs.Given.{AText, AreGiven, HoldsInt, HoldsUnits, IsReference, have_sorts, roles, sorts_of, units_in};

use crate::Exception;
use crate::arguments::references;
use crate::held::{OfInt, int_in};
use crate::reading::{chars_of, count};
use crate::scanning::unit_at;
use cb_frames::Roots;
use cb_heap::Store;
use cb_link::Program;
use cb_plain::{ClassState, Value};

/// The slot in which a class object has its kind.
const KIND: u32 = 0;

/// What `Enum.valueOf` does.
#[derive(Clone, Copy, Debug, Drop, Eq, PartialEq)]
pub enum EnumAnswer {
    /// It gives a constant.
    Gives(Value),
    /// It throws an exception without a message.
    Throws(Exception),
    /// The class of this number has to be initialised first (JVMS §5.5). The call is made again behind that.
    Begins(u32),
}

/// Finds the constant of an enum by its name, the class of the enum and the name being the arguments. Takes time in the names of the
/// enum's constants, and changes nothing.
pub fn find_constant<S: Store>(
    program: &Program,
    store: &S,
    roots: &Roots,
    arguments: &[Value],
) -> EnumAnswer
    requires sorts { have_sorts (sorts_of natives.EnumValueOf) arguments.now ≡ true }
    requires given { AreGiven (S.storage store.now).kept (roles natives.EnumValueOf) (map (read_value
        (S.storage store.now).index) arguments.now) }
    requires classes { length roots.now.roots.classes ≡ length program.now.classes }
    requires statics { length (statics program.now.classes) ≤ length roots.now.roots.statics }
    ensures found { FindsConstant program.now (S.storage store.now).index (view_in (S.storage store.now) roots.now.roots) (map (read_value (S.storage store.now).index) arguments.now) result }
    ensures class { IfBegins result (λ class. class < length program.now.classes) }
{
    let (at, name) = references(arguments);
    if at == 0 {
        return EnumAnswer::Throws(Exception::NullPointer);
    }
    match class_named(program, store, at) {
        Some(class) => constant_of(program, store, roots, class, name),
        None => EnumAnswer::Throws(no_constant(store, name)),
    }
}

/// The class of a class object, if its kind has one.
fn class_named<S: Store>(program: &Program, store: &S, at: u64) -> Option<u32>
    requires { HoldsInt (S.storage store.now).kept (serial_of (S.storage store.now).index at) 0 basics.Int }
    ensures class { class_of_word program.now (content_at (S.storage store.now).kept (serial_of (S.storage store.now).index at) 0) ≡ result }
    ensures within { IfSome result (λ class. class < length program.now.classes) }
{
    class_numbered(program, int_in::<S, OfInt>(store, at, KIND))
}

/// The class of a kind, if the number is one's that has one.
fn class_numbered(program: &Program, number: i32) -> Option<u32>
    ensures class { option_and_then (class_of_kind program.now) (kind_of_number number) ≡ result }
    ensures within { IfSome result (λ class. class < length program.now.classes) }
{
    match u32::try_from(number) {
        Ok(kind) if kind < program.kind_count() => program.class_of_kind(kind),
        _ => None,
    }
}

/// What is thrown where no enum has a constant of a name: the name may be null.
fn no_constant<S: Store>(store: &S, name: u64) -> Exception
    requires { IsReference (S.storage store.now).kept AText (serial_of (S.storage store.now).index name) }
    ensures { (machine : Machine) (beside : Beside) → on_text (call_on machine (S.storage store.now).kept beside) (serial_of (S.storage store.now).index name) (λ units. stops (call_on machine (S.storage store.now).kept beside) illegal_argument)
        ≡ stops (call_on machine (S.storage store.now).kept beside) (site_of result) }
{
    match chars_of(store, name) {
        Some(_) => Exception::IllegalArgument,
        None => Exception::NullPointer,
    }
}

/// The constant of a class, once the class may be used.
fn constant_of<S: Store>(
    program: &Program,
    store: &S,
    roots: &Roots,
    class: u32,
    name: u64,
) -> EnumAnswer
    requires low { class < length program.now.classes }
    requires given { IsReference (S.storage store.now).kept AText (serial_of (S.storage store.now).index name) }
    requires classes { length roots.now.roots.classes ≡ length program.now.classes }
    requires statics { length (statics program.now.classes) ≤ length roots.now.roots.statics }
    ensures found { Comes program.now (S.storage store.now).index (view_in (S.storage store.now) roots.now.roots) (λ call. of_class call (serial_of (S.storage store.now).index name) (Some class)) result }
    ensures class { IfBegins result (λ class. class < length program.now.classes) }
{
    match roots.state(class) {
        ClassState::Untouched => EnumAnswer::Begins(class),
        ClassState::Failed => EnumAnswer::Throws(Exception::NoClassDefinition),
        ClassState::Busy | ClassState::Done => ready_constant(program, store, roots, class, name),
    }
}

/// The constant of a class that may be used.
fn ready_constant<S: Store>(
    program: &Program,
    store: &S,
    roots: &Roots,
    class: u32,
    name: u64,
) -> EnumAnswer
    requires low { class < length program.now.classes }
    requires given { IsReference (S.storage store.now).kept AText (serial_of (S.storage store.now).index name) }
    requires statics { length (statics program.now.classes) ≤ length roots.now.roots.statics }
    ensures found { Comes program.now (S.storage store.now).index (view_in (S.storage store.now) roots.now.roots) (λ call. on_text call (serial_of (S.storage store.now).index name) (λ units. gives_static call (constant_named program.now class units))) result }
    ensures class { IfBegins result (λ class. class < length program.now.classes) }
{
    let Some(array) = chars_of(store, name) else {
        return EnumAnswer::Throws(Exception::NullPointer);
    };
    match constant_at(program, class, store, array) {
        Some(slot) => EnumAnswer::Gives(roots.static_value(slot)),
        None => EnumAnswer::Throws(Exception::IllegalArgument),
    }
}

/// The slot of the constant of a class that has a name, the text of an array of chars. An enum has no more constants than there are static
/// fields.
fn constant_at<S: Store>(program: &Program, class: u32, store: &S, array: u64) -> Option<u32>
    requires low { class < length program.now.classes }
    requires units { HoldsUnits (S.storage store.now).kept (serial_of (S.storage store.now).index array) }
    ensures found { result ≡ constant_named program.now class (units_in (S.storage store.now).kept (serial_of (S.storage store.now).index array)) }
    ensures within { IfSome result (λ slot. slot < length (statics program.now.classes)) }
{
    for place in 0..program.static_count() as usize {
        let Some(slot) = program.enum_static(class, place) else {
            return None;
        };
        if same_name(program.static_name(slot), store, array) {
            return Some(slot);
        }
    }
    None
}

/// Whether a name is the text of an array of chars. Linear in it.
fn same_name<S: Store>(name: &[u16], store: &S, array: u64) -> bool
    requires { HoldsUnits (S.storage store.now).kept (serial_of (S.storage store.now).index array) }
    ensures { result ≡ same_text name.now (units_in (S.storage store.now).kept (serial_of (S.storage store.now).index array)) }
{
    let units = count(store, array);
    if name.len() != units as usize {
        return false;
    }
    for place in 0..units {
        if name[place as usize] != unit_at(store, array, place) {
            return false;
        }
    }
    true
}
