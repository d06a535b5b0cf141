// Constructors of boxes (Java SE 8 API, java.lang.Integer, Long, Character and Boolean).
ghost use Rattle.std.specs.Prelude.{◌≡◌, ◌<◌, ◌∷◌, [], ℕ, List, None, OnOk, map, true};
ghost use Rattle.std.specs.List.{AllByRecursion};
ghost use Rattle.cb_heap.specs.Reading.{read_value};
ghost use Rattle.cb_heap.specs.Store.{ReadsAsBefore};
ghost use Rattle.cb_plain.specs.State.{Roots};
ghost use Rattle.cb_plain.specs.declared.value.Value.TheVariants as values;
ghost use Rattle.cb_plain.specs.declared.want.Want.{Want};
ghost use Rattle.cb_shapes.specs.declared.sort.Sort.TheVariants as sorts;
ghost use Rattle.cb_natives.specs.Given.{AreGiven, have_sorts, roles, sorts_of};
ghost use Rattle.cb_natives.specs.Making.{Asks, HasRoom, MayMake, Performs, Planned, given_back};
ghost use Rattle.cb_natives.specs.MakingNumbers.{SetsBox, makes_number};

use crate::Exception;
use crate::arguments::reference_int;
use crate::low_bits::{low_bit, unit_of, word_of};
use cb_heap::Store;
use cb_library::Native;
use cb_link::Program;
use cb_plain::{Request, Value};

/// The slot in which a box has what it holds.
const VALUE: u32 = 0;

/// The place of a box, 0 where there is none, and the number that it gets.
#[derive(Clone, Copy, Debug, Drop, Eq, PartialEq)]
struct Setting {
    at: u64,
    number: i64,
}

/// Whether a native is the constructor of a box.
pub(crate) fn makes_number(native: Native) -> bool
    ensures { result ≡ makes_number native }
{
    matches!(
        native,
        Native::IntegerNew | Native::LongNew | Native::CharacterNew | Native::BooleanNew
    )
}

/// Asks for the room of a constructor of a box, which is none, or answers a NullPointerException where there is no box.
pub(crate) fn plan_number<S: Store>(
    program: &Program,
    store: &S,
    native: Native,
    arguments: &[Value],
    request: &mut Request,
) -> Result<(), Exception>
    requires makes { makes_number native ≡ true }
    requires sorts { have_sorts (sorts_of native) arguments.now ≡ true }
    requires given { AreGiven (S.storage store.now).kept (roles native) (map (read_value
        (S.storage store.now).index) arguments.now) }
    ensures planned { (roots : Roots) → Planned program.now (record { roots = roots; objects = (S.storage store.now).kept }) native (map (read_value (S.storage store.now).index) arguments.now) request.new result }
    ensures sites { OnOk result (AllByRecursion (λ (want : Want). want.site < 32) request.new) }
{
    let _ = program;
    request.clear();
    if setting_of(store, native, arguments).at == 0 {
        Err(Exception::NullPointer)
    } else {
        Ok(())
    }
}

/// Performs a constructor of a box, which gives nothing.
pub(crate) fn run_number<S: Store>(
    program: &Program,
    store: &mut S,
    native: Native,
    arguments: &[Value],
)
    ghost asked: { Roots × List Want }
    requires makes { makes_number native ≡ true }
    requires sorts { have_sorts (sorts_of native) arguments.now ≡ true }
    requires given { AreGiven (S.storage store.old).kept (roles native) (map (read_value
        (S.storage store.old).index) arguments.now) }
    requires asks { Asks program.now (record { roots = asked.0; objects = (S.storage store.old).kept }) native (map (read_value (S.storage store.old).index) arguments.now) asked.1 }
    requires room { (asked.1 ≡ [] → ⊥) → HasRoom (S.storage store.old).kept asked.1 (S.storage store.old).granted }
    requires shaped { MayMake program.now (S.storage store.old).settings.shapes }
    ensures made { (roots : Roots) → Performs S.rules program.now native (map (read_value (S.storage store.old).index) arguments.now)
        (record { roots = roots; objects = (S.storage store.old).kept }) (S.storage store.old).facts (record { roots = roots; objects = (S.storage store.new).kept }) (S.storage store.new).facts
        (given_back (S.storage store.new).index None) }
    ensures places { ReadsAsBefore (S.storage store.old).kept (S.storage store.old).index (S.storage store.new).index }
    ensures faults { (S.storage store.new).faults ≡ (S.storage store.old).faults }
    ensures settings { (S.storage store.new).settings ≡ (S.storage store.old).settings }
{
    let _ = program;
    let setting = setting_of(store, native, arguments);
    store.put(setting.at, VALUE, word_of(setting.number));
}

/// The box of a constructor, and the number that it gets: of a char the low 16 bits of an int, of a boolean the lowest one.
fn setting_of<S: Store>(store: &S, native: Native, arguments: &[Value]) -> Setting
    requires makes { makes_number native ≡ true }
    requires sorts { have_sorts (sorts_of native) arguments.now ≡ true }
    requires given { AreGiven (S.storage store.now).kept (roles native) (map (read_value
        (S.storage store.now).index) arguments.now) }
    ensures { SetsBox (S.storage store.now).kept (S.storage store.now).index native (map (read_value
        (S.storage store.now).index) arguments.now) result }
{
    let _ = store;
    match native {
        Native::IntegerNew => {
            let (at, number) = reference_int(arguments);
            Setting {
                at,
                number: i64::from(number),
            }
        }
        Native::LongNew => {
            let (at, number) = reference_long(arguments);
            Setting { at, number }
        }
        Native::CharacterNew => {
            let (at, number) = reference_int(arguments);
            Setting {
                at,
                number: i64::from(unit_of(number)),
            }
        }
        Native::BooleanNew => {
            let (at, number) = reference_int(arguments);
            Setting {
                at,
                number: i64::from(low_bit(number)),
            }
        }
        _ => unreachable!(),
    }
}

/// A reference and a long.
fn reference_long(arguments: &[Value]) -> (u64, i64)
    requires { have_sorts (sorts.Reference ∷ sorts.Long ∷ []) arguments.now ≡ true }
    ensures { arguments.now ≡ values.Ref result.0 ∷ values.Long result.1 ∷ [] }
{
    match arguments {
        [Value::Ref(at), Value::Long(number)] => (*at, *number),
        _ => unreachable!(),
    }
}
