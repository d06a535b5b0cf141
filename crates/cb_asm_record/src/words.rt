// How many words the arguments of a method take.
ghost use Rattle.std.specs.Prelude.{◌≡◌, ◌+◌, ◌<◌, ◌^◌, ◌∷◌, ℕ, List, ◌⊎◌, ◌≢◌, MatchOption};
ghost use Rattle.cb_names.specs.Signs.{right_parenthesis};
ghost use Rattle.cb_names.specs.Types.{parameters_words, type_words};
ghost use Rattle.cb_asm_line.specs.Parameters.{argument_words, types_behind};
ghost use Rattle.cb_asm_record.specs.Inner.{Makes, long_behind, words_left};
ghost use Rattle.cb_asm_record.specs.declared.words.Reading.TheVariants as readings;

use crate::stop::Stop;

/// `[`, which stands before the type of an array's elements (JVMS §4.3.2).
const BRACKET: u16 = 0x5B;

/// `L`, before the name of a class.
const CLASS: u16 = 0x4C;

/// `D`, for `double`.
const DOUBLE: u16 = 0x44;

/// `J`, for `long`.
const LONG: u16 = 0x4A;

/// Where a descriptor is read.
#[derive(Clone, Copy, Debug, PartialEq, Eq)]
pub(crate) enum Reading {
    /// At a type.
    Type,
    /// Behind a bracket.
    Array,
    /// In the name of a class.
    Name,
}

/// How many words the arguments of a method of an instance take, `this` among them, by its descriptor (JVMS
/// §6.5.invokeinterface), also where the text is no descriptor. `NoRecord` where they are more than 255. Takes time in the
/// length of the descriptor, and no memory.
pub(crate) fn argument_words(descriptor: &[u16]) -> Result<u8, Stop>
    ensures { Makes (argument_words descriptor.now) (argument_words descriptor.now < 2 ^ 8) result }
{
    match descriptor {
        [_, types @ ..] => words_of(types),
        [] => Ok(1),
    }
}

/// One more than how many words the types up to the closing parenthesis take.
fn words_of(types: &[u16]) -> Result<u8, Stop>
    ensures { Makes (words_left readings.Type types.now + 1) (words_left readings.Type types.now + 1 < 2 ^ 8) result }
{
    let mut words: u8 = 1;
    let mut reading = Reading::Type;
    let mut rest = types;
    while let Some((unit, behind)) = unit_at(reading, rest) {
        let (next, more) = step(reading, unit);
        let Some(sum) = words.checked_add(more) else {
            return Err(Stop::NoRecord);
        };
        words = sum;
        reading = next;
        rest = behind;
    }
    Ok(words)
}

/// The unit at the front and what stands behind it, or `None` at the end of the types.
fn unit_at(reading: Reading, rest: &[u16]) -> Option<(u16, &[u16])>
    ensures { MatchOption result (words_left reading rest.now ≡ 0)
        (λ found. (rest.now ≡ found.0 ∷ found.1.now) × ((reading ≡ readings.Name) ⊎ (found.0 ≢ right_parenthesis))) }
{
    match rest {
        [unit, behind @ ..] if reading == Reading::Name || *unit != u16::from(b')') => {
            Some((*unit, behind))
        }
        _ => None,
    }
}

/// What comes behind a unit other than a closing parenthesis, and how many words it adds.
fn step(reading: Reading, unit: u16) -> (Reading, u8)
    requires { (reading ≡ readings.Name) ⊎ (unit ≢ right_parenthesis) }
    ensures { (rest : List ℕ) → words_left reading (unit ∷ rest) ≡ result.1 + words_left result.0 rest }
{
    match reading {
        Reading::Type => step_at_type(unit, 2),
        Reading::Array => step_at_type(unit, 1),
        Reading::Name => step_in_name(unit),
    }
}

/// What comes behind a unit of a name, and how many words it adds.
fn step_in_name(unit: u16) -> (Reading, u8)
    ensures { (rest : List ℕ) → words_left readings.Name (unit ∷ rest) ≡ result.1 + words_left result.0 rest }
{
    if unit == u16::from(b';') {
        (Reading::Type, 1)
    } else {
        (Reading::Name, 0)
    }
}

/// What comes behind the first unit of a type, and how many words it adds, where a long takes so many.
fn step_at_type(unit: u16, long: u8) -> (Reading, u8)
    ensures { (brackets : ℕ) (rest : List ℕ) → unit ≢ right_parenthesis → long ≡ type_words (long_behind brackets)
        → parameters_words (types_behind brackets (unit ∷ rest)) ≡ result.1 + words_left result.0 rest }
{
    match unit {
        BRACKET => (Reading::Array, 0),
        CLASS => (Reading::Name, 0),
        DOUBLE | LONG => (Reading::Type, long),
        _ => (Reading::Type, 1),
    }
}
