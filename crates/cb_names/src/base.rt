// Base types (JVMS §4.3.2, table 4.3-A).
ghost use Rattle.std.specs.Prelude.{◌≡◌, ◌≢◌, MatchOption};
ghost use Rattle.cb_names.specs.Types.{letter_of};

use crate::signs::{BOOLEAN, BYTE, CHAR, DOUBLE, FLOAT, INT, LONG, SHORT};

/// A base type.
#[derive(Clone, Copy, Debug, PartialEq, Eq)]
pub enum BaseType {
    /// `byte`
    Byte,
    /// `char`
    Char,
    /// `double`
    Double,
    /// `float`
    Float,
    /// `int`
    Int,
    /// `long`
    Long,
    /// `short`
    Short,
    /// `boolean`
    Boolean,
}

/// The base type of a letter, or `None` where the unit is that of none.
pub(crate) fn base_of_letter(unit: u16) -> Option<BaseType>
    ensures { MatchOption result ((base : BaseType) → letter_of base ≢ unit) (λ base. letter_of base ≡ unit) }
{
    match unit {
        BYTE => Some(BaseType::Byte),
        CHAR => Some(BaseType::Char),
        DOUBLE => Some(BaseType::Double),
        FLOAT => Some(BaseType::Float),
        INT => Some(BaseType::Int),
        LONG => Some(BaseType::Long),
        SHORT => Some(BaseType::Short),
        BOOLEAN => Some(BaseType::Boolean),
        _ => None,
    }
}
