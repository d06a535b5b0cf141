// What branches look at.
ghost use Rattle.std.specs.Prelude.{◌≡◌};
ghost use Rattle.cb_shapes.specs.Conditions.{passes, takes};

use crate::Sort;

/// How an int is to compare with another.
#[derive(Clone, Copy, Debug, Drop, Eq, PartialEq)]
pub enum Test {
    Equal,
    NotEqual,
    Less,
    GreaterOrEqual,
    Greater,
    LessOrEqual,
}

/// When a branch is taken (JVMS §6.5).
#[derive(Clone, Copy, Debug, Drop, Eq, PartialEq)]
pub enum Condition {
    /// `goto`, `goto_w`
    Always,
    /// `ifeq` to `ifle`: an int compared with 0
    WithZero(Test),
    /// `if_icmpeq` to `if_icmple`: an int compared with the one above it
    OfInts(Test),
    /// `if_acmpeq`, `if_acmpne`: whether two references are the same
    AreSame(bool),
    /// `ifnull`, `ifnonnull`: whether a reference is null
    IsNull(bool),
}

impl Test {
    /// Whether an int compares so with another.
    #[inline(always)]
    pub fn passes(self, a: i32, b: i32) -> bool
        ensures { result ≡ passes self a b }
    {
        match self {
            Test::Equal => a == b,
            Test::NotEqual => a != b,
            Test::Less => a < b,
            Test::GreaterOrEqual => a >= b,
            Test::Greater => a > b,
            Test::LessOrEqual => a <= b,
        }
    }
}

impl Condition {
    /// The sorts of the values that it takes from the operand stack, the topmost first.
    pub fn takes(self) -> &'static [Sort]
        ensures { result.now ≡ takes self }
    {
        match self {
            Condition::Always => &[],
            Condition::WithZero(_) => &[Sort::Int],
            Condition::OfInts(_) => &[Sort::Int, Sort::Int],
            Condition::AreSame(_) => &[Sort::Reference, Sort::Reference],
            Condition::IsNull(_) => &[Sort::Reference],
        }
    }
}
