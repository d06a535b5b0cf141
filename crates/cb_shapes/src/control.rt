// Instructions that go elsewhere.
ghost use Rattle.std.specs.Prelude.{◌≡◌};
ghost use Rattle.cb_shapes.specs.Control.{condition_of, leaving, test_of};

use crate::{Action, Condition, Sort, Test};
use cb_insn::opcode;

/// The test of a turn: the six stand in one order from `ifeq` on, and again from `if_icmpeq` on.
fn test_of(turn: u8) -> Option<Test>
    ensures { result ≡ test_of turn }
{
    match turn {
        0 => Some(Test::Equal),
        1 => Some(Test::NotEqual),
        2 => Some(Test::Less),
        3 => Some(Test::GreaterOrEqual),
        4 => Some(Test::Greater),
        5 => Some(Test::LessOrEqual),
        _ => None,
    }
}

/// When a branch is taken (JVMS §6.5, ifeq to goto, ifnull, ifnonnull and goto_w).
pub(crate) fn condition_of(code: u8) -> Option<Condition>
    ensures { result ≡ condition_of code }
{
    match code {
        opcode::IFEQ..opcode::IF_ICMPEQ => {
            let test = test_of(code - opcode::IFEQ)?;
            Some(Condition::WithZero(test))
        }
        opcode::IF_ICMPEQ..opcode::IF_ACMPEQ => {
            let test = test_of(code - opcode::IF_ICMPEQ)?;
            Some(Condition::OfInts(test))
        }
        opcode::IF_ACMPEQ => Some(Condition::AreSame(true)),
        opcode::IF_ACMPNE => Some(Condition::AreSame(false)),
        opcode::GOTO | opcode::GOTO_W => Some(Condition::Always),
        opcode::IFNULL => Some(Condition::IsNull(true)),
        opcode::IFNONNULL => Some(Condition::IsNull(false)),
        _ => None,
    }
}

/// What a switch or a return does.
pub(crate) fn leaving(code: u8) -> Option<Action>
    ensures { result ≡ leaving code }
{
    match code {
        opcode::TABLESWITCH | opcode::LOOKUPSWITCH => Some(Action::Switch),
        opcode::IRETURN => Some(Action::Return(Some(Sort::Int))),
        opcode::LRETURN => Some(Action::Return(Some(Sort::Long))),
        opcode::ARETURN => Some(Action::Return(Some(Sort::Reference))),
        opcode::RETURN => Some(Action::Return(None)),
        _ => None,
    }
}
