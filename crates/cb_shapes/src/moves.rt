// Instructions that load and store local variables and elements of arrays, and those from pop to swap.
ghost use Rattle.std.specs.Prelude.{◌≡◌, ◌<◌};
ghost use Rattle.cb_shapes.specs.Moves.{load, load_element, local_in, named_local, shuffle_of, store, store_element};

use crate::{Action, Elements, Shuffle, Sort};
use cb_insn::{Operand, opcode};

/// The local variable that an operand says.
fn local_in(operand: &Operand) -> u16
    ensures { result ≡ local_in operand.now }
{
    match operand {
        Operand::Local(local) => *local,
        _ => 0,
    }
}

/// The sort of the local variables that an opcode names, which are four in a row, and its number.
fn named_local(turn: u8) -> Option<(Sort, u16)>
    ensures { result ≡ named_local turn }
{
    match turn {
        0..4 => Some((Sort::Int, u16::from(turn))),
        4..8 => Some((Sort::Long, u16::from(turn - 4))),
        16..20 => Some((Sort::Reference, u16::from(turn - 16))),
        _ => None,
    }
}

/// What an instruction that loads a local variable does (JVMS §6.5, iload to aload_3).
pub(crate) fn load(code: u8, operand: &Operand) -> Option<Action>
    ensures { result ≡ load code operand.now }
{
    let sort = match code {
        opcode::ILOAD => Sort::Int,
        opcode::LLOAD => Sort::Long,
        opcode::ALOAD => Sort::Reference,
        _ if code < opcode::ILOAD_0 => return None,
        _ => {
            let (sort, local) = named_local(code - opcode::ILOAD_0)?;
            return Some(Action::Load { sort, local });
        }
    };
    let local = local_in(operand);
    Some(Action::Load { sort, local })
}

/// What an instruction that stores a local variable does (JVMS §6.5, istore to astore_3).
pub(crate) fn store(code: u8, operand: &Operand) -> Option<Action>
    ensures { result ≡ store code operand.now }
{
    let sort = match code {
        opcode::ISTORE => Sort::Int,
        opcode::LSTORE => Sort::Long,
        opcode::ASTORE => Sort::Reference,
        _ if code < opcode::ISTORE_0 => return None,
        _ => {
            let (sort, local) = named_local(code - opcode::ISTORE_0)?;
            return Some(Action::Store { sort, local });
        }
    };
    let local = local_in(operand);
    Some(Action::Store { sort, local })
}

/// What an instruction that loads an element of an array does (JVMS §6.5, iaload to saload).
pub(crate) fn load_element(code: u8) -> Option<Action>
    ensures { result ≡ load_element code }
{
    match code {
        opcode::IALOAD => Some(Action::LoadNumber(Elements::Ints)),
        opcode::LALOAD => Some(Action::LoadNumber(Elements::Longs)),
        opcode::AALOAD => Some(Action::LoadReference),
        opcode::BALOAD => Some(Action::LoadNumber(Elements::BooleansOrBytes)),
        opcode::CALOAD => Some(Action::LoadNumber(Elements::Chars)),
        opcode::SALOAD => Some(Action::LoadNumber(Elements::Shorts)),
        _ => None,
    }
}

/// What an instruction that stores an element of an array does (JVMS §6.5, iastore to sastore).
pub(crate) fn store_element(code: u8) -> Option<Action>
    ensures { result ≡ store_element code }
{
    match code {
        opcode::IASTORE => Some(Action::StoreNumber(Elements::Ints)),
        opcode::LASTORE => Some(Action::StoreNumber(Elements::Longs)),
        opcode::AASTORE => Some(Action::StoreReference),
        opcode::BASTORE => Some(Action::StoreNumber(Elements::BooleansOrBytes)),
        opcode::CASTORE => Some(Action::StoreNumber(Elements::Chars)),
        opcode::SASTORE => Some(Action::StoreNumber(Elements::Shorts)),
        _ => None,
    }
}

/// What an instruction from pop to swap moves (JVMS §6.5).
pub(crate) fn shuffle_of(code: u8) -> Option<Shuffle>
    ensures { result ≡ shuffle_of code }
{
    match code {
        opcode::POP => Some(Shuffle::Pop),
        opcode::POP2 => Some(Shuffle::Pop2),
        opcode::DUP => Some(Shuffle::Dup),
        opcode::DUP_X1 => Some(Shuffle::DupX1),
        opcode::DUP_X2 => Some(Shuffle::DupX2),
        opcode::DUP2 => Some(Shuffle::Dup2),
        opcode::DUP2_X1 => Some(Shuffle::Dup2X1),
        opcode::DUP2_X2 => Some(Shuffle::Dup2X2),
        opcode::SWAP => Some(Shuffle::Swap),
        _ => None,
    }
}
