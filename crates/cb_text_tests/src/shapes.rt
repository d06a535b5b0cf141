// Which instructions the profile has, and what some do.
use cb_insn::{Form, Insn, Operand, Pairs, Targets, head_form};
use cb_rows::Trouble;
use cb_shapes::{Action, action_of};
use std::alloc::{AllocError, Global};

pub(crate) fn tell(
    alloc: Global,
    told: &mut String,
    table: &str,
    row: &str,
) -> Result<(), Trouble> {
    match (table, row) {
        ("profile", "opcodes") => Ok(tell_profile(alloc, told)?),
        ("actions", _) => {
            let code = u8::from_str_radix(row, 16).map_err(|_| Trouble::NotUnderstood)?;
            match action(alloc, code) {
                Some(action) => Ok(write!(told, "{action:?}")?),
                None => Ok(told.push_str("none")?),
            }
        }
        _ => Err(Trouble::NotUnderstood),
    }
}

/// An operand of the form that an opcode has behind it, with the local 7 and the index 9.
fn operand_of(alloc: Global, code: u8) -> Option<Operand> {
    let operand = match head_form(false, code)? {
        Form::Byte | Form::Short => Operand::Number(0),
        Form::PoolByte | Form::Pool | Form::Dynamic => Operand::Pool(9),
        Form::Local | Form::WideLocal => Operand::Local(7),
        Form::Increase | Form::WideIncrease => Operand::Increase { local: 7, by: 1 },
        Form::Branch | Form::LongBranch => Operand::Branch(0),
        Form::Table => Operand::Table {
            default: 0,
            low: 0,
            targets: Targets::new(alloc),
        },
        Form::Lookup => Operand::Lookup {
            default: 0,
            pairs: Pairs::new(alloc),
        },
        Form::ArrayCode => Operand::ArrayCode(10),
        Form::Dimensions => Operand::Dimensions {
            pool: 9,
            dimensions: 1,
        },
        Form::Interface => Operand::Interface { pool: 9, count: 1 },
        Form::Plain => Operand::Nothing,
    };
    Some(operand)
}

/// What the instruction of an opcode does.
fn action(alloc: Global, code: u8) -> Option<Action> {
    let operand = operand_of(alloc, code)?;
    let insn = Insn {
        opcode: code,
        wide: false,
        operand,
    };
    action_of(&insn)
}

/// The runs of opcodes, from one to another, of which there is something to do.
fn tell_profile(alloc: Global, told: &mut String) -> Result<(), AllocError> {
    let mut is_in_run = false;
    for code in 0..=255 {
        let has = action(alloc, code).is_some();
        if has && !is_in_run {
            write!(told, "\n{code:02X}")?;
        }
        if !has && is_in_run {
            write!(told, " to {code:02X}")?;
        }
        is_in_run = has;
    }
    Ok(())
}
