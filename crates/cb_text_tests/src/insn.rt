// Instructions as the JVMS and `javap` read them.
ghost use Rattle.cb_insn.specs.Places.{Rise, places};

use crate::code::push_code;
use crate::text::push_digits;
use cb_insn::{
    Code, Insn, InsnFault, List, Operand, code_size, decode, encode, encode_into, fits, is_place,
    opcode,
};
use cb_rows::{Trouble, bytes_of};
use std::alloc::{AllocError, Global};
use std::fs;

pub(crate) fn tell(
    rt: &HostRuntime,
    told: &mut String,
    table: &str,
    row: &str,
) -> Result<(), Trouble> {
    let alloc = rt.alloc();
    match table {
        "forms" => tell_insn(alloc, told, row),
        "far branches" => tell_far(alloc, told),
        "faults" => tell_fault(alloc, told, row),
        "words" => Ok(write!(told, "{}", InsnFault::Cut { pc: 12 })?),
        "written" => tell_written(alloc, told, row),
        "late return" => Ok(tell_late(alloc, told)?),
        "places" => tell_places(alloc, told, row),
        "method" => {
            let bytes = fs::read(rt, row).map_err(|_| Trouble::NotUnderstood)?;
            tell_method(alloc, told, bytes.as_slice())
        }
        _ => Err(Trouble::NotUnderstood),
    }
}

/// Which operand it is, and its numbers. Those of a switch are the default, and the low bound or how many pairs it has.
pub(crate) fn numbers(operand: &Operand) -> (u8, i64, i64) {
    match operand {
        Operand::Nothing => (0, 0, 0),
        Operand::Number(number) => (1, i64::from(*number), 0),
        Operand::Pool(index) => (2, i64::from(*index), 0),
        Operand::Local(local) => (3, i64::from(*local), 0),
        Operand::Increase { local, by } => (4, i64::from(*local), i64::from(*by)),
        Operand::Branch(target) => (5, i64::from(*target), 0),
        Operand::ArrayCode(code) => (6, i64::from(*code), 0),
        Operand::Dimensions { pool, dimensions } => (7, i64::from(*pool), i64::from(*dimensions)),
        Operand::Interface { pool, count } => (8, i64::from(*pool), i64::from(*count)),
        Operand::Table { default, low, .. } => (9, i64::from(*default), i64::from(*low)),
        Operand::Lookup { default, pairs } => (
            10,
            i64::from(*default),
            i64::try_from(pairs.len()).unwrap_or(-1),
        ),
    }
}

/// The code that the bytes spell, which are fewer than the condition of `decode` asks.
fn decoded(alloc: Global, bytes: &[u8]) -> Result<Code, InsnFault> {
    if bytes.len() >= 0x1_0000_0000 {
        return Err(InsnFault::OutOfMemory);
    }
    decode(alloc, bytes)
}

/// The code of bytes that spell one.
fn read(alloc: Global, bytes: &[u8]) -> Result<Code, Trouble> {
    decoded(alloc, bytes).map_err(|_| Trouble::Refused)
}

/// The bytes that spell the code. Both writers and the size tell the same.
fn encoded(alloc: Global, code: &Code) -> Result<Vec<u8>, Trouble> {
    if !fits(code) {
        return Err(Trouble::Refused);
    }
    let mut behind = Vec::new(alloc);
    encode_into(&mut behind, code)?;
    let bytes = encode(alloc, code)?;
    let size = code_size(code).unwrap_or(0) as usize;
    if behind.as_slice() != bytes.as_slice() || size != bytes.len() {
        return Err(Trouble::Refused);
    }
    Ok(bytes)
}

/// The bytes that hexadecimal digits tell behind a colon. What stands before it says what they are.
fn spelled(alloc: Global, row: &str) -> Result<Vec<u8>, Trouble> {
    bytes_of(alloc, row.split_once(':').ok_or(Trouble::NotUnderstood)?.1)
}

/// The first instruction that bytes spell: its opcode, whether it is wide, and its operand. The code is written as it was.
fn tell_insn(alloc: Global, told: &mut String, row: &str) -> Result<(), Trouble> {
    let bytes = spelled(alloc, row)?;
    let code = read(alloc, bytes.as_slice())?;
    if encoded(alloc, &code)?.as_slice() != bytes.as_slice() {
        told.push_str("written otherwise: ")?;
    }
    let Some((0, insn)) = code.as_slice().first() else {
        return Err(Trouble::Refused);
    };
    let numbers = numbers(&insn.operand);
    Ok(write!(told, "{:02X} {} {numbers:?}", insn.opcode, insn.wide)?)
}

/// A branch 32,767 bytes ahead and one as far back, with what is between them.
fn far(alloc: Global) -> Result<Vec<u8>, AllocError> {
    let mut bytes = Vec::new(alloc);
    bytes.extend_from_slice(b"\xA7\x7F\xFF")?;
    bytes.resize(32768, 0)?;
    bytes.extend_from_slice(b"\xA7\x80\x00")?;
    Ok(bytes)
}

/// The first and the last of these instructions, and whether they are written as they were.
fn tell_far(alloc: Global, told: &mut String) -> Result<(), Trouble> {
    let bytes = far(alloc)?;
    let code = read(alloc, bytes.as_slice())?;
    for placed in [code.as_slice().first(), code.as_slice().last()] {
        if let Some((pc, insn)) = placed {
            write!(told, "{pc} {:?}, ", numbers(&insn.operand))?;
        }
    }
    let again = encoded(alloc, &code)?;
    Ok(write!(told, "{}", again.as_slice() == bytes.as_slice())?)
}

/// The first fault of bytes.
fn tell_fault(alloc: Global, told: &mut String, row: &str) -> Result<(), Trouble> {
    let bytes = spelled(alloc, row)?;
    match decoded(alloc, bytes.as_slice()) {
        Err(fault) => Ok(write!(told, "{fault:?}")?),
        Ok(_) => Ok(told.push_str("none")?),
    }
}

/// How many instructions bytes spell, and the bytes that these are written as.
fn tell_written(alloc: Global, told: &mut String, row: &str) -> Result<(), Trouble> {
    let bytes = spelled(alloc, row)?;
    let code = read(alloc, bytes.as_slice())?;
    write!(told, "{}", code.len())?;
    let again = encoded(alloc, &code)?;
    Ok(push_digits(told, again.as_slice())?)
}

/// A `return` at the place 1.
fn late_return(alloc: Global) -> Result<Code, AllocError> {
    let mut late = List::new(alloc);
    let insn = Insn {
        opcode: opcode::RETURN,
        wide: false,
        operand: Operand::Nothing,
    };
    late.push((1, insn))?;
    Ok(late)
}

/// Whether code without instructions is empty, and code of a `return` at the place 1: how many instructions it has, what and where they are, and
/// whether bytes spell it.
fn tell_late(alloc: Global, told: &mut String) -> Result<(), AllocError> {
    write!(told, "{}", Code::new(alloc).is_empty())?;
    let late = late_return(alloc)?;
    write!(told, ", {}", late.len())?;
    for (pc, insn) in &late {
        write!(told, ": {:02X} at {pc}", insn.opcode)?;
    }
    if late.len() > 0 {
        write!(told, ", the first at {}", late.get(0).0)?;
    }
    write!(told, ", {}", fits(&late))
}

/// Adds the places up to an end at which an instruction stands.
fn push_places(told: &mut String, code: &Code, end: usize) -> Result<(), Trouble>
    requires { Rise (places code.now) }
{
    for pc in 0..=end {
        let Ok(pc) = u32::try_from(pc) else {
            return Err(Trouble::NotUnderstood);
        };
        if is_place(code, pc) {
            write!(told, "{pc} ")?;
        }
    }
    Ok(())
}

/// The places of code at which an instruction stands.
fn tell_places(alloc: Global, told: &mut String, row: &str) -> Result<(), Trouble> {
    let bytes = spelled(alloc, row)?;
    if bytes.len() >= 0x1_0000_0000 {
        return Err(Trouble::NotUnderstood);
    }
    match decode(alloc, bytes.as_slice()) {
        Ok(code) => push_places(told, &code, bytes.len()),
        Err(_) => Err(Trouble::Refused),
    }
}

/// The code of a method, line by line. It is written as it was.
fn tell_method(alloc: Global, told: &mut String, bytes: &[u8]) -> Result<(), Trouble> {
    let code = read(alloc, bytes)?;
    if encoded(alloc, &code)?.as_slice() != bytes {
        told.push_str("written otherwise\n")?;
    }
    Ok(push_code(told, &code)?)
}
