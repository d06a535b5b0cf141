// The code of bodies.
ghost use Rattle.std.specs.Prelude.{◌≡◌, ◌≤◌, IfOk, length, map};
ghost use Rattle.std.specs.List.{AllByRecursion};
ghost use Rattle.cb_core.specs.Built.{places_from, size_of};
ghost use Rattle.cb_core.specs.Entered.{HasCode, HasRoom, Puts};
ghost use Rattle.cb_core.specs.Rowed.{insn_row};
ghost use Rattle.cb_core.specs.Sound.{IsSoundInsn, code_room};
ghost use Rattle.cb_core.specs.Recorded.{entered, with_code};

use crate::insn::insn_of;
use crate::row::Instruction;
use cb_classfile::{Code, Pool};
use cb_plain::{Numbers, OutOfMemory};
use std::alloc::Global;

/// How many bytes an opcode takes, and one with an index or an offset of two bytes.
const ALONE: u32 = 1;

const WITH_TWO_BYTES: u32 = 3;

/// How many bytes an instruction takes.
fn size_of(row: &Instruction) -> u32
    ensures { result ≡ size_of (insn_row row.now) }
{
    match row {
        Instruction::Plain(_) => ALONE,
        _ => WITH_TWO_BYTES,
    }
}

/// The places of instructions.
pub(crate) fn places_of(alloc: Global, rows: &[Instruction]) -> Result<Numbers, OutOfMemory>
    requires { length rows.now ≤ 1000 }
    ensures { IfOk result (λ places. places ≡ places_from 0 (map insn_row rows.now)) }
{
    let mut places = Numbers::with_capacity(alloc, rows.len())?;
    let mut place = 0;
    for row in rows {
        places.push(place)?;
        place += size_of(row);
    }
    Ok(places)
}

/// The instructions of rows, each at its place.
pub(crate) fn code_of(
    alloc: Global,
    pool: &mut Pool,
    places: &Numbers,
    rows: &[Instruction],
) -> Result<Code, OutOfMemory>
    requires room { HasRoom (code_room (map insn_row rows.now)) pool.old }
    requires placed { places.now ≡ places_from 0 (map insn_row rows.now) }
    requires sound { AllByRecursion (IsSoundInsn (length rows.now)) (map insn_row rows.now) }
    ensures put { IfOk result (Puts (code_room (map insn_row rows.now)) (HasCode (map insn_row rows.now)) pool.old pool.new) }
    ensures made { IfOk result (λ code. with_code places.now (map insn_row rows.now) pool.old ≡ entered pool.new code) }
{
    let mut code = Code::new(alloc);
    for (i, row) in rows.iter().enumerate() {
        let insn = insn_of(alloc, pool, places, row)?;
        code.push((*places.get(i), insn))?;
    }
    Ok(code)
}
