// Whether code fits some bytes.
ghost use Rattle.std.specs.Prelude.{◌≡◌, ◌<◌, ◌^◌, ◌↔◌, ℕ, List, length, IfSome, IsNone, IsTrue};
ghost use Rattle.std.specs.List.{AllByRecursion};
ghost use Rattle.cb_insn.specs.Grammar.{SpellsCode, SpellsFrom, targets_of};
ghost use Rattle.cb_insn.specs.Places.{HasPlace, Rise, places};
ghost use Rattle.cb_insn.specs.Writing.{code_bytes};

use crate::size::insn_size;
use crate::{Code, Insn, Operand, Pair};

/// Whether there are bytes, fewer than 2^32, that spell the code (JVMS §4.7.3, §4.9.1, chapter 6). Takes time in the
/// size of the code, times the logarithm of the number of its instructions for each target.
pub fn fits(code: &Code) -> bool
    ensures { IsTrue result ↔ ((bytes : List ℕ) × SpellsCode code.now bytes) }
{
    code_size(code).is_some()
}

/// How many bytes spell the code, or `None` where none do, or no fewer than 2^32. Takes the time of `fits`, and no
/// memory.
pub fn code_size(code: &Code) -> Option<u32>
    ensures fits { IfSome result (λ size. SpellsCode code.now (code_bytes code.now)
        × (size ≡ length (code_bytes code.now))) }
    ensures none { IsNone result → (bytes : List ℕ) → ¬ SpellsCode code.now bytes }
{
    let placed = code.as_slice();
    let size = size_in_place(placed)?;
    if are_reached(placed) {
        Some(size)
    } else {
        None
    }
}

/// How many bytes the instructions take, where they stand one after the other from the place 0 on. Takes time in their
/// size.
fn size_in_place(code: &[(u32, Insn)]) -> Option<u32>
    ensures fits { IfSome result (λ size. (bytes : List ℕ) × SpellsFrom 0 code.now bytes × (length bytes < 2 ^ 32)
        × (size ≡ length bytes)) }
    ensures none { IsNone result → (bytes : List ℕ) → SpellsFrom 0 code.now bytes → ¬ (length bytes < 2 ^ 32) }
{
    let mut pc = 0;
    let mut rest = code;
    while let Some(((at, insn), behind)) = rest.split_first() {
        if *at as usize != pc {
            return None;
        }
        pc += insn_size(*at, insn)?;
        rest = behind;
    }
    if pc >= 0x1_0000_0000 {
        return None;
    }
    Some(pc as u32)
}

/// Whether each target is the place of an instruction.
fn are_reached(code: &[(u32, Insn)]) -> bool
    requires { Rise (places code.now) }
    ensures { IsTrue result
        ↔ AllByRecursion (λ placed. AllByRecursion (HasPlace code.now) (targets_of placed.1.operand)) code.now }
{
    code.iter()
        .all(|placed| is_reached(code, &placed.1.operand))
}

/// Whether each target of an operand is the place of an instruction.
fn is_reached(code: &[(u32, Insn)], operand: &Operand) -> bool
    requires { Rise (places code.now) }
    ensures { IsTrue result ↔ AllByRecursion (HasPlace code.now) (targets_of operand.now) }
{
    match operand {
        Operand::Branch(target) => has_place(code, *target),
        Operand::Table {
            default,
            targets,
            ..
        } => has_place(code, *default) && have_places(code, targets.as_slice()),
        Operand::Lookup { default, pairs } => {
            has_place(code, *default) && lead_to_places(code, pairs.as_slice())
        }
        _ => true,
    }
}

/// Whether each of some targets is the place of an instruction.
fn have_places(code: &[(u32, Insn)], targets: &[u32]) -> bool
    requires { Rise (places code.now) }
    ensures { IsTrue result ↔ AllByRecursion (HasPlace code.now) targets.now }
{
    targets.iter().all(|target| has_place(code, *target))
}

/// Whether the target of each pair is the place of an instruction.
fn lead_to_places(code: &[(u32, Insn)], pairs: &[Pair]) -> bool
    requires { Rise (places code.now) }
    ensures { IsTrue result ↔ AllByRecursion (λ pair. HasPlace code.now pair.target) pairs.now }
{
    pairs.iter().all(|pair| has_place(code, pair.target))
}

/// Whether an instruction has this place. Takes time in the logarithm of their number.
#[tactic(auto, unfolding(crate::specs::Places::HasPlace))]
pub(crate) fn has_place(code: &[(u32, Insn)], pc: u32) -> bool
    requires { Rise (places code.now) }
    ensures { IsTrue result ↔ HasPlace code.now pc }
{
    let mut rest = code;
    while rest.len() > 1 {
        let (low, high) = rest.split_at(rest.len() / 2);
        rest = if pc < high[0].0 { low } else { high };
    }
    !rest.is_empty() && rest[0].0 == pc
}
