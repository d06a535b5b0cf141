// Switches.
ghost use Rattle.std.specs.Prelude.{◌≡◌, is_some, option_copied, true, Some};
ghost use Rattle.std.specs.List.{find};
ghost use Rattle.std.specs.Ordering.{int_eq};
ghost use Rattle.cb_insn.specs.declared.insn.Operand.TheVariants as operands;
ghost use Rattle.cb_machine.specs.Branching.{target_for};
ghost use Rattle.cb_act.specs.Going.{behind_switch};

use crate::operands::{int_at, take_one};
use cb_frames::Roots;
use cb_insn::{Operand, Pair};

/// Takes the key from the stack of the topmost frame, and says where the switch goes: `tableswitch`, `lookupswitch` (JVMS §6.5). Takes
/// constant time for a table, and time in its pairs for the other.
pub fn switch(roots: &mut Roots, operand: &Operand) -> u32
    requires { is_some (behind_switch operand.now roots.old.roots) ≡ true }
    ensures behind { behind_switch operand.now roots.old.roots ≡ Some (result, roots.new.roots) }
    ensures limit { roots.new.limit ≡ roots.old.limit }
{
    let key = int_at(roots, 0);
    take_one(roots);
    match target(operand, key) {
        Some(target) => target,
        None => 0,
    }
}

/// The target for a key, if the operand is that of a switch.
fn target(operand: &Operand, key: i32) -> Option<u32>
    ensures { result ≡ target_for operand.now key }
{
    match operand {
        Operand::Table {
            default,
            low,
            targets,
        } => Some(in_table(*default, *low, targets.as_slice(), key)),
        Operand::Lookup { default, pairs } => Some(in_pairs(*default, pairs.as_slice(), key)),
        _ => None,
    }
}

/// The target of a table for a key: the one at its distance from the lowest key, or the default one.
fn in_table(default: u32, low: i32, targets: &[u32], key: i32) -> u32
    ensures { target_for (operands.Table default low targets.now) key ≡ Some result }
{
    let distance = i64::from(key) - i64::from(low);
    let Ok(turn) = usize::try_from(distance) else {
        return default;
    };
    match targets.get(turn) {
        Some(target) => *target,
        None => default,
    }
}

/// The target of the first pair with a key, or the default one.
fn in_pairs(default: u32, pairs: &[Pair], key: i32) -> u32
    ensures { target_for (operands.Lookup default pairs.now) key ≡ Some result }
{
    match pair_of(pairs, key) {
        Some(pair) => pair.target,
        None => default,
    }
}

/// The first pair with a key.
fn pair_of(pairs: &[Pair], key: i32) -> Option<&Pair>
    ensures { option_copied result ≡ find (λ pair. int_eq pair.key key) pairs.now }
{
    pairs.iter().find(|pair| pair.key == key)
}
