// The operands of switches, read.
ghost use Rattle.std.specs.Prelude.{ℕ, ℤ, List as Items, map, IfOk, MatchOption};
ghost use Rattle.cb_asm_line.specs.SaidCode.{AreLabels, ArePairs, Has, SaysLookup, SaysPair, SaysTable};
ghost use Rattle.cb_asm_line.specs.declared.operand.Operand.{Operand as AnyOperand};
ghost use Rattle.cb_asm_line.specs.declared.operand.Operand.TheVariants as operands;

use crate::arity::front;
use crate::label::label_of;
use crate::number::int;
use crate::{Label, Operand};
use cb_plain::List;
use std::alloc::{AllocError as OutOfMemory, Global};

/// What stands behind `tableswitch`.
pub(crate) fn table_operand(alloc: Global, words: &[&[u8]]) -> Result<Option<Operand>, OutOfMemory>
    ensures { IfOk result (λ found. MatchOption found ((operand : AnyOperand) → Has (λ table. operands.Table table.0 table.1 table.2) SaysTable (map (λ word. word.now) words.now) operand → ⊥)
        (λ operand. Has (λ table. operands.Table table.0 table.1 table.2) SaysTable (map (λ word. word.now) words.now) operand)) }
{
    match table_of(alloc, words)? {
        Some((low, default, labels)) => Ok(Some(Operand::Table(low, default, labels))),
        None => Ok(None),
    }
}

/// The lowest number, the default label and the labels of a `tableswitch`.
fn table_of(
    alloc: Global,
    words: &[&[u8]],
) -> Result<Option<(i32, Label, List<Label>)>, OutOfMemory>
    ensures { IfOk result (λ found. MatchOption found ((table : ℤ × Items ℕ × Items (Items ℕ)) → SaysTable (map (λ word. word.now) words.now) table → ⊥)
        (λ table. SaysTable (map (λ word. word.now) words.now) table)) }
{
    let Some((low, rest)) = front(words) else {
        return Ok(None);
    };
    let Some((default, rest)) = front(rest) else {
        return Ok(None);
    };
    let Some(low) = int(low) else {
        return Ok(None);
    };
    let Some(default) = label_of(alloc, default)? else {
        return Ok(None);
    };
    match labels_of(alloc, rest)? {
        Some(labels) => Ok(Some((low, default, labels))),
        None => Ok(None),
    }
}

/// Labels, one a word.
fn labels_of(alloc: Global, words: &[&[u8]]) -> Result<Option<List<Label>>, OutOfMemory>
    ensures { IfOk result (λ found. MatchOption found ((labels : Items (Items ℕ)) → AreLabels (map (λ word. word.now) words.now) labels → ⊥)
        (λ labels. AreLabels (map (λ word. word.now) words.now) labels)) }
{
    let mut labels = List::new(alloc);
    for word in words {
        let Some(label) = label_of(alloc, word)? else {
            return Ok(None);
        };
        labels.push(label)?;
    }
    Ok(Some(labels))
}

/// What stands behind `lookupswitch`.
pub(crate) fn lookup_operand(alloc: Global, words: &[&[u8]]) -> Result<Option<Operand>, OutOfMemory>
    ensures { IfOk result (λ found. MatchOption found ((operand : AnyOperand) → Has (λ lookup. operands.Lookup lookup.0 lookup.1) SaysLookup (map (λ word. word.now) words.now) operand → ⊥)
        (λ operand. Has (λ lookup. operands.Lookup lookup.0 lookup.1) SaysLookup (map (λ word. word.now) words.now) operand)) }
{
    match lookup_of(alloc, words)? {
        Some((default, pairs)) => Ok(Some(Operand::Lookup(default, pairs))),
        None => Ok(None),
    }
}

/// The default label of a `lookupswitch`, and its keys, each with its label.
fn lookup_of(
    alloc: Global,
    words: &[&[u8]],
) -> Result<Option<(Label, List<(i32, Label)>)>, OutOfMemory>
    ensures { IfOk result (λ found. MatchOption found ((lookup : Items ℕ × Items (ℤ × Items ℕ)) → SaysLookup (map (λ word. word.now) words.now) lookup → ⊥)
        (λ lookup. SaysLookup (map (λ word. word.now) words.now) lookup)) }
{
    let Some((default, rest)) = front(words) else {
        return Ok(None);
    };
    let Some(default) = label_of(alloc, default)? else {
        return Ok(None);
    };
    match pairs_of(alloc, rest)? {
        Some(pairs) => Ok(Some((default, pairs))),
        None => Ok(None),
    }
}

/// Keys, each with its label.
fn pairs_of(alloc: Global, words: &[&[u8]]) -> Result<Option<List<(i32, Label)>>, OutOfMemory>
    ensures { IfOk result (λ found. MatchOption found ((pairs : Items (ℤ × Items ℕ)) → ArePairs (map (λ word. word.now) words.now) pairs → ⊥)
        (λ pairs. ArePairs (map (λ word. word.now) words.now) pairs)) }
{
    if words.len() % 2 == 1 {
        return Ok(None);
    }
    let mut pairs = List::new(alloc);
    for place in 0..words.len() / 2 {
        let Some(pair) = pair_of(alloc, words[2 * place], words[2 * place + 1])? else {
            return Ok(None);
        };
        pairs.push(pair)?;
    }
    Ok(Some(pairs))
}

/// The key and the label that two words are.
fn pair_of(alloc: Global, key: &[u8], label: &[u8]) -> Result<Option<(i32, Label)>, OutOfMemory>
    ensures { IfOk result (λ found. MatchOption found ((pair : ℤ × Items ℕ) → SaysPair key.now label.now pair → ⊥) (λ pair. SaysPair key.now label.now pair)) }
{
    let Some(key) = int(key) else {
        return Ok(None);
    };
    match label_of(alloc, label)? {
        Some(label) => Ok(Some((key, label))),
        None => Ok(None),
    }
}
