// Labels that are named and stand nowhere yet.
ghost use Rattle.std.specs.Prelude.{◌≡◌, ◌↔◌, [], ◌∷◌, ◌++◌, List as Items, IfOk, IsTrue, OnOk, map};
ghost use Rattle.std.specs.BTreeSet.{contains_by};
ghost use Rattle.std.specs.Cmp.Lexicographic.{slice_cmp};
ghost use Rattle.std.specs.Ordering.{nat_cmp};
ghost use Rattle.cb_asm_line.specs.Label.{Label as AnyLabel};
ghost use Rattle.cb_asm_line.specs.declared.program.CodeLine.{CodeLine as AnyLine};
ghost use Rattle.cb_asm_prefix.specs.Closing.{AreOpen, last_code as last_code_of, named_labels as named_labels_of};
ghost use Rattle.cb_asm_record.specs.Grammar.{HasLabel, labels_of};

use cb_asm_line::{CodeLine, Label, Operand, Program};
use cb_plain::OutOfMemory;
use std::alloc::Global;
use std::collections::BTreeSet;

/// The labels that the code of the last method names and that don't stand in it, each once. Takes time in the number of
/// lines and labels, times its logarithm.
pub(crate) fn open_labels<'a>(
    alloc: Global,
    program: &'a Program,
) -> Result<Vec<&'a [u8]>, OutOfMemory>
    ensures { IfOk result (λ labels. AreOpen (last_code_of program.now.methods) (map (λ label. label.now) labels.items)) }
{
    let lines = last_code(program);
    let named = named_labels(alloc, lines)?;
    let standing = standing_labels(alloc, lines)?;
    labels_beyond(alloc, named.as_slice(), standing)
}

/// The lines of the code of the last method, or none.
fn last_code(program: &Program) -> &[CodeLine]
    ensures { result.now ≡ last_code_of program.now.methods }
{
    let Some(method) = program.methods.as_slice().last() else {
        return &[];
    };
    match &method.code {
        Some(code) => code.lines.as_slice(),
        None => &[],
    }
}

/// The labels that stand among lines.
fn standing_labels<'a>(
    alloc: Global,
    lines: &'a [CodeLine],
) -> Result<BTreeSet<&'a [u8]>, OutOfMemory>
    ensures { IfOk result (λ standing. (label : AnyLabel)
        → IsTrue (contains_by (λ key. slice_cmp nat_cmp label key.now) standing) ↔ HasLabel lines.now label) }
{
    let mut standing = BTreeSet::new(alloc);
    for line in lines {
        if let CodeLine::Here(label) = line {
            standing.insert(label.as_slice())?;
        }
    }
    Ok(standing)
}

/// The labels that instructions among lines name.
fn named_labels<'a>(alloc: Global, lines: &'a [CodeLine]) -> Result<Vec<&'a [u8]>, OutOfMemory>
    ensures { IfOk result (λ named. map (λ label. label.now) named.items ≡ named_labels_of lines.now) }
{
    let mut named = Vec::new(alloc);
    for line in lines {
        if let CodeLine::Do(instruction) = line {
            push_named(&mut named, &instruction.operand)?;
        }
    }
    Ok(named)
}

/// Adds the labels that an operand names.
fn push_named<'a>(named: &mut Vec<&'a [u8]>, operand: &'a Operand) -> Result<(), OutOfMemory>
    ensures { OnOk result (map (λ label. label.now) named.new.items ≡ map (λ label. label.now) named.old.items ++ labels_of operand.now) }
{
    match operand {
        Operand::Branch(label) => push_label(named, label),
        Operand::Table(_, default, labels) => {
            push_label(named, default)?;
            push_labels(named, labels.as_slice())
        }
        Operand::Lookup(default, pairs) => {
            push_label(named, default)?;
            push_targets(named, pairs.as_slice())
        }
        _ => Ok(()),
    }
}

/// Adds a label.
fn push_label<'a>(named: &mut Vec<&'a [u8]>, label: &'a Label) -> Result<(), OutOfMemory>
    ensures { OnOk result (map (λ label. label.now) named.new.items ≡ map (λ label. label.now) named.old.items ++ label.now ∷ []) }
{
    named.push(label.as_slice())?;
    Ok(())
}

/// Adds labels.
fn push_labels<'a>(named: &mut Vec<&'a [u8]>, labels: &'a [Label]) -> Result<(), OutOfMemory>
    ensures { OnOk result (map (λ label. label.now) named.new.items ≡ map (λ label. label.now) named.old.items ++ labels.now) }
{
    for label in labels {
        push_label(named, label)?;
    }
    Ok(())
}

/// Adds the labels of keys.
fn push_targets<'a>(named: &mut Vec<&'a [u8]>, pairs: &'a [(i32, Label)]) -> Result<(), OutOfMemory>
    ensures { OnOk result (map (λ label. label.now) named.new.items
        ≡ map (λ label. label.now) named.old.items ++ map (λ pair. pair.1) pairs.now) }
{
    for pair in pairs {
        push_label(named, &pair.1)?;
    }
    Ok(())
}

/// Those of the labels that instructions name that don't stand among the lines, each once.
fn labels_beyond<'a>(
    alloc: Global,
    named: &[&'a [u8]],
    mut standing: BTreeSet<&'a [u8]>,
) -> Result<Vec<&'a [u8]>, OutOfMemory>
    ensures { (lines : Items AnyLine) → map (λ label. label.now) named.now ≡ named_labels_of lines
        → ((label : AnyLabel) → IsTrue (contains_by (λ key. slice_cmp nat_cmp label key.now) standing.entry) ↔ HasLabel lines label)
        → IfOk result (λ labels. AreOpen lines (map (λ label. label.now) labels.items)) }
{
    let mut labels = Vec::new(alloc);
    for label in named {
        if standing.insert(*label)? {
            labels.push(*label)?;
        }
    }
    Ok(labels)
}
