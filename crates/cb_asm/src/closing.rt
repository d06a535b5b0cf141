// Whether some lines begin a program.
ghost use Rattle.std.specs.Prelude.{◌≡◌, ◌↔◌, ◌++◌, IfOk, IsFalse, IsTrue, OnOk, map};
ghost use Rattle.cb_asm.specs.Inner.{Begins, ClosesNot, ClosesWith, OpensNot, label_lines_text, label_text};

use crate::assembled::is_program;
use crate::open_labels::open_labels;
use crate::reading::read_program;
use cb_plain::OutOfMemory;
use std::alloc::Global;

/// Whether a text begins that of a program, where it is whole lines. It does exactly where one of few closings of it is
/// the text of a program.
pub(crate) fn can_stand(alloc: Global, front: &[u8]) -> Result<bool, OutOfMemory>
    ensures stands { IfOk result (λ stands. IsTrue stands → Begins front.now) }
    ensures falls { IfOk result (λ stands. IsFalse stands → ClosesNot front.now) }
{
    if closes(alloc, front, b"")? {
        return Ok(true);
    }
    if closes(alloc, front, b"end\n")? {
        return Ok(true);
    }
    if closes(alloc, front, b"limits 0 0\nnop\nend\n")? {
        return Ok(true);
    }
    closes_open(alloc, front)
}

/// Whether a text and what closes it are the text of a program.
fn closes(alloc: Global, front: &[u8], closing: &[u8]) -> Result<bool, OutOfMemory>
    ensures { IfOk result (λ is. IsTrue is ↔ ClosesWith front.now closing.now) }
{
    let text = joined(alloc, front, closing)?;
    is_program(alloc, text.as_slice())
}

/// One text behind the other.
fn joined(alloc: Global, front: &[u8], behind: &[u8]) -> Result<Vec<u8>, OutOfMemory>
    ensures { IfOk result (λ text. text.items ≡ front.now ++ behind.now) }
{
    let mut text = Vec::new(alloc);
    text.extend_from_slice(front)?;
    text.extend_from_slice(behind)?;
    Ok(text)
}

/// Whether a text closes that ends within code: with the labels that stand nowhere yet, an instruction and the end.
fn closes_open(alloc: Global, front: &[u8]) -> Result<bool, OutOfMemory>
    ensures stands { IfOk result (λ stands. IsTrue stands → Begins front.now) }
    ensures falls { IfOk result (λ stands. IsFalse stands → OpensNot front.now) }
{
    let text = joined(alloc, front, b"nop\nend\n")?;
    let Some(program) = read_program(alloc, text.as_slice())? else {
        return Ok(false);
    };
    let labels = open_labels(alloc, &program)?;
    let closing = label_lines(alloc, labels.as_slice())?;
    closes(alloc, front, closing.as_slice())
}

/// The lines of labels, an instruction and the end of a method.
fn label_lines(alloc: Global, labels: &[&[u8]]) -> Result<Vec<u8>, OutOfMemory>
    ensures { IfOk result (λ text. text.items ≡ label_lines_text (map (λ label. label.now) labels.now)) }
{
    let mut text = Vec::new(alloc);
    for label in labels {
        push_label(&mut text, label)?;
    }
    text.extend_from_slice(b"nop\nend\n")?;
    Ok(text)
}

/// Adds the line of a label.
fn push_label(text: &mut Vec<u8>, label: &[u8]) -> Result<(), OutOfMemory>
    ensures { OnOk result (text.new.items ≡ text.old.items ++ label_text label.now) }
{
    text.push(b'L')?;
    text.extend_from_slice(label)?;
    text.extend_from_slice(b":\n")
}
