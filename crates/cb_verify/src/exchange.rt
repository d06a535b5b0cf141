// What instructions that name no member leave.
ghost use Rattle.std.specs.Prelude.{◌≡◌, ◌≤◌, [], ◌++◌, drop, length, replicate, IfOk, IsTrue, Some, None};
ghost use Rattle.cb_hierarchy.specs.Classes.{listed};
ghost use Rattle.cb_shapes.specs.declared.sort.Sort.TheVariants as sorts;
ghost use Rattle.cb_shapes.specs.Operands.{takes};
ghost use Rattle.cb_verify.specs.Frames.{with_stack};
ghost use Rattle.cb_verify.specs.InnerGroups.{is_exchange};
ghost use Rattle.cb_verify.specs.Leaving.{exchange};
ghost use Rattle.cb_verify.specs.Rules.{given};

use crate::TypeFrame;
use crate::operands::has_sorts;
use crate::rules::{Given, given};
use crate::within::Within;
use cb_plain::OutOfMemory;
use cb_shapes::{Action, Sort};
use std::alloc::Global;

/// The counts of an array of the most dimensions (JVMS §4.4.1).
static COUNTS: [Sort; 255] = [Sort::Int; 255];

/// The sorts of so many counts.
fn counts(dimensions: u8) -> &'static [Sort]
    ensures { result.now ≡ replicate dimensions sorts.Int }
{
    &COUNTS[..usize::from(dimensions)]
}

/// The sorts of what an instruction takes that names no member, the topmost first.
fn sorts_of(action: Action) -> &'static [Sort]
    requires { IsTrue (is_exchange action) }
    ensures { result.now ≡ takes [] action }
{
    match action {
        Action::Compute(computation) => computation.takes(),
        Action::Branch(condition) => condition.takes(),
        Action::Switch | Action::NewNumbers(_) | Action::NewReferences(_) => &[Sort::Int],
        Action::NewArrays { dimensions, .. } => counts(dimensions),
        Action::LoadNumber(_) | Action::LoadReference => &[Sort::Int, Sort::Reference],
        Action::StoreNumber(elements) if elements.sort() == Sort::Long => {
            &[Sort::Long, Sort::Int, Sort::Reference]
        }
        Action::StoreNumber(_) => &[Sort::Int, Sort::Int, Sort::Reference],
        Action::StoreReference => &[Sort::Reference, Sort::Int, Sort::Reference],
        Action::Length | Action::Cast(_) | Action::IsInstance(_) | Action::Throw => &[
            Sort::Reference,
        ],
        _ => &[],
    }
}

/// The frame with so many values taken off and with what is given put on, if its stack may have so many words.
pub(crate) fn put(
    alloc: Global,
    most: u16,
    frame: &TypeFrame,
    count: usize,
    given: Given,
) -> Result<Option<TypeFrame>, OutOfMemory>
    requires { count ≤ length frame.now.stack }
    ensures { IfOk result (λ left. left ≡ with_stack most frame.now (listed given ++ drop count frame.now.stack)) }
{
    let rest = frame.below(count)?;
    match given {
        Some(value) => rest.push(alloc, most, value),
        None => Ok(rest.legal(most)),
    }
}

/// What an instruction leaves that names no member and only exchanges values on the stack (JVMS §4.10.1.9).
pub(crate) fn exchange(
    alloc: Global,
    method: &Within<'_>,
    pc: u32,
    action: Action,
    frame: &TypeFrame,
) -> Result<Option<TypeFrame>, OutOfMemory>
    requires { IsTrue (is_exchange action) }
    ensures { IfOk result (λ left. left ≡ exchange method.now pc action frame.now) }
{
    let sorts = sorts_of(action);
    if !has_sorts(frame, sorts) {
        return Ok(None);
    }
    match given(method, pc, action, frame) {
        Some(given) => put(alloc, method.body.max_stack, frame, sorts.len(), given),
        None => Ok(None),
    }
}
