// Whether the many members of a class differ in name or descriptor, by numbers of the pool's texts (JVMS §4.5, §4.6).
ghost use Rattle.std.specs.Prelude.{◌≡◌, ◌≢◌, ◌↔◌, ℕ, List, map, IfOk, IsTrue, slice_index, unwrap_or, Some, if◌then◌else◌};
ghost use Rattle.std.specs.BTreeMap.{get_by};
ghost use Rattle.std.specs.Cmp.Lexicographic.{slice_cmp};
ghost use Rattle.std.specs.List.{AllPairs};
ghost use Rattle.std.specs.Ordering.{nat_cmp};
ghost use Rattle.std.specs.Str.{bytes_eq};
ghost use Rattle.cb_text.specs.declared.constant.Constant.{Constant as AnyConstant};
ghost use Rattle.cb_classfile.specs.Class.{Differ};
ghost use Rattle.cb_classfile.specs.Pool.{text_at};
ghost use Rattle.cb_classfile.specs.Texts.{TellTexts};

use crate::constants::Constants;
use crate::differ::Named;
use std::alloc::{AllocError, Global};
use std::collections::{BTreeMap, BTreeSet};

/// Whether no two of the members have the same texts for name and descriptor, by numbers that tell the texts of the pool
/// apart. Takes time in the number of members, times its logarithm.
pub(crate) fn do_differ_by<M: Named>(
    alloc: Global,
    numbers: &[u16],
    members: &[M],
) -> Result<bool, AllocError>
    ensures { (pool : List AnyConstant) → TellTexts pool numbers.now
        → IfOk result (λ differ. IsTrue differ ↔ Differ pool (map M.indices members.now)) }
{
    let pairs = pairs_of(alloc, numbers, members)?;
    are_distinct(alloc, &pairs)
}

/// The numbers of the name and of the descriptor of each member.
fn pairs_of<M: Named>(
    alloc: Global,
    numbers: &[u16],
    members: &[M],
) -> Result<Vec<(u16, u16)>, AllocError>
    ensures { IfOk result (λ pairs. pairs.items
        ≡ map (λ member. (slice_index numbers.now member.0, slice_index numbers.now member.1)) (map M.indices members.now)) }
{
    let mut pairs = Vec::with_capacity(alloc, members.len())?;
    for member in members {
        let (name, descriptor) = member.indices();
        pairs.push((number_at(numbers, name), number_at(numbers, descriptor)))?;
    }
    Ok(pairs)
}

/// Whether no two of the pairs are equal.
fn are_distinct(alloc: Global, pairs: &[(u16, u16)]) -> Result<bool, AllocError>
    ensures { IfOk result (λ distinct. IsTrue distinct ↔ AllPairs (λ one other. one ≢ other) pairs.now) }
{
    let mut seen = BTreeSet::new(alloc);
    for pair in pairs {
        if !seen.insert(*pair)? {
            return Ok(false);
        }
    }
    Ok(true)
}

/// A number for each index, which is the same for two where they name equal texts or both name none.
/// Takes time in the length of the texts, times the logarithm of their number.
pub(crate) fn numbers_of_texts(
    alloc: Global,
    constants: &Constants<'_>,
) -> Result<Vec<u16>, AllocError>
    ensures { IfOk result (λ numbers. TellTexts constants.now numbers.items) }
{
    let mut first = BTreeMap::new(alloc);
    let mut numbers = Vec::new(alloc);
    for index in 0..constants.len() {
        let number = match constants.text(index) {
            Some(text) => first_index(&mut first, text, index)?,
            None => 0,
        };
        numbers.push(number)?;
    }
    Ok(numbers)
}

/// The index that the map has for a text. Where it has none, it gets this one.
fn first_index<'a>(
    first: &mut BTreeMap<&'a [u16], u16>,
    text: &'a [u16],
    index: u16,
) -> Result<u16, AllocError>
    ensures number { IfOk result (λ number. number ≡ unwrap_or (get_by (λ key. slice_cmp nat_cmp text.now key.now) first.old) index) }
    ensures others { IfOk result (λ number. (other : List ℕ) → get_by (λ key. slice_cmp nat_cmp other key.now) first.new
        ≡ (if bytes_eq text.now other then Some number else get_by (λ key. slice_cmp nat_cmp other key.now) first.old)) }
{
    if let Some(number) = first.get(&text) {
        return Ok(*number);
    }
    first.insert(text, index)?;
    Ok(index)
}

/// The number of an index.
fn number_at(numbers: &[u16], index: u16) -> u16
    ensures { result ≡ slice_index numbers.now index }
{
    numbers.get(usize::from(index)).copied().unwrap_or(0)
}
