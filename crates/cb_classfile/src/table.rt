// Tables: the number of their entries, and the entries, one after the other (JVMS §4).
ghost use Rattle.std.specs.Prelude.{ℕ, List as Items};
ghost use Rattle.cb_text.specs.declared.constant.Constant.{Constant as AnyConstant};
ghost use Rattle.cb_classfile.specs.Reading.{Reads, ReadsWhole};
ghost use Rattle.cb_classfile.specs.Tables.{SpellsCount, SpellsTable};

use crate::constants::Constants;
use crate::fault::Fault;
use crate::numbers::u2_at;
use cb_plain::List;
use std::alloc::Global;

/// What stands in tables.
pub(crate) trait Entry: Sized {
    /// The bytes that spell an entry, where the pool has these constants.
    ghost spells: { Items AnyConstant → Items ℕ → Self → Type 0 };

    /// The entry at the front, and what stands behind it.
    fn read<'a>(
        alloc: Global,
        constants: &Constants<'_>,
        bytes: &'a [u8],
    ) -> Result<(Self, &'a [u8]), Fault>
        ensures { Reads (spells constants.now) bytes.now result };
}

/// So many entries at the front, and what stands behind them. Room for them is taken once: for no more than there are
/// bytes, since each entry has one at least.
pub(crate) fn entries<'a, T: Entry + Drop>(
    alloc: Global,
    constants: &Constants<'_>,
    count: u16,
    bytes: &'a [u8],
) -> Result<(List<T>, &'a [u8]), Fault>
    ensures { Reads (SpellsCount (T.spells constants.now) count) bytes.now result }
{
    let mut entries = List::with_capacity(alloc, usize::from(count).min(bytes.len()))?;
    let mut rest = bytes;
    for _ in 0..count {
        let (entry, after) = T::read(alloc, constants, rest)?;
        entries.push(entry)?;
        rest = after;
    }
    Ok((entries, rest))
}

/// The table at the front, and what stands behind it.
pub(crate) fn table<'a, T: Entry + Drop>(
    alloc: Global,
    constants: &Constants<'_>,
    bytes: &'a [u8],
) -> Result<(List<T>, &'a [u8]), Fault>
    ensures { Reads (SpellsTable (T.spells constants.now)) bytes.now result }
{
    let (count, rest) = u2_at(bytes)?;
    let (entries, rest) = entries(alloc, constants, count, rest)?;
    Ok((entries, rest))
}

/// The table that the bytes are, as a whole.
pub(crate) fn whole_table<T: Entry + Drop>(
    alloc: Global,
    constants: &Constants<'_>,
    bytes: &[u8],
) -> Result<List<T>, Fault>
    ensures { ReadsWhole (SpellsTable (T.spells constants.now)) bytes.now result }
{
    let (entries, rest) = table(alloc, constants, bytes)?;
    match rest {
        [] => Ok(entries),
        _ => Err(Fault::Malformed),
    }
}
