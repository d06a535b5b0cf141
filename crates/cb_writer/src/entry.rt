// The tables of a class file: the number of their entries, and the entries, one after the other (JVMS §4).
ghost use Rattle.std.specs.Prelude.{◌≡◌, ◌↔◌, ◌++◌, ℕ, IsTrue, OnOk, List as Items};
ghost use Rattle.std.specs.List.{AllByRecursion, flat_map};
ghost use Rattle.cb_text.specs.declared.constant.Constant.{Constant as AnyConstant};
ghost use Rattle.cb_classfile.specs.Tables.{SpellsCount, SpellsTable, table_bytes};
ghost use Rattle.cb_writer.specs.Formed.{HasSpelling};

use crate::attribute_names::AttributeNames;
use crate::numbers::push_u2;
use cb_plain::OutOfMemory;

/// One more than the greatest number of entries of a table.
const TOO_MANY: usize = 0x1_0000;

/// What stands in tables.
pub(crate) trait Entry: Sized {
    /// The bytes that spell an entry, where the pool has these constants.
    ghost spells: { Items AnyConstant → Items ℕ → Self → Type 0 };

    /// Those of them that have nothing to skip.
    ghost bytes_of: { Items AnyConstant → Self → Items ℕ };

    /// Whether some bytes spell the entry.
    fn is_formed(&self, names: &AttributeNames<'_>) -> bool
        ensures { IsTrue result ↔ HasSpelling (spells names.now) self.now };

    /// Writes the entry at the end. A refused growth may leave a part of it there.
    fn push(&self, names: &AttributeNames<'_>, bytes: &mut Vec<u8>) -> Result<(), OutOfMemory>
        requires { HasSpelling (spells names.now) self.now }
        ensures { OnOk result (bytes.new.items ≡ bytes.old.items ++ bytes_of names.now self.now) };
}

/// Whether some bytes spell each entry.
pub(crate) fn are_formed<T: Entry>(names: &AttributeNames<'_>, entries: &[T]) -> bool
    ensures { IsTrue result ↔ AllByRecursion (HasSpelling (T.spells names.now)) entries.now }
{
    entries.iter().all(|entry| entry.is_formed(names))
}

/// Whether some bytes spell so many entries.
pub(crate) fn is_count<T: Entry>(names: &AttributeNames<'_>, count: usize, entries: &[T]) -> bool
    ensures { IsTrue result ↔ HasSpelling (SpellsCount (T.spells names.now) count) entries.now }
{
    entries.len() == count && are_formed(names, entries)
}

/// Whether some bytes spell a table.
pub(crate) fn is_table<T: Entry>(names: &AttributeNames<'_>, entries: &[T]) -> bool
    ensures { IsTrue result ↔ HasSpelling (SpellsTable (T.spells names.now)) entries.now }
{
    entries.len() < TOO_MANY && are_formed(names, entries)
}

/// Writes entries.
pub(crate) fn push_entries<T: Entry>(
    names: &AttributeNames<'_>,
    bytes: &mut Vec<u8>,
    entries: &[T],
) -> Result<(), OutOfMemory>
    requires { AllByRecursion (HasSpelling (T.spells names.now)) entries.now }
    ensures { OnOk result (bytes.new.items ≡ bytes.old.items ++ flat_map (T.bytes_of names.now) entries.now) }
{
    for entry in entries {
        entry.push(names, bytes)?;
    }
    Ok(())
}

/// Writes a table.
pub(crate) fn push_table<T: Entry>(
    names: &AttributeNames<'_>,
    bytes: &mut Vec<u8>,
    entries: &[T],
) -> Result<(), OutOfMemory>
    requires { HasSpelling (SpellsTable (T.spells names.now)) entries.now }
    ensures { OnOk result (bytes.new.items ≡ bytes.old.items ++ table_bytes (T.bytes_of names.now) entries.now) }
{
    push_u2(bytes, entries.len() as u16)?;
    push_entries(names, bytes, entries)
}
