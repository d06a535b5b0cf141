// The texts of a class whose names are entered, each once in each of its uses.
ghost use Rattle.std.specs.Prelude.{◌≡◌, MatchOption, None, OnOk, option_and_then, option_map};
ghost use Rattle.cb_text.specs.Naming.{member_at, member_of, name_and_type_of, name_of_class};
ghost use Rattle.cb_text.specs.Pool.{constant_at};
ghost use Rattle.cb_load.specs.Inner.{entered_all};
ghost use Rattle.cb_load.specs.InnerUses.{AreEntered, AreTextsOf, Enters, use_names};

use crate::entries::Entries;
use crate::text_names::{enter_class_name, enter_descriptor};
use crate::uses::{Use, Uses};
use cb_plain::OutOfMemory;
use cb_text::{Constant, Pool};

/// Enters the names of a text in this use, unless it was done. Takes constant time where it was, and else expected time
/// in the text's length.
pub(crate) fn enter_once(
    pool: &Pool,
    usage: Use,
    uses: &mut Uses,
    entries: &mut Entries,
) -> Result<(), OutOfMemory>
    requires { AreEntered pool.now uses.old entries.old }
    ensures { OnOk result (Enters pool.now (use_names pool.now usage) entries.old uses.new entries.new) }
{
    if uses.has(usage) {
        return Ok(());
    }
    enter_use(pool, usage, entries)?;
    uses.add(usage)?;
    Ok(())
}

/// Enters the names of a text in this use.
fn enter_use(pool: &Pool, usage: Use, entries: &mut Entries) -> Result<(), OutOfMemory>
    ensures { OnOk result (entries.new ≡ entered_all entries.old (use_names pool.now usage)) }
{
    let Some(text) = pool.text(usage.text) else {
        return Ok(());
    };
    if usage.is_name {
        enter_class_name(text, usage.needed, entries)
    } else {
        enter_descriptor(text, usage.needed, entries)
    }
}

/// The indices of the name of the class and of the descriptor of the member at an index, if there is one.
pub(crate) fn member_texts(pool: &Pool, index: u16) -> Option<(u16, u16)>
    ensures { MatchOption result (member_at pool.now index ≡ None) (λ texts. AreTextsOf pool.now index texts.0 texts.1) }
{
    let _ = pool.member(index)?;
    let (holder, member) = member_parts(pool, index)?;
    let class = class_text(pool, holder)?;
    let descriptor = type_text(pool, member)?;
    Some((class, descriptor))
}

/// The indices of the class, and of the name and type, that the member at an index has.
fn member_parts(pool: &Pool, index: u16) -> Option<(u16, u16)>
    ensures { result ≡ option_map (λ found. (found.1, found.2)) (option_and_then member_of (constant_at pool.now index)) }
{
    match pool.get(index)? {
        Constant::Fieldref(holder, member)
        | Constant::Methodref(holder, member)
        | Constant::InterfaceMethodref(holder, member) => Some((*holder, *member)),
        _ => None,
    }
}

/// The index of the name of the class at an index.
pub(crate) fn class_text(pool: &Pool, index: u16) -> Option<u16>
    ensures { result ≡ option_and_then name_of_class (constant_at pool.now index) }
{
    match pool.get(index)? {
        Constant::Class(name) => Some(*name),
        _ => None,
    }
}

/// The index of the descriptor of the name and type at an index.
fn type_text(pool: &Pool, index: u16) -> Option<u16>
    ensures { result ≡ option_map (λ texts. texts.1) (option_and_then name_and_type_of (constant_at pool.now index)) }
{
    match pool.get(index)? {
        Constant::NameAndType(_, descriptor) => Some(*descriptor),
        _ => None,
    }
}
