// What an instruction or a field names in the constant pool, as words.
ghost use Rattle.std.specs.Prelude.{◌≡◌, ◌++◌, OnOk, option_map, string_bytes};
ghost use Rattle.cb_asm_line.specs.declared.operand.Operand.{Operand as Words};
ghost use Rattle.cb_asm_line.specs.Operands.{member_words, operand_words};
ghost use Rattle.cb_asm_line.specs.Spelling.{value_of};
ghost use Rattle.cb_asm_list.specs.Inner.{behind, words_of};
ghost use Rattle.cb_asm_list.specs.Listing.{kind_named, member_text, named, value_at};
ghost use Rattle.cb_asm_line.specs.declared.operand.Value.TheVariants as values;
ghost use Rattle.cb_text.specs.Naming.{class_at, member_at, string_at};

use crate::words::{push_name_word, push_quoted_word, push_signed, push_word};
use cb_classfile::{Constant, ConstantKind, Member, MemberKind, Pool, kind_needed};
use cb_plain::OutOfMemory;

/// Adds the words of what stands at an index for the instruction of an opcode, or none where it names nothing that has
/// words.
pub(crate) fn push_named(
    text: &mut String,
    pool: &Pool,
    opcode: u8,
    index: u16,
) -> Result<(), OutOfMemory>
    ensures { OnOk result (string_bytes text.new ≡ string_bytes text.old
        ++ behind (operand_words (named pool.now opcode index))) }
{
    match kind_needed(opcode) {
        Some(kind) => push_kind(text, pool, kind, index),
        None => Ok(()),
    }
}

/// Adds those of a constant of a kind.
fn push_kind(
    text: &mut String,
    pool: &Pool,
    kind: ConstantKind,
    index: u16,
) -> Result<(), OutOfMemory>
    ensures { OnOk result (string_bytes text.new ≡ string_bytes text.old
        ++ behind (words_of (kind_named pool.now index kind))) }
{
    match kind {
        ConstantKind::Loadable | ConstantKind::Wide => push_value(text, pool, index),
        ConstantKind::Class => push_class(text, pool, index),
        ConstantKind::Field
        | ConstantKind::ClassMethod
        | ConstantKind::AnyMethod
        | ConstantKind::InterfaceMethod
        | ConstantKind::Dynamic => push_member(text, pool, index),
    }
}

/// Adds those of a constant that is loaded.
pub(crate) fn push_value(text: &mut String, pool: &Pool, index: u16) -> Result<(), OutOfMemory>
    ensures { OnOk result (string_bytes text.new ≡ string_bytes text.old
        ++ behind (value_of (value_at pool.now index))) }
{
    match pool.get(index) {
        Some(Constant::Integer(number)) => {
            push_word(text, "int")?;
            push_signed(text, i64::from(number.cast_signed()))
        }
        Some(Constant::Long(number)) => {
            push_word(text, "long")?;
            push_signed(text, number.cast_signed())
        }
        Some(Constant::Class(_)) => push_class_value(text, pool, index),
        Some(Constant::String(_)) => push_text_value(text, pool, index),
        _ => Ok(()),
    }
}

/// Adds those of a class that is loaded, if one stands at the index.
fn push_class_value(text: &mut String, pool: &Pool, index: u16) -> Result<(), OutOfMemory>
    ensures { OnOk result (string_bytes text.new ≡ string_bytes text.old
        ++ behind (value_of (option_map values.Class (class_at pool.now index)))) }
{
    match pool.class(index) {
        Some(name) => {
            push_word(text, "class")?;
            push_name_word(text, name)
        }
        None => Ok(()),
    }
}

/// Adds those of a string, if one stands at the index.
fn push_text_value(text: &mut String, pool: &Pool, index: u16) -> Result<(), OutOfMemory>
    ensures { OnOk result (string_bytes text.new ≡ string_bytes text.old
        ++ behind (value_of (option_map values.Text (string_at pool.now index)))) }
{
    match pool.string(index) {
        Some(units) => {
            push_word(text, "text")?;
            push_quoted_word(text, units)
        }
        None => Ok(()),
    }
}

/// Adds the name of a class, if one stands at the index.
fn push_class(text: &mut String, pool: &Pool, index: u16) -> Result<(), OutOfMemory>
    ensures { OnOk result (string_bytes text.new ≡ string_bytes text.old
        ++ behind (words_of (option_map Words.Class (class_at pool.now index)))) }
{
    match pool.class(index) {
        Some(name) => push_name_word(text, name),
        None => Ok(()),
    }
}

/// Adds the words of a field or method, if one stands at the index.
fn push_member(text: &mut String, pool: &Pool, index: u16) -> Result<(), OutOfMemory>
    ensures { OnOk result (string_bytes text.new ≡ string_bytes text.old
        ++ behind (words_of (option_map (λ member. Words.Member (member_text member)) (member_at pool.now index)))) }
{
    match pool.member(index) {
        Some(member) => push_member_names(text, &member),
        None => Ok(()),
    }
}

/// Adds the words of a field or method. One of an interface has a word before it.
fn push_member_names(text: &mut String, member: &Member<'_>) -> Result<(), OutOfMemory>
    ensures { OnOk result (string_bytes text.new ≡ string_bytes text.old ++ behind (member_words (record {
      kind = member.now.kind;
      class = member.now.class.now;
      name = member.now.name.now;
      descriptor = member.now.descriptor.now;
    }))) }
{
    if member.kind == MemberKind::InterfaceMethod {
        push_word(text, "interface")?;
    }
    push_name_word(text, member.class)?;
    push_name_word(text, member.name)?;
    push_name_word(text, member.descriptor)
}
