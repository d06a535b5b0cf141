// The texts of strings that the parts of a class load (JVMS §4.4.3).
ghost use Rattle.std.specs.Prelude.{◌≡◌, ℕ, OnOk, List as Items};
ghost use Rattle.std.specs.List.{flat_map};
ghost use Rattle.cb_hierarchy.specs.Classes.{listed};
ghost use Rattle.cb_kinds.specs.Texts.{entered_all};
ghost use Rattle.cb_text.specs.declared.constant.Constant.{Constant as AnyConstant};
ghost use Rattle.cb_text.specs.Naming.{string_at};
ghost use Rattle.cb_link.specs.Making.{class_texts, is_load};

use cb_classfile::{ClassFile, Field, FieldFlags, Method, index_in};
use cb_insn::{Insn, opcode};
use cb_kinds::Texts;
use cb_plain::OutOfMemory;
use cb_text::Pool;

/// Enters the texts of the strings that the static fields and the methods of a class load. `OutOfMemory` where no memory was to
/// be had. Takes expected time in the size of the class, and the length of the texts at each place that loads one.
pub(crate) fn enter_texts_of(class: &ClassFile, texts: &mut Texts) -> Result<(), OutOfMemory>
    ensures { OnOk result (texts.new ≡ entered_all texts.old (class_texts class.now)) }
{
    enter_each(&class.pool, class.fields.as_slice(), texts)?;
    enter_each(&class.pool, class.methods.as_slice(), texts)?;
    Ok(())
}

/// What loads strings.
trait Loading {
    /// Their texts, where the pool has these constants.
    ghost loaded: { Items AnyConstant → Self → Items (Items ℕ) };

    /// Enters them.
    fn enter(&self, pool: &Pool, texts: &mut Texts) -> Result<(), OutOfMemory>
        ensures { OnOk result (texts.new ≡ entered_all texts.old (loaded pool.now self.now)) };
}

/// Enters the texts of the items, in order.
fn enter_each<T: Loading>(pool: &Pool, items: &[T], texts: &mut Texts) -> Result<(), OutOfMemory>
    ensures { OnOk result (texts.new ≡ entered_all texts.old (flat_map (T.loaded pool.now) items.now)) }
{
    for item in items {
        item.enter(pool, texts)?;
    }
    Ok(())
}

/// The text of a static field's value (JVMS §4.7.2).
impl Loading for Field {
    ghost use Rattle.cb_link.specs.Making.{field_texts_of};

    ghost loaded = { field_texts_of };

    fn enter(&self, pool: &Pool, texts: &mut Texts) -> Result<(), OutOfMemory> {
        if self.flags.0 & FieldFlags::STATIC.0 != FieldFlags::STATIC.0 {
            return Ok(());
        }
        match self.constant {
            Some(index) => enter_string(pool, index, texts),
            None => Ok(()),
        }
    }
}

/// The texts that its instructions load.
impl Loading for Method {
    ghost use Rattle.cb_link.specs.Making.{body_texts};

    ghost loaded = { λ pool method. body_texts pool method.body };

    fn enter(&self, pool: &Pool, texts: &mut Texts) -> Result<(), OutOfMemory> {
        match &self.body {
            Some(body) => enter_each(pool, body.code.as_slice(), texts),
            None => Ok(()),
        }
    }
}

/// The text that an instruction loads.
impl Loading for (u32, Insn) {
    ghost use Rattle.cb_link.specs.Making.{insn_texts};

    ghost loaded = { λ pool placed. insn_texts pool placed.1 };

    fn enter(&self, pool: &Pool, texts: &mut Texts) -> Result<(), OutOfMemory> {
        if !is_load(self.1.opcode) {
            return Ok(());
        }
        match index_in(&self.1.operand) {
            Some(index) => enter_string(pool, index, texts),
            None => Ok(()),
        }
    }
}

/// Whether an opcode loads a constant of the pool that may be a string (JVMS §6.5).
fn is_load(code: u8) -> bool
    ensures { result ≡ is_load code }
{
    code == opcode::LDC || code == opcode::LDC_W
}

/// Enters the text of the string at an index, if there is one.
fn enter_string(pool: &Pool, index: u16, texts: &mut Texts) -> Result<(), OutOfMemory>
    ensures { OnOk result (texts.new ≡ entered_all texts.old (listed (string_at pool.now index))) }
{
    match pool.string(index) {
        Some(text) => texts.enter(text),
        None => Ok(()),
    }
}
