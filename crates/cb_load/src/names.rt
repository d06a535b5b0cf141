// The names that a class adds to those that are looked for.
ghost use Rattle.std.specs.Prelude.{◌≡◌, OnOk, Some, List as Items};
ghost use Rattle.std.specs.List.{flat_map};
ghost use Rattle.cb_text.specs.declared.constant.Constant.{Constant as AnyConstant};
ghost use Rattle.cb_text.specs.Naming.{text_at};
ghost use Rattle.cb_load.specs.InnerEntering.{marked};
ghost use Rattle.cb_load.specs.Inner.{entered_all};
ghost use Rattle.cb_load.specs.InnerUses.{AreEntered, Enters};
ghost use Rattle.cb_load.specs.Names.{Entry, all_of, body_names, class_names, class_names_at, constant_names, mentioned, names_at, names_of};

use crate::entries::Entries;
use crate::text_uses::{class_text, enter_once, member_texts};
use crate::uses::{Use, Uses};
use cb_classfile::{Body, ClassFile, Field, Handler, MapFrame, MapType, Method, index_in};
use cb_insn::Insn;
use cb_plain::OutOfMemory;
use cb_text::Pool;

/// Enters the names that a class adds, in the order in which it mentions them. `OutOfMemory` where no memory was to be had.
/// Takes expected time in the size of the class.
pub(crate) fn enter_names_of(class: &ClassFile, entries: &mut Entries) -> Result<(), OutOfMemory>
    ensures { OnOk result (entries.new ≡ entered_all entries.old (names_of class.now)) }
{
    let pool = &class.pool;
    let mut uses = Uses::new(entries.alloc());
    enter_class(pool, class.super_class, true, &mut uses, entries)?;
    enter_each(pool, class.interfaces.as_slice(), &mut uses, entries)?;
    enter_each(pool, class.fields.as_slice(), &mut uses, entries)?;
    enter_each(pool, class.methods.as_slice(), &mut uses, entries)?;
    Ok(())
}

/// What has names of classes.
trait Naming {
    /// The entries that it adds, where the pool has these constants.
    ghost names: { Items AnyConstant → Self → Items Entry };

    /// Enters them.
    fn enter(&self, pool: &Pool, uses: &mut Uses, entries: &mut Entries) -> Result<(), OutOfMemory>
        requires { AreEntered pool.now uses.old entries.old }
        ensures { OnOk result (Enters pool.now (names pool.now self.now) entries.old uses.new entries.new) };
}

/// Enters the names of the items, in order.
fn enter_each<T: Naming>(
    pool: &Pool,
    items: &[T],
    uses: &mut Uses,
    entries: &mut Entries,
) -> Result<(), OutOfMemory>
    requires { AreEntered pool.now uses.old entries.old }
    ensures { OnOk result (Enters pool.now (flat_map (T.names pool.now) items.now) entries.old uses.new entries.new) }
{
    for item in items {
        item.enter(pool, uses, entries)?;
    }
    Ok(())
}

/// The index of an interface, which is needed.
impl Naming for u32 {
    ghost use Rattle.cb_load.specs.Names.{class_names_at, needed};

    ghost names = { λ pool index. needed (class_names_at pool index) };

    fn enter(
        &self,
        pool: &Pool,
        uses: &mut Uses,
        entries: &mut Entries,
    ) -> Result<(), OutOfMemory> {
        if *self < u32::from(pool.len()) {
            enter_class(pool, *self as u16, true, uses, entries)
        } else {
            Ok(())
        }
    }
}

/// The names in its descriptor.
impl Naming for Field {
    ghost use Rattle.cb_load.specs.Names.{mentioned, names_at};

    ghost names = { λ pool field. mentioned (names_at pool field.descriptor) };

    fn enter(
        &self,
        pool: &Pool,
        uses: &mut Uses,
        entries: &mut Entries,
    ) -> Result<(), OutOfMemory> {
        enter_type(pool, self.descriptor, uses, entries)
    }
}

/// The names in its descriptor, and then those of its body.
impl Naming for Method {
    ghost use Rattle.cb_load.specs.Names.{method_names};

    ghost names = { method_names };

    fn enter(
        &self,
        pool: &Pool,
        uses: &mut Uses,
        entries: &mut Entries,
    ) -> Result<(), OutOfMemory> {
        enter_type(pool, self.descriptor, uses, entries)?;
        if let Some(body) = &self.body {
            enter_body(pool, body, uses, entries)?;
        }
        Ok(())
    }
}

/// The names of an instruction's constant.
impl Naming for (u32, Insn) {
    ghost use Rattle.cb_load.specs.Names.{insn_names};

    ghost names = { λ pool placed. insn_names pool placed.1 };

    fn enter(
        &self,
        pool: &Pool,
        uses: &mut Uses,
        entries: &mut Entries,
    ) -> Result<(), OutOfMemory> {
        match index_in(&self.1.operand) {
            Some(index) => enter_constant(pool, index, uses, entries),
            None => Ok(()),
        }
    }
}

/// The class that it catches, which is needed.
impl Naming for Handler {
    ghost use Rattle.cb_load.specs.Names.{handler_names, needed};

    ghost names = { λ pool handler. needed (handler_names pool handler) };

    fn enter(
        &self,
        pool: &Pool,
        uses: &mut Uses,
        entries: &mut Entries,
    ) -> Result<(), OutOfMemory> {
        enter_class(pool, self.catch_type, true, uses, entries)
    }
}

/// The classes of its locals, and then of its stack.
impl Naming for MapFrame {
    ghost use Rattle.cb_load.specs.Names.{frame_names, mentioned};

    ghost names = { λ pool frame. mentioned (frame_names pool frame) };

    fn enter(
        &self,
        pool: &Pool,
        uses: &mut Uses,
        entries: &mut Entries,
    ) -> Result<(), OutOfMemory> {
        enter_each(pool, self.locals.as_slice(), uses, entries)?;
        enter_each(pool, self.stack.as_slice(), uses, entries)?;
        Ok(())
    }
}

/// The class of an object.
impl Naming for MapType {
    ghost use Rattle.cb_load.specs.Names.{mentioned, type_names};

    ghost names = { λ pool kind. mentioned (type_names pool kind) };

    fn enter(
        &self,
        pool: &Pool,
        uses: &mut Uses,
        entries: &mut Entries,
    ) -> Result<(), OutOfMemory> {
        match self {
            MapType::Object(class) => enter_class(pool, *class, false, uses, entries),
            _ => Ok(()),
        }
    }
}

/// Enters the names of a body: of its instructions, its handlers and its frames.
fn enter_body(
    pool: &Pool,
    body: &Body,
    uses: &mut Uses,
    entries: &mut Entries,
) -> Result<(), OutOfMemory>
    requires { AreEntered pool.now uses.old entries.old }
    ensures { OnOk result (Enters pool.now (body_names pool.now (Some body.now)) entries.old uses.new entries.new) }
{
    enter_each(pool, body.code.as_slice(), uses, entries)?;
    enter_each(pool, body.handlers.as_slice(), uses, entries)?;
    enter_each(pool, body.frames.as_slice(), uses, entries)?;
    Ok(())
}

/// Enters the names of a constant: a class, or the class of a member and the names in its descriptor.
fn enter_constant(
    pool: &Pool,
    index: u16,
    uses: &mut Uses,
    entries: &mut Entries,
) -> Result<(), OutOfMemory>
    requires { AreEntered pool.now uses.old entries.old }
    ensures { OnOk result (Enters pool.now (constant_names pool.now index) entries.old uses.new entries.new) }
{
    let Some((class, descriptor)) = member_texts(pool, index) else {
        return enter_class(pool, index, true, uses, entries);
    };
    enter_name(pool, class, true, uses, entries)?;
    enter_type(pool, descriptor, uses, entries)?;
    Ok(())
}

/// Enters what the class at an index names, if there is one.
fn enter_class(
    pool: &Pool,
    index: u16,
    needed: bool,
    uses: &mut Uses,
    entries: &mut Entries,
) -> Result<(), OutOfMemory>
    requires { AreEntered pool.now uses.old entries.old }
    ensures { OnOk result (Enters pool.now (marked needed (class_names_at pool.now index)) entries.old uses.new entries.new) }
{
    match class_text(pool, index) {
        Some(text) => enter_name(pool, text, needed, uses, entries),
        None => Ok(()),
    }
}

/// Enters what a class is that has the text at an index as its name.
fn enter_name(
    pool: &Pool,
    text: u16,
    needed: bool,
    uses: &mut Uses,
    entries: &mut Entries,
) -> Result<(), OutOfMemory>
    requires { AreEntered pool.now uses.old entries.old }
    ensures { OnOk result (Enters pool.now (marked needed (all_of class_names (text_at pool.now text))) entries.old uses.new entries.new) }
{
    let usage = Use {
        text,
        is_name: true,
        needed,
    };
    enter_once(pool, usage, uses, entries)
}

/// Enters the names in the descriptor at an index, if there is one.
fn enter_type(
    pool: &Pool,
    text: u16,
    uses: &mut Uses,
    entries: &mut Entries,
) -> Result<(), OutOfMemory>
    requires { AreEntered pool.now uses.old entries.old }
    ensures { OnOk result (Enters pool.now (mentioned (names_at pool.now text)) entries.old uses.new entries.new) }
{
    let usage = Use {
        text,
        is_name: false,
        needed: false,
    };
    enter_once(pool, usage, uses, entries)
}
