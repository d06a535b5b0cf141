// The kinds that the parts of a class name or make.
ghost use Rattle.std.specs.Prelude.{◌≡◌, ℕ, OnOk, Some, List as Items};
ghost use Rattle.std.specs.List.{flat_map};
ghost use Rattle.cb_hierarchy.specs.Classes.{listed};
ghost use Rattle.cb_kinds.specs.Kinds.{kinds_of_name};
ghost use Rattle.cb_kinds.specs.Texts.{entered_all};
ghost use Rattle.cb_text.specs.declared.constant.Constant.{Constant as AnyConstant};
ghost use Rattle.cb_text.specs.Naming.{class_at, member_at};
ghost use Rattle.cb_link.specs.InnerOperands.{named_kinds};
ghost use Rattle.cb_link.specs.Making.{body_kinds, class_kinds, descriptor_kinds, member_kinds};

use crate::making::made_by;
use cb_classfile::{Body, ClassFile, Field, Handler, MapFrame, MapType, Method, index_in};
use cb_insn::{Insn, Operand};
use cb_kinds::{Texts, enter_kinds_of_name, enter_kinds_of_type, enter_kinds_of_types};
use cb_plain::OutOfMemory;
use cb_text::{Pool, Units};
use std::alloc::Global;

/// Enters the kinds that the fields and methods of a class name or make. `OutOfMemory` where no memory was to be had. Takes
/// expected time in the size of the class, and the length of the names at each place that names one.
pub(crate) fn enter_kinds_of(
    alloc: Global,
    class: &ClassFile,
    kinds: &mut Texts,
) -> Result<(), OutOfMemory>
    ensures { OnOk result (kinds.new ≡ entered_all kinds.old (class_kinds class.now)) }
{
    enter_each(alloc, &class.pool, class.fields.as_slice(), kinds)?;
    enter_each(alloc, &class.pool, class.methods.as_slice(), kinds)?;
    Ok(())
}

/// What names or makes kinds.
trait Kinded {
    /// These kinds, where the pool has these constants.
    ghost named: { Items AnyConstant → Self → Items (Items ℕ) };

    /// Enters them.
    fn enter(&self, alloc: Global, pool: &Pool, kinds: &mut Texts) -> Result<(), OutOfMemory>
        ensures { OnOk result (kinds.new ≡ entered_all kinds.old (named pool.now self.now)) };
}

/// Enters the kinds of the items, in order.
fn enter_each<T: Kinded>(
    alloc: Global,
    pool: &Pool,
    items: &[T],
    kinds: &mut Texts,
) -> Result<(), OutOfMemory>
    ensures { OnOk result (kinds.new ≡ entered_all kinds.old (flat_map (T.named pool.now) items.now)) }
{
    for item in items {
        item.enter(alloc, pool, kinds)?;
    }
    Ok(())
}

/// The kinds of its type.
impl Kinded for Field {
    ghost use Rattle.cb_link.specs.Making.{field_kinds};

    ghost named = { field_kinds };

    fn enter(&self, _: Global, pool: &Pool, kinds: &mut Texts) -> Result<(), OutOfMemory> {
        match pool.text(self.descriptor) {
            Some(text) => enter_kinds_of_type(kinds, text),
            None => Ok(()),
        }
    }
}

/// The kinds of its descriptor, and then those of its body.
impl Kinded for Method {
    ghost use Rattle.cb_link.specs.Making.{method_kinds};

    ghost named = { method_kinds };

    fn enter(&self, alloc: Global, pool: &Pool, kinds: &mut Texts) -> Result<(), OutOfMemory> {
        enter_descriptor(pool, self.descriptor, kinds)?;
        if let Some(body) = &self.body {
            enter_body(alloc, pool, body, kinds)?;
        }
        Ok(())
    }
}

/// The kind that an instruction names, that of its member's class, and those that it makes.
impl Kinded for (u32, Insn) {
    ghost use Rattle.cb_link.specs.Making.{insn_kinds};

    ghost named = { λ pool placed. insn_kinds pool placed.1 };

    fn enter(&self, alloc: Global, pool: &Pool, kinds: &mut Texts) -> Result<(), OutOfMemory> {
        enter_operand(pool, &self.1.operand, kinds)?;
        let made = made_by(alloc, pool, &self.1)?;
        enter_each(alloc, pool, made.as_slice(), kinds)?;
        Ok(())
    }
}

/// Those of a name.
impl Kinded for Units {
    ghost use Rattle.cb_kinds.specs.Kinds.{kinds_of_name};

    ghost named = { λ pool name. kinds_of_name name };

    fn enter(&self, _: Global, _: &Pool, kinds: &mut Texts) -> Result<(), OutOfMemory> {
        enter_kinds_of_name(kinds, self.as_slice())
    }
}

/// The class that it catches.
impl Kinded for Handler {
    ghost use Rattle.cb_link.specs.Making.{handler_kinds};

    ghost named = { handler_kinds };

    fn enter(&self, _: Global, pool: &Pool, kinds: &mut Texts) -> Result<(), OutOfMemory> {
        enter_class(pool, self.catch_type, kinds)
    }
}

/// The kinds of its locals, and then of its stack.
impl Kinded for MapFrame {
    ghost use Rattle.cb_link.specs.Making.{frame_kinds};

    ghost named = { frame_kinds };

    fn enter(&self, alloc: Global, pool: &Pool, kinds: &mut Texts) -> Result<(), OutOfMemory> {
        enter_each(alloc, pool, self.locals.as_slice(), kinds)?;
        enter_each(alloc, pool, self.stack.as_slice(), kinds)?;
        Ok(())
    }
}

/// The kind of an object.
impl Kinded for MapType {
    ghost use Rattle.cb_link.specs.Making.{type_kinds};

    ghost named = { type_kinds };

    fn enter(&self, _: Global, pool: &Pool, kinds: &mut Texts) -> Result<(), OutOfMemory> {
        match self {
            MapType::Object(class) => enter_class(pool, *class, kinds),
            _ => Ok(()),
        }
    }
}

/// Enters the kinds of a body: of its instructions, its handlers and its frames.
fn enter_body(alloc: Global, pool: &Pool, body: &Body, kinds: &mut Texts) -> Result<(), OutOfMemory>
    ensures { OnOk result (kinds.new ≡ entered_all kinds.old (body_kinds pool.now (Some body.now))) }
{
    enter_each(alloc, pool, body.code.as_slice(), kinds)?;
    enter_each(alloc, pool, body.handlers.as_slice(), kinds)?;
    enter_each(alloc, pool, body.frames.as_slice(), kinds)?;
    Ok(())
}

/// Enters the kind that an operand's constant names, or that of the class of the member that it names.
fn enter_operand(pool: &Pool, operand: &Operand, kinds: &mut Texts) -> Result<(), OutOfMemory>
    ensures { OnOk result (kinds.new ≡ entered_all kinds.old (named_kinds pool.now operand.now)) }
{
    match index_in(operand) {
        Some(index) => {
            enter_class(pool, index, kinds)?;
            enter_member(pool, index, kinds)
        }
        None => Ok(()),
    }
}

/// Enters the kinds of the class or array at an index, if there is one.
fn enter_class(pool: &Pool, index: u16, kinds: &mut Texts) -> Result<(), OutOfMemory>
    ensures { OnOk result (kinds.new ≡ entered_all kinds.old (flat_map kinds_of_name (listed (class_at pool.now index)))) }
{
    match pool.class(index) {
        Some(name) => enter_kinds_of_name(kinds, name),
        None => Ok(()),
    }
}

/// Enters the kinds of the class of the member at an index, if there is one.
fn enter_member(pool: &Pool, index: u16, kinds: &mut Texts) -> Result<(), OutOfMemory>
    ensures { OnOk result (kinds.new ≡ entered_all kinds.old (member_kinds (member_at pool.now index))) }
{
    match pool.member(index) {
        Some(member) => enter_kinds_of_name(kinds, member.class),
        None => Ok(()),
    }
}

/// Enters the kinds of the types in the descriptor at an index, if there is one.
fn enter_descriptor(pool: &Pool, index: u16, kinds: &mut Texts) -> Result<(), OutOfMemory>
    ensures { OnOk result (kinds.new ≡ entered_all kinds.old (descriptor_kinds pool.now index)) }
{
    match pool.text(index) {
        Some(text) => enter_kinds_of_types(kinds, text),
        None => Ok(()),
    }
}
