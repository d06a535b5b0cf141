// The names of the attributes that are written, found once a class (JVMS §4.7).
ghost use Rattle.std.specs.Prelude.{◌≡◌, ◌↔◌, ◌+◌, ◌^◌, ◌<◌, length, IsSome, IsTrue, option_copied};
ghost use Rattle.cb_text.specs.Naming.{units_of};
ghost use Rattle.cb_text.specs.Pool.{IsPool, constant_at};
ghost use Rattle.cb_classfile.specs.Attributes.{is_text, least_index};
ghost use Rattle.cb_classfile.specs.Pool.{class_at};
ghost use Rattle.cb_writer.specs.Names.{HasName, name_of};

use cb_classfile::{Constant, Constants, Pool};
use std::marker::Model;

/// An attribute that is written.
#[derive(Clone, Copy, Debug)]
pub(crate) enum Attribute {
    /// Of a field (JVMS §4.7.2).
    ConstantValue,
    /// Of a method (JVMS §4.7.3).
    Code,
    /// Of the code of a method (JVMS §4.7.4).
    StackMapTable,
}

/// `ConstantValue`
const CONSTANT_VALUE: &[u16] = &[
    b'C' as u16,
    b'o' as u16,
    b'n' as u16,
    b's' as u16,
    b't' as u16,
    b'a' as u16,
    b'n' as u16,
    b't' as u16,
    b'V' as u16,
    b'a' as u16,
    b'l' as u16,
    b'u' as u16,
    b'e' as u16,
];

/// `Code`
const CODE: &[u16] = &[b'C' as u16, b'o' as u16, b'd' as u16, b'e' as u16];

/// `StackMapTable`
const STACK_MAP_TABLE: &[u16] = &[
    b'S' as u16,
    b't' as u16,
    b'a' as u16,
    b'c' as u16,
    b'k' as u16,
    b'M' as u16,
    b'a' as u16,
    b'p' as u16,
    b'T' as u16,
    b'a' as u16,
    b'b' as u16,
    b'l' as u16,
    b'e' as u16,
];

/// A pool, and the least index of each attribute's name in it. Contracts see it as the pool's constants.
#[derive(Debug, Drop)]
pub(crate) struct AttributeNames<'a> {
    pool: &'a Pool,
    constant_value: u16,
    code: u16,
    stack_map_table: u16,
}

impl<'a> Model for AttributeNames<'a> {
    ghost use Rattle.std.specs.Prelude.{◌≡◌, List};
    ghost use Rattle.cb_text.specs.declared.constant.Constant.{Constant as AnyConstant};
    ghost use Rattle.cb_classfile.specs.Attributes.{least_index};
    ghost use Rattle.cb_writer.specs.Names.{name_of};
    ghost use Rattle.cb_writer.specs.declared.attribute_names.Attribute.TheVariants as attributes;

    ghost Value = { List AnyConstant };

    ghost view = { λ names. names.pool.now };

    ghost invariant = { λ names. (names.constant_value ≡ least_index names.pool.now (name_of attributes.ConstantValue))
        × (names.code ≡ least_index names.pool.now (name_of attributes.Code))
        × (names.stack_map_table ≡ least_index names.pool.now (name_of attributes.StackMapTable)) };
}

impl<'a> AttributeNames<'a> {
    /// The names in a pool. Takes time in the number of its constants.
    pub(crate) fn new(pool: &'a Pool) -> AttributeNames<'a>
        ensures names { result ≡ pool.now }
        ensures pool { IsPool pool.now }
    {
        let constants = pool.constants();
        AttributeNames {
            pool,
            constant_value: least_index(constants, CONSTANT_VALUE),
            code: least_index(constants, CODE),
            stack_map_table: least_index(constants, STACK_MAP_TABLE),
        }
    }

    /// The pool's constants.
    pub(crate) fn constants(&self) -> Constants<'a>
        ensures { result ≡ self.now }
    {
        Constants::new(self.pool)
    }

    /// The constant at an index.
    pub(crate) fn constant(&self, index: u16) -> Option<&'a Constant>
        ensures { option_copied result ≡ constant_at self.now index }
    {
        self.pool.get(index)
    }

    /// Whether an index names a class or an array.
    pub(crate) fn is_class(&self, index: u16) -> bool
        ensures { IsTrue result ↔ IsSome (class_at self.now index) }
    {
        self.pool.class(index).is_some()
    }

    /// The least index of an attribute's name, or one more than the greatest where the pool doesn't have it.
    pub(crate) fn index(&self, attribute: Attribute) -> u16
        ensures { result ≡ least_index self.now (name_of attribute) }
    {
        match attribute {
            Attribute::ConstantValue => self.constant_value,
            Attribute::Code => self.code,
            Attribute::StackMapTable => self.stack_map_table,
        }
    }

    /// Whether the pool has an attribute's name.
    pub(crate) fn has(&self, attribute: Attribute) -> bool
        ensures { IsTrue result ↔ HasName self.now (name_of attribute) }
    {
        self.index(attribute) < self.pool.len()
    }
}

/// The least index of a text, or one more than the greatest where none is it.
fn least_index(constants: &[Constant], name: &[u16]) -> u16
    requires { length constants.now + 1 < 2 ^ 16 }
    ensures { result ≡ least_index constants.now name.now }
{
    let mut index = 1;
    for constant in constants {
        if is_text(constant, name) {
            return index;
        }
        index += 1;
    }
    index
}

/// Whether a constant is this text.
fn is_text(constant: &Constant, name: &[u16]) -> bool
    ensures { result ≡ is_text name.now (units_of constant.now) }
{
    match constant {
        Constant::Utf8(units) => units.as_slice() == name,
        _ => false,
    }
}
