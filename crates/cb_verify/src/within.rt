// What a method's instructions are typed in.
ghost use Rattle.std.specs.Prelude.{◌≡◌, ◌<◌, length, Some};
ghost use Rattle.cb_classfile.specs.Pool.{text_at};
ghost use Rattle.cb_classfile.specs.Flags.{acc_static};
ghost use Rattle.cb_link.specs.Numbers.{has_flag, or_none};
ghost use Rattle.cb_verify.specs.Leaving.{superclass_of};
ghost use Rattle.cb_verify.specs.Within.{is_init, kind_named, result_of, within};

use crate::names::is_init;
use cb_classfile::{Body, MethodFlags};
use cb_kinds::Basic;
use cb_link::Program;
use cb_text::Pool;
use std::marker::Model;

/// A method with code, as its instructions are typed in it (JVMS §4.10.1.1).
#[derive(Drop)]
pub(crate) struct Within<'a> {
    pub program: &'a Program,
    pub number: u32,
    pub class: u32,
    pub is_static: bool,
    pub is_constructor: bool,
    pub body: &'a Body,
}

impl<'a> Model for Within<'a> {
    ghost use Rattle.std.specs.Prelude.{◌≡◌, ◌<◌, length};
    ghost use Rattle.cb_link.specs.Named.{code_at};
    ghost use Rattle.cb_verify.specs.Within.{Within};

    ghost Value = { Within };

    ghost view = { λ method. record { program = method.program.now; number = method.number; class = method.class; is_static = method.is_static; is_constructor = method.is_constructor; body = method.body.now } };

    ghost invariant = { λ method. (method.number < length method.program.now.methods) × (method.class < length method.program.now.classes) × (code_at method.program.now method.number ≡ method.body.now.code) };
}

/// The flag of a static method (JVMS table 4.6-A).
const STATIC: u16 = MethodFlags::STATIC.0;

/// The number of java/lang/Object.
const OBJECT: u32 = 0;

/// Whether flags have the one of a static method.
fn is_static(flags: u16) -> bool
    ensures { result ≡ has_flag acc_static flags }
{
    flags & STATIC == STATIC
}

/// Whether the text at an index is.
fn is_init_at(pool: &Pool, index: u16) -> bool
    ensures { result ≡ is_init (or_none (text_at pool.now index)) }
{
    match pool.text(index) {
        Some(name) => is_init(name),
        None => false,
    }
}

impl<'a> Within<'a> {
    /// The method of a number, if it has code.
    pub fn of(program: &'a Program, number: u32) -> Option<Self>
        requires { number < length program.now.methods }
        ensures { result ≡ within program.now number }
    {
        let class = program.class_of(number);
        let declaring = program.class(class as usize);
        let method = program.method(number);
        match &method.body {
            Some(body) => Some(Within {
                program,
                number,
                class,
                is_static: is_static(method.flags.0),
                is_constructor: is_init_at(&declaring.pool, method.name) && class != OBJECT,
                body,
            }),
            None => None,
        }
    }

    /// The kind of the class or array that the constant at an index names, if it names one.
    pub fn kind_named(&self, index: u16) -> Option<u32>
        ensures { result ≡ kind_named self.now index }
    {
        self.program.kind_at(self.class, index)
    }

    /// What the method's result is, if it has one.
    pub fn result_of(&self) -> Option<Basic>
        ensures { result ≡ result_of self.now }
    {
        self.program.result(self.number)
    }

    /// The kind of the superclass of the method's class, if it has one.
    pub fn superclass(&self) -> Option<u32>
        ensures { result ≡ superclass_of self.now }
    {
        self.kind_named(self.program.class(self.class as usize).super_class)
    }
}
