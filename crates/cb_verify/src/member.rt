// What the member that an instruction names takes and gives.
ghost use Rattle.std.specs.Prelude.{◌≡◌, ◌<◌, length, slice_get, Some, None};
ghost use Rattle.cb_verify.specs.Members.{member_at};

use crate::within::Within;
use crate::{TypeFrame, VerificationType};
use cb_kinds::Basic;
use cb_link::{Named, Program};
use std::marker::Model;

/// What a member takes from the operand stack and gives: a field its value, a method its arguments and its result.
#[derive(Drop)]
pub(crate) struct Member<'a> {
    program: &'a Program,
    named: Named,
}

impl<'a> Model for Member<'a> {
    ghost use Rattle.cb_link.specs.Named.{IsThere};
    ghost use Rattle.cb_verify.specs.Members.{Member, member_of};

    ghost Value = { Member };

    ghost view = { λ member. member_of member.program.now member.named };

    ghost invariant = { λ member. IsThere member.program.now member.named };
}

impl<'a> Member<'a> {
    /// The member that the instruction at a place names.
    pub fn at(method: &Within<'a>, pc: u32) -> Self
        ensures { result ≡ member_at method.now pc }
    {
        Member {
            program: method.program,
            named: method.program.named(method.number, pc),
        }
    }

    /// How many values it takes.
    pub fn count(&self) -> usize
        ensures { result ≡ length self.now.takes }
    {
        match self.named {
            Named::Method(method) => self.program.parameter_count(method),
            _ => usize::from(self.gives().is_some()),
        }
    }

    /// What a value is that it takes, the topmost being at 0.
    pub fn takes(&self, place: usize) -> Basic
        requires { place < length self.now.takes }
        ensures { slice_get self.now.takes place ≡ Some result }
    {
        match self.named {
            Named::Static { slot, .. } => self.program.static_basic(slot),
            Named::Field { class, slot } => self.program.field_basic(class, slot),
            Named::Method(method) => {
                let count = self.program.parameter_count(method);
                self.program.parameter(method, count - 1 - place)
            }
            _ => Basic::Int,
        }
    }

    /// What it gives, if it gives a value.
    pub fn gives(&self) -> Option<Basic>
        ensures { result ≡ self.now.gives }
    {
        match self.named {
            Named::Static { slot, .. } => Some(self.program.static_basic(slot)),
            Named::Field { class, slot } => Some(self.program.field_basic(class, slot)),
            Named::Method(method) => self.program.result(method),
            _ => None,
        }
    }
}
