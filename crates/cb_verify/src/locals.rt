// The local variables of a frame.
ghost use Rattle.std.specs.Prelude.{◌≡◌, ◌<◌, length, slice_get, slice_set, IfOk, Some};
ghost use Rattle.std.specs.Cmp.Lexicographic.{pointwise};
ghost use Rattle.cb_verify.specs.Frames.{replaced};
ghost use Rattle.cb_verify.specs.InnerLocals.{IsKnownTo};
ghost use Rattle.cb_verify.specs.Types.{goes_to};

use crate::VerificationType;
use cb_link::Program;
use cb_persistent::PersistentArray;
use cb_plain::OutOfMemory;
use std::alloc::Global;
use std::marker::Model;

/// What is known of the local variables (JVMS §4.10.1.4). Contracts see it as the list of their types.
///
/// It keeps up to where something is known: a method may have far more local variables than its code ever stores in, and what goes
/// over all of them takes time in the number of those only.
#[derive(Drop)]
pub(crate) struct Locals {
    types: PersistentArray<VerificationType>,
    known: usize,
}

impl Model for Locals {
    ghost use Rattle.std.specs.Prelude.{List as Items};
    ghost use Rattle.cb_verify.specs.declared.verification_type.VerificationType.{VerificationType as Known};
    ghost use Rattle.cb_verify.specs.InnerLocals.{IsKnownTo};

    ghost Value = { Items Known };

    ghost view = { λ locals. locals.types };

    ghost invariant = { λ locals. IsKnownTo locals.known locals.types };
}

impl Locals {
    /// The local variables of these types, of which nothing is known from a number on.
    pub fn of(types: PersistentArray<VerificationType>, known: usize) -> Self
        requires { IsKnownTo known types }
        ensures { result ≡ types }
    {
        Locals { types, known }
    }

    /// How many they are.
    pub fn len(&self) -> usize
        ensures { result ≡ length self.now }
    {
        self.types.len()
    }

    /// The type of what one holds. Takes time in the logarithm of their number.
    pub fn get(&self, number: usize) -> VerificationType
        requires { number < length self.now }
        ensures { slice_get self.now number ≡ Some result }
    {
        self.types.get(number)
    }

    /// The same once more.
    pub fn share(&self) -> Result<Self, OutOfMemory>
        ensures { IfOk result (λ locals. locals ≡ self.now) }
    {
        Ok(Locals {
            types: self.types.share()?,
            known: self.known,
        })
    }

    /// These with another type in one. Takes time and memory in the logarithm of their number.
    pub fn with(
        &self,
        alloc: Global,
        number: usize,
        value: VerificationType,
    ) -> Result<Self, OutOfMemory>
        requires { number < length self.now }
        ensures { IfOk result (λ locals. locals ≡ slice_set self.now number value) }
    {
        let _count = self.len();
        let types = self.types.with(alloc, number, value)?;
        let known = if number < self.known {
            self.known
        } else {
            number + 1
        };
        Ok(Locals { types, known })
    }

    /// Whether each is assignable to that of others, which are as many (JVMS §4.10.1.4). Takes time in the number of those up to
    /// which something is known of the others, times the logarithm of all.
    pub fn goes_to(&self, program: &Program, other: &Locals) -> bool
        ensures { result ≡ pointwise (goes_to program.now) self.now other.now }
    {
        if self.len() != other.len() {
            return false;
        }
        for number in 0..other.known {
            if !self.get(number).goes_to(program, other.get(number)) {
                return false;
            }
        }
        true
    }

    /// These with another type in place of one, which isn't initialised. Takes time in the number of those up to which something is
    /// known, times the logarithm of all.
    pub fn replaced(
        &self,
        alloc: Global,
        old: VerificationType,
        new: VerificationType,
    ) -> Result<Self, OutOfMemory>
        ensures { IfOk result (λ locals. locals ≡ replaced old new self.now) }
    {
        let mut all = self.share()?;
        for place in 0..self.known {
            if old.is_same(self.get(place)) {
                all = all.with(alloc, place, new)?;
            }
        }
        Ok(all)
    }
}
