// The members of a program by numbers.
ghost use Rattle.std.specs.Prelude.{◌≡◌, map, IfOk};
ghost use Rattle.cb_kinds.specs.Basics.{kind_number};
ghost use Rattle.cb_link.specs.Making.{fixed_kinds};
ghost use Rattle.cb_link.specs.Numbers.{fields_of, methods_of};
ghost use Rattle.cb_link.specs.Program.{linked_field, linked_method};

use crate::descriptors::{parameters_of, result_of, text_or_none};
use crate::fixed::{FIXED_KINDS, numbers_of};
use crate::numbering::{Numbering, by_number};
use crate::{LinkedField, LinkedFields, LinkedMethod, LinkedMethods};
use cb_classfile::{ClassFile, Field, Method};
use cb_kinds::{Texts, basic_of};
use cb_plain::{Numbers, OutOfMemory};
use cb_text::Pool;
use std::alloc::Global;

/// The methods of classes by numbers, with what their parameters and results are. Takes expected time in the length of their
/// descriptors.
pub(crate) fn methods_by_number(
    alloc: Global,
    classes: &[ClassFile],
    kinds: &Texts,
) -> Result<LinkedMethods, OutOfMemory>
    ensures { IfOk result (λ methods. methods ≡ map (linked_method kinds.now) (methods_of classes.now)) }
{
    by_number::<Method>(alloc, classes, kinds)
}

/// The fields of classes by numbers, with what their values are. Takes expected time in the length of their descriptors.
pub(crate) fn fields_by_number(
    alloc: Global,
    classes: &[ClassFile],
    kinds: &Texts,
) -> Result<LinkedFields, OutOfMemory>
    ensures { IfOk result (λ fields. fields ≡ map (linked_field kinds.now) (fields_of classes.now)) }
{
    by_number::<Field>(alloc, classes, kinds)
}

/// The kinds of the objects of the machine's own sites.
pub(crate) fn fixed_by_number(alloc: Global, kinds: &Texts) -> Result<Numbers, OutOfMemory>
    ensures { IfOk result (λ fixed. fixed ≡ map (kind_number kinds.now) fixed_kinds) }
{
    numbers_of(alloc, kinds, FIXED_KINDS.as_slice())
}

/// With what its parameters and its result are.
impl Numbering for Method {
    ghost use Rattle.cb_link.specs.Program.{linked_method};

    type Linked = LinkedMethod;

    ghost members = { λ class. class.methods };

    ghost entry_of = { linked_method };

    fn of_class(class: &ClassFile) -> &[Method] {
        class.methods.as_slice()
    }

    fn link(
        &self,
        alloc: Global,
        class: u32,
        place: u32,
        pool: &Pool,
        kinds: &Texts,
    ) -> Result<LinkedMethod, OutOfMemory> {
        let descriptor = text_or_none(pool, self.descriptor);
        let parameters = parameters_of(alloc, kinds, descriptor)?;
        let result = result_of(kinds, descriptor);
        Ok(LinkedMethod {
            class,
            place,
            parameters,
            result,
        })
    }
}

/// With what its values are.
impl Numbering for Field {
    ghost use Rattle.cb_link.specs.Program.{linked_field};

    type Linked = LinkedField;

    ghost members = { λ class. class.fields };

    ghost entry_of = { linked_field };

    fn of_class(class: &ClassFile) -> &[Field] {
        class.fields.as_slice()
    }

    fn link(
        &self,
        _alloc: Global,
        class: u32,
        place: u32,
        pool: &Pool,
        kinds: &Texts,
    ) -> Result<LinkedField, OutOfMemory> {
        let basic = basic_of(kinds, text_or_none(pool, self.descriptor));
        Ok(LinkedField {
            class,
            place,
            basic,
        })
    }
}
