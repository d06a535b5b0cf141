// The kinds and texts of a program.
ghost use Rattle.std.specs.Prelude.{◌≡◌, [], ◌∷◌, map, IfOk, OnOk};
ghost use Rattle.std.specs.List.{flat_map};
ghost use Rattle.cb_kinds.specs.Kinds.{kinds_of_name};
ghost use Rattle.cb_kinds.specs.Texts.{entered_all};
ghost use Rattle.cb_link.specs.Making.{constants, divide_text, fixed_kinds, kinds};
ghost use Rattle.cb_link.specs.Numbers.{name_of};

use crate::fixed::{FIXED_KINDS, enter_named};
use crate::loaded_texts::enter_texts_of;
use crate::named_kinds::enter_kinds_of;
use cb_classfile::ClassFile;
use cb_kinds::Texts;
use cb_plain::OutOfMemory;
use std::alloc::Global;

/// The text of the error of a division by zero, `/ by zero`.
const DIVIDE_TEXT: [u16; 9] = [
    b'/' as u16,
    b' ' as u16,
    b'b' as u16,
    b'y' as u16,
    b' ' as u16,
    b'z' as u16,
    b'e' as u16,
    b'r' as u16,
    b'o' as u16,
];

/// The kinds of the program of these classes, by name. Takes expected time in the classes' size.
pub(crate) fn kinds_of(alloc: Global, classes: &[ClassFile]) -> Result<Texts, OutOfMemory>
    ensures { IfOk result (λ names. names ≡ kinds classes.now) }
{
    let mut names = Texts::new(alloc);
    enter_names(classes, &mut names)?;
    for class in classes {
        enter_kinds_of(alloc, class, &mut names)?;
    }
    enter_fixed(alloc, &mut names)?;
    Ok(names)
}

/// Enters the kinds of the objects that the machine and its natives place.
fn enter_fixed(alloc: Global, names: &mut Texts) -> Result<(), OutOfMemory>
    ensures { OnOk result (names.new ≡ entered_all names.old (flat_map kinds_of_name fixed_kinds)) }
{
    enter_named(alloc, FIXED_KINDS.as_slice(), names)
}

/// Enters the names of classes.
fn enter_names(classes: &[ClassFile], names: &mut Texts) -> Result<(), OutOfMemory>
    ensures { OnOk result (names.new ≡ entered_all names.old (map name_of classes.now)) }
{
    for class in classes {
        names.enter(name_of(class))?;
    }
    Ok(())
}

/// The name of a class, or none where its constant names none.
fn name_of(class: &ClassFile) -> &[u16]
    ensures { result.now ≡ name_of class.now }
{
    match class.pool.class(class.this_class) {
        Some(name) => name,
        None => &[],
    }
}

/// The texts of the strings of the program of these classes. Takes expected time in the classes' size.
pub(crate) fn constants_of(alloc: Global, classes: &[ClassFile]) -> Result<Texts, OutOfMemory>
    ensures { IfOk result (λ texts. texts ≡ constants classes.now) }
{
    let mut texts = with_divide_text(alloc)?;
    for class in classes {
        enter_texts_of(class, &mut texts)?;
    }
    Ok(texts)
}

/// The text of the error of a division by zero, alone.
fn with_divide_text(alloc: Global) -> Result<Texts, OutOfMemory>
    ensures { IfOk result (λ texts. texts ≡ divide_text ∷ []) }
{
    let mut texts = Texts::new(alloc);
    texts.enter(&DIVIDE_TEXT)?;
    Ok(texts)
}
