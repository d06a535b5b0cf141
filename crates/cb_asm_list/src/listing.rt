// Records as texts.
ghost use Rattle.std.specs.Prelude.{◌≡◌, ◌++◌, ◌∷◌, IfOk, None, OnOk, string_bytes};
ghost use Rattle.std.specs.List.{flat_map};
ghost use Rattle.cb_asm_line.specs.Lines.{line_text, lines_text, space};
ghost use Rattle.cb_asm_line.specs.Quoting.{no_name};
ghost use Rattle.cb_asm_line.specs.Spelling.{class_line, field_line, implements_line, method_lines, name_or};
ghost use Rattle.cb_asm_list.specs.Expansion.{class_named};
ghost use Rattle.cb_asm_list.specs.Inner.{IsListed};
ghost use Rattle.cb_asm_list.specs.Listing.{field_text, listing as listing_of, method_text, program_of};
ghost use Rattle.cb_classfile.specs.Class.{IsWellFormed};
ghost use Rattle.cb_classfile.specs.Pool.{class_at};
ghost use Rattle.cb_classfile.specs.Profile.{unsupported};

use crate::member::{push_field, push_method};
use crate::names::class_name;
use crate::words::{end_line, push_class_flags_word, push_name_word, push_number, push_word};
use cb_classfile::ClassFile;
use cb_plain::OutOfMemory;
use std::alloc::Global;

/// The listing of a record, which is well formed and has nothing that the machine leaves out. `OutOfMemory` where no memory
/// was to be had. Takes time in the size of the listing and of the record with its frames in full, times the logarithm of
/// the number of instructions for each target of a branch.
pub fn list(alloc: Global, class: &ClassFile) -> Result<String, OutOfMemory>
    requires well_formed { IsWellFormed class.now }
    requires supported { unsupported class.now ≡ None }
    ensures { IfOk result (λ text. string_bytes text ≡ listing_of class.now) }
{
    let mut text = String::new(alloc);
    push_class_line(&mut text, class)?;
    push_interfaces(&mut text, class)?;
    push_fields(&mut text, class)?;
    push_methods(alloc, &mut text, class)?;
    Ok(text)
}

/// Adds the line of the class.
fn push_class_line(text: &mut String, class: &ClassFile) -> Result<(), OutOfMemory>
    ensures { OnOk result (string_bytes text.new ≡ string_bytes text.old
        ++ line_text (class_line (program_of class.now))) }
{
    text.push_str("class")?;
    push_number(text, u32::from(class.major))?;
    push_class_flags_word(text, class.flags.0)?;
    push_name_word(text, class_name(class, class.this_class))?;
    push_superclass(text, class)?;
    end_line(text)
}

/// Adds a space and the name of the superclass, or the word that stands in its place.
fn push_superclass(text: &mut String, class: &ClassFile) -> Result<(), OutOfMemory>
    ensures { OnOk result (string_bytes text.new ≡ string_bytes text.old
        ++ space ∷ name_or no_name (class_at class.now.pool class.now.super_class)) }
{
    match class.superclass() {
        Some(name) => push_name_word(text, name),
        None => push_word(text, "-"),
    }
}

/// Adds the lines of the direct superinterfaces.
fn push_interfaces(text: &mut String, class: &ClassFile) -> Result<(), OutOfMemory>
    requires { IsListed class.now }
    ensures { OnOk result (string_bytes text.new ≡ string_bytes text.old
        ++ flat_map (λ index. line_text (implements_line (class_named class.now index))) class.now.interfaces) }
{
    for index in class.interfaces.as_slice() {
        push_interface(text, class, *index as u16)?;
    }
    Ok(())
}

/// Adds the line of a direct superinterface.
fn push_interface(text: &mut String, class: &ClassFile, index: u16) -> Result<(), OutOfMemory>
    ensures { OnOk result (string_bytes text.new ≡ string_bytes text.old
        ++ line_text (implements_line (class_named class.now index))) }
{
    text.push_str("implements")?;
    push_name_word(text, class_name(class, index))?;
    end_line(text)
}

/// Adds the lines of the fields.
fn push_fields(text: &mut String, class: &ClassFile) -> Result<(), OutOfMemory>
    ensures { OnOk result (string_bytes text.new ≡ string_bytes text.old
        ++ flat_map (λ field. line_text (field_line (field_text class.now field))) class.now.fields) }
{
    for field in class.fields.as_slice() {
        push_field(text, class, field)?;
    }
    Ok(())
}

/// Adds the lines of the methods.
fn push_methods(alloc: Global, text: &mut String, class: &ClassFile) -> Result<(), OutOfMemory>
    requires { IsListed class.now }
    ensures { OnOk result (string_bytes text.new ≡ string_bytes text.old
        ++ flat_map (λ method. lines_text (method_lines (method_text class.now method))) class.now.methods) }
{
    for method in class.methods.as_slice() {
        push_method(alloc, text, class, method)?;
    }
    Ok(())
}
