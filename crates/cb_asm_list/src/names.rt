// The names and texts of a record.
ghost use Rattle.std.specs.Prelude.{◌≡◌};
ghost use Rattle.cb_asm_list.specs.Expansion.{class_named, text_named};

use cb_classfile::ClassFile;

/// The name of the class at an index, or no units where no class stands there.
pub(crate) fn class_name(class: &ClassFile, index: u16) -> &[u16]
    ensures { result.now ≡ class_named class.now index }
{
    match class.pool.class(index) {
        Some(name) => name,
        None => &[],
    }
}

/// The text at an index, or no units where no text stands there.
pub(crate) fn text(class: &ClassFile, index: u16) -> &[u16]
    ensures { result.now ≡ text_named class.now index }
{
    match class.pool.text(index) {
        Some(text) => text,
        None => &[],
    }
}
