// Flags, by the names that `javap` has for them.
use bitflags::Flags;
use cb_classfile::{ClassFlags, FieldFlags, MethodFlags};
use cb_rows::Trouble;
use std::alloc::AllocError;

/// Adds the names of the flags of a class, a field or a method.
pub(crate) fn tell(told: &mut String, table: &str, row: &str) -> Result<(), Trouble> {
    let bits = u16::from_str_radix(row, 16).map_err(|_| Trouble::NotUnderstood)?;
    match table {
        "of classes" => push_words(told, ClassFlags(bits))?,
        "of fields" => push_words(told, FieldFlags(bits))?,
        "of methods" => push_words(told, MethodFlags(bits))?,
        _ => return Err(Trouble::NotUnderstood),
    }
    Ok(())
}

/// Adds the names of flags as `javap` prints them: those that are set, in the order of their bits.
fn push_words<F: Flags + Copy>(out: &mut String, flags: F) -> Result<(), AllocError> {
    for flag in F::flags() {
        if flags.contains(*flag.value()) {
            write!(out, " ACC_{}", flag.name())?;
        }
    }
    Ok(())
}
