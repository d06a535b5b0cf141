// Static fields of classes that have strings as constants.
ghost use Rattle.std.specs.Prelude.{◌≡◌, ◌<◌, ◌≤◌, ℕ, false, length, true, IfSome, None, Some};
ghost use Rattle.cb_link.specs.Named.{static_initial};
ghost use Rattle.cb_link.specs.Slots.{statics};
ghost use Rattle.cb_unwind.specs.Strings.{IsNew};
ghost use Rattle.cb_interp.specs.TextStatics.{IsNamedBefore, MayPlaceOwn, own_text, text_of};

use cb_frames::Roots;
use cb_link::{Named, Program};
use cb_plain::Table;

/// The text whose string is the constant of a static field, if a class declares the field and its constant is a string (JVMS §4.7.2).
pub(crate) fn own_text(program: &Program, class: u32, slot: u32) -> Option<u32>
    requires { slot < length (statics program.now.classes) }
    ensures { result ≡ own_text program.now class slot }
{
    if program.static_class(slot) == class {
        return text_at(program, slot);
    }
    None
}

/// The text whose string is the constant of a static field, if that is a string.
pub(crate) fn text_at(program: &Program, slot: u32) -> Option<u32>
    requires { slot < length (statics program.now.classes) }
    ensures { result ≡ text_of (static_initial program.now slot) }
{
    text_in(program.static_initial(slot))
}

/// The text that a name means, if it means one.
fn text_in(named: Named) -> Option<u32>
    ensures { result ≡ text_of named }
{
    match named {
        Named::Text(text) => Some(text),
        Named::Nothing
        | Named::Kind(_)
        | Named::Static { .. }
        | Named::Field { .. }
        | Named::Method(_)
        | Named::Whole(_) => None,
    }
}

/// Whether a text is that of a static field of a class.
fn has_text(program: &Program, class: u32, slot: u32, text: u32) -> bool
    requires { slot < length (statics program.now.classes) }
    ensures is { result ≡ true → own_text program.now class slot ≡ Some text }
    ensures not { result ≡ false → own_text program.now class slot ≡ Some text → ⊥ }
{
    match own_text(program, class, slot) {
        Some(found) => found == text,
        None => false,
    }
}

/// Whether a static field of a class before one has a text too. Takes time in the static fields of the program.
fn is_named_before(program: &Program, class: u32, slot: u32, text: u32) -> bool
    requires { slot < length (statics program.now.classes) }
    ensures is { result ≡ true → IsNamedBefore program.now class slot text }
    ensures not { result ≡ false → IsNamedBefore program.now class slot text → ⊥ }
{
    for other in 0..slot {
        if has_text(program, class, other, text) {
            return true;
        }
    }
    false
}

/// The text of a static field of a class, if it has no object yet, and no field of the class before it has it too. Takes time in the static
/// fields of the program.
pub(crate) fn new_at(program: &Program, roots: &Roots, class: u32, slot: u32) -> Option<u32>
    requires slot { slot < length (statics program.now.classes) }
    requires table { length program.now.constants ≤ length roots.now.roots.tables.constants }
    requires may { MayPlaceOwn program.now class }
    ensures text { IfSome result (λ text. own_text program.now class slot ≡ Some text) }
    ensures new { IfSome result (λ text. IsNew roots.now.roots text) }
    ensures first { IfSome result (λ text. IsNamedBefore program.now class slot text → ⊥) }
    ensures known { result ≡ None → (text : ℕ) → own_text program.now class slot ≡ Some text
        → IsNew roots.now.roots text → IsNamedBefore program.now class slot text }
{
    let text = own_text(program, class, slot)?;
    if roots.table(Table::Constants, text) != 0 {
        return None;
    }
    if is_named_before(program, class, slot, text) {
        return None;
    }
    Some(text)
}
