// Whether the constants of the static fields of a class are numbers.
ghost use Rattle.std.specs.Prelude.{◌≡◌, ◌<◌, false, length, option_map, true, Some};
ghost use Rattle.cb_link.specs.Named.{static_initial};
ghost use Rattle.cb_link.specs.Slots.{static_at, statics};
ghost use Rattle.cb_unwind.specs.Begun.{IsNoText, NumbersOnly};

use cb_link::{Named, Program};

/// Whether no static field that a class declares has a string as its constant, which would have to be placed before the class is initialised
/// (JVMS §4.7.2). Takes time in the static fields of the program.
pub(crate) fn has_numbers_only(program: &Program, class: u32) -> bool
    ensures { result ≡ true → NumbersOnly program.now class }
{
    let count = program.static_count();
    for slot in 0..count {
        if is_own_text(program, class, slot) {
            return false;
        }
    }
    true
}

/// Whether a static field is the class's own and has a string as its constant.
fn is_own_text(program: &Program, class: u32, slot: u32) -> bool
    requires { slot < length (statics program.now.classes) }
    ensures { result ≡ false → option_map (λ field. field.class) (static_at program.now slot)
        ≡ Some class → IsNoText (static_initial program.now slot) }
{
    program.static_class(slot) == class && is_text(program.static_initial(slot))
}

/// Whether a constant is a string.
fn is_text(named: Named) -> bool
    ensures { result ≡ false → IsNoText named }
{
    match named {
        Named::Text(_) => true,
        Named::Nothing
        | Named::Kind(_)
        | Named::Static { .. }
        | Named::Field { .. }
        | Named::Method(_)
        | Named::Whole(_) => false,
    }
}
