// What instructions name.
ghost use Rattle.std.specs.Prelude.{◌≡◌, ℕ, is_some, true, Some};
ghost use Rattle.cb_link.specs.Decoding.{basic_named};
ghost use Rattle.cb_link.specs.Slots.{field_basic, static_basic};
ghost use Rattle.cb_link.specs.declared.named.Named.TheVariants as meanings;

use cb_kinds::Basic;
use cb_link::{Decoded, Program};

/// What the values of the field are that an instruction names.
#[inline(always)]
pub(crate) fn basic_of(program: &Program, decoded: &Decoded) -> Basic
    requires there { is_some (basic_named program.now decoded.now.named) ≡ true }
    requires told { decoded.now.basic ≡ basic_named program.now decoded.now.named }
    ensures field { (class slot : ℕ) → decoded.now.named ≡ meanings.Field class slot
        → field_basic program.now class slot ≡ Some result }
    ensures static_ { (class slot : ℕ) → decoded.now.named ≡ meanings.Static class slot
        → static_basic program.now slot ≡ Some result }
{
    let _ = program;
    let Some(basic) = decoded.basic else {
        unreachable!()
    };
    basic
}
