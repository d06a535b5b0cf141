// What the `new` at a place makes.
ghost use Rattle.std.specs.Prelude.{◌≡◌, Some};
ghost use Rattle.cb_verify.specs.Leaving.{new_kind, new_of};

use crate::within::Within;
use cb_shapes::{Action, action_of};

/// The kind of the object that the `new` at a place makes, if one stands there.
pub(crate) fn new_kind(method: &Within<'_>, place: u32) -> Option<u32>
    ensures { result ≡ new_kind method.now place }
{
    let insn = method.program.instruction(method.number, place)?;
    new_of(method, action_of(insn)?)
}

/// The kind of the object that an instruction makes, if it is `new`.
fn new_of(method: &Within<'_>, action: Action) -> Option<u32>
    ensures { result ≡ new_of method.now (Some action) }
{
    match action {
        Action::New(index) => method.kind_named(index),
        _ => None,
    }
}
