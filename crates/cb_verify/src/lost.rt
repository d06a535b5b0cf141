// Declared frames that are lost.
ghost use Rattle.std.specs.Prelude.{◌≡◌, ◌==◌};
ghost use Rattle.std.specs.List.{list_any};
ghost use Rattle.cb_verify.specs.InnerPassing.{failing_at, is_stranded, stranded};
ghost use Rattle.cb_verify.specs.Typed.{least};

use crate::TypeFrame;
use crate::expansion::Declared;
use crate::pass::{failing_at, lesser};
use crate::within::Within;

/// Whether an instruction of the method stands at a place.
fn stands_at(method: &Within<'_>, place: u32) -> bool
    ensures { result ≡ list_any (λ placed. placed.0 == place) method.now.body.code }
{
    method.program.instruction(method.number, place).is_some()
}

/// Whether a frame can't be had, or no instruction stands at its place.
fn is_stranded(method: &Within<'_>, entry: &(u32, Option<TypeFrame>)) -> bool
    ensures { result ≡ is_stranded method.now.body.code entry.now }
{
    entry.1.is_none() || !stands_at(method, entry.0)
}

/// The least place of the frames that can't be had, or at which no instruction stands.
pub(crate) fn first_lost(method: &Within<'_>, frames: &Declared) -> Option<u32>
    ensures { result ≡ least (stranded method.now.body.code frames.now) }
{
    let mut least = None;
    for entry in frames.frames() {
        least = lesser(least, failing_at(entry.0, !is_stranded(method, entry)));
    }
    least
}
