// Handlers of exceptions.
ghost use Rattle.std.specs.Prelude.{◌≡◌, [], ◌∷◌, filter};
ghost use Rattle.std.specs.List.{list_all};
ghost use Rattle.cb_verify.specs.declared.verification_type.VerificationType.TheVariants.{Object};
ghost use Rattle.cb_verify.specs.Typed.{arrives, caught_kind, covers, is_handled};

use crate::TypeFrame;
use crate::expansion::Declared;
use crate::rules::THROWABLE;
use crate::verification_type::kind_goes_to;
use crate::within::Within;
use cb_classfile::Handler;

/// Whether a handler covers a place.
fn covers(pc: u32, handler: Handler) -> bool
    ensures { result ≡ covers pc handler }
{
    u32::from(handler.start) <= pc && pc < u32::from(handler.end)
}

/// The class that a handler catches, if it names one: Throwable where it takes all.
fn caught_kind(method: &Within<'_>, handler: Handler) -> Option<u32>
    ensures { result ≡ caught_kind method.now handler }
{
    if handler.catch_type == 0 {
        Some(THROWABLE)
    } else {
        method.kind_named(handler.catch_type)
    }
}

/// Whether a frame with an object of a kind alone on the stack arrives at a place.
fn caught_arrives(
    method: &Within<'_>,
    frames: &Declared,
    frame: &TypeFrame,
    kind: u32,
    place: u32,
) -> bool
    ensures { result ≡ arrives method.now frames.now (record { locals = frame.now.locals; stack = Object kind ∷ []; unfinished = frame.now.unfinished }) place }
{
    match frames.at(place) {
        Some(there) => match there {
            Some(other) => frame.caught_goes_to(method.program, kind, other),
            None => false,
        },
        None => false,
    }
}

/// Whether a handler takes a frame: it catches a class of exceptions, and the frame with that alone on the stack arrives at it.
fn is_handled(method: &Within<'_>, frames: &Declared, frame: &TypeFrame, handler: Handler) -> bool
    ensures { result ≡ is_handled method.now frames.now frame.now handler }
{
    match caught_kind(method, handler) {
        Some(kind) => {
            kind_goes_to(method.program, kind, THROWABLE)
                && caught_arrives(method, frames, frame, kind, u32::from(handler.handler))
        }
        None => false,
    }
}

/// Whether each handler that covers a place takes a frame. Takes time in the number of the method's handlers, and for those that cover
/// the place in that of comparing frames.
pub(crate) fn all_handled(
    method: &Within<'_>,
    frames: &Declared,
    frame: &TypeFrame,
    pc: u32,
) -> bool
    ensures { result ≡ list_all (is_handled method.now frames.now frame.now) (filter (covers pc) method.now.body.handlers) }
{
    let handlers = method.body.handlers.as_slice();
    handlers
        .iter()
        .filter(|handler| covers(pc, **handler))
        .all(|handler| is_handled(method, frames, frame, *handler))
}
