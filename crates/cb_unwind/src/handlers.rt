// Handlers of exceptions.
ghost use Rattle.std.specs.Prelude.{◌≡◌, ◌<◌, ◌==◌, length, option_map, slice_get, true, Some, if◌then◌else◌};
ghost use Rattle.std.specs.List.{find};
ghost use Rattle.cb_link.specs.Named.{handlers_at, kind_at};
ghost use Rattle.cb_machine.specs.Unwinding.{takes};
ghost use Rattle.cb_unwind.specs.Unwound.{handler_for, is_caught_as};

use cb_classfile::Handler;
use cb_link::Program;

/// The place of the handler of a method that takes an exception of a kind at a place: of the first in the order of its table that covers
/// the place, and whose class the exception is an instance of (JVMS §2.10, §4.7.3). Takes time in the handlers.
pub fn handler_for(program: &Program, method: u32, pc: u32, kind: u32) -> Option<u32>
    requires method { method < length program.now.methods }
    requires kind { kind < length program.now.kinds }
    ensures { result ≡ handler_for program.now method pc kind }
{
    let class = program.class_of(method);
    first_that_takes(program, class, handlers_of(program, method), pc, kind)
}

/// The handlers of a method, in the order of its table.
fn handlers_of(program: &Program, method: u32) -> &[Handler]
    requires { method < length program.now.methods }
    ensures { result.now ≡ handlers_at program.now method }
{
    match &program.method(method).body {
        Some(body) => body.handlers.as_slice(),
        None => &[],
    }
}

/// The place of the first handler of a class that takes an exception of a kind at a place.
fn first_that_takes(
    program: &Program,
    class: u32,
    handlers: &[Handler],
    pc: u32,
    kind: u32,
) -> Option<u32>
    requires { kind < length program.now.kinds }
    ensures { result ≡ option_map (λ handler. handler.handler)
        (find (takes program.now (Some class) pc kind) handlers.now) }
{
    for handler in handlers {
        if takes(program, class, handler, pc, kind) {
            return Some(u32::from(handler.handler));
        }
    }
    None
}

/// Whether a handler of a class takes an exception of a kind at a place.
fn takes(program: &Program, class: u32, handler: &Handler, pc: u32, kind: u32) -> bool
    requires { kind < length program.now.kinds }
    ensures { result ≡ takes program.now (Some class) pc kind handler.now }
{
    let covers = u32::from(handler.start) <= pc && pc < u32::from(handler.end);
    covers && takes_kind(program, class, handler.catch_type, kind)
}

/// Whether a handler of a class with this type takes an exception of a kind: one without a type takes all.
fn takes_kind(program: &Program, class: u32, catch_type: u16, kind: u32) -> bool
    requires { kind < length program.now.kinds }
    ensures { result ≡ (if catch_type == 0 then true else is_caught_as program.now kind
        (kind_at program.now class catch_type)) }
{
    if catch_type == 0 {
        return true;
    }
    match program.kind_at(class, catch_type) {
        Some(other) => program.instance(kind, other),
        None => false,
    }
}
