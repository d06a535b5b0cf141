// The text that is told of an exception without a handler.
ghost use Rattle.std.specs.Prelude.{◌≡◌, ◌∷◌, ◌++◌, ℕ, List, [], Option, Some, codes, length, map, suc, ◌<◌, IfNone, IfSome, IsErr};
ghost use Rattle.cb_heap.specs.Reading.{serial_of};
ghost use Rattle.cb_io.specs.Faults.{CountsFaults};
ghost use Rattle.cb_io.specs.Utf8.{utf8};
ghost use Rattle.cb_library.specs.declared.native.Native.TheVariants as natives;
ghost use Rattle.cb_link.specs.Program.{Linked};
ghost use Rattle.cb_machine.specs.Performing.{Call, gives_text, reference_at};
ghost use Rattle.cb_machine.specs.Texts.{text_native};
ghost use Rattle.cb_plain.specs.State.{Object};
ghost use Rattle.cb_plain.specs.Updates.{object_at};
ghost use Rattle.cb_plain.specs.declared.value.Value.TheVariants.{Ref};
ghost use Rattle.cb_safety.specs.Heap.{IsHeap};
ghost use Rattle.cb_safety.specs.Kinds.{IsOfKind, kinds_of};
ghost use Rattle.cb_safety.specs.Linked.{IsLinked};
ghost use Rattle.cb_verify.specs.Typed.{IsTyped};
ghost use Rattle.cb_verify.specs.Within.{kind_of_throwable};
ghost use Rattle.cb_interp.specs.Texts.{IsCut, IsPlain, IsString, IsTellable, TellsException, Writes};
ghost use Rattle.cb_interp.specs.Texts.{dotted, exception_units, message_slot, message_text};

use crate::printing::write_text;
use crate::string_text::{chars_of, write_units};
use cb_heap::Store;
use cb_io::{Failed, Sink, utf8_of, write_all};
use cb_link::Program;
use cb_safety::linked_has_natives;

/// What stands between the parts of a class's name in a class file (JVMS §4.2.1), where a dot stands when it is told.
const SLASH: u16 = b'/' as u16;

/// Writes what is told of an exception that found no handler, and a newline, as UTF-8: the name of its class, and behind it the message that
/// it has stored, if any (Java SE 8 API, Throwable.toString). After a failed call a proper prefix of it was taken. Takes no memory, and time in
/// the units.
pub fn write_exception<S: Store, O: Sink>(
    program: &Program,
    store: &S,
    at: u64,
    out: &mut O,
) -> Result<(), Failed>
    requires linked { IsLinked program.now }
    requires fits { IsTyped program.now }
    requires typed { IsHeap program.now (S.storage store.now).kept }
    requires there { IsOfKind program.now (kinds_of (S.storage store.now).kept) kind_of_throwable (serial_of
        (S.storage store.now).index at) }
    ensures told { (units : List ℕ) × TellsException program.now (S.storage store.now).kept (serial_of
        (S.storage store.now).index at) units × Writes (O.taken out.old) (O.taken out.new) (utf8 units ++ codes "\n") result }
    ensures cause { CountsFaults (O.faults out.old) (O.faults out.new) (IsErr result) }
{
    exceptions_are_told();
    tell(program, store, at, out)
}

/// Writes what is told of an exception, and a newline.
fn tell<S: Store, O: Sink>(program: &Program, store: &S, at: u64, out: &mut O) -> Result<(), Failed>
    requires { IsTellable program.now (S.storage store.now).kept (serial_of (S.storage store.now).index at) }
    ensures told { (units : List ℕ) × TellsException program.now (S.storage store.now).kept (serial_of
        (S.storage store.now).index at) units × Writes (O.taken out.old) (O.taken out.new) (utf8 units ++ codes "\n") result }
    ensures cause { CountsFaults (O.faults out.old) (O.faults out.new) (IsErr result) }
{
    let kind = store.kind(at);
    write_name(program.kind_name(kind), out)?;
    let message = store.get_ref(at, 0);
    write_message(store, message, out)
}

/// Writes a class's name as it is told (Java SE 8 API, Class.getName).
fn write_name<O: Sink>(name: &[u16], out: &mut O) -> Result<(), Failed>
    ensures written { Writes (O.taken out.old) (O.taken out.new) (utf8 (map dotted name.now)) result }
    ensures cause { CountsFaults (O.faults out.old) (O.faults out.new) (IsErr result) }
{
    let mut rest = name;
    while let Some((front, behind)) = at_slash(rest) {
        utf8_of(front, out)?;
        write_all(out, b".")?;
        rest = behind;
    }
    utf8_of(rest, out)
}

/// What stands before the first slash of a name and what stands behind it, or nothing where it has none.
fn at_slash(name: &[u16]) -> Option<(&[u16], &[u16])>
    ensures cut { IfSome result (λ parts. IsCut name.now parts.0.now parts.1.now) }
    ensures plain { IfNone result (map dotted name.now ≡ name.now) }
    ensures shorter { IfSome result (λ parts. length parts.1.now < length name.now) }
{
    let count = plain_count(name);
    match &name[count..] {
        [_, behind @ ..] => Some((&name[..count], behind)),
        [] => None,
    }
}

/// How many units stand before the first slash of a name, all where it has none.
fn plain_count(name: &[u16]) -> usize
    ensures { IsPlain name.now result }
{
    let mut count = 0;
    while count < name.len() && name[count] != SLASH {
        count += 1;
    }
    count
}

/// Writes what is told of a message, nothing where it is null, and a newline.
fn write_message<S: Store, O: Sink>(store: &S, at: u64, out: &mut O) -> Result<(), Failed>
    requires { (place : ℕ) → serial_of (S.storage store.now).index at ≡ suc place
        → IsString (S.storage store.now).kept (suc place) }
    ensures written { Writes (O.taken out.old) (O.taken out.new) (utf8 (message_text (S.storage store.now).kept
        (serial_of (S.storage store.now).index at)) ++ codes "\n") result }
    ensures cause { CountsFaults (O.faults out.old) (O.faults out.new) (IsErr result) }
{
    if at == 0 {
        return write_text(b"", true, out);
    }
    write_all(out, b": ")?;
    let array = chars_of(store, at);
    write_units(store, array, true, out)
}

/// In a typed heap of a linked program each object that may be held as a throwable has a text that is told, and what is read for it is there.
pub fn exceptions_are_told()
    ensures readable { (program : Linked) (objects : List (Option Object)) (serial : ℕ)
        → IsLinked program → IsTyped program → IsHeap program objects
        → IsOfKind program (kinds_of objects) kind_of_throwable serial
        → IsTellable program objects serial }
    ensures told { (program : Linked) (objects : List (Option Object)) (serial : ℕ)
        → IsLinked program → IsTyped program → IsHeap program objects
        → IsOfKind program (kinds_of objects) kind_of_throwable serial
        → (units : List ℕ) × TellsException program objects serial units }
{
    linked_has_natives();
}

/// What is told of an exception is the text of the string that the library's `Throwable.toString` gives where it is given the message that
/// the exception has stored.
pub fn exceptions_say_their_text()
    ensures { (call : Call) (place message : ℕ) (exception : Object) (units : List ℕ)
        → object_at call.state (suc place) ≡ Some exception
        → reference_at exception message_slot ≡ Some message
        → exception_units call.machine.program call.state exception ≡ Some units
        → text_native call natives.ThrowableSay (Ref (suc place) ∷ Ref message ∷ [])
        ≡ gives_text call units }
{}
