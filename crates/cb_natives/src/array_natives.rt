// What natives do that give a copy of the words of an object, or keep one with one word more (Java SE 8 API, String.toCharArray,
// Object.clone, Throwable.addSuppressed and getSuppressed).
ghost use Rattle.std.specs.Prelude.{◌≡◌, ◌≤◌, ◌∷◌, [], length, map, true, IsTrue};
ghost use Rattle.cb_heap.specs.Kept.{contents_at, is_held};
ghost use Rattle.cb_heap.specs.Reading.{read_value, serial_of};
ghost use Rattle.cb_library.specs.declared.native.Native.TheVariants as natives;
ghost use Rattle.cb_link.specs.Having.{site_kinds};
ghost use Rattle.cb_machine.specs.Copying.{array_native};
ghost use Rattle.cb_plain.specs.declared.value.Value.TheVariants as values;
ghost use Rattle.cb_natives.specs.Given.{AnObject, AText, AThrowable, AreGiven, IsReference, have_sorts, roles, sorts_of};
ghost use Rattle.cb_natives.specs.MakingArrays.{AreLaid, DecidesCopy, HoldsSuppressed, MayClone, makes_array};

use crate::Exception;
use crate::arguments::{reference, references};
use crate::copy_placing::{SUPPRESSED, SUPPRESSED_SLOT};
use crate::copying::Copying;
use crate::held::serial_in;
use crate::own_reading::MOST_ELEMENTS;
use crate::placing_texts::MADE_CHARACTERS;
use cb_heap::Store;
use cb_library::Native;
use cb_link::Program;
use cb_plain::Value;

/// The slot in which a string has its array.
const CHARS: u32 = 0;

/// The kind of Cloneable.
const CLONEABLE: u32 = 3;

/// What a native copies, or throws. Constant in time.
pub(crate) fn copying_of<S: Store>(
    program: &Program,
    store: &S,
    native: Native,
    arguments: &[Value],
) -> Result<Copying, Exception>
    requires known { 32 ≤ length (site_kinds program.now) }
    requires makes { makes_array native ≡ true }
    requires sorts { have_sorts (sorts_of native) arguments.now ≡ true }
    requires given { AreGiven (S.storage store.now).kept (roles native) (map (read_value
        (S.storage store.now).index) arguments.now) }
    requires laid { AreLaid program.now (S.storage store.now).kept native (map (read_value
        (S.storage store.now).index) arguments.now) }
    ensures { DecidesCopy program.now (S.storage store.now).kept (S.storage store.now).index (λ call. array_native call native (map (read_value (S.storage store.now).index) arguments.now)) result }
{
    match native {
        Native::ObjectClone => clone_of(program, store, reference(arguments)),
        Native::StringToCharArray => chars_copy(program, store, reference(arguments)),
        Native::ThrowableAddSuppressed => {
            let (at, other) = references(arguments);
            with_suppressed(program, store, at, other)
        }
        Native::ThrowableGetSuppressed => { suppressed_copy(program, store, reference(arguments)) }
        _ => unreachable!(),
    }
}

/// `Object.clone()`.
fn clone_of<S: Store>(program: &Program, store: &S, at: u64) -> Result<Copying, Exception>
    requires object { IsReference (S.storage store.now).kept AnObject (serial_of (S.storage store.now).index at) }
    requires may { (serial_of (S.storage store.now).index at ≡ 0 → ⊥) → MayClone program.now (S.storage store.now).kept (serial_of (S.storage store.now).index at) }
    ensures { DecidesCopy program.now (S.storage store.now).kept (S.storage store.now).index (λ call. array_native call natives.ObjectClone (values.Ref (serial_of (S.storage store.now).index at) ∷ [])) result }
{
    if at == 0 {
        return Err(Exception::NullPointer);
    }
    let kind = store.kind(at);
    if !program.instance(kind, CLONEABLE) {
        return Err(Exception::CloneNotSupported);
    }
    Ok(Copying::Gives {
        from: at,
        site: store.site(at),
        kind,
        size: store.length(at),
    })
}

/// `String.toCharArray()`.
fn chars_copy<S: Store>(program: &Program, store: &S, at: u64) -> Result<Copying, Exception>
    requires known { 32 ≤ length (site_kinds program.now) }
    requires string { IsReference (S.storage store.now).kept AText (serial_of (S.storage store.now).index at) }
    ensures { DecidesCopy program.now (S.storage store.now).kept (S.storage store.now).index (λ call. array_native call natives.StringToCharArray (values.Ref (serial_of (S.storage store.now).index at) ∷ [])) result }
{
    if at == 0 {
        return Err(Exception::NullPointer);
    }
    let from = store.get_ref(at, CHARS);
    Ok(Copying::Gives {
        from,
        site: MADE_CHARACTERS,
        kind: program.site_kind(MADE_CHARACTERS),
        size: count_words(store, from),
    })
}

/// `Throwable.getSuppressed()`.
fn suppressed_copy<S: Store>(program: &Program, store: &S, at: u64) -> Result<Copying, Exception>
    requires known { 32 ≤ length (site_kinds program.now) }
    requires exception { IsReference (S.storage store.now).kept AThrowable (serial_of (S.storage store.now).index at) }
    requires holds { (serial_of (S.storage store.now).index at ≡ 0 → ⊥) → HoldsSuppressed (S.storage store.now).kept (serial_of (S.storage store.now).index at) }
    ensures { DecidesCopy program.now (S.storage store.now).kept (S.storage store.now).index (λ call. array_native call natives.ThrowableGetSuppressed (values.Ref (serial_of (S.storage store.now).index at) ∷ [])) result }
{
    if at == 0 {
        return Err(Exception::NullPointer);
    }
    let from = store.get_ref(at, SUPPRESSED_SLOT);
    Ok(Copying::Gives {
        from,
        site: SUPPRESSED,
        kind: program.site_kind(SUPPRESSED),
        size: count_words(store, from),
    })
}

/// `Throwable.addSuppressed(Throwable)`.
fn with_suppressed<S: Store>(
    program: &Program,
    store: &S,
    at: u64,
    other: u64,
) -> Result<Copying, Exception>
    requires exception { IsReference (S.storage store.now).kept AThrowable (serial_of (S.storage store.now).index at) }
    requires other { IsReference (S.storage store.now).kept AThrowable (serial_of (S.storage store.now).index other) }
    requires holds { (serial_of (S.storage store.now).index at ≡ 0 → ⊥) → HoldsSuppressed (S.storage store.now).kept (serial_of (S.storage store.now).index at) }
    ensures { DecidesCopy program.now (S.storage store.now).kept (S.storage store.now).index (λ call. array_native call natives.ThrowableAddSuppressed (values.Ref (serial_of (S.storage store.now).index at) ∷ values.Ref (serial_of (S.storage store.now).index other) ∷ [])) result }
{
    let _ = program;
    if other == 0 {
        return Err(Exception::NullPointer);
    }
    if serial_in(store, at) == serial_in(store, other) {
        return Err(Exception::IllegalArgument);
    }
    if at == 0 {
        return Err(Exception::NullPointer);
    }
    let from = store.get_ref(at, SUPPRESSED_SLOT);
    let size = count_words(store, from);
    if size >= MOST_ELEMENTS {
        return Err(Exception::NegativeArraySize);
    }
    Ok(Copying::Adds {
        at,
        from,
        other,
        size,
    })
}

/// How many words an object has, none where it is null.
fn count_words<S: Store>(store: &S, at: u64) -> u32
    requires { IsTrue (is_held (S.storage store.now).kept (serial_of (S.storage store.now).index at)) }
    ensures { result ≡ length (contents_at (S.storage store.now).kept (serial_of (S.storage store.now).index at)) }
{
    if at == 0 { 0 } else { store.length(at) }
}
