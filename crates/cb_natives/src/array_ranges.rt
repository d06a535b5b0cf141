// The ranges of arrays between which `System.arraycopy` copies (Java SE 8 API, java.lang.System).
ghost use Rattle.std.specs.Prelude.{◌≡◌, ◌∷◌, [], IfSome, length};
ghost use Rattle.cb_heap.specs.Reading.{serial_of};
ghost use Rattle.cb_library.specs.declared.native.Native.TheVariants as natives;
ghost use Rattle.cb_link.specs.Having.{IsBelow};
ghost use Rattle.cb_machine.specs.Copying.{array_native, same_basic};
ghost use Rattle.cb_plain.specs.declared.value.Value.TheVariants as values;
ghost use Rattle.cb_natives.specs.ArrayRanges.{DecidesRanges, common_elements, elements_at};
ghost use Rattle.cb_natives.specs.MakingArrays.{IsOfKind};

use crate::Exception;
use crate::own_ranges::range_in;
use cb_heap::Store;
use cb_kinds::Basic;
use cb_link::Program;

/// So many words of the array at a place, from one on, that are copied to a word of another array, or of its own, and behind it. The elements
/// there are these.
#[derive(Clone, Copy, Debug, Drop)]
pub struct Ranges {
    pub source: u64,
    pub start: u32,
    pub to: u64,
    pub at: u32,
    pub count: u32,
    pub element: Basic,
}

/// Which ranges a call means; or a NullPointerException where one of the arrays is null, an ArrayStoreException where they aren't arrays of
/// one base type or both of references, and an ArrayIndexOutOfBoundsException where one of them is too short. Constant in time.
pub(crate) fn ranges_of<S: Store>(
    program: &Program,
    store: &S,
    source: u64,
    from: i32,
    to: u64,
    at: i32,
    count: i32,
) -> Result<Ranges, Exception>
    requires source { (serial_of (S.storage store.now).index source ≡ 0 → ⊥) → IsOfKind program.now (S.storage store.now).kept (serial_of (S.storage store.now).index source) }
    requires target { (serial_of (S.storage store.now).index to ≡ 0 → ⊥) → IsOfKind program.now (S.storage store.now).kept (serial_of (S.storage store.now).index to) }
    ensures { DecidesRanges program.now (S.storage store.now).kept (S.storage store.now).index (λ call. array_native call natives.SystemArraycopy (values.Ref (serial_of (S.storage store.now).index source) ∷ values.Int from ∷ values.Ref (serial_of (S.storage store.now).index to) ∷ values.Int at ∷ values.Int count ∷ [])) result }
{
    if source == 0 {
        return Err(Exception::NullPointer);
    }
    if to == 0 {
        return Err(Exception::NullPointer);
    }
    let Some(element) = common_elements(program, store, source, to) else {
        return Err(Exception::ArrayStore);
    };
    let Some((start, size)) = range_in(from, count, store.length(source)) else {
        return Err(Exception::ArrayIndexOutOfBounds);
    };
    let Some((place, _)) = range_in(at, count, store.length(to)) else {
        return Err(Exception::ArrayIndexOutOfBounds);
    };
    Ok(Ranges {
        source,
        start,
        to,
        at: place,
        count: size,
        element,
    })
}

/// The elements of the second of two objects, where both are arrays of one base type, or both of references.
fn common_elements<S: Store>(program: &Program, store: &S, source: u64, to: u64) -> Option<Basic>
    requires source { IsOfKind program.now (S.storage store.now).kept (serial_of (S.storage store.now).index source) }
    requires target { IsOfKind program.now (S.storage store.now).kept (serial_of (S.storage store.now).index to) }
    ensures is { result ≡ common_elements (elements_at program.now (S.storage store.now).kept (serial_of (S.storage store.now).index source)) (elements_at program.now (S.storage store.now).kept (serial_of (S.storage store.now).index to)) }
    ensures within { IfSome result (IsBelow (length program.now.kinds)) }
{
    let Some(one) = program.element(store.kind(source)) else {
        return None;
    };
    let Some(other) = program.element(store.kind(to)) else {
        return None;
    };
    if same_basic(one, other) {
        Some(other)
    } else {
        None
    }
}

/// Whether elements are of one base type, or both references.
fn same_basic(one: Basic, other: Basic) -> bool
    ensures { result ≡ same_basic one other }
{
    matches!(
        (one, other),
        (Basic::Boolean, Basic::Boolean)
            | (Basic::Byte, Basic::Byte)
            | (Basic::Char, Basic::Char)
            | (Basic::Short, Basic::Short)
            | (Basic::Int, Basic::Int)
            | (Basic::Long, Basic::Long)
            | (Basic::Reference(_), Basic::Reference(_))
    )
}
