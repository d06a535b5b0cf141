// Values as they lie in slots.
ghost use Rattle.std.specs.Prelude.{◌≡◌, ◌^◌, ◌%◌, ℕ};
ghost use Rattle.std.specs.Int.{cast_signed, w32, w64};
ghost use Rattle.cb_frames.specs.Entries.{referent};
ghost use Rattle.cb_frames.specs.Slots.{value_in, value_of};
ghost use Rattle.cb_frames.specs.Tops.{is_long};

use cb_plain::Value;

/// What a slot holds.
#[derive(Clone, Copy, Debug, Drop, Eq, PartialEq)]
pub(crate) enum Kind {
    Int,
    Long,
    Ref,
}

/// A value by its kind and a word: an int has its 32 bits there, a long its 64 bits, and a reference its place.
#[derive(Clone, Copy, Debug, Drop, Eq, PartialEq)]
pub(crate) struct Slot {
    pub(crate) kind: Kind,
    pub(crate) word: u64,
}

/// The slot that holds a value.
#[inline(always)]
pub(crate) fn slot_of(value: Value) -> Slot
    ensures { value_of result ≡ value }
{
    match value {
        Value::Int(number) => Slot {
            kind: Kind::Int,
            word: u64::from(number.cast_unsigned()),
        },
        Value::Long(number) => Slot {
            kind: Kind::Long,
            word: number.cast_unsigned(),
        },
        Value::Ref(to) => Slot {
            kind: Kind::Ref,
            word: to,
        },
    }
}

/// The value of a kind that a word holds.
#[inline(always)]
pub(crate) fn value_in(kind: Kind, word: u64) -> Value
    ensures { result ≡ value_in kind word }
{
    match kind {
        Kind::Int => Value::Int(int_in(word)),
        Kind::Long => Value::Long(long_in(word)),
        Kind::Ref => Value::Ref(word),
    }
}

/// The int that a word holds.
#[inline(always)]
pub(crate) fn int_in(word: u64) -> i32
    ensures { result ≡ cast_signed w32 (word % 2 ^ 32) }
{
    ((word % (1 << 32)) as u32).cast_signed()
}

/// The long that a word holds.
#[inline(always)]
pub(crate) fn long_in(word: u64) -> i64
    ensures { result ≡ cast_signed w64 word }
{
    word.cast_signed()
}

/// What a value of a kind refers to, 0 where it is null or a number.
#[inline(always)]
pub(crate) fn reference_in(kind: Kind, word: u64) -> u64
    ensures { result ≡ referent (value_in kind word) }
{
    match kind {
        Kind::Ref => word,
        Kind::Int | Kind::Long => 0,
    }
}

/// Whether values of a kind are longs.
#[inline(always)]
pub(crate) fn is_long(kind: Kind) -> bool
    ensures { (word : ℕ) → result ≡ is_long (value_in kind word) }
{
    match kind {
        Kind::Long => true,
        Kind::Int | Kind::Ref => false,
    }
}
