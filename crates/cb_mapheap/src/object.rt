// Objects as words.
ghost use Rattle.std.specs.Prelude.{◌≡◌, ◌+◌, ◌-◌, ◌<◌, ◌≤◌, ◌^◌, ◌++◌, length, replicate, slice_index_or, vec_capacity};
ghost use Rattle.cb_plain.specs.State.{words_of};
ghost use Rattle.cb_mapheap.specs.Words.{blank_words};

// A kind stands below this in the first word of a header, and the length of the contents above it.
pub(crate) const HALF: u64 = 1 << 32;

/// The place of a word of an object, by where objects begin.
pub(crate) fn place_of(starts: &[usize], serial: u64, word: usize) -> usize
    requires low { 0 < serial }
    requires high { serial ≤ length starts.now }
    requires fits { slice_index_or starts.now (serial - 1) 0 + word < 2 ^ 64 }
    ensures { result ≡ slice_index_or starts.now (serial - 1) 0 + word }
{
    starts[serial as usize - 1] + word
}

/// Writes a new object behind all words.
pub(crate) fn write(words: &mut Vec<u64>, serial: u64, site: u32, kind: u32, size: u32)
    requires { length words.old.items + words_of size ≤ vec_capacity words.old }
    ensures items { words.new.items ≡ words.old.items ++ blank_words serial site kind size }
    ensures capacity { vec_capacity words.new ≡ vec_capacity words.old }
{
    words.push_reserved(kind as u64 + HALF * size as u64);
    words.push_reserved(serial);
    words.push_reserved(site as u64);
    write_zeros(words, size);
}

/// Writes so many zeros behind all words.
fn write_zeros(words: &mut Vec<u64>, count: u32)
    requires { length words.old.items + count ≤ vec_capacity words.old }
    ensures items { words.new.items ≡ words.old.items ++ replicate count 0 }
    ensures capacity { vec_capacity words.new ≡ vec_capacity words.old }
{
    for _ in 0..count {
        words.push_reserved(0);
    }
}
