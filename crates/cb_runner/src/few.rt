// Whether words can be handed to the top call.
ghost use Rattle.std.specs.Prelude.{◌↔◌, map, string_bytes, IsTrue};
ghost use Rattle.cb_runner.specs.Words.{AreFew};

/// So many words are too many, and so many bytes of one.
const TOO_MANY: usize = 1 << 31;

/// Whether there are fewer than 2^31 words, each of fewer than 2^31 bytes. Takes time in the words.
pub fn are_few(words: &[String]) -> bool
    ensures { IsTrue result ↔ AreFew (map string_bytes words.now) }
{
    words.len() < TOO_MANY && words.iter().all(|word| word.len() < TOO_MANY)
}
