//! Words of the command line.

ghost use Rattle.std.specs.Prelude.{◌≡◌, ◌↔◌, ◌∷◌, [], IsTrue, map, string_bytes};

/// Whether the words are this one alone.
pub fn is_word(words: &[String], word: &[u8]) -> bool
    ensures { IsTrue result ↔ (map string_bytes words.now ≡ word.now ∷ []) }
{
    words.len() == 1 && words[0].as_bytes() == word
}
