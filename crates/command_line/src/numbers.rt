//! Numbers on the command line.

ghost use Rattle.std.specs.Prelude.{◌≡◌, ◌<◌, ◌^◌, ◌↔◌, ◌||◌, [], ◌∷◌, ℕ, Some, decimal, nat_lt, slice_index};
ghost use Rattle.std.specs.Str.{bytes_eq};

/// The number that a word spells: at most 13 digits, and no leading zero.
pub fn number(word: &str) -> Option<u64>
    ensures { (n : ℕ) → (result ≡ Some n) ↔ ((word.now ≡ decimal n) × (n < 10 ^ 13)) }
{
    if !is_plain(word.as_bytes()) {
        return None;
    }
    match word.parse::<u64>() {
        Ok(number) if number < 10_000_000_000_000 => Some(number),
        _ => None,
    }
}

// Whether the word has neither a sign nor a leading zero.
fn is_plain(word: &[u8]) -> bool
    ensures { result ≡ (bytes_eq word.now (48 ∷ []) || nat_lt 48 (slice_index word.now 0)) }
{
    match word {
        [b'0'] => true,
        [first, ..] => *first > b'0',
        [] => false,
    }
}
