//! Numbers of two bytes: one law, as the contract of a function that does nothing.

ghost use Rattle.std.specs.Prelude.{◌≡◌, ◌<◌, ◌/◌, ◌%◌, ℕ, [], ◌∷◌};
ghost use Rattle.lwb_packets.specs.TwoBytes.{two_bytes, number_of_two};

/// Two bytes are the bytes of their number, and a number is that of its two bytes.
pub fn two_bytes_are_their_number()
    ensures bytes { (high low : ℕ) → high < 256 → low < 256 → two_bytes (number_of_two high low) ≡ high ∷ low ∷ [] }
    ensures number { (n : ℕ) → number_of_two (n / 256) (n % 256) ≡ n }
{}
