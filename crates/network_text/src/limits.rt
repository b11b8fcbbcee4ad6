//! Limits of a network text.

ghost use Rattle.std.specs.Prelude.{◌≡◌};
ghost use Rattle.network_text.specs.declared.limits.TheConstants.{GREATEST_RATIO, MOST_RATIO_LINES};

/// The ratio of a link that always passes, in millionths: the greatest there is.
pub const GREATEST_RATIO: u32 = 1_000_000;

/// The most lines with ratios.
pub const MOST_RATIO_LINES: u32 = 100_000;

/// The numbers of the rules, which no other clause tells: definitions cite the constants.
pub fn ratios_have_their_numbers()
    ensures ratio { GREATEST_RATIO ≡ 1000000 }
    ensures lines { MOST_RATIO_LINES ≡ 100000 }
{}
