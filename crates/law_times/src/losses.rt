//! What rounds with losses cost the members of a rank.

ghost use Rattle.std.specs.Prelude.{◌≡◌};
ghost use Rattle.lwb_base.specs.declared.limits.TheConstants.{GREATEST_GAP};
ghost use Rattle.law_times.specs.Losses.{LossesCostFew, ScannersReturn};

use lwb_base::GREATEST_GAP;

/// The most frames for which a member scans for each round with losses, as long as no more than three of these follow one another; after
/// each round without losses it is a member again (`few`). A node that has scanned a rank for at most `SEARCH_FRAMES - GREATEST_GAP`
/// frames is a member after the next round of its host, if nothing is lost in that round's frame and the host is within reach (`back`).
pub fn lossy_round_frames() -> u8
    ensures value { result ≡ GREATEST_GAP }
    ensures few { LossesCostFew result }
    ensures back { ScannersReturn }
{
    GREATEST_GAP
}
