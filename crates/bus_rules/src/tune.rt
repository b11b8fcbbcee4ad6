//! What a node listens to, and how that changes at the end of a frame.

ghost use Rattle.std.specs.Prelude.{◌≡◌, ◌≤◌, ◌+◌, ◌%◌};
ghost use Rattle.lwb_base.specs.declared.limits.TheConstants.{LAST_FRAME, MOST_RANKS};
ghost use Rattle.bus_rules.specs.Tuning.{next_tune, HasWaited};

use lwb_base::{QUIET_FRAMES, Rank, SEARCH_FRAMES};

/// What a node listens to, or what it hosts.
#[derive(Clone, Copy, Debug, PartialEq, Eq)]
pub enum Tune {
    /// It scans this rank, and has waited this number of frames for it.
    Scan(Rank, u8),
    /// It holds a plan of this rank for the round of this frame.
    Hold(Rank, u32),
    /// It hosts this rank, and its next round is in this frame.
    Host(Rank, u32),
}

/// The tune after the end of a frame. `joined` says that a scanning node accepted the frame's opening schedule, `own` is the
/// rank that the node hosts, if it does, and `hosts` the number of ranks, 1 to 4. The frame is at most `LAST_FRAME`.
pub fn next_tune(t: Tune, frame: u32, joined: bool, own: Option<Rank>, hosts: u8) -> Tune
    requires hosts { (1 ≤ hosts) × (hosts ≤ MOST_RANKS) }
    requires frame { frame ≤ LAST_FRAME }
    requires waited { HasWaited t }
    ensures { result ≡ next_tune t frame joined own hosts }
{
    match t {
        Tune::Host(rank, due) => Tune::Host(rank, due),
        Tune::Hold(rank, due) => {
            if frame < due {
                Tune::Hold(rank, due)
            } else {
                Tune::Scan(rank, 0)
            }
        }
        Tune::Scan(rank, waited) => {
            if joined {
                Tune::Scan(rank, 0)
            } else if own == Some(rank) && waited + 1 == QUIET_FRAMES {
                Tune::Host(rank, frame + 1)
            } else if waited + 1 == SEARCH_FRAMES {
                Tune::Scan(rank_after(rank, hosts), 0)
            } else {
                Tune::Scan(rank, waited + 1)
            }
        }
    }
}

// The rank that is scanned after this one.
fn rank_after(rank: Rank, hosts: u8) -> Rank
    requires { (1 ≤ hosts) × (hosts ≤ MOST_RANKS) }
    ensures { result ≡ (rank + 1) % hosts }
{
    Rank::new((rank.number() + 1) % hosts).unwrap()
}
