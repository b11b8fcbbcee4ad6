//! Where a node is idle.

ghost use Rattle.std.specs.Prelude.{◌≡◌, Some};
ghost use Rattle.air_log.specs.Idling.{idle_as, idle_with};

use bus_rules::Tune;
use lwb_base::{NodeId, Rank};

/// A node is idle in a frame: it hosts a rank above 0, and its next round is in a later frame.
#[derive(Clone, Copy, Debug, PartialEq, Eq)]
pub struct Idle {
    /// The frame.
    pub frame: u32,
    /// The node.
    pub node: NodeId,
    /// The rank that it hosts.
    pub rank: Rank,
}

impl Idle {
    /// The node in the frame, after whose script lines it has this tune, or none where it is off. Returns `None` if and only if
    /// it is not idle.
    pub fn with_tune(frame: u32, node: NodeId, tune: Option<Tune>) -> Option<Idle>
        ensures { result ≡ idle_as frame node tune }
    {
        let rank = hosted_rank(tune?, frame)?;
        Some(Idle { frame, node, rank })
    }
}

// The rank that is hosted with this tune, where a node is idle with it in the frame.
fn hosted_rank(tune: Tune, frame: u32) -> Option<Rank>
    ensures { result ≡ idle_with frame (Some tune) }
{
    match tune {
        Tune::Host(rank, due) => {
            if rank.number() == 0 || due <= frame {
                return None;
            }
            Some(rank)
        }
        Tune::Scan(_, _) | Tune::Hold(_, _) => None,
    }
}
