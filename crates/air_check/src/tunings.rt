//! When a node is on a channel, found by a search in the tunings of a log.

ghost use Rattle.std.specs.Prelude.{◌≡◌, ◌<◌, ◌≤◌, ◌↔◌, true, IfSome, IfNone};
ghost use Rattle.radio_model.specs.Hearing.{Scene, TunedThrough};
ghost use Rattle.air_check.specs.Tunings.{AreTuned, IsUntil, begins_by as begins_with};

use lwb_base::{NodeId, Rank};
use radio_model::sending::Sending;

/// From its start on, a node is on the channel of a rank until this tick, by this tuning or one of the same node and
/// channel that began before it.
#[derive(Clone, Copy)]
pub(crate) struct Tuned {
    pub(crate) node: NodeId,
    pub(crate) rank: Rank,
    pub(crate) start: u64,
    pub(crate) until: u64,
}

/// Whether the node is on the channel of x all the time while x is on the air.
pub(crate) fn is_tuned_through(tuned: &[Tuned], node: NodeId, x: &Sending) -> bool
    ensures { (a : Scene) → AreTuned a.tunings tuned.now → (result ≡ true ↔ TunedThrough a node x.now) }
{
    let mut t = x.start;
    while t < x.end {
        match tuned_until(tuned, node, x.rank, t) {
            Some(until) => t = until,
            None => return false,
        }
    }
    true
}

// Until when the node is on the channel from t on. None where it isn't at t.
fn tuned_until(tuned: &[Tuned], node: NodeId, rank: Rank, t: u64) -> Option<u64>
    ensures until { (a : Scene) → AreTuned a.tunings tuned.now → IsUntil a node rank t result }
    ensures later { IfSome result (λ until. t < until) }
{
    let begun = tuned.partition_point(|e| begins_by(e, node, rank, t));
    if begun == 0 {
        return None;
    }
    until_by(tuned[begun - 1], node, rank, t)
}

// Until when the node is on the channel by this element. None where it is of another node or channel, or over at t.
fn until_by(last: Tuned, node: NodeId, rank: Rank, t: u64) -> Option<u64>
    ensures some { IfSome result (λ until. (last.node ≡ node) × (last.rank ≡ rank) × (t < until) × (until ≡ last.until)) }
    ensures none { IfNone result (last.node ≡ node → last.rank ≡ rank → last.until ≤ t) }
{
    if last.node == node && last.rank == rank && last.until > t {
        Some(last.until)
    } else {
        None
    }
}

// By node, then channel, then start, the tuning is no later than one of this node and channel at t.
fn begins_by(e: &Tuned, node: NodeId, rank: Rank, t: u64) -> bool
    ensures { result ≡ begins_with node rank t e.now }
{
    e.node < node || e.node == node && (e.rank < rank || e.rank == rank && e.start <= t)
}
