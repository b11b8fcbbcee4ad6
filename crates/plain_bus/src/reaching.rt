//! Whom the senders of a step reach.

ghost use Rattle.std.specs.Prelude.{◌≡◌, ◌≤◌, length};
ghost use Rattle.lwb_base.specs.declared.limits.TheConstants.{MOST_NODES};
ghost use Rattle.plain_bus.specs.FloodMasks.{AreReached, traced};

use crate::station::Flood;
use link_trace::{Links, NodeSet};

/// Those of the nodes of `among` that one of the senders reaches in that step, where there are `count` nodes. A sender is asked
/// only for those that no other has reached.
pub fn reached_by<M: Links>(
    links: &M,
    flood: &Flood,
    step: u8,
    senders: NodeSet,
    among: NodeSet,
    count: usize,
) -> NodeSet
    requires sealed { count ≡ length (M.nodes links.now) }
    requires few { length (M.nodes links.now) ≤ MOST_NODES }
    ensures { AreReached (traced (M.lines links.now) (M.nodes links.now)) flood.now step senders among result }
{
    let mut reached = NodeSet::EMPTY;
    let mut rest = senders;
    while !rest.is_empty() {
        let place = rest.lowest();
        if usize::from(place) >= count {
            return reached;
        }
        let left = among.except(reached);
        let more = links.to_mask_among(flood.frame, flood.slot, step, place, left);
        reached = reached.or(more);
        rest = rest.without(place);
    }
    reached
}
