//! Where a node is among all.

ghost use Rattle.std.specs.Prelude.{◌≡◌, ◌<◌, IfSome, IfNone, length, slice_index, false};
ghost use Rattle.std.specs.List.{AllPairs};
ghost use Rattle.bus_terms.specs.Flooding.{has};

use lwb_base::NodeId;

/// The place of this node among ascending ones. Returns `None` if and only if it is none of them.
pub fn place_of(ids: &[NodeId], node: NodeId) -> Option<usize>
    requires { AllPairs (λ a b. a < b) ids.now }
    ensures place { IfSome result (λ i. (i < length ids.now) × (slice_index ids.now i ≡ node)) }
    ensures none { IfNone result (has ids.now node ≡ false) }
{
    // Where the ids are 1, 2 and so on, as they mostly are, it is there.
    let likely = usize::from(node.number()) - 1;
    if likely < ids.len() && ids[likely] == node {
        return Some(likely);
    }
    match ids.binary_search(&node) {
        Ok(place) => Some(place),
        Err(_) => None,
    }
}
