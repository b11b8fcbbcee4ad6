//! To which nodes the transmissions of a log come.

ghost use Rattle.std.specs.Prelude.{◌≡◌, IfOk, map};
ghost use Rattle.link_trace.specs.Masks.{AreNodes};
ghost use Rattle.radio_model.specs.Reaches.{AreSearchable};
ghost use Rattle.air_check.specs.ReceiverMasks.{AreReceivers};

use link_trace::NodeSet;
use lwb_base::{Memory, NodeId};
use radio_model::Transmissions;
use scenario_text::Scenario;
use std::alloc::Global;

/// For each of the transmissions the nodes that receive it if they are tuned to it. `Err` means out of memory.
pub(crate) fn receiver_masks(
    alloc: Global,
    s: &Scenario,
    nodes: &[NodeId],
    sent: &Transmissions,
) -> Result<Vec<NodeSet>, Memory>
    requires nodes { AreNodes nodes.now }
    requires ids { nodes.now ≡ map (λ n. n.node) s.now.nodes }
    requires searchable { AreSearchable s.now.profile s.now.trace nodes.now sent.now }
    ensures { IfOk result (λ masks. AreReceivers s.now nodes.now sent.now.sent masks.items) }
{
    let profile = s.profile();
    let mut masks = Vec::new(alloc);
    for x in sent.sent() {
        let mask = sent.receivers(&profile, s.trace(), nodes, x);
        masks.push(mask)?;
    }
    Ok(masks)
}
