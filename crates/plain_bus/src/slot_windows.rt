//! The windows of all nodes in a slot open.

ghost use Rattle.std.specs.Prelude.{◌≡◌, ◌≤◌, All, OnOk, map};
ghost use Rattle.lwb_base.specs.declared.limits.TheConstants.{LAST_FRAME};
ghost use Rattle.plain_bus.specs.BusNodes.{IsEarlyState, node_opened};
ghost use Rattle.plain_bus.specs.SlotFloods.{seen_window, seen_of};

use crate::node::BusNode;
use crate::window::Window;
use bus_rules::Part;
use lwb_base::{Memory, Rank};

/// A slot of this part opens at all nodes in the round of this rank and frame, which is at most `LAST_FRAME`. The windows come in
/// the place of what `windows` had, in the order of the nodes. `Err` means out of memory.
pub fn open_all(
    nodes: &mut [BusNode],
    windows: &mut Vec<Window>,
    rank: Rank,
    frame: u32,
    part: &Part,
) -> Result<(), Memory>
    requires frame { frame ≤ LAST_FRAME }
    requires early { All (λ n. IsEarlyState frame n.state) nodes.old }
    ensures early { OnOk result (All (λ n. IsEarlyState frame n.state) nodes.new) }
    ensures nodes { OnOk result (nodes.new ≡ map (node_opened rank frame part.now) nodes.old) }
    ensures windows { OnOk result (map seen_window windows.new.items ≡ map (seen_of rank frame part.now) nodes.old) }
{
    windows.clear();
    for node in nodes.iter_mut() {
        node.open_into(windows, rank, frame, part)?;
    }
    Ok(())
}
