//! The script of a scenario.

use bus_rules::Act;
use lwb_base::NodeId;

/// At the start of that frame the node has to do this.
#[derive(Drop)]
pub struct ScriptLine {
    /// The frame, 0 to 4,095 and below the number of frames.
    pub frame: u32,
    /// The node.
    pub node: NodeId,
    /// What it has to do.
    pub act: Act,
}
