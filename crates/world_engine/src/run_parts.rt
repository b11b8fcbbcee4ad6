//! What is kept of a run after its engine.

use air_log::{Air, Idle, NodeCharge};
use bus_rules::{Delivery, DropLine};

/// The log of a run, and the lists that go with it.
#[derive(Drop)]
pub struct RunParts {
    /// The log.
    pub air: Air,
    /// What the nodes delivered, by frame, rank, slot and node.
    pub deliveries: Vec<Delivery>,
    /// The packets that were lost before they were queued, in the order of the text.
    pub drops: Vec<DropLine>,
    /// What the windows of each node count and in how many frames it scans, by ascending ids.
    pub charges: Vec<NodeCharge>,
    /// Where nodes were idle, by frame and then node.
    pub idle: Vec<Idle>,
}
