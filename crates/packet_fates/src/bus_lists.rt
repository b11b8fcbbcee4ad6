//! The lists of a run that tell what became of its packets.

use bus_rules::Delivery;
use bus_terms::{PutLine, SentPacket};
use lwb_base::NodeId;
use scenario_text::ScriptLine;

/// The lists of one run of a scenario on the bus.
#[derive(Clone, Copy)]
pub struct BusLists<'a> {
    /// The hosts of the scenario, by rank.
    pub hosts: &'a [NodeId],
    /// The lines of the script.
    pub script: &'a [ScriptLine],
    /// What its put lines queued, in their order.
    pub puts: &'a [PutLine],
    /// What was sent in the data slots.
    pub sent: &'a [SentPacket],
    /// What was delivered.
    pub deliveries: &'a [Delivery],
}
