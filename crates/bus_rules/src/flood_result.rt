//! The result of one flood.

ghost use Rattle.std.specs.Prelude.{◌≡◌};

use lwb_base::NodeId;
use std::marker::Model;

/// What one flood gives: who accepts the packet, and how often it was sent.
#[derive(Drop)]
pub struct FloodResult {
    accepts: Vec<(NodeId, u8)>,
    sent: u32,
}

impl Model for FloodResult {
    ghost use Rattle.bus_rules.specs.FloodOutcome.{Outcome};

    ghost Value = { Outcome };

    ghost view = { λ r. record { accepts = r.accepts.items; sent = r.sent } };
}

impl FloodResult {
    /// A flood in which these nodes accept, each with a step, 0 to `LAST_STEP`, and with this number of transmissions in all.
    pub fn new(accepts: Vec<(NodeId, u8)>, sent: u32) -> FloodResult
        ensures { result ≡ record { accepts = accepts.items; sent = sent } }
    {
        FloodResult { accepts, sent }
    }

    /// The accepting nodes, each with the step of its acceptance, 0 to `LAST_STEP`.
    pub fn accepts(&self) -> &[(NodeId, u8)]
        ensures { result.now ≡ self.now.accepts }
    {
        &self.accepts
    }

    /// The number of all transmissions.
    pub fn sent(&self) -> u32
        ensures { result ≡ self.now.sent }
    {
        self.sent
    }
}
