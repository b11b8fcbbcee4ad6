//! What came of the returns of a scenario.

ghost use Rattle.std.specs.Prelude.{◌≡◌};
ghost use Rattle.host_return.specs.Returned.{count_of_node};

use air_log::Air;
use lwb_base::{NodeId, Rank};
use scenario_text::Scenario;
use std::marker::Model;

/// A backup host goes back: it restarts in the frame after the one in which it received a schedule on a lower channel.
#[derive(Clone, Copy, Debug, PartialEq, Eq)]
pub struct Return {
    /// The frame in which it received the schedule.
    pub frame: u32,
    /// The backup host.
    pub node: NodeId,
    /// The rank on whose channel it received it.
    pub rank: Rank,
}

/// A scenario with the script lines of its returns, and the log of a run of it. Contracts see the parts.
#[derive(Drop)]
pub struct Returned {
    pub(crate) scenario: Scenario,
    pub(crate) returns: Vec<Return>,
    pub(crate) air: Air,
    pub(crate) counts: Vec<(NodeId, u32)>,
}

impl Model for Returned {
    ghost use Rattle.host_return.specs.Returned.{ReturnedParts};

    ghost Value = { ReturnedParts };

    ghost view = { λ r. record { scenario = r.scenario; returns = r.returns.items; air = r.air; counts = r.counts.items } };
}

impl Returned {
    /// The scenario that was read, with the script lines of all returns.
    pub fn scenario(&self) -> &Scenario
        ensures { result.now ≡ self.now.scenario }
    {
        &self.scenario
    }

    /// The returns, at most 16, in the order in which they were taken.
    pub fn returns(&self) -> &[Return]
        ensures { result.now ≡ self.now.returns }
    {
        &self.returns
    }

    /// The log of a run of that scenario.
    pub fn air(&self) -> &Air
        ensures { result.now ≡ self.now.air }
    {
        &self.air
    }

    /// In how many frames of that run the node is idle, and probes a lower channel. It is 0 for an id that is no node's.
    pub fn probes(&self, node: NodeId) -> u32
        ensures { result ≡ count_of_node self.now.counts node }
    {
        for count in &self.counts {
            if count.0 == node {
                return count.1;
            }
        }
        0
    }

    /// The log alone.
    pub fn into_air(self) -> Air
        ensures { result ≡ self.air }
    {
        let Returned { air, .. } = self;
        air
    }
}
