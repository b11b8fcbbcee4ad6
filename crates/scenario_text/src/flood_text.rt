//! A flood as its text states it.

ghost use Rattle.std.specs.Prelude.{◌≡◌};
ghost use Rattle.scenario_text.specs.FloodParts.{IsSound, IsSealed};

use crate::network::Network;
use crate::{NodeLine, RateLine};
use link_trace::Trace;
use lwb_base::NodeId;
use std::marker::Model;

/// A flood by its text: how often a node sends at most, the nodes with their clocks, the trace of its slot, and
/// the node that starts it. Contracts see its parts.
#[derive(Drop)]
pub struct FloodText {
    sends: u8,
    nodes: Vec<NodeLine>,
    rates: Vec<RateLine>,
    trace: Trace,
    start: NodeId,
}

impl Model for FloodText {
    ghost use Rattle.scenario_text.specs.FloodParts.{FloodParts, IsSound, IsSealed};

    ghost Value = { FloodParts };

    ghost view = { λ t. record { sends = t.sends; nodes = t.nodes.items; rates = t.rates.items; trace = t.trace.lines; start = t.start } };

    ghost invariant = { λ t. IsSound (record {
      sends = t.sends;
      nodes = t.nodes.items;
      rates = t.rates.items;
      trace = t.trace.lines;
      start = t.start;
    }) × IsSealed t.trace t.nodes.items };
}

impl FloodText {
    /// A text of these nodes with their links and losses, which that node starts.
    pub(crate) fn of_network(network: Network, start: NodeId) -> FloodText
        requires { IsSound (record { sends = network.sends; nodes = network.nodes; rates = network.rates; trace = network.trace; start = start }) }
        ensures { result ≡ record { sends = network.sends; nodes = network.nodes; rates = network.rates; trace = network.trace; start = start } }
    {
        let Network {
            sends,
            nodes,
            rates,
            trace,
        } = network;
        FloodText {
            sends,
            nodes,
            rates,
            trace,
            start,
        }
    }

    /// How often a node sends at most, 1 to 4.
    pub fn sends(&self) -> u8
        ensures value { result ≡ self.now.sends }
        ensures sound { IsSound self.now }
    {
        self.sends
    }

    /// The nodes, 2 to 64, by ascending id.
    pub fn nodes(&self) -> &[NodeLine]
        ensures value { result.now ≡ self.now.nodes }
        ensures sound { IsSound self.now }
    {
        &self.nodes
    }

    /// The changes of the clocks' rates, by node and tick, each within the drift bound, in millionths.
    pub fn rates(&self) -> &[RateLine]
        ensures { result.now ≡ self.now.rates }
    {
        &self.rates
    }

    /// The links of the nodes, and where they are lost in the slot of the flood. It is sealed with the nodes.
    pub fn trace(&self) -> &Trace
        ensures value { result.now.lines ≡ self.now.trace }
        ensures sealed { IsSealed result.now self.now.nodes }
    {
        &self.trace
    }

    /// The starting node, which is one of the nodes.
    pub fn start(&self) -> NodeId
        ensures value { result ≡ self.now.start }
        ensures sound { IsSound self.now }
    {
        self.start
    }
}
