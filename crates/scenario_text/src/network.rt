//! What floods and scenarios have in common.

use crate::{NodeLine, RateLine};
use link_trace::Trace;
use std::marker::Model;

/// What both texts have: how often a node sends at most, the nodes by id, their rates by node and tick, and the trace,
/// which is sealed with the nodes.
#[derive(Drop)]
pub struct Network {
    pub sends: u8,
    pub nodes: Vec<NodeLine>,
    pub rates: Vec<RateLine>,
    pub trace: Trace,
}

impl Model for Network {
    ghost use Rattle.scenario_text.specs.Network.{Parts};

    ghost Value = { Parts };

    ghost view = { λ n. record { sends = n.sends; nodes = n.nodes.items; rates = n.rates.items; trace = n.trace.lines } };

    ghost use Rattle.scenario_text.specs.FloodParts.{IsSealed};

    ghost invariant = { λ n. IsSealed n.trace n.nodes.items };
}
