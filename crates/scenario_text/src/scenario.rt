//! A scenario and its parts.

ghost use Rattle.std.specs.Prelude.{◌≡◌};
ghost use Rattle.scenario_text.specs.Canonical.{IsSaid};
ghost use Rattle.scenario_text.specs.FloodParts.{IsSealed};
ghost use Rattle.scenario_text.specs.ScenarioGrammar.{IsScenario};

use crate::network::Network;
use crate::script::ScriptLine;
use crate::{NodeLine, RateLine};
use link_trace::Trace;
use lwb_base::{NodeId, Profile};
use std::marker::Model;

/// A scenario: the network and what happens to it, frame by frame, over the long horizon at most. Contracts see its parts.
#[derive(Drop)]
pub struct Scenario {
    profile: Profile,
    frames: u32,
    sends: u8,
    nodes: Vec<NodeLine>,
    rates: Vec<RateLine>,
    hosts: Vec<NodeId>,
    trace: Trace,
    script: Vec<ScriptLine>,
}

impl Model for Scenario {
    ghost use Rattle.scenario_text.specs.ScenarioParts.{ScenarioParts};

    ghost Value = { ScenarioParts };

    ghost view = { λ s. record {
      profile = s.profile;
      frames = s.frames;
      sends = s.sends;
      nodes = s.nodes.items;
      rates = s.rates.items;
      hosts = s.hosts.items;
      trace = s.trace.lines;
      script = s.script.items;
    } };

    ghost use Rattle.scenario_text.specs.ScenarioGrammar.{IsScenario};
    ghost use Rattle.scenario_text.specs.FloodParts.{IsSealed};

    ghost invariant = { λ s. IsScenario (record {
      profile = s.profile;
      frames = s.frames;
      sends = s.sends;
      nodes = s.nodes.items;
      rates = s.rates.items;
      hosts = s.hosts.items;
      trace = s.trace.lines;
      script = s.script.items;
    }) × IsSealed s.trace s.nodes.items };
}

impl Scenario {
    /// The scenario of these parts, which some text says.
    pub(crate) fn of_network(
        profile: Profile,
        frames: u32,
        network: Network,
        hosts: Vec<NodeId>,
        script: Vec<ScriptLine>,
    ) -> Scenario
        requires { IsScenario (record {
          profile = profile;
          frames = frames;
          sends = network.sends;
          nodes = network.nodes;
          rates = network.rates;
          hosts = hosts.items;
          trace = network.trace;
          script = script.items;
        }) }
        ensures { result ≡ record {
          profile = profile;
          frames = frames;
          sends = network.sends;
          nodes = network.nodes;
          rates = network.rates;
          hosts = hosts.items;
          trace = network.trace;
          script = script.items;
        } }
    {
        let Network {
            sends,
            nodes,
            rates,
            trace,
        } = network;
        Scenario {
            profile,
            frames,
            sends,
            nodes,
            rates,
            hosts,
            trace,
            script,
        }
    }

    /// The scenario of these parts, each list in its order. Their canonical text is accepted and says them, and the
    /// trace is sealed with the nodes. By `laws::parts_in_order_are_said` it suffices that they are in range and in
    /// order.
    pub fn of_parts(
        profile: &Profile,
        frames: u32,
        sends: u8,
        nodes: Vec<NodeLine>,
        rates: Vec<RateLine>,
        hosts: Vec<NodeId>,
        trace: Trace,
        script: Vec<ScriptLine>,
    ) -> Scenario
        requires said { IsSaid (record {
          profile = profile.now;
          frames = frames;
          sends = sends;
          nodes = nodes.items;
          rates = rates.items;
          hosts = hosts.items;
          trace = trace.lines;
          script = script.items;
        }) }
        requires sealed { IsSealed trace nodes.items }
        ensures { result ≡ record {
          profile = profile.now;
          frames = frames;
          sends = sends;
          nodes = nodes.items;
          rates = rates.items;
          hosts = hosts.items;
          trace = trace.lines;
          script = script.items;
        } }
    {
        Scenario {
            profile: *profile,
            frames,
            sends,
            nodes,
            rates,
            hosts,
            trace,
            script,
        }
    }

    /// The profile: the first, or the second with 0 to 4 contention slots.
    pub fn profile(&self) -> Profile
        ensures value { result ≡ self.now.profile }
        ensures said { IsScenario self.now }
    {
        self.profile
    }

    /// The number of frames, 1 to 4,096.
    pub fn frames(&self) -> u32
        ensures value { result ≡ self.now.frames }
        ensures said { IsScenario self.now }
    {
        self.frames
    }

    /// How often a node sends at most in one flood, 1 to 4.
    pub fn sends(&self) -> u8
        ensures { result ≡ self.now.sends }
    {
        self.sends
    }

    /// The nodes, 2 to 64, by ascending id.
    pub fn nodes(&self) -> &[NodeLine]
        ensures value { result.now ≡ self.now.nodes }
        ensures said { IsScenario self.now }
    {
        &self.nodes
    }

    /// The changes of the clocks' rates, by node and tick, each within the drift bound, in millionths.
    pub fn rates(&self) -> &[RateLine]
        ensures { result.now ≡ self.now.rates }
    {
        &self.rates
    }

    /// The hosts, 1 to 4, by rank.
    pub fn hosts(&self) -> &[NodeId]
        ensures value { result.now ≡ self.now.hosts }
        ensures said { IsScenario self.now }
    {
        &self.hosts
    }

    /// The links of the nodes, and in which steps they are lost, cut or captured. It is sealed with the nodes.
    pub fn trace(&self) -> &Trace
        ensures value { result.now.lines ≡ self.now.trace }
        ensures sealed { IsSealed result.now self.now.nodes }
    {
        &self.trace
    }

    /// What the nodes have to do, by frame, in the order of the text.
    pub fn script(&self) -> &[ScriptLine]
        ensures value { result.now ≡ self.now.script }
        ensures said { IsScenario self.now }
    {
        &self.script
    }
}
