//! A scenario over links that replace its own trace.

ghost use Rattle.std.specs.Prelude.{◌≡◌};
ghost use Rattle.scenario_text.specs.OverLines.{over, IsOverScenario};
ghost use Rattle.link_trace.specs.Sealed.{traced};
ghost use Rattle.scenario_text.specs.FloodParts.{IsSealed};

use crate::{NodeLine, Scenario, ScriptLine};
use link_trace::Links;
use lwb_base::{NodeId, Profile};
use std::marker::Model;

/// A scenario over links that replace its own trace, and are sealed with its nodes. Contracts see what the scenario says, with
/// the lines of the links for its trace.
#[derive(Drop)]
pub struct ScenarioOver<'a, M: Links> {
    scenario: &'a Scenario,
    links: &'a M,
}

impl<'a, M: Links> Model for ScenarioOver<'a, M> {
    ghost use Rattle.scenario_text.specs.OverLines.{over};
    ghost use Rattle.link_trace.specs.Sealed.{traced};
    ghost use Rattle.scenario_text.specs.FloodParts.{IsSealed};
    ghost use Rattle.scenario_text.specs.ScenarioParts.{ScenarioParts};

    ghost Value = { ScenarioParts };

    ghost view = { λ s. over s.scenario.now (M.lines s.links.now) };

    ghost invariant = { λ s. IsSealed (traced (M.lines s.links.now) (M.nodes s.links.now)) s.scenario.now.nodes };
}

impl<'a, M: Links> ScenarioOver<'a, M> {
    /// The scenario over these links, which are sealed with its nodes.
    pub fn new(scenario: &'a Scenario, links: &'a M) -> ScenarioOver<'a, M>
        requires { IsSealed (traced (M.lines links.now) (M.nodes links.now)) scenario.now.nodes }
        ensures { result ≡ over scenario.now (M.lines links.now) }
    {
        ScenarioOver { scenario, links }
    }

    /// The profile.
    pub fn profile(&self) -> Profile
        ensures value { result ≡ self.now.profile }
        ensures said { IsOverScenario self.now }
    {
        self.scenario.profile()
    }

    /// The number of frames, 1 to 4,096.
    pub fn frames(&self) -> u32
        ensures value { result ≡ self.now.frames }
        ensures said { IsOverScenario self.now }
    {
        self.scenario.frames()
    }

    /// How often a node sends at most in one flood, 1 to 4.
    pub fn sends(&self) -> u8
        ensures { result ≡ self.now.sends }
    {
        self.scenario.sends()
    }

    /// The nodes, 2 to 64, by ascending id.
    pub fn nodes(&self) -> &[NodeLine]
        ensures { result.now ≡ self.now.nodes }
    {
        self.scenario.nodes()
    }

    /// The hosts, 1 to 4, by rank.
    pub fn hosts(&self) -> &[NodeId]
        ensures value { result.now ≡ self.now.hosts }
        ensures said { IsOverScenario self.now }
    {
        self.scenario.hosts()
    }

    /// What the nodes have to do, by frame, in the order of the text.
    pub fn script(&self) -> &[ScriptLine]
        ensures value { result.now ≡ self.now.script }
        ensures said { IsOverScenario self.now }
    {
        self.scenario.script()
    }

    /// The links, which are sealed with the nodes.
    pub fn links(&self) -> &M
        ensures value { M.lines result.now ≡ self.now.trace }
        ensures sealed { IsSealed (traced (M.lines result.now) (M.nodes result.now)) self.now.nodes }
    {
        self.links
    }
}
