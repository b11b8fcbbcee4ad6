//! The energy of all nodes of a run.

ghost use Rattle.std.specs.Prelude.{◌≡◌, ◌<◌, IfOk, true, length, get_or};
ghost use Rattle.scenario_text.specs.FloodParts.{knows};
ghost use Rattle.scenario_text.specs.ScenarioFacts.{IsSoundScenario};
ghost use Rattle.scenario_text.specs.ScenarioGrammar.{IsScenario};
ghost use Rattle.scenario_clocks.specs.StatedClocks.{scenario_clock};
ghost use Rattle.air_log.specs.Lawful.{Lawful};
ghost use Rattle.air_log.specs.NodeCharges.{charges_in};
ghost use Rattle.energy_account.specs.Accounts.{IsAccount, line_of};
ghost use Rattle.air_log.specs.Energies.{energy_of};

use crate::Energy;
use crate::energy::energy_told;
use crate::times::Times;
use air_log::{Air, NodeCharge, trail_of};
use link_trace::Links;
use lwb_base::{Memory, NodeId};
use scenario_clocks::stated_clocks;
use scenario_text::{NodeLine, Scenario, ScenarioOver};
use std::alloc::Global;
use std::marker::Model;
use tick_clock::DriftClock;

/// The energy of each node of a scenario in a run of it.
#[derive(Drop)]
pub struct Account {
    lines: Vec<AccountLine>,
}

#[derive(Clone, Copy)]
struct AccountLine {
    node: NodeId,
    energy: Energy,
}

impl Model for Account {
    ghost use Rattle.std.specs.Prelude.{List};
    ghost use Rattle.energy_account.specs.declared.account.AccountLine.{AccountLine};

    ghost Value = { List AccountLine };

    ghost view = { λ a. a.lines.items };
}

impl Account {
    /// The account of a run of this scenario, by the log of the run. `Err` means out of memory.
    pub fn of(alloc: Global, s: &Scenario, a: &Air) -> Result<Account, Memory>
        requires lawful { Lawful s.now (scenario_clock s.now) a.now }
        ensures { IfOk result (λ account. IsAccount s.now (scenario_clock s.now) a.now account) }
    {
        let nodes = s.nodes();
        let clocks = stated_clocks(alloc, nodes, s.rates())?;
        let mut lines = Vec::new(alloc);
        for i in 0..nodes.len() {
            let node = nodes[i].node;
            let energy = energy_of_node(alloc, s, a, node, &clocks[i])?;
            lines.push(AccountLine { node, energy })?;
        }
        Ok(Account { lines })
    }

    /// The same over any links, by what was counted during the run: what the windows of each node come to and in how many frames
    /// it scanned, by ascending ids.
    pub fn of_run<M: Links>(
        alloc: Global,
        s: &ScenarioOver<'_, M>,
        a: &Air,
        charges: &[NodeCharge],
    ) -> Result<Account, Memory>
        requires lawful { Lawful s.now (scenario_clock s.now) a.now }
        requires charges { charges.now ≡ charges_in s.now (scenario_clock s.now) a.now }
        ensures { IfOk result (λ account. IsAccount s.now (scenario_clock s.now) a.now account) }
    {
        let nodes = sound_nodes(s);
        let times = Times::of(alloc, a)?;
        let mut lines = Vec::new(alloc);
        for place in 0..nodes.len() {
            let node = nodes[place].node;
            let charge = charge_at(charges, place);
            let energy = Energy {
                sent: times.sent(node),
                windows: charge.windows,
                scanned: charge.scanned,
                on: times.on(node),
            };
            lines.push(AccountLine { node, energy })?;
        }
        Ok(Account { lines })
    }

    /// The energy of a node; returns `None` if and only if it is not in the scenario.
    pub fn line(&self, node: NodeId) -> Option<Energy>
        ensures { result ≡ line_of self.now node }
    {
        self.lines.iter().find(|l| l.node == node).map(|l| l.energy)
    }
}

// The nodes of a scenario over links. Its number of frames tells that it is sound.
fn sound_nodes<'a, M: Links>(s: &'a ScenarioOver<'_, M>) -> &'a [NodeLine]
    ensures value { result.now ≡ s.now.nodes }
    ensures sound { IsSoundScenario s.now }
{
    let _frames = s.frames();
    s.nodes()
}

fn charge_at(charges: &[NodeCharge], place: usize) -> NodeCharge
    requires { place < length charges.now }
    ensures { result ≡ get_or charges.now place result }
{
    charges[place]
}

// The energy of one node of the scenario, by the clock that the scenario states for it.
fn energy_of_node<C: DriftClock>(
    alloc: Global,
    s: &Scenario,
    a: &Air,
    node: NodeId,
    clock: &C,
) -> Result<Energy, Memory>
    requires scenario { IsScenario s.now }
    requires lawful { Lawful s.now (scenario_clock s.now) a.now }
    requires known { knows s.now.nodes node ≡ true }
    requires clock { C.readings clock.now ≡ scenario_clock s.now node }
    ensures { IfOk result (λ energy. energy ≡ energy_of s.now (scenario_clock s.now) a.now node) }
{
    let trail = trail_of(alloc, s, a, node, clock)?;
    Ok(energy_told(&trail))
}
