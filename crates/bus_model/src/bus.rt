//! The run of a whole scenario on the ideal single-hop bus.

ghost use Rattle.std.specs.Prelude.{◌≡◌, ◌<◌, IfOk, IfSome, IfNone, Some, None, false, filter_map, if◌then◌else◌, length};
ghost use Rattle.std.specs.List.{AllPairs};
ghost use Rattle.bus_terms.specs.Bus.{bus_cost};
ghost use Rattle.bus_terms.specs.Flooding.{has};
ghost use Rattle.scenario_text.specs.OverLines.{over};
ghost use Rattle.plain_bus.specs.FloodMasks.{traced};
ghost use Rattle.scenario_text.specs.FloodParts.{knows, IsSealed};
ghost use Rattle.scenario_text.specs.ScenarioParts.{ScenarioParts};
ghost use Rattle.bus_model.specs.BusRuns.{IsBusRun, IsCounted};
ghost use Rattle.bus_model.specs.DroppedPuts.{drop_of};

use crate::RunningBus;
use crate::drops::drops_of;
use bus_rules::{Delivery, DropLine};
use bus_terms::{PutLine, SentPacket};
use link_trace::Links;
use lwb_base::{Memory, NodeId};
use plain_bus::{Cost, Network, place_of};
use scenario_text::{Scenario, ScenarioOver};
use std::alloc::Global;
use std::marker::Model;

/// A scenario's run on the ideal single-hop bus, without clocks: what is put, sent and delivered, what is lost before it is
/// queued, and what it costs each node.
#[derive(Drop)]
pub struct Bus {
    ids: Vec<NodeId>,
    costs: Vec<Cost>,
    deliveries: Vec<Delivery>,
    sent: Vec<SentPacket>,
    puts: Vec<PutLine>,
    drops: Vec<DropLine>,
}

impl Model for Bus {
    ghost use Rattle.bus_model.specs.BusRuns.{BusRun};

    ghost Value = { BusRun };

    ghost use Rattle.std.specs.Prelude.{◌≡◌, ◌<◌, length};
    ghost use Rattle.std.specs.List.{AllPairs};

    ghost view = { λ b. record {
      ids = b.ids.items;
      costs = b.costs.items;
      deliveries = b.deliveries.items;
      drops = b.drops.items;
      puts = b.puts.items;
      sent = b.sent.items;
    } };

    ghost invariant = { λ b. AllPairs (λ u v. u < v) b.ids.items × (length b.costs.items ≡ length b.ids.items) };
}

impl Bus {
    /// The run of the scenario. `Err` means out of memory.
    pub fn run(alloc: Global, s: &Scenario) -> Result<Bus, Memory>
        ensures { IfOk result (IsBusRun s.now) }
    {
        Bus::run_over(alloc, s, s.trace())
    }

    /// The run of the scenario over these links instead of its own trace. They are sealed with its nodes. `Err` means out of
    /// memory.
    pub fn run_over<M: Links>(alloc: Global, s: &Scenario, links: &M) -> Result<Bus, Memory>
        requires { IsSealed (traced (M.lines links.now) (M.nodes links.now)) s.now.nodes }
        ensures { IfOk result (IsBusRun (over s.now (M.lines links.now))) }
    {
        let mut run = RunningBus::new(alloc, s)?;
        let scenario = ScenarioOver::new(s, links);
        for frame in 0..scenario.frames() {
            run.run_frame(alloc, &scenario, frame)?;
        }
        Bus::left_by(alloc, run)
    }

    // What is left of the bus after its last frame.
    fn left_by(alloc: Global, run: RunningBus) -> Result<Bus, Memory>
        requires ascending { AllPairs (λ u v. u < v) run.net.ids }
        requires costs { length run.net.costs ≡ length run.net.ids }
        ensures { IfOk result (λ b. b ≡ record {
          ids = run.net.ids;
          costs = run.net.costs;
          deliveries = run.net.deliveries;
          drops = filter_map drop_of run.puts.items;
          puts = run.puts.items;
          sent = run.net.sent;
        }) }
    {
        let drops = drops_of(alloc, &run.puts)?;
        let RunningBus { net, puts, .. } = run;
        let Network {
            ids,
            costs,
            deliveries,
            sent,
            ..
        } = net;
        Ok(Bus {
            ids,
            costs,
            deliveries,
            sent,
            puts,
            drops,
        })
    }

    /// What a node costs, as the run has counted it; returns `None` if and only if it is none of the nodes.
    pub fn cost(&self, node: NodeId) -> Option<Cost>
        ensures bus { (s : ScenarioParts) → IsBusRun s self.now → result ≡ (if knows s.nodes node then Some (bus_cost s node) else None) }
        ensures some { IfSome result (IsCounted self.now node) }
        ensures none { IfNone result (has self.now.ids node ≡ false) }
    {
        match place_of(&self.ids, node) {
            Some(place) => Some(self.costs[place]),
            None => None,
        }
    }

    /// The deliveries, by frame, rank, slot and node.
    pub fn deliveries(&self) -> &[Delivery]
        ensures { result.now ≡ self.now.deliveries }
    {
        &self.deliveries
    }

    /// What the script put, in its order.
    pub fn puts(&self) -> &[PutLine]
        ensures { result.now ≡ self.now.puts }
    {
        &self.puts
    }

    /// The packets that were sent, by frame, rank and slot.
    pub fn sent(&self) -> &[SentPacket]
        ensures { result.now ≡ self.now.sent }
    {
        &self.sent
    }

    /// The packets that were lost before they were queued, in the order of the script.
    pub fn drops(&self) -> &[DropLine]
        ensures { result.now ≡ self.now.drops }
    {
        &self.drops
    }
}
