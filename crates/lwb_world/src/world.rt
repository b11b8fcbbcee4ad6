//! The world: the nodes of a scenario in true time.

ghost use Rattle.std.specs.Prelude.{◌≡◌, false, IfOk, IfSome, OnOk, length, replicate, option_copied};
ghost use Rattle.bus_terms.specs.Bus.{bus_deliveries, bus_drops};
ghost use Rattle.event_calendar.specs.Orders.{nothing_due};
ghost use Rattle.air_log.specs.ClockLists.{clocks_by};
ghost use Rattle.scenario_text.specs.Setups.{setup_of};
ghost use Rattle.world_engine.specs.Runs.{orders_left};
ghost use Rattle.world_engine.specs.Worlds.{new_world, core_of};
ghost use Rattle.lwb_world.specs.Worlds.{HasRun, IsLeftByRun};

use air_log::{Air, NodeCharge};
use bus_rules::{Delivery, DropLine};
use event_calendar::{Calendar, Orders};
use link_trace::{Links, Trace};
use lwb_base::{Memory, NodeId};
use node_core::Node;
use scenario_text::{Scenario, ScenarioOver};
use std::alloc::Global;
use std::marker::Model;
use tick_clock::DriftClock;
use world_engine::{Engine, RunParts};

/// The nodes of a scenario over one radio medium in true time: a node core, a radio and a drifting clock each. Its links are those
/// of its trace, or others that take their place. Contracts see what the run has left, and the clocks by ascending ids of the nodes.
#[derive(Drop)]
pub struct World<'a, C: DriftClock, M: Links = Trace> {
    engine: Engine<'a, C, M>,
}

impl<'a, C: DriftClock, M: Links> Model for World<'a, C, M> {
    ghost use Rattle.std.specs.Prelude.{List};
    ghost use Rattle.world_engine.specs.Worlds.{WorldState};

    ghost Value = { WorldState × List C };

    ghost view = { λ w. w.engine };
}

impl<'a, C: DriftClock> World<'a, C> {
    /// The world of a scenario before its run, with one clock for each node by ascending ids. With `Memory` the clocks are
    /// dropped.
    pub fn new(alloc: Global, s: &'a Scenario, clocks: Vec<C>) -> Result<World<'a, C>, Memory>
        requires { length clocks.items ≡ length s.now.nodes }
        ensures { IfOk result (λ w. w ≡ (new_world s.now, clocks.items)) }
    {
        World::over(alloc, ScenarioOver::new(s, s.trace()), clocks)
    }
}

impl<'a, C: DriftClock, M: Links> World<'a, C, M> {
    /// The world of a scenario over links that take the place of its own trace, before its run, with one clock for each node by
    /// ascending ids. With `Memory` the clocks are dropped.
    pub fn over(
        alloc: Global,
        s: ScenarioOver<'a, M>,
        clocks: Vec<C>,
    ) -> Result<World<'a, C, M>, Memory>
        requires { length clocks.items ≡ length s.nodes }
        ensures { IfOk result (λ w. w ≡ (new_world s.entry, clocks.items)) }
    {
        Ok(World {
            engine: Engine::new(alloc, s, clocks)?,
        })
    }

    /// Runs all true ticks of 1/64 µs below the end of the scenario's last frame, once. After `Memory` the world is spent:
    /// only its drop is of use.
    pub fn run(&mut self, alloc: Global) -> Result<(), Memory>
        requires { self.old.0.ran ≡ false }
        ensures run { OnOk result (HasRun (clocks_by C.readings self.old.0.scenario.nodes self.old.1) self.old.0 self.new.0) }
        ensures clocks { OnOk result (self.new.1 ≡ self.old.1) }
    {
        let mut calendar = Calendar::new(alloc, self.engine.places())?;
        self.run_with(alloc, &mut calendar)
    }

    /// As `run`, over an empty queue of orders: place i, counted from 0, is that of the i-th node by ascending ids. After `Ok`
    /// the queue has the orders that remain at the end of the run; what it has after `Memory` is left open.
    pub fn run_with<Q: Orders>(&mut self, alloc: Global, orders: &mut Q) -> Result<(), Memory>
        requires first { self.old.0.ran ≡ false }
        requires empty { Q.map orders.old ≡ replicate (length self.old.0.scenario.nodes) nothing_due }
        ensures run { OnOk result (HasRun (clocks_by C.readings self.old.0.scenario.nodes self.old.1) self.old.0 self.new.0) }
        ensures clocks { OnOk result (self.new.1 ≡ self.old.1) }
        ensures left { OnOk result
            (Q.map orders.new ≡ orders_left self.old.0.scenario (clocks_by C.readings self.old.0.scenario.nodes self.old.1) self.new.0.air) }
    {
        self.engine.run_with(alloc, orders)
    }

    /// The log of the run. It is empty before the run.
    pub fn air(&self) -> &Air
        ensures { result.now ≡ self.now.0.air }
    {
        self.engine.air()
    }

    /// What the nodes delivered, by frame, rank, slot and node: after a run that ended with Ok what the ideal single-hop bus
    /// delivers, whatever the clocks. There are none before the run.
    pub fn deliveries(&self) -> &[Delivery]
        ensures value { result.now ≡ self.now.0.deliveries }
        ensures bus { IsLeftByRun self.now.0 → result.now ≡ bus_deliveries self.now.0.scenario }
    {
        self.engine.deliveries()
    }

    /// The packets that were lost before they were queued, in the order of the text: after a run that ended with Ok those of
    /// the ideal single-hop bus. There are none before the run.
    pub fn drops(&self) -> &[DropLine]
        ensures value { result.now ≡ self.now.0.drops }
        ensures bus { IsLeftByRun self.now.0 → result.now ≡ bus_drops self.now.0.scenario }
    {
        self.engine.drops()
    }

    /// What the windows of each node count and in how many frames it scans, by ascending ids. There are none before the run.
    pub fn charges(&self) -> &[NodeCharge]
        ensures { result.now ≡ self.now.0.charges }
    {
        self.engine.charges()
    }

    /// The core that the world drives for a node. Returns `None` if and only if the scenario does not have the node. After a
    /// run that ended with Ok it is set up as the scenario says for this node.
    pub fn node(&self, node: NodeId) -> Option<&Node>
        ensures core { option_copied result ≡ core_of self.now.0.cores node }
        ensures setup { IsLeftByRun self.now.0 → IfSome (option_copied result) (λ c. c.setup ≡ setup_of self.now.0.scenario node) }
    {
        self.engine.node(node)
    }

    /// The log of the run, and nothing else of the world.
    pub fn into_air(self) -> Air
        ensures { result ≡ self.entry.0.air }
    {
        let engine = self.engine;
        engine.into_air()
    }

    /// The log of the run and its lists, and nothing else of the world.
    pub fn into_parts(self) -> RunParts
        ensures air { result.air ≡ self.entry.0.air }
        ensures deliveries { result.deliveries.items ≡ self.entry.0.deliveries }
        ensures drops { result.drops.items ≡ self.entry.0.drops }
        ensures charges { result.charges.items ≡ self.entry.0.charges }
        ensures idle { result.idle.items ≡ self.entry.0.idle }
    {
        let engine = self.engine;
        engine.into_parts()
    }
}
