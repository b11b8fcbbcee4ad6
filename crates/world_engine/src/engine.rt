//! The engine: the nodes of a scenario in true time, over its own links or others.

ghost use Rattle.std.specs.Prelude.{◌≡◌, ◌≤◌, false, IfOk, OnOk, length, replicate, option_copied};
ghost use Rattle.lwb_base.specs.declared.limits.TheConstants.{MOST_NODES};
ghost use Rattle.event_calendar.specs.Orders.{nothing_due};
ghost use Rattle.air_log.specs.ClockLists.{clocks_by};
ghost use Rattle.world_engine.specs.Runs.{orders_left};
ghost use Rattle.world_engine.specs.Worlds.{new_world, core_of, HasEngineRun};

use crate::RunParts;
use crate::field::Field;
use crate::frames::FrameCounts;
use air_log::{Air, Idle, NodeCharge};
use bus_rules::{Delivery, DropLine};
use event_calendar::Orders;
use link_trace::Links;
use lwb_base::{Memory, NodeId};
use node_core::Node;
use scenario_text::ScenarioOver;
use std::alloc::Global;
use std::marker::Model;
use tick_clock::DriftClock;

/// The nodes of a scenario over one radio medium in true time: a node core, a radio and a drifting clock each. Contracts
/// see what the run has left, and the clocks by ascending ids of the nodes.
#[derive(Drop)]
pub struct Engine<'a, C: DriftClock, M: Links> {
    pub(crate) scenario: ScenarioOver<'a, M>,
    pub(crate) clocks: Vec<C>,
    pub(crate) ran: bool,
    pub(crate) field: Field,
    pub(crate) deliveries: Vec<Delivery>,
    pub(crate) charges: Vec<NodeCharge>,
    pub(crate) idle: Vec<Idle>,
}

impl<'a, C: DriftClock, M: Links> Model for Engine<'a, C, M> {
    ghost use Rattle.std.specs.Prelude.{List, ◌≡◌, length, map};
    ghost use Rattle.world_engine.specs.Worlds.{WorldState};
    ghost use Rattle.world_engine.specs.WorldShapes.{IsWorld};
    ghost use Rattle.air_log.specs.DeviceStates.{core_in};

    ghost Value = { WorldState × List C };

    ghost view = { λ w. (
      record {
        scenario = w.scenario;
        ran = w.ran;
        air = w.field.air;
        deliveries = w.deliveries.items;
        drops = w.field.drops;
        charges = w.charges.items;
        idle = w.idle.items;
        cores = map core_in w.field.devices;
      },
      w.clocks.items,
    ) };

    ghost invariant = { λ w. IsWorld w.scenario w.ran w.field w.deliveries.items (length w.clocks.items) };
}

impl<'a, C: DriftClock, M: Links> Engine<'a, C, M> {
    /// The engine of a scenario over links before its run, with one clock for each node by ascending ids. With `Memory` the
    /// clocks are dropped.
    pub fn new(
        alloc: Global,
        s: ScenarioOver<'a, M>,
        clocks: Vec<C>,
    ) -> Result<Engine<'a, C, M>, Memory>
        requires { length clocks.items ≡ length s.nodes }
        ensures { IfOk result (λ w. w ≡ (new_world s.entry, clocks.items)) }
    {
        let field = Field::new(alloc, &s)?;
        Ok(Engine {
            scenario: s,
            clocks,
            ran: false,
            field,
            deliveries: Vec::new(alloc),
            charges: Vec::new(alloc),
            idle: Vec::new(alloc),
        })
    }

    /// Runs all true ticks of 1/64 µs below the end of the scenario's last frame, once, over an empty queue of orders:
    /// place i, counted from 0, is that of the i-th node by ascending ids. After Ok the queue has the orders that are left
    /// at the end of the run. After `Memory` what it has is left open, and the engine is spent: only its drop is of use.
    pub fn run_with<Q: Orders>(&mut self, alloc: Global, orders: &mut Q) -> Result<(), Memory>
        requires first { self.old.0.ran ≡ false }
        requires empty { Q.map orders.old ≡ replicate (length self.old.0.scenario.nodes) nothing_due }
        ensures run { OnOk result (HasEngineRun (clocks_by C.readings self.old.0.scenario.nodes self.old.1) self.old.0 self.new.0) }
        ensures clocks { OnOk result (self.new.1 ≡ self.old.1) }
        ensures left { OnOk result
            (Q.map orders.new ≡ orders_left self.old.0.scenario (clocks_by C.readings self.old.0.scenario.nodes self.old.1) self.new.0.air) }
    {
        let profile = self.scenario.profile();
        self.ran = true;
        let clocks = self.clocks.as_slice();
        let counts = self.field.frames(alloc, orders, &self.scenario, clocks)?;
        let FrameCounts { scanned, idle } = counts;
        let end = u64::from(self.scenario.frames()) * profile.frame();
        self.field.close(end)?;
        let deliveries = self.field.take_deliveries(alloc)?;
        self.deliveries = deliveries;
        let charges = self.field.charges(alloc, scanned.as_slice())?;
        self.charges = charges;
        self.idle = idle;
        Ok(())
    }

    /// How many places a queue of orders needs: one for each node.
    pub fn places(&self) -> u8
        requires { self.now.0.ran ≡ false }
        ensures value { result ≡ length self.now.0.scenario.nodes }
        ensures range { (1 ≤ result) × (result ≤ MOST_NODES) }
    {
        self.field.places()
    }

    /// The log of the run. It is empty before the run.
    pub fn air(&self) -> &Air
        ensures { result.now ≡ self.now.0.air }
    {
        &self.field.air
    }

    /// What the nodes delivered, by frame, rank, slot and node. There are none before the run.
    pub fn deliveries(&self) -> &[Delivery]
        ensures { result.now ≡ self.now.0.deliveries }
    {
        &self.deliveries
    }

    /// The packets that were lost before they were queued, in the order of the text. There are none before the run.
    pub fn drops(&self) -> &[DropLine]
        ensures { result.now ≡ self.now.0.drops }
    {
        &self.field.drops
    }

    /// What the windows of each node count and in how many frames it scans, by ascending ids. There are none before the run.
    pub fn charges(&self) -> &[NodeCharge]
        ensures { result.now ≡ self.now.0.charges }
    {
        &self.charges
    }

    /// The core that the engine drives for a node. Returns `None` if and only if the scenario lacks the node.
    pub fn node(&self, node: NodeId) -> Option<&Node>
        ensures { option_copied result ≡ core_of self.now.0.cores node }
    {
        for device in &self.field.devices {
            if device.node() == node {
                return Some(device.core());
            }
        }
        None
    }

    /// The log of the run, and nothing else of the engine.
    pub fn into_air(self) -> Air
        ensures { result ≡ self.entry.0.air }
    {
        let field = self.field;
        field.into_air()
    }

    /// The log of the run and its lists, and nothing else of the engine.
    pub fn into_parts(self) -> RunParts
        ensures air { result.air ≡ self.entry.0.air }
        ensures deliveries { result.deliveries.items ≡ self.entry.0.deliveries }
        ensures drops { result.drops.items ≡ self.entry.0.drops }
        ensures charges { result.charges.items ≡ self.entry.0.charges }
        ensures idle { result.idle.items ≡ self.entry.0.idle }
    {
        let Engine {
            field,
            deliveries,
            charges,
            idle,
            ..
        } = self;
        let (air, drops) = field.into_log();
        RunParts {
            air,
            deliveries,
            drops,
            charges,
            idle,
        }
    }
}
