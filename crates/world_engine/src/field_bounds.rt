//! A field at the beginning and at the end of a run.

ghost use Rattle.std.specs.Prelude.{◌≡◌, ◌≤◌, ◌<◌, ◌^◌, ℕ, List, [], OnOk, IfOk, length, map, slice_get, Some, Contains};
ghost use Rattle.lwb_base.specs.declared.limits.TheConstants.{MOST_NODES};
ghost use Rattle.world_engine.specs.Fields.{FieldIsShown, ids_of};
ghost use Rattle.world_engine.specs.FieldSteps.{IsFirstField, IsClosed, GoesSilent, first_device};
ghost use Rattle.event_calendar.specs.Orders.{Due as DueOf};
ghost use Rattle.lwb_base.specs.Sorting.{in_order};
ghost use Rattle.air_log.specs.Deliveries.{delivery_comes_before};

use crate::deliveries::sort_deliveries;
use crate::field::Field;
use air_log::{Air, Device};
use bus_rules::{Delivery, DropLine};
use link_trace::Links;
use lwb_base::{Memory, NodeId};
use radio_model::Medium;
use scenario_text::ScenarioOver;
use scenario_text::known_nodes::ids;
use std::alloc::Global;
use std::mem;

impl Field {
    // All nodes are off, and nothing has happened.
    pub(crate) fn new<M: Links>(alloc: Global, s: &ScenarioOver<'_, M>) -> Result<Field, Memory>
        ensures { IfOk result (λ w. IsFirstField s.now w) }
    {
        let profile = s.profile();
        let nodes = ids(alloc, s.nodes())?;
        let medium = Medium::new(alloc, &profile, nodes.as_slice())?;
        Ok(Field {
            medium,
            devices: devices(alloc, s)?,
            air: Air::new(alloc),
            deliveries: Vec::new(alloc),
            drops: Vec::new(alloc),
        })
    }

    // At the end of the run, tick t, all tunings end.
    pub(crate) fn close(&mut self, t: u64) -> Result<(), Memory>
        ensures { (due : List DueOf) → ((q : ℕ) → q < length self.old.devices → FieldIsShown t self.old due q)
            → OnOk result (IsClosed t self.old due self.new) }
    {
        for place in 0..self.devices.as_slice().len() {
            self.close_one(place, t)?;
        }
        Ok(())
    }

    // The tuning of the device at the place ends, and all its tunings are in the log.
    fn close_one(&mut self, place: usize, t: u64) -> Result<(), Memory>
        requires { place < length self.old.devices }
        ensures { OnOk result (GoesSilent t place self.old self.new) }
    {
        let node = self.devices[place].node();
        let mut tuning = self.medium.tuning(node);
        let over = tuning.tune(None, t);
        self.log_tuning(node, over)?;
        self.log_tuning(node, tuning.last)
    }

    // The deliveries, in the order in which a report has them. None stay in the field.
    pub(crate) fn take_deliveries(&mut self, alloc: Global) -> Result<Vec<Delivery>, Memory>
        ensures taken { IfOk result (λ v. v.items ≡ in_order delivery_comes_before self.old.deliveries) }
        ensures rest { self.new ≡ record self.old { deliveries = [] } }
    {
        let mut deliveries = mem::replace(&mut self.deliveries, Vec::new(alloc));
        sort_deliveries(alloc, &mut deliveries)?;
        Ok(deliveries)
    }

    pub(crate) fn into_air(self) -> Air
        ensures { result ≡ self.air }
    {
        self.air
    }

    // The log, and the packets that were lost before they were queued.
    pub(crate) fn into_log(self) -> (Air, Vec<DropLine>)
        ensures air { result.0 ≡ self.air }
        ensures drops { result.1.items ≡ self.drops }
    {
        let Field { air, drops, .. } = self;
        (air, drops)
    }

    // How many places there are.
    pub(crate) fn places(&self) -> u8
        ensures value { result ≡ length self.now.devices }
        ensures range { (1 ≤ result) × (result ≤ MOST_NODES) }
    {
        self.devices.as_slice().len() as u8
    }

    // The place of a node, counted from 0.
    pub(crate) fn place_of(&self, node: NodeId) -> u8
        requires { Contains (ids_of self.now) node }
        ensures { slice_get (ids_of self.now) result ≡ Some node }
    {
        // Mostly the ids count from 1, and this is the place.
        let first = usize::from(node.number()) - 1;
        if first < self.devices.as_slice().len() && self.devices[first].node() == node {
            return first as u8;
        }
        for (place, device) in self.devices.iter().enumerate() {
            if device.node() == node {
                return place as u8;
            }
        }
        unreachable!()
    }
}

fn devices<M: Links>(alloc: Global, s: &ScenarioOver<'_, M>) -> Result<Vec<Device>, Memory>
    ensures { IfOk result (λ v. v.items ≡ map (first_device s.now) s.now.nodes) }
{
    let profile = s.profile();
    let mut devices = Vec::new(alloc);
    for line in s.nodes() {
        let device = Device::new(alloc, &profile, line.node, s.hosts(), s.sends())?;
        devices.push(device)?;
    }
    Ok(devices)
}
