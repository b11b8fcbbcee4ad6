//! What the medium, the queue and the log get of a device that has changed.

ghost use Rattle.std.specs.Prelude.{◌≡◌, ◌<◌, true, Some, OnOk, Contains, length, slice_get};
ghost use Rattle.event_calendar.specs.Orders.{tick_of};
ghost use Rattle.link_trace.specs.Masks.{AreNodes};
ghost use Rattle.radio_model.specs.Stations.{IsTime, nodes_of};
ghost use Rattle.air_log.specs.DeviceStates.{DeviceState as DeviceStateOf};
ghost use Rattle.world_engine.specs.Following.{Retunes, Resets, Follows};

use crate::field::Field;
use air_log::Settings;
use event_calendar::{Class, Orders};
use lwb_base::{Memory, NodeId, Rank};
use radio_model::Medium;
use radio_model::tuning::Past;

impl Field {
    // The device at the place has changed at tick t: the medium and the queue get what is set there now, in place of what was set
    // before, and the log gets the tuning that goes on no more by this.
    pub(crate) fn follow<Q: Orders>(
        &mut self,
        orders: &mut Q,
        place: u8,
        t: u64,
        before: Settings,
    ) -> Result<(), Memory>
        requires within { place < length self.old.devices }
        requires queue { place < length (Q.map orders.old) }
        requires time { IsTime self.old.medium t }
        ensures { (state : DeviceStateOf) → slice_get self.old.devices place ≡ Some state
            → OnOk result (Follows t place before state self.old (Q.map orders.old) self.new (Q.map orders.new)) }
    {
        let device = &self.devices[usize::from(place)];
        let node = device.node();
        let now = device.settings();
        let over = retune(&mut self.medium, node, before.channel, now.channel, t);
        reset(orders, place, Class::Alarm, before.alarm, now.alarm);
        reset(
            orders,
            place,
            Class::SendingStart,
            before.sending,
            now.sending,
        );
        self.log_tuning(node, over)
    }
}

// At t the node is tuned to another channel, or off, unless it stays at its channel. The tuning that goes on no more is given back.
fn retune(
    medium: &mut Medium,
    node: NodeId,
    from: Option<Rank>,
    to: Option<Rank>,
    t: u64,
) -> Option<Past>
    requires node { Contains (nodes_of medium.old) node }
    requires nodes { AreNodes (nodes_of medium.old) }
    requires time { IsTime medium.old t }
    ensures { Retunes t node from to result medium.old medium.new }
{
    if is_same_channel(&from, &to) {
        return None;
    }
    medium.tune(node, to, t)
}

fn is_same_channel(from: &Option<Rank>, to: &Option<Rank>) -> bool
    ensures { result ≡ true → from.now ≡ to.now }
{
    match from {
        Some(from) => match to {
            Some(to) => from.number() == to.number(),
            None => false,
        },
        None => to.is_none(),
    }
}

// The tick of a class at the place is another, or none, unless it stays. Mostly it stays, and to call this took longer than to see
// that.
#[inline(always)]
fn reset<Q: Orders>(orders: &mut Q, place: u8, class: Class, from: Option<u64>, to: Option<u64>)
    requires { place < length (Q.map orders.old) }
    ensures { Resets place class from to (Q.map orders.old) (Q.map orders.new) }
{
    if is_same_tick(from, to) {
        return;
    }
    match to {
        Some(tick) => orders.set(place, class, tick),
        None => orders.clear(place, class),
    }
}

fn is_same_tick(from: Option<u64>, to: Option<u64>) -> bool
    ensures { result ≡ true → from ≡ to }
{
    match from {
        Some(from) => match to {
            Some(to) => from == to,
            None => false,
        },
        None => to.is_none(),
    }
}
