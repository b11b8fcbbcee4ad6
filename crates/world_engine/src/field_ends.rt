//! The ends of transmissions in a run, with those who receive them.

ghost use Rattle.std.specs.Prelude.{◌≡◌, ◌≤◌, ◌<◌, ◌^◌, ℕ, List, [], ◌∷◌, OnOk, length, map, All, AllPairs, Contains};
ghost use Rattle.lwb_base.specs.declared.event.Event.TheVariants.{Heard as HeardOf};
ghost use Rattle.bus_rules.specs.Cores.{Setup};
ghost use Rattle.radio_model.specs.Hearing.{Scene};
ghost use Rattle.radio_model.specs.Holding.{Holds};
ghost use Rattle.radio_model.specs.Stations.{IsTime, Ends, nodes_of};
ghost use Rattle.radio_model.specs.declared.sending.Sending.{Sending as SendingOf};
ghost use Rattle.air_log.specs.Devices.{Device as DeviceOf};
ghost use Rattle.world_engine.specs.Fields.{FieldShows, FieldIsShown, ids_of};
ghost use Rattle.world_engine.specs.FieldHearings.{StandAtPlaces, AllHear};
ghost use Rattle.world_engine.specs.FieldSteps.{EndsSending, DeviceSends, readings_at};

use crate::field::Field;
use air_log::{Entry, EventRadio, HeardEntry, Notice};
use event_calendar::{Class, Orders};
use link_trace::Links;
use lwb_base::{Event, Memory, NodeId};
use radio_model::Hearers;
use radio_model::sending::Sending;
use tick_clock::DriftClock;

impl Field {
    // The transmission of the device at the place ends at tick t: those who receive it are given, and then the device itself.
    pub(crate) fn end<C: DriftClock, Q: Orders, M: Links>(
        &mut self,
        orders: &mut Q,
        links: &M,
        clocks: &[C],
        place: u8,
        t: u64,
        radio: &mut EventRadio,
    ) -> Result<(), Memory>
        requires within { place < length self.old.devices }
        requires shown { (q : ℕ) → q < length self.old.devices → FieldIsShown t self.old (Q.map orders.old) q }
        requires time { IsTime self.old.medium t }
        requires early { t ≤ 2 ^ 45 }
        requires seal { M.nodes links.now ≡ nodes_of self.old.medium }
        requires held { (a : Scene) × Holds self.old.medium a × (a.lines ≡ M.lines links.now) }
        requires clocks { length clocks.now ≡ length self.old.devices }
        requires ends { (s : Setup) (d : DeviceOf) → FieldShows s t self.old (Q.map orders.old) place d → Ends self.old.medium s.id t }
        ensures { (x : SendingOf) → DeviceSends t self.old (Q.map orders.old) place x
            → OnOk result ((hearers : List ℕ) × EndsSending (M.lines links.now) (readings_at C.readings clocks.now) t place x hearers self.old
            (Q.map orders.old) self.new (Q.map orders.new)) }
    {
        let node = self.devices[usize::from(place)].node();
        let Some(x) = self.medium.sending(node) else {
            unreachable!()
        };
        let x = x.copy();
        let hearers = self.medium.end(links, node, t);
        orders.clear(place, Class::SendingEnd);
        self.devices[usize::from(place)].end_sending(t);
        self.hear_all(orders, clocks, &hearers, &x, radio)?;
        let event = Event::Sent;
        let notice = Notice {
            event: &event,
            ended: Some(&x),
        };
        self.tell(
            orders,
            &clocks[usize::from(place)],
            place,
            t,
            &notice,
            radio,
        )
    }

    // These nodes receive the transmission that has ended.
    fn hear_all<C: DriftClock, Q: Orders>(
        &mut self,
        orders: &mut Q,
        clocks: &[C],
        hearers: &Hearers,
        x: &Sending,
        radio: &mut EventRadio,
    ) -> Result<(), Memory>
        requires nodes { All (λ p. Contains (ids_of self.old) p.0) hearers.now }
        requires ascending { AllPairs (λ p q. p.0 < q.0) hearers.now }
        requires shown { (q : ℕ) → q < length self.old.devices → FieldIsShown x.now.end self.old (Q.map orders.old) q }
        requires time { IsTime self.old.medium x.now.end }
        requires early { x.now.end ≤ 2 ^ 45 }
        requires clocks { length clocks.now ≡ length self.old.devices }
        ensures { OnOk result ((places : List ℕ) × StandAtPlaces (ids_of self.old) (map (λ p. p.0) hearers.now) places
            × AllHear (readings_at C.readings clocks.now) x.now.end x.now places self.old (Q.map orders.old) self.new (Q.map orders.new)) }
    {
        if hearers.count() == 0 {
            return Ok(());
        }
        let heard = Event::Heard(x.packet.copy());
        for i in 0..usize::from(hearers.count()) {
            let (node, _) = hearers.at(i).unwrap();
            let place = self.place_of(node);
            self.hear(orders, &clocks[usize::from(place)], place, x, &heard, radio)?;
        }
        Ok(())
    }

    // The device at the place receives it.
    fn hear<C: DriftClock, Q: Orders>(
        &mut self,
        orders: &mut Q,
        clock: &C,
        place: u8,
        x: &Sending,
        heard: &Event,
        radio: &mut EventRadio,
    ) -> Result<(), Memory>
        requires shown { FieldIsShown x.now.end self.old (Q.map orders.old) place }
        requires time { IsTime self.old.medium x.now.end }
        requires early { x.now.end ≤ 2 ^ 45 }
        requires heard { heard.now ≡ HeardOf x.now.packet }
        ensures { OnOk result (AllHear (λ q. C.readings clock.now) x.now.end x.now (place ∷ []) self.old (Q.map orders.old) self.new (Q.map orders.new)) }
    {
        let node = self.devices[usize::from(place)].node();
        self.air.push(Entry::Heard(HeardEntry {
            rank: x.rank,
            node,
            from: x.node,
            start: x.start,
            end: x.end,
            packet: x.packet.copy(),
        }))?;
        let notice = Notice {
            event: heard,
            ended: None,
        };
        self.tell(orders, clock, place, x.end, &notice, radio)
    }
}
