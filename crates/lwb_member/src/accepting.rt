//! What a member does with what it accepted in a slot, where the slot closes.

ghost use Rattle.std.specs.Prelude.{◌≡◌, ◌≤◌, ◌+◌, ◌%◌, ◌==◌, true, false, Some, None, IfSome, if◌then◌else◌};
ghost use Rattle.std.specs.Option.{option_map};
ghost use Rattle.lwb_base.specs.declared.limits.TheConstants.{GREATEST_ID, LAST_FRAME};
ghost use Rattle.lwb_packets.specs.Requests.{InRange};
ghost use Rattle.schedule_codec.specs.AckLists.{ask_in_range};
ghost use Rattle.bus_rules.specs.Plans.{slots_named};
ghost use Rattle.bus_rules.specs.Tuning.{hosts, rank_of as rank_in};
ghost use Rattle.bus_rules.specs.Cores.{schedule_accepted, opening_accepted, closing_accepted};
ghost use Rattle.bus_rules.specs.Slots.{slot_heard, closed_slot, delivery_of, RequestOf};
ghost use Rattle.bus_rules.specs.declared.part.Part.TheVariants.{Contention};
ghost use Rattle.lwb_member.specs.Members.{IsBoot, IsHeardInRange, IsPlan, MayAccept};
ghost use Rattle.lwb_member.specs.Planning.{IsEarly};
ghost use Rattle.lwb_member.specs.Said.{meaning};

use crate::kept::Kept;
use crate::member::Member;
use crate::message::Heard;
use bus_rules::{Delivery, Part, contention_slots};
use lwb_packets::{DataPacket, Request};
use schedule_codec::{Ack, Schedule};

impl Member {
    /// A slot of this part closes, in this frame, which is at most `LAST_FRAME`; in it the node initiated, accepted this, or
    /// neither. What is delivered, if some is. A host accepts no schedule, and at most one request in each contention slot of
    /// its round.
    pub fn close(
        &mut self,
        frame: u32,
        slot: u8,
        part: Part,
        initiated: bool,
        accepted: Option<Heard>,
    ) -> Option<Delivery>
        requires frame { frame ≤ LAST_FRAME }
        requires ranges { IfSome accepted IsHeardInRange }
        requires host { MayAccept self.old.setup frame self.old.core (option_map meaning accepted) }
        requires early { IsEarly frame self.old.core.table }
        ensures core { self.new ≡ record self.old
            { core = (closed_slot self.old.setup frame part initiated self.old.core (option_map meaning accepted)).core } }
        ensures delivery { result ≡ option_map (delivery_of self.old.setup.id frame (rank_in self.old.core.tune) slot)
            (closed_slot self.old.setup frame part initiated self.old.core (option_map meaning accepted)).delivered }
        ensures early { IsEarly frame self.new.core.table }
    {
        match accepted {
            Some(Heard::Schedule(schedule)) => {
                self.accept(frame, schedule);
                None
            }
            Some(Heard::Data(packet)) => {
                let delivery = self.delivery(frame, slot, packet);
                self.hear_owner(frame, part, true);
                Some(delivery)
            }
            Some(Heard::Request(request)) => {
                self.keep(frame, asked(&request));
                None
            }
            None => {
                self.pass(frame, part, initiated);
                None
            }
        }
    }

    /// As `close`, where the node accepted nothing. Most windows close so, and a message is long.
    pub fn pass(&mut self, frame: u32, part: Part, initiated: bool)
        requires frame { frame ≤ LAST_FRAME }
        requires early { IsEarly frame self.old.core.table }
        ensures core { self.new ≡ record self.old { core = (closed_slot self.old.setup frame part initiated self.old.core None).core } }
        ensures early { IsEarly frame self.new.core.table }
    {
        self.hear_owner(frame, part, initiated);
    }

    // A schedule was accepted in this frame, by a node that does not host.
    fn accept(&mut self, frame: u32, schedule: Schedule)
        requires frame { frame ≤ LAST_FRAME }
        requires host { hosts self.old.core.tune ≡ false }
        requires plan { IsPlan schedule.plan }
        requires boot { IsBoot schedule.plan.boot }
        ensures { self.new ≡ record self.old { core = schedule_accepted self.old.setup.id frame schedule self.old.core } }
    {
        self.streams
            .schedule_heard(self.id, self.boot, frame, &schedule);
        if schedule.gap == 0 {
            self.own_slot = Some(self.contention_slot(schedule.contend));
            self.tuner.joined();
        } else {
            self.tuner
                .held(schedule.host, frame + u32::from(schedule.gap));
        }
        self.plan = schedule;
    }

    // Its own contention slot among this many, 0 for one.
    fn contention_slot(&self, contend: u8) -> u8
        requires { contend ≤ 4 }
        ensures { result ≡ 1 + (self.now.setup.id + self.now.core.streams.tries) % slots_named contend }
    {
        let sum = self.id.number() + self.streams.tries();
        1 + sum % contention_slots(contend)
    }

    // A data slot closes, in which the host received its owner or did not.
    fn hear_owner(&mut self, frame: u32, part: Part, heard: bool)
        ensures { self.new ≡ record self.old { core = slot_heard frame part heard self.old.core } }
    {
        let Part::Data(owner) = part else {
            return;
        };
        if self.hosts_now(frame) {
            if heard {
                self.table.heard(owner);
            } else {
                self.table.unheard(owner);
            }
        }
    }

    // A host keeps an accepted request until it plans.
    #[tactic(auto, using(crate::proofs::HostPlanned::contend_few))]
    fn keep(&mut self, frame: u32, ask: Ack)
        requires ask { ask_in_range ask ≡ true }
        requires room { MayAccept self.old.setup frame self.old.core (Some (RequestOf ask)) }
        ensures { self.new ≡ record self.old { core = (closed_slot self.old.setup frame (Contention 1) false self.old.core (Some (RequestOf ask))).core } }
    {
        if self.hosts_now(frame) {
            self.kept.push(Kept { ask });
        }
    }

    // A data packet that it accepted in this slot.
    fn delivery(&self, frame: u32, slot: u8, packet: DataPacket) -> Delivery
        ensures { result ≡ delivery_of self.now.setup.id frame (rank_in self.now.core.tune) slot
            (record { node = packet.node; boot = packet.boot; stream = packet.stream; seq = packet.seq; payload = packet.payload }) }
    {
        Delivery {
            frame,
            rank: self.rank(),
            slot,
            node: self.id,
            from: packet.node,
            boot: packet.boot,
            stream: packet.stream,
            seq: packet.seq,
            payload: packet.payload,
        }
    }
}

// What a request asks for.
fn asked(request: &Request) -> Ack
    requires range { InRange request.now }
    requires node { (1 ≤ request.now.node) × (request.now.node ≤ GREATEST_ID) }
    ensures value { result ≡ record { node = request.now.node; boot = request.now.boot; stream = request.now.stream; interval = request.now.interval } }
    ensures range { ask_in_range result ≡ true }
{
    Ack {
        node: request.node,
        boot: request.boot,
        stream: request.stream,
        interval: request.interval,
    }
}
