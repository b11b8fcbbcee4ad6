//! What a member says in the slots of its round.

ghost use Rattle.std.specs.Prelude.{◌≡◌, ◌+◌, ◌≤◌, false, IfSome};
ghost use Rattle.std.specs.Option.{option_map, option_and_then};
ghost use Rattle.lwb_base.specs.declared.limits.TheConstants.{DATA_SLOTS, LAST_FRAME};
ghost use Rattle.lwb_packets.specs.declared.kind.Kind.TheVariants.{Schedule as OfSchedule, Payload as OfData, Request as OfRequest};
ghost use Rattle.bus_rules.specs.Slots.{opened_slot, data_opened, contention_opened, is_turn, silent};
ghost use Rattle.bus_rules.specs.declared.part.Part.TheVariants.{Opening, Closing};
ghost use Rattle.lwb_member.specs.Said.{bytes_in_slot, slot_said, message_of, IsInitialPacket};
ghost use Rattle.lwb_member.specs.Planning.{IsEarly};
ghost use Rattle.lwb_member.specs.Places.{IsPartOfSlot, kind_for};

use crate::member::Member;
use bus_rules::Part;
use lwb_base::{Owner, Packet};
use lwb_packets::{DataPacket, Request, encode_payload, encode_request};
use schedule_codec::write;

impl Member {
    /// Whether a slot of this part, in this frame, is the member's turn: the slot of its own round as a host, of one of its
    /// streams, or its own contention slot. Where it is not, the member says nothing in the slot, and nothing changes.
    pub fn has_turn(&self, part: &Part, frame: u32) -> bool
        ensures turn { result ≡ is_turn self.now.setup frame part.now self.now.core }
        ensures silent { result ≡ false → opened_slot self.now.setup frame part.now self.now.core ≡ silent self.now.core }
    {
        match part {
            Part::Opening | Part::Closing => self.hosts_now(frame),
            Part::Data(owner) => owner.node() == self.id,
            Part::Contention(own) => self.own_slot == Some(*own),
        }
    }

    /// The slot of this part opens in its round, in this frame, which is at most `LAST_FRAME`. What it says in the slot, if it
    /// says something: the packet with counter 0. A host plans its next round where it closes one.
    pub fn speak(&mut self, part: &Part, slot: u8, frame: u32) -> Option<Packet>
        requires placed { IsPartOfSlot self.old.core.plan slot part.now }
        requires frame { frame ≤ LAST_FRAME }
        requires early { IsEarly frame self.old.core.table }
        ensures packet { result ≡ option_map (bytes_in_slot slot) (opened_slot self.old.setup frame part.now self.old.core).message }
        ensures said { IfSome result (IsInitialPacket (kind_for part.now)) }
        ensures core { self.new ≡ record self.old { core = (opened_slot self.old.setup frame part.now self.old.core).core } }
        ensures early { IsEarly frame self.new.core.table }
    {
        match part {
            Part::Opening => self.open_round(frame),
            Part::Data(owner) => self.send_data(*owner, slot),
            Part::Contention(own) => self.request(*own, slot),
            Part::Closing => self.close_round(frame, slot),
        }
    }

    /// The slot of this part opens, as for `speak`, in whatever place. The packet that it says reads as what it says, and names the
    /// first slot that such a part may have, or the last one of the round.
    pub fn say(&mut self, part: &Part, frame: u32) -> Option<Packet>
        requires frame { frame ≤ LAST_FRAME }
        requires early { IsEarly frame self.old.core.table }
        ensures packet { result ≡ option_map (bytes_in_slot (slot_said self.old.core.plan part.now))
            (opened_slot self.old.setup frame part.now self.old.core).message }
        ensures told { option_and_then message_of result ≡ (opened_slot self.old.setup frame part.now self.old.core).message }
        ensures core { self.new ≡ record self.old { core = (opened_slot self.old.setup frame part.now self.old.core).core } }
        ensures early { IsEarly frame self.new.core.table }
    {
        match part {
            Part::Opening => self.open_round(frame),
            Part::Data(owner) => self.send_data(*owner, 1),
            Part::Contention(own) => self.ask(*own),
            Part::Closing if self.hosts_now(frame) => Some(self.plan_next(frame)),
            Part::Closing => None,
        }
    }

    // The last slot: a host plans, and closes its round.
    fn close_round(&mut self, frame: u32, slot: u8) -> Option<Packet>
        requires slot { IsPartOfSlot self.old.core.plan slot Closing }
        requires frame { frame ≤ LAST_FRAME }
        requires early { IsEarly frame self.old.core.table }
        ensures packet { result ≡ option_map (bytes_in_slot slot) (opened_slot self.old.setup frame Closing self.old.core).message }
        ensures said { IfSome result (IsInitialPacket OfSchedule) }
        ensures core { self.new ≡ record self.old { core = (opened_slot self.old.setup frame Closing self.old.core).core } }
        ensures early { IsEarly frame self.new.core.table }
    {
        if !self.hosts_now(frame) {
            return None;
        }
        Some(self.plan_next(frame))
    }

    // Slot 0: a host opens its round.
    #[tactic(auto, using(crate::proofs::Spoken::schedule_spoken, crate::proofs::Told::told_schedule))]
    fn open_round(&mut self, frame: u32) -> Option<Packet>
        ensures packet { result ≡ option_map (bytes_in_slot 0) (opened_slot self.old.setup frame Opening self.old.core).message }
        ensures told { option_and_then message_of result ≡ (opened_slot self.old.setup frame Opening self.old.core).message }
        ensures said { IfSome result (IsInitialPacket OfSchedule) }
        ensures core { self.new ≡ self.old }
    {
        if !self.hosts_now(frame) {
            return None;
        }
        self.plan.gap = 0;
        Some(write(&self.plan, 0))
    }

    // A data slot: of its own stream the node sends the packet that waits longest.
    #[tactic(auto, using(crate::proofs::Spoken::data_spoken, crate::proofs::Told::told_data))]
    fn send_data(&mut self, owner: Owner, slot: u8) -> Option<Packet>
        requires { (1 ≤ slot) × (slot ≤ DATA_SLOTS) }
        ensures packet { result ≡ option_map (bytes_in_slot slot) (data_opened self.old.setup.id owner self.old.core).message }
        ensures told { option_and_then message_of result ≡ (data_opened self.old.setup.id owner self.old.core).message }
        ensures said { IfSome result (IsInitialPacket OfData) }
        ensures core { self.new ≡ record self.old { core = (data_opened self.old.setup.id owner self.old.core).core } }
    {
        if owner.node() != self.id {
            return None;
        }
        match self.streams.take(owner.stream()) {
            Some(waiting) => Some(encode_payload(&DataPacket {
                slot,
                counter: 0,
                node: self.id,
                boot: self.boot,
                stream: owner.stream(),
                seq: waiting.seq,
                payload: waiting.payload,
            })),
            None => None,
        }
    }

    // In a contention slot, counted from 1, a node that has this round's schedule and owns the slot may request.
    #[tactic(auto, using(crate::proofs::Spoken::request_spoken))]
    fn request(&mut self, own: u8, slot: u8) -> Option<Packet>
        requires { (1 ≤ slot) × (slot ≤ DATA_SLOTS + 4) }
        ensures packet { result ≡ option_map (bytes_in_slot slot) (contention_opened self.old.setup.id own self.old.core).message }
        ensures said { IfSome result (IsInitialPacket OfRequest) }
        ensures core { self.new ≡ record self.old { core = (contention_opened self.old.setup.id own self.old.core).core } }
    {
        if self.own_slot != Some(own) {
            return None;
        }
        match self.streams.request_now(self.id) {
            Some((stream, interval)) => Some(encode_request(&Request {
                slot,
                counter: 0,
                node: self.id,
                boot: self.boot,
                stream,
                interval,
            })),
            None => None,
        }
    }

    // A request as the others read it.
    fn ask(&mut self, own: u8) -> Option<Packet>
        ensures packet { result ≡ option_map (bytes_in_slot 1) (contention_opened self.old.setup.id own self.old.core).message }
        ensures told { option_and_then message_of result ≡ (contention_opened self.old.setup.id own self.old.core).message }
        ensures core { self.new ≡ record self.old { core = (contention_opened self.old.setup.id own self.old.core).core } }
    {
        self.request(own, 1)
    }
}
