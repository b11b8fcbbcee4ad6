//! The rows of the node table in which a packet is received.

ghost use Rattle.std.specs.Prelude.{◌≡◌, ◌≤◌, ◌<◌, ◌^◌, Some, None, true, false};
ghost use Rattle.schedule_codec.specs.Spelling.{slot_fits};
ghost use Rattle.glossy_relay.specs.Relaying.{slot_of};
ghost use Rattle.bus_rules.specs.Tuning.{hosts};
ghost use Rattle.lwb_member.specs.Said.{message_of};
ghost use Rattle.node_core.specs.Rows.{at_heard, row_in_window, joins, last_by as last_slot_by, part_by as part_of_slot_by, scanner_hears};
ghost use Rattle.node_core.specs.Standing.{GoesThroughRow};
ghost use Rattle.lwb_base.specs.Orders.{Gives};

use crate::node::{Node, forget};
use crate::sending::relay;
use crate::stage::Stage;
use crate::times::{closes_at, heard_reference};
use crate::window::Window;
use bus_rules::Part;
use glossy_relay::Flood;
use lwb_base::{Packet, Radio};
use lwb_member::{Heard, last_slot, message_in};
use lwb_packets::Kind;
use schedule_codec::Schedule;

impl Node {
    // A packet was received.
    pub(crate) fn hear<R: Radio>(&mut self, now: u64, packet: &Packet, radio: &mut R)
        requires now { now < 2 ^ 46 }
        requires room { 2 ≤ (R.told radio.old).room }
        ensures { GoesThroughRow self.old self.new (R.told radio.old) (R.told radio.new)
            (at_heard self.old.setup self.old.node now packet.now self.old.node.stage) }
    {
        match self.stage {
            Stage::Scanning => self.hear_while_scanning(now, packet, radio),
            Stage::InWindow(..) => self.hear_in_window(now, packet, radio),
            Stage::Idle | Stage::AwaitFrame | Stage::AwaitSlot(_) => {}
        }
    }

    // Received schedule while scanning. Another packet fits no row.
    fn hear_while_scanning<R: Radio>(&mut self, now: u64, packet: &Packet, radio: &mut R)
        requires host { hosts self.old.node.core.tune ≡ false }
        requires now { now < 2 ^ 46 }
        requires room { 2 ≤ (R.told radio.old).room }
        ensures { GoesThroughRow self.old self.new (R.told radio.old) (R.told radio.new)
            (scanner_hears self.old.setup self.old.node now packet.now (message_of packet.now)) }
    {
        match message_in(packet) {
            Some(Heard::Schedule(schedule)) => {
                if schedule.host == self.member.rank() {
                    self.join(now, packet, &schedule, radio);
                }
            }
            Some(Heard::Data(_)) | Some(Heard::Request(_)) | None => {}
        }
    }

    // The schedule of this packet is the first that a scanning node received.
    fn join<R: Radio>(&mut self, now: u64, packet: &Packet, schedule: &Schedule, radio: &mut R)
        requires host { hosts self.old.node.core.tune ≡ false }
        requires now { now < 2 ^ 46 }
        requires contend { schedule.now.plan.contend ≤ 4 }
        requires place { slot_fits schedule.now.gap schedule.now.plan.contend (slot_of packet.now) ≡ true }
        requires room { 2 ≤ (R.told radio.old).room }
        ensures node { self.new ≡ record self.old { node = (joins self.old.setup self.old.node now packet.now schedule.now).node; delivery = None } }
        ensures orders { Gives (R.told radio.old) (R.told radio.new) (joins self.old.setup self.old.node now packet.now schedule.now).orders }
    {
        let profile = self.member.profile();
        let slot = packet.slot();
        let mut flood = Flood::listen(Kind::Schedule, slot, self.member.sends());
        let reply = flood.heard(packet);
        let reference = heard_reference(&profile, now, packet);
        self.reference = reference;
        self.stage = Stage::InWindow(
            slot,
            Window {
                part: part_by(schedule),
                last: last_by(schedule, slot),
                flood,
                reference: Some(reference.zero()),
            },
        );
        forget(&mut self.delivery);
        relay(&profile, now, &reply, radio);
        radio.alarm(closes_at(&profile, &reference, slot));
    }

    // Received in a window.
    pub(crate) fn hear_in_window<R: Radio>(&mut self, now: u64, packet: &Packet, radio: &mut R)
        requires now { now < 2 ^ 46 }
        requires room { 1 ≤ (R.told radio.old).room }
        ensures { GoesThroughRow self.old self.new (R.told radio.old) (R.told radio.new)
            (row_in_window self.old.setup self.old.node now packet.now self.old.node.stage) }
    {
        let profile = self.member.profile();
        let rank = self.member.rank();
        let Stage::InWindow(_, window) = &mut self.stage else {
            return;
        };
        let reply = window.hear(&profile, rank, now, packet);
        forget(&mut self.delivery);
        relay(&profile, now, &reply, radio);
    }
}

// What the slot is for in which this schedule was received.
fn part_by(schedule: &Schedule) -> Part
    ensures { result ≡ part_of_slot_by schedule.now }
{
    if schedule.gap == 0 {
        Part::Opening
    } else {
        Part::Closing
    }
}

// The last slot of the round whose schedule was received in this slot. An opening says how long it is, a closing ends it.
fn last_by(schedule: &Schedule, slot: u8) -> u8
    requires { schedule.now.plan.contend ≤ 4 }
    ensures { result ≡ last_slot_by schedule.now slot }
{
    if schedule.gap == 0 {
        last_slot(schedule)
    } else {
        slot
    }
}
