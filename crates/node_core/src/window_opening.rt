//! The row in which the window of a slot opens.

ghost use Rattle.std.specs.Prelude.{◌≡◌, ◌≤◌, [], ◌∷◌, ◌++◌, None, IfSome};
ghost use Rattle.lwb_base.specs.declared.order.Order.TheVariants.{Listen, Alarm};
ghost use Rattle.node_core.specs.declared.stage.Stage.TheVariants.{AwaitSlot, InWindow};
ghost use Rattle.bus_rules.specs.Plans.{last_slot};
ghost use Rattle.bus_rules.specs.Slots.{opened_slot, part_of, silent};
ghost use Rattle.glossy_relay.specs.FloodState.{listening};
ghost use Rattle.lwb_member.specs.Places.{IsPartOfSlot, kind_for};
ghost use Rattle.node_core.specs.Nodes.{starts_at, closes_at};
ghost use Rattle.node_core.specs.Rows.{window_opens};
ghost use Rattle.lwb_member.specs.Said.{IsInitialPacket};
ghost use Rattle.node_core.specs.WindowOpening.{flood_with, sent_first};
ghost use Rattle.lwb_base.specs.Orders.{Gives};

use crate::node::{Node, forget};
use crate::stage::Stage;
use crate::window::Window;
use bus_rules::Part;
use glossy_relay::Flood;
use lwb_base::{Packet, Radio, Rank};
use lwb_packets::Kind;
use round_runner::{Round, Window as WindowTimes};

impl Node {
    // Window opens, with host plans in the last slot of a host.
    pub(crate) fn open_window<R: Radio>(&mut self, slot: u8, radio: &mut R)
        requires stage { self.old.node.stage ≡ AwaitSlot slot }
        requires room { 3 ≤ (R.told radio.old).room }
        ensures node { self.new ≡ record self.old { node = (window_opens self.old.setup self.old.node slot).node; delivery = None } }
        ensures orders { Gives (R.told radio.old) (R.told radio.new) (window_opens self.old.setup self.old.node slot).orders }
    {
        let part = self.member.part(slot);
        // In most slots the turn is another node's, and then there is no packet, which is long.
        if self.member.has_turn(&part, self.frame) {
            self.open_own(slot, part, radio);
        } else {
            self.open_silent(slot, part, radio);
        }
    }

    // As `open_window`, with what the slot is for: the node may say something.
    fn open_own<R: Radio>(&mut self, slot: u8, part: Part, radio: &mut R)
        requires stage { self.old.node.stage ≡ AwaitSlot slot }
        requires part { part ≡ part_of self.old.node.core.plan slot }
        requires placed { IsPartOfSlot self.old.node.core.plan slot part }
        requires room { 3 ≤ (R.told radio.old).room }
        ensures node { self.new ≡ record self.old { node = (window_opens self.old.setup self.old.node slot).node; delivery = None } }
        ensures orders { Gives (R.told radio.old) (R.told radio.new) (window_opens self.old.setup self.old.node slot).orders }
    {
        let frame = self.frame;
        let sends = self.member.sends();
        let last = self.member.last_slot();
        let times = self.times_of(slot);
        let rank = self.member.rank();
        let packet = self.member.speak(&part, slot, frame);
        order(rank, &packet, times.start, times.until, radio);
        forget(&mut self.delivery);
        open(&mut self.stage, slot, part, last, sends, &packet);
    }

    // As `open_window`, with what the slot is for: the node says nothing.
    fn open_silent<R: Radio>(&mut self, slot: u8, part: Part, radio: &mut R)
        requires stage { self.old.node.stage ≡ AwaitSlot slot }
        requires part { part ≡ part_of self.old.node.core.plan slot }
        requires silent { opened_slot self.old.setup self.old.node.frame part self.old.node.core ≡ silent self.old.node.core }
        requires room { 3 ≤ (R.told radio.old).room }
        ensures node { self.new ≡ record self.old { node = (window_opens self.old.setup self.old.node slot).node; delivery = None } }
        ensures orders { Gives (R.told radio.old) (R.told radio.new) (window_opens self.old.setup self.old.node slot).orders }
    {
        let sends = self.member.sends();
        let last = self.member.last_slot();
        let until = self.times_of(slot).until;
        let rank = self.member.rank();
        order_listening(rank, until, radio);
        forget(&mut self.delivery);
        listen(&mut self.stage, slot, part, last, sends);
    }

    // The window of a slot of the round, which is at most the last.
    fn times_of(&self, slot: u8) -> WindowTimes
        requires { slot ≤ last_slot self.now.node.core.plan }
        ensures start { result.start ≡ starts_at self.now.setup.profile self.now.node.zero slot }
        ensures until { result.until ≡ closes_at self.now.setup.profile self.now.node.zero slot }
    {
        let round = Round::new(
            &self.member.profile(),
            self.reference,
            self.member.owners(),
            self.member.contend(),
        );
        round.window(slot)
    }
}

// The window of a slot opens, whose flood begins here with this packet or listens. Each of the two branches
// builds the stage in its place, since a flood is long to move.
fn open(stage: &mut Stage, slot: u8, part: Part, last: u8, sends: u8, packet: &Option<Packet>)
    requires said { IfSome packet.now (IsInitialPacket (kind_for part)) }
    requires sends { (1 ≤ sends) × (sends ≤ 4) }
    ensures { stage.new ≡ InWindow slot (record { part = part; last = last; flood = flood_with (kind_for part) slot sends packet.now; reference = None }) }
{
    match packet {
        Some(packet) => {
            *stage = Stage::InWindow(
                slot,
                Window {
                    part,
                    last,
                    flood: Flood::initiate(packet, sends),
                    reference: None,
                },
            );
        }
        None => listen(stage, slot, part, last, sends),
    }
}

// The window of a slot opens, whose flood listens.
fn listen(stage: &mut Stage, slot: u8, part: Part, last: u8, sends: u8)
    requires sends { (1 ≤ sends) × (sends ≤ 4) }
    ensures { stage.new ≡ InWindow slot (record { part = part; last = last; flood = listening (kind_for part) slot sends; reference = None }) }
{
    let kind = kind_in(&part);
    *stage = Stage::InWindow(
        slot,
        Window {
            part,
            last,
            flood: Flood::listen(kind, slot, sends),
            reference: None,
        },
    );
}

// The orders of a window: its radio is on, this packet starts, and the window closes.
fn order<R: Radio>(rank: Rank, packet: &Option<Packet>, start: u64, until: u64, radio: &mut R)
    requires { 3 ≤ (R.told radio.old).room }
    ensures { Gives (R.told radio.old) (R.told radio.new) (Listen rank ∷ sent_first start packet.now ++ Alarm until ∷ []) }
{
    radio.listen(rank);
    match packet {
        Some(packet) => radio.send_at(start, packet),
        None => {}
    }
    radio.alarm(until);
}

// The orders of a window in which nothing is said: its radio is on, and the window closes.
fn order_listening<R: Radio>(rank: Rank, until: u64, radio: &mut R)
    requires { 2 ≤ (R.told radio.old).room }
    ensures { Gives (R.told radio.old) (R.told radio.new) (Listen rank ∷ Alarm until ∷ []) }
{
    radio.listen(rank);
    radio.alarm(until);
}

// What packets a slot is for.
fn kind_in(part: &Part) -> Kind
    ensures { result ≡ kind_for part.now }
{
    match part {
        Part::Opening | Part::Closing => Kind::Schedule,
        Part::Data(_) => Kind::Payload,
        Part::Contention(_) => Kind::Request,
    }
}
