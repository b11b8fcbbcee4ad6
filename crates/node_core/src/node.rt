//! The core of one node: from events to orders.

ghost use Rattle.std.specs.Prelude.{◌≡◌, ◌≤◌, ◌<◌, Some, None, IfOk, IfSome, if◌then◌else◌, is_some, length};
ghost use Rattle.lwb_base.specs.declared.limits.TheConstants.{MOST_RANKS};
ghost use Rattle.bus_rules.specs.Cores.{own_rank};
ghost use Rattle.bus_rules.specs.declared.tune.Tune.TheVariants.{Scan};
ghost use Rattle.bus_rules.specs.States.{IsAct};
ghost use Rattle.bus_rules.specs.Streams as rule;
ghost use Rattle.node_streams.specs.declared.stream.Put.TheVariants.{Queued, Dropped};
ghost use Rattle.lwb_member.specs.Members.{IsBoot};
ghost use Rattle.node_core.specs.declared.node.Place.TheVariants.{Off};
ghost use Rattle.node_core.specs.Nodes.{rebooted, with_streams};
ghost use Rattle.node_core.specs.Standing.{place_of};

use crate::stage::Stage;
use bus_rules::{Act, Delivery, Tune};
use lwb_base::{Memory, NodeId, Payload, Profile, Rank};
use lwb_member::Member;
use node_streams::Put;
use std::alloc::Global;
use std::marker::Model;
use time_reference::Reference;

/// Where a node is in its frame.
#[derive(Clone, Copy, Debug, PartialEq, Eq)]
pub enum Place {
    /// Its power never came on.
    Off,
    /// It listens for a schedule.
    Scanning,
    /// It waits for the end of the frame.
    AwaitFrame,
    /// It waits for this slot of a round.
    AwaitSlot(u8),
    /// It is in the window of this slot.
    InWindow(u8),
}

/// The core of one node. It learns what happens from events, and gives orders to a radio.
#[derive(Drop)]
pub struct Node {
    pub(crate) member: Member,
    pub(crate) frame: u32,
    pub(crate) reference: Reference,
    pub(crate) stage: Stage,
    pub(crate) delivery: Option<Delivery>,
}

impl Model for Node {
    ghost use Rattle.node_core.specs.Nodes.{NodeState};
    ghost use Rattle.node_core.specs.Standing.{IsNode};

    ghost Value = { NodeState };

    ghost view = { λ n. record {
      setup = n.member.setup;
      node = record { core = n.member.core; frame = n.frame; zero = n.reference.zero; stage = n.stage };
      delivery = n.delivery;
    } };

    ghost invariant = { λ n. IsNode n.member.setup.profile n.member.core n.frame n.reference n.stage };
}

impl Node {
    /// A node whose power is off, with boot 1. The hosts are those of the network by rank, 1 to 4 that differ, and in one
    /// flood a node sends at most n times, 1 to 4.
    pub fn new(
        alloc: Global,
        profile: &Profile,
        id: NodeId,
        hosts: &[NodeId],
        n: u8,
    ) -> Result<Node, Memory>
        requires hosts { (1 ≤ length hosts.now) × (length hosts.now ≤ MOST_RANKS) }
        requires sends { (1 ≤ n) × (n ≤ 4) }
        ensures { IfOk result (λ x. x ≡ record {
          setup = record { profile = profile.now; id = id; own = own_rank id hosts.now; ranks = length hosts.now; sends = n };
          node = rebooted 1;
          delivery = None;
        }) }
    {
        let own = rank_among(id, hosts);
        Ok(Node {
            member: Member::new(alloc, profile, id, own, hosts.len() as u8, n)?,
            frame: 0,
            reference: Reference::new(profile),
            stage: Stage::Idle,
            delivery: None,
        })
    }

    /// As a new node, with this boot number, 1 to `MOST_BOOTS`.
    pub fn reboot(&mut self, boot: u8)
        requires { IsBoot boot }
        ensures { self.new ≡ record self.old { node = rebooted boot; delivery = None } }
    {
        self.stage = Stage::Idle;
        self.member.reboot(boot);
        self.frame = 0;
        self.reference = Reference::new(&self.member.profile());
        self.delivery = None;
    }

    /// Sets the interval that a stream requests, 1 to 120 seconds. Streams are 0 to 3.
    pub fn declare(&mut self, stream: u8, interval: u8)
        requires stream { stream ≤ 3 }
        requires interval { (1 ≤ interval) × (interval ≤ 120) }
        ensures { self.new ≡ record self.old { node = with_streams self.old.node (rule.declared stream interval self.old.node.core.streams) } }
    {
        self.member.tell(&Act::Declare(stream, interval));
    }

    /// The stream requests nothing more, and what waits in it is gone.
    pub fn leave(&mut self, stream: u8)
        requires { stream ≤ 3 }
        ensures { self.new ≡ record self.old { node = with_streams self.old.node (rule.streams_after_leaving stream self.old.node.core.streams) } }
    {
        self.member.tell(&Act::Leave(stream));
    }

    /// Puts a packet at the end of a stream's queue; its payload is at most as long as the profile allows. Returns `Dropped`,
    /// and nothing changes, if and only if the stream requests nothing, 16 packets wait in it, or its 65,535 numbers are used.
    pub fn put(&mut self, stream: u8, payload: &Payload) -> Put
        requires stream { stream ≤ 3 }
        requires payload { length payload.now ≤ self.old.setup.profile.payload_max }
        ensures answer { result
            ≡ (if rule.drops self.old.node.core.streams stream then Dropped else Queued (rule.stream_at self.old.node.core.streams stream).next) }
        ensures after { self.new ≡ record self.old { node = with_streams self.old.node (rule.after_put stream payload.now self.old.node.core.streams) } }
    {
        self.member.put(stream, payload)
    }

    /// Does what an act asks of one of its streams, if it is for one. Returns `true` if and only if it puts a packet that its
    /// stream drops.
    pub fn tell(&mut self, act: &Act) -> bool
        requires { IsAct self.old.setup.profile act.now }
        ensures after { self.new ≡ record self.old { node = with_streams self.old.node (rule.streams_after_act act.now self.old.node.core.streams) } }
        ensures dropped { result ≡ rule.drops_by act.now self.old.node.core.streams }
    {
        self.member.tell(act)
    }

    /// What it scans, holds or hosts. At the place `Off` it is to scan rank 0.
    #[tactic(auto, using(crate::proofs::OffNodes::off_scans))]
    pub fn tune(&self) -> Tune
        ensures value { result ≡ self.now.node.core.tune }
        ensures off { place_of self.now.node.stage ≡ Off → result ≡ Scan 0 0 }
    {
        self.member.tune()
    }

    /// Where it is in its frame.
    #[tactic(auto, using(crate::proofs::OffNodes::off_scans))]
    pub fn place(&self) -> Place
        ensures value { result ≡ place_of self.now.node.stage }
        ensures off { result ≡ Off → self.now.node.core.tune ≡ Scan 0 0 }
    {
        match self.stage {
            Stage::Idle => Place::Off,
            Stage::Scanning => Place::Scanning,
            Stage::AwaitFrame => Place::AwaitFrame,
            Stage::AwaitSlot(slot) => Place::AwaitSlot(slot),
            Stage::InWindow(slot, _) => Place::InWindow(slot),
        }
    }

    /// Whether the last step whose event fitted a row made a delivery that is not yet taken. A delivery is long, so this is to
    /// be asked before one is moved.
    pub fn has_delivered(&self) -> bool
        ensures { result ≡ is_some self.now.delivery }
    {
        self.delivery.is_some()
    }

    /// The delivery of the last step whose event fitted a row, once. Returns `None` if and only if that step made none, it was
    /// taken, or there was no such step.
    pub fn delivered(&mut self) -> Option<Delivery>
        ensures delivery { result ≡ self.old.delivery }
        ensures once { self.new ≡ record self.old { delivery = None } }
    {
        self.delivery.take()
    }
}

// No delivery is left there. It is long, and mostly there is none, so that it is not to be blanked.
pub(crate) fn forget(delivery: &mut Option<Delivery>)
    ensures { delivery.new ≡ None }
{
    if delivery.is_some() {
        *delivery = None;
    }
}

// The rank that a node hosts, if it is one of the hosts.
fn rank_among(id: NodeId, hosts: &[NodeId]) -> Option<Rank>
    requires { length hosts.now ≤ MOST_RANKS }
    ensures value { result ≡ own_rank id hosts.now }
    ensures range { IfSome result (λ r. r < length hosts.now) }
{
    match place_among(id, hosts) {
        Some(place) => Rank::new(place as u8),
        None => None,
    }
}

fn place_among(id: NodeId, hosts: &[NodeId]) -> Option<usize>
    ensures value { result ≡ own_rank id hosts.now }
    ensures within { IfSome result (λ i. i < length hosts.now) }
{
    hosts.iter().position(|host| *host == id)
}
