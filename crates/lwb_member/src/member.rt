//! A node as a member of its rounds.

ghost use Rattle.std.specs.Prelude.{◌≡◌, ◌+◌, ◌≤◌, ◌<◌, Some, None, IfOk, IfSome, length, is_some, nat_lt, [], if◌then◌else◌};
ghost use Rattle.lwb_base.specs.declared.limits.TheConstants.{DATA_SLOTS, LAST_FRAME, MOST_RANKS};
ghost use Rattle.bus_rules.specs.Plans.{last_slot as last_slot_of, slots_named};
ghost use Rattle.bus_rules.specs.Tuning.{rank_of};
ghost use Rattle.bus_rules.specs.Cores.{booted, frame_ended, is_fresh, begins_host as begins};
ghost use Rattle.bus_rules.specs.Slots.{part_of, hosts_now};
ghost use Rattle.bus_rules.specs.States.{IsStreamAct, core_after_act};
ghost use Rattle.bus_rules.specs.Streams as rule;
ghost use Rattle.node_streams.specs.declared.stream.Put.TheVariants.{Queued, Dropped};
ghost use Rattle.lwb_member.specs.Members.{IsBoot};
ghost use Rattle.lwb_member.specs.Places.{IsPartOfSlot};

use crate::kept::Kept;
use crate::round_end::last_slot;
use arrayvec::ArrayVec;
use bus_rules::{Act, Part, Tune, contention_slots};
use host_failover::Tuner;
use lwb_base::{Memory, NodeId, Payload, Profile, Rank};
use node_streams::{Put, Streams};
use schedule_codec::{Acks, Owners, Schedule};
use std::alloc::Global;
use std::marker::Model;
use stream_table::Table;

/// A node as a member of its rounds. Contracts see what is fixed for it, and the core that the rules of the bus change.
#[derive(Drop)]
pub struct Member {
    pub(crate) profile: Profile,
    pub(crate) id: NodeId,
    pub(crate) sends: u8,
    pub(crate) boot: u8,
    pub(crate) tuner: Tuner,
    pub(crate) plan: Schedule,
    pub(crate) streams: Streams,
    pub(crate) table: Table,
    pub(crate) own_slot: Option<u8>,
    pub(crate) kept: ArrayVec<Kept, 4>,
}

impl Model for Member {
    ghost use Rattle.lwb_member.specs.Members.{Member as MemberOf, IsMember};

    ghost Value = { MemberOf };

    ghost view = { λ m. record {
      setup = record { profile = m.profile; id = m.id; own = m.tuner.own; ranks = m.tuner.ranks; sends = m.sends };
      core = record {
        boot = m.boot;
        tune = m.tuner.tune;
        plan = m.plan.plan;
        streams = m.streams;
        table = m.table;
        own_slot = m.own_slot;
        kept = m.kept.items;
      };
    } };

    ghost invariant = { λ m. IsMember
        (record { profile = m.profile; id = m.id; own = m.tuner.own; ranks = m.tuner.ranks; sends = m.sends })
        (record { boot = m.boot; tune = m.tuner.tune; plan = m.plan.plan; streams = m.streams; table = m.table; own_slot = m.own_slot; kept = m.kept.items })
        m.tuner.joined };
}

fn no_plan() -> Schedule
    ensures { result.plan ≡ record { rank = 0; boot = 0; contend = 0; acks = []; owners = [] } }
{
    first_plan(Rank::new(0).unwrap(), 0, 0)
}

impl Member {
    /// A member with boot 1, which scans rank 0. `own` is the rank that it hosts, if it does, `ranks` the number of ranks, 1
    /// to 4, and `sends` how often it sends at most in one flood, 1 to 4.
    pub fn new(
        alloc: Global,
        profile: &Profile,
        id: NodeId,
        own: Option<Rank>,
        ranks: u8,
        sends: u8,
    ) -> Result<Member, Memory>
        requires ranks { (1 ≤ ranks) × (ranks ≤ MOST_RANKS) }
        requires own { IfSome own (λ r. r < ranks) }
        requires sends { (1 ≤ sends) × (sends ≤ 4) }
        ensures { IfOk result
            (λ m. m ≡ record { setup = record { profile = profile.now; id = id; own = own; ranks = ranks; sends = sends }; core = booted 1 }) }
    {
        Ok(Member {
            profile: *profile,
            id,
            sends,
            boot: 1,
            tuner: Tuner::new(own, ranks),
            plan: no_plan(),
            streams: Streams::new(alloc)?,
            table: Table::new(),
            own_slot: None,
            kept: ArrayVec::new(),
        })
    }

    /// As a new member, but with this boot number, 1 to `MOST_BOOTS`.
    pub fn reboot(&mut self, boot: u8)
        requires { IsBoot boot }
        ensures { self.new ≡ record self.old { core = booted boot } }
    {
        self.boot = boot;
        self.tuner.restart();
        self.plan = no_plan();
        self.streams.clear();
        self.table = Table::new();
        self.own_slot = None;
        self.kept = ArrayVec::new();
    }

    /// How often its power came on, 1 to `MOST_BOOTS`.
    pub fn boot(&self) -> u8
        ensures value { result ≡ self.now.core.boot }
        ensures range { IsBoot result }
    {
        self.boot
    }

    /// The id of the node.
    pub fn id(&self) -> NodeId
        ensures { result ≡ self.now.setup.id }
    {
        self.id
    }

    /// The profile of its network.
    pub fn profile(&self) -> Profile
        ensures { result ≡ self.now.setup.profile }
    {
        self.profile
    }

    /// How often it sends at most in one flood.
    pub fn sends(&self) -> u8
        ensures value { result ≡ self.now.setup.sends }
        ensures range { (1 ≤ result) × (result ≤ 4) }
    {
        self.sends
    }

    /// What it scans, holds or hosts.
    pub fn tune(&self) -> Tune
        ensures { result ≡ self.now.core.tune }
    {
        self.tuner.tune()
    }

    /// The rank that it scans, holds or hosts.
    pub fn rank(&self) -> Rank
        ensures { result ≡ rank_of self.now.core.tune }
    {
        match self.tuner.tune() {
            Tune::Scan(rank, _) | Tune::Hold(rank, _) | Tune::Host(rank, _) => rank,
        }
    }

    /// Does what an act asks of one of its streams, if it is for one. Returns `true` if and only if it puts a packet that its
    /// stream drops.
    pub fn tell(&mut self, act: &Act) -> bool
        requires { IsStreamAct act.now }
        ensures after { self.new ≡ record self.old { core = core_after_act act.now self.old.core } }
        ensures dropped { result ≡ rule.drops_by act.now self.old.core.streams }
    {
        self.streams.tell(act)
    }

    /// Puts a packet at the end of a stream's queue. Returns `Dropped`, and nothing changes, if and only if the stream requests
    /// nothing, 16 packets wait in it, or its 65,535 numbers are used.
    pub fn put(&mut self, stream: u8, payload: &Payload) -> Put
        requires { stream ≤ 3 }
        ensures answer { result ≡ (if rule.drops self.old.core.streams stream then Dropped else Queued (rule.stream_at self.old.core.streams stream).next) }
        ensures after { self.new ≡ record self.old { core = record self.old.core { streams = rule.after_put stream payload.now self.old.core.streams } } }
    {
        self.streams.put(stream, payload)
    }

    /// Whether it hosts, and the round of this frame is its own.
    pub fn hosts_now(&self, frame: u32) -> bool
        ensures { result ≡ hosts_now frame self.now.core }
    {
        match self.tuner.tune() {
            Tune::Host(_, due) => due == frame,
            Tune::Hold(..) | Tune::Scan(..) => false,
        }
    }

    /// Whether it keeps fewer requests than a round that it hosts has contention slots.
    pub fn has_room(&self) -> bool
        ensures { result ≡ nat_lt (length self.now.core.kept) (slots_named self.now.setup.profile.contend) }
    {
        self.kept.len() < usize::from(contention_slots(self.profile.contend()))
    }

    /// Whether it accepted this frame's opening schedule as a scanning node, and so takes part in its round.
    pub fn is_fresh(&self) -> bool
        ensures { result ≡ is_fresh self.now.core }
    {
        self.own_slot.is_some()
    }

    /// This frame ends, which is at most `LAST_FRAME`. Whether the node begins to host with the next one.
    #[tactic(auto, using(crate::proofs::Beginning::hosted_before))]
    pub fn frame_ended(&mut self, frame: u32) -> bool
        requires { frame ≤ LAST_FRAME }
        ensures after { self.new ≡ record self.old { core = frame_ended self.old.setup frame self.old.core } }
        ensures begins { result ≡ is_some (begins self.old.core.tune self.new.core.tune) }
    {
        let before = self.tuner.tune();
        let tune = self.tuner.frame_ended(frame);
        self.own_slot = None;
        match begun(before, tune) {
            Some(rank) => {
                self.plan = first_plan(rank, self.boot, self.profile.contend());
                self.table = Table::new();
                self.streams.hosting();
                true
            }
            None => false,
        }
    }

    /// The slot that closes the round of its plan, 2 to `DATA_SLOTS + 5`.
    pub fn last_slot(&self) -> u8
        ensures value { result ≡ last_slot_of self.now.core.plan }
        ensures range { (2 ≤ result) × (result ≤ DATA_SLOTS + 5) }
    {
        last_slot(&self.plan)
    }

    /// How many data slots the round of its plan has, at most `DATA_SLOTS`.
    pub fn owners(&self) -> u8
        ensures value { result ≡ length self.now.core.plan.owners }
        ensures range { result ≤ DATA_SLOTS }
    {
        self.plan.owners.count()
    }

    /// How many contention slots its plan names, at most 4; 0 for none.
    pub fn contend(&self) -> u8
        ensures value { result ≡ self.now.core.plan.contend }
        ensures range { result ≤ 4 }
    {
        self.plan.contend
    }

    /// What a slot of that round is for, which is at most the last.
    pub fn part(&self, slot: u8) -> Part
        requires { slot ≤ last_slot_of self.now.core.plan }
        ensures value { result ≡ part_of self.now.core.plan slot }
        ensures placed { IsPartOfSlot self.now.core.plan slot result }
    {
        let owners = self.plan.owners.count();
        if slot == 0 {
            Part::Opening
        } else if slot <= owners {
            Part::Data(self.plan.owners.at(usize::from(slot) - 1).unwrap())
        } else if slot < last_slot(&self.plan) {
            Part::Contention(slot - owners)
        } else {
            Part::Closing
        }
    }
}

// The plan of a host before its first round.
fn first_plan(host: Rank, host_boot: u8, contend: u8) -> Schedule
    ensures { result.plan ≡ record { rank = host; boot = host_boot; contend = contend; acks = []; owners = [] } }
{
    Schedule {
        host,
        host_boot,
        gap: 0,
        contend,
        acks: Acks::new(),
        owners: Owners::new(),
    }
}

// The rank that a node begins to host, where its tune becomes that of a host.
fn begun(before: Tune, after: Tune) -> Option<Rank>
    ensures { result ≡ begins before after }
{
    match (before, after) {
        (Tune::Scan(..), Tune::Host(rank, _)) => Some(rank),
        _ => None,
    }
}
