//! A node of the bus: off, or on as a member of its rounds.

ghost use Rattle.std.specs.Prelude.{◌≡◌, ◌≤◌, ◌<◌, ◌++◌, IfOk, OnOk, IfSome, option_to_list};
ghost use Rattle.lwb_base.specs.declared.limits.TheConstants.{LAST_FRAME, MOST_RANKS};
ghost use Rattle.bus_rules.specs.Cores.{frame_ended as core_ended};
ghost use Rattle.bus_rules.specs.States.{StateOff, at_core, core_after_act, state_after_on, state_after_off, IsAct, IsStreamAct, state_after_act};
ghost use Rattle.bus_rules.specs.declared.act.Act.TheVariants.{Put as PutAct};
ghost use Rattle.bus_terms.specs.Packets.{put_by, queued_packet};
ghost use Rattle.bus_terms.specs.Rounds.{rank_in};
ghost use Rattle.bus_rules.specs.Tuning.{is_scan};
ghost use Rattle.bus_terms.specs.ScriptedStates.{is_on_and};
ghost use Rattle.plain_bus.specs.BusNodes.{MayBoot, MayDo};

use bus_rules::{Act, Tune};
use bus_terms::{PacketId, PutLine};
use lwb_base::{Memory, NodeId, Payload, Profile, Rank};
use lwb_member::Member;
use node_streams::Put;
use scenario_text::ScriptLine;
use std::alloc::Global;
use std::marker::Model;

/// A node of the bus: off after a number of boots, or on as a member of its rounds.
#[derive(Drop)]
pub struct BusNode {
    pub(crate) member: Member,
    // The rank of the round that it joins in this frame.
    pub(crate) rank: Rank,
    pub(crate) is_on: bool,
    pub(crate) boots: u8,
}

impl Model for BusNode {
    ghost use Rattle.plain_bus.specs.BusNodes.{BusNode as NodeOf, state_by};

    ghost Value = { NodeOf };

    ghost view = { λ n. record { setup = n.member.setup; rank = n.rank; state = state_by n.is_on n.member.core n.boots } };
}

impl BusNode {
    /// A node that is off, and never booted. `own` is the rank that it hosts, if it does, `ranks` the number of ranks, 1 to
    /// 4, and `sends` how often it sends at most in one flood, 1 to 4.
    pub fn new(
        alloc: Global,
        profile: &Profile,
        id: NodeId,
        own: Option<Rank>,
        ranks: u8,
        sends: u8,
    ) -> Result<BusNode, Memory>
        requires ranks { (1 ≤ ranks) × (ranks ≤ MOST_RANKS) }
        requires own { IfSome own (λ r. r < ranks) }
        requires sends { (1 ≤ sends) × (sends ≤ 4) }
        ensures { IfOk result
            (λ n. n ≡ record { setup = record { profile = profile.now; id = id; own = own; ranks = ranks; sends = sends }; rank = 0; state = StateOff 0 }) }
    {
        Ok(BusNode {
            member: Member::new(alloc, profile, id, own, ranks, sends)?,
            rank: Rank::new(0).unwrap(),
            is_on: false,
            boots: 0,
        })
    }

    /// Does what this script line asks. What it puts is added at the end of `puts`: with the packet that is queued, or with none
    /// where it is dropped. `Err` means out of memory.
    pub fn give(&mut self, line: &ScriptLine, puts: &mut Vec<PutLine>) -> Result<(), Memory>
        requires act { IsAct self.old.setup.profile line.now.act }
        requires boot { MayDo line.now.act self.old.state }
        ensures state { OnOk result (self.new ≡ record self.old { state = state_after_act line.now.act self.old.state }) }
        ensures puts { OnOk result
            (puts.new.items ≡ puts.old.items ++ option_to_list (put_by line.now line.now.act self.old.state)) }
    {
        match &line.act {
            Act::On => self.switch_on(),
            Act::Off => self.switch_off(),
            Act::Declare(..) | Act::Leave(_) => self.change_streams(&line.act),
            Act::Put(stream, payload) => {
                let packet = self.queue(line.node, *stream, payload);
                puts.push(PutLine {
                    frame: line.frame,
                    node: line.node,
                    stream: *stream,
                    packet,
                })?;
            }
        }
        Ok(())
    }

    // An act for a stream, where it is on.
    fn change_streams(&mut self, act: &Act)
        requires { IsStreamAct act.now }
        ensures { self.new ≡ record self.old { state = at_core (core_after_act act.now) self.old.state } }
    {
        if self.is_on {
            self.member.tell(act);
        }
    }

    // The packet of this node that it queues by a put to a stream, if it does.
    fn queue(&mut self, node: NodeId, stream: u8, payload: &Payload) -> Option<PacketId>
        requires { stream ≤ 3 }
        ensures state { self.new ≡ record self.old { state = at_core (core_after_act (PutAct stream payload.now)) self.old.state } }
        ensures packet { result ≡ queued_packet node stream self.old.state }
    {
        if !self.is_on {
            return None;
        }
        match self.member.put(stream, payload) {
            Put::Queued(seq) => Some(PacketId {
                node,
                boot: self.member.boot(),
                stream,
                seq,
            }),
            Put::Dropped => None,
        }
    }

    // Power comes on, where it was off.
    fn switch_on(&mut self)
        requires { MayBoot self.old.state }
        ensures { self.new ≡ record self.old { state = state_after_on self.old.state } }
    {
        if !self.is_on {
            self.member.reboot(self.boots + 1);
            self.is_on = true;
        }
    }

    // Power goes off, where it was on.
    fn switch_off(&mut self)
        ensures { self.new ≡ record self.old { state = state_after_off self.old.state } }
    {
        if self.is_on {
            self.boots = self.member.boot();
            self.is_on = false;
        }
    }

    /// It is on and scans for a host.
    pub fn scans(&self) -> bool
        ensures { result ≡ is_on_and (λ c. is_scan c.tune) self.now.state }
    {
        self.is_on && matches!(self.member.tune(), Tune::Scan(..))
    }

    /// The rounds of a frame begin: it takes part in that of the rank which it scans, holds or hosts now.
    pub fn begin_rounds(&mut self)
        ensures { self.new ≡ record self.old { rank = rank_in self.old.state } }
    {
        self.rank = if self.is_on {
            self.member.rank()
        } else {
            Rank::new(0).unwrap()
        };
    }

    /// This frame ends, which is at most `LAST_FRAME`.
    pub fn end_frame(&mut self, frame: u32)
        requires { frame ≤ LAST_FRAME }
        ensures { self.new ≡ record self.old { state = at_core (core_ended self.old.setup frame) self.old.state } }
    {
        if self.is_on {
            self.member.frame_ended(frame);
        }
    }
}
