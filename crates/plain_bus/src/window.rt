//! The windows of a node of the bus in the slots of a round.

ghost use Rattle.std.specs.Prelude.{◌≡◌, ◌<◌, ◌≤◌, ◌↔◌, length, ◌++◌, ◌∷◌, [], IfSome, OnOk, is_some, map, true, false, None, Some};
ghost use Rattle.std.specs.Option.{option_map, option_and_then};
ghost use Rattle.lwb_base.specs.declared.limits.TheConstants.{LAST_FRAME};
ghost use Rattle.bus_rules.specs.Cores.{is_member as is_core_member};
ghost use Rattle.bus_rules.specs.Plans.{slots_named};
ghost use Rattle.bus_rules.specs.Slots.{hosts_now};
ghost use Rattle.bus_rules.specs.Tuning.{hosts, scans as scans_rank};
ghost use Rattle.bus_terms.specs.Rounds.{message_said, takes_part, left_by, rank_in};
ghost use Rattle.lwb_member.specs.Members.{IsHeardInRange};
ghost use Rattle.lwb_member.specs.Said.{meaning, message_of};
ghost use Rattle.plain_bus.specs.SlotFloods.{seen_window, seen_of, node_closed, node_delivers};
ghost use Rattle.plain_bus.specs.BusNodes.{window_of_state, state_opened, closed_of, delivered_of, node_opened, MayAcceptIn, IsEarlyState};

use crate::node::BusNode;
use bus_rules::{Delivery, Part, Tune};
use lwb_base::{Memory, Packet, Rank};
use lwb_member::{Heard, Member, message_in};

/// What a node has to do with a slot that opens.
#[derive(Drop)]
pub struct Window {
    /// It is a member of the round.
    pub is_open: bool,
    /// It takes part in the flood of the slot: members do, and in the first slot and the last the scanning nodes of the rank.
    pub takes_part: bool,
    /// It says something.
    pub initiates: bool,
    /// What it says: the packet reads as that.
    pub said: Option<Packet>,
}

impl Window {
    // The window of a node that has nothing to do with the slot.
    fn shut() -> Window
        ensures { seen_window result ≡ record { is_open = false; takes_part = false; initiates = false; message = None } }
    {
        Window {
            is_open: false,
            takes_part: false,
            initiates: false,
            said: None,
        }
    }
}

impl Window {
    // The window of a member that says this.
    fn saying(packet: Packet) -> Window
        ensures is_open { result.is_open ≡ true }
        ensures takes_part { result.takes_part ≡ true }
        ensures initiates { result.initiates ≡ is_some (message_of packet) }
        ensures said { result.said ≡ Some packet }
    {
        Window {
            is_open: true,
            takes_part: true,
            initiates: message_in(&packet).is_some(),
            said: Some(packet),
        }
    }

    // The window of a silent member.
    fn silent() -> Window
        ensures { seen_window result ≡ record { is_open = true; takes_part = true; initiates = false; message = None } }
    {
        Window {
            is_open: true,
            takes_part: true,
            initiates: false,
            said: None,
        }
    }
}

impl BusNode {
    /// A slot of this part opens in the round of this rank and frame, which is at most `LAST_FRAME`. A node of another rank
    /// has nothing to do with it.
    pub fn open(&mut self, rank: Rank, frame: u32, part: &Part) -> Window
        requires frame { frame ≤ LAST_FRAME }
        requires early { IsEarlyState frame self.old.state }
        ensures state { self.new ≡ node_opened rank frame part.now self.old }
        ensures seen { seen_window result ≡ seen_of rank frame part.now self.old }
        ensures early { IsEarlyState frame self.new.state }
    {
        if self.rank != rank {
            return Window::shut();
        }
        self.open_own(rank, frame, part)
    }

    /// As `open`, and the window comes at the end of `windows`. In most slots the turn is another node's, and then there is no
    /// packet, which is long. `Err` means out of memory.
    pub(crate) fn open_into(
        &mut self,
        windows: &mut Vec<Window>,
        rank: Rank,
        frame: u32,
        part: &Part,
    ) -> Result<(), Memory>
        requires frame { frame ≤ LAST_FRAME }
        requires early { IsEarlyState frame self.old.state }
        ensures state { OnOk result (self.new ≡ node_opened rank frame part.now self.old) }
        ensures seen { OnOk result
            (map seen_window windows.new.items ≡ map seen_window windows.old.items ++ seen_of rank frame part.now self.old ∷ []) }
        ensures early { OnOk result (IsEarlyState frame self.new.state) }
    {
        if self.rank != rank || !self.is_on {
            windows.push(Window::shut())?;
            return Ok(());
        }
        if is_member(&self.member, rank, frame) && !self.member.has_turn(part, frame) {
            windows.push(Window::silent())?;
            return Ok(());
        }
        let window = self.open(rank, frame, part);
        windows.push(window)?;
        Ok(())
    }

    // The slot opens in the round of its own rank.
    fn open_own(&mut self, rank: Rank, frame: u32, part: &Part) -> Window
        requires frame { frame ≤ LAST_FRAME }
        requires early { IsEarlyState frame self.old.state }
        ensures state { self.new ≡ record self.old { state = state_opened self.old.setup rank frame part.now self.old.state } }
        ensures is_open { result.is_open ≡ is_some (window_of_state self.old.setup rank frame part.now self.old.state) }
        ensures takes_part { result.takes_part ≡ takes_part rank part.now self.old.state (window_of_state self.old.setup rank frame part.now self.old.state) }
        ensures initiates { result.initiates ≡ is_some (message_said (window_of_state self.old.setup rank frame part.now self.old.state)) }
        ensures said { option_and_then message_of result.said ≡ message_said (window_of_state self.old.setup rank frame part.now self.old.state) }
        ensures early { IsEarlyState frame self.new.state }
    {
        if !self.is_on {
            return Window::shut();
        }
        if !is_member(&self.member, rank, frame) {
            return Window {
                is_open: false,
                takes_part: part.is_for_schedule() && scans(&self.member, rank),
                initiates: false,
                said: None,
            };
        }
        match self.member.say(part, frame) {
            Some(packet) => Window::saying(packet),
            None => Window::silent(),
        }
    }

    /// The slot of this part and number closes in the round of this rank and frame, which is at most `LAST_FRAME`: the node
    /// initiated in it, accepted this, or neither. What it delivers, if something. A host accepts no schedule, and no more
    /// requests than its round has contention slots. If it is given one that it may not accept, it delivers nothing and stays
    /// as it was.
    pub fn close(
        &mut self,
        rank: Rank,
        frame: u32,
        slot: u8,
        part: Part,
        window: &Window,
        accepted: Option<Heard>,
    ) -> Option<Delivery>
        requires frame { frame ≤ LAST_FRAME }
        requires ranges { IfSome accepted IsHeardInRange }
        requires early { IsEarlyState frame self.old.state }
        ensures state { MayAcceptIn self.old.setup frame self.old.state (option_map meaning accepted)
            → self.new ≡ node_closed frame part (seen_window window.now) (option_map meaning accepted) self.old }
        ensures delivery { MayAcceptIn self.old.setup frame self.old.state (option_map meaning accepted)
            → result ≡ node_delivers rank frame slot part (seen_window window.now) (option_map meaning accepted) self.old }
        ensures refused { (MayAcceptIn self.old.setup frame self.old.state (option_map meaning accepted) → ⊥)
            → (self.new ≡ self.old) × (result ≡ None) }
        ensures early { IsEarlyState frame self.new.state }
    {
        if self.refuses(frame, &accepted) {
            return None;
        }
        let mut delivery = self.close_with(
            frame,
            slot,
            part,
            window.is_open,
            window.initiates,
            accepted,
        )?;
        delivery.rank = rank;
        Some(delivery)
    }

    // A host that is given a schedule, or in its own round a request for which it has no room.
    fn refuses(&self, frame: u32, accepted: &Option<Heard>) -> bool
        ensures { (result ≡ false) ↔ MayAcceptIn self.now.setup frame self.now.state (option_map meaning accepted.now) }
    {
        if !self.is_on {
            return false;
        }
        match accepted {
            Some(Heard::Schedule(_)) => is_host(&self.member),
            Some(Heard::Request(_)) => is_full(&self.member, frame),
            Some(Heard::Data(_)) | None => false,
        }
    }

    // The slot closes with what the node may accept.
    fn close_with(
        &mut self,
        frame: u32,
        slot: u8,
        part: Part,
        is_open: bool,
        initiated: bool,
        accepted: Option<Heard>,
    ) -> Option<Delivery>
        requires frame { frame ≤ LAST_FRAME }
        requires ranges { IfSome accepted IsHeardInRange }
        requires host { MayAcceptIn self.old.setup frame self.old.state (option_map meaning accepted) }
        requires early { IsEarlyState frame self.old.state }
        ensures state { self.new ≡ record self.old {
          state = left_by self.old.state (closed_of self.old.setup frame part is_open initiated (option_map meaning accepted) self.old.state);
        } }
        ensures delivery { result ≡ delivered_of self.old.setup.id frame (rank_in self.old.state) slot
            (closed_of self.old.setup frame part is_open initiated (option_map meaning accepted) self.old.state) }
        ensures early { IsEarlyState frame self.new.state }
    {
        if !self.is_on {
            return None;
        }
        if is_open {
            return self.member.close(frame, slot, part, initiated, accepted);
        }
        if accepted.is_none() {
            return None;
        }
        self.member.close(frame, slot, part, false, accepted)
    }
}

fn is_host(member: &Member) -> bool
    ensures { result ≡ hosts member.now.core.tune }
{
    match member.tune() {
        Tune::Host(..) => true,
        Tune::Hold(..) | Tune::Scan(..) => false,
    }
}

// A host in its own round that keeps as many requests as the round has contention slots.
fn is_full(member: &Member, frame: u32) -> bool
    ensures { (result ≡ false) ↔ (hosts_now frame member.now.core ≡ true → length member.now.core.kept < slots_named member.now.setup.profile.contend) }
{
    member.hosts_now(frame) && !member.has_room()
}

// A host or a synchronized member whose round this is, or a fresh scanning node of its rank.
fn is_member(member: &Member, rank: Rank, frame: u32) -> bool
    ensures { result ≡ is_core_member rank frame member.now.core }
{
    match member.tune() {
        Tune::Host(own, due) | Tune::Hold(own, due) => own == rank && due == frame,
        Tune::Scan(own, _) => own == rank && member.is_fresh(),
    }
}

// It scans this rank.
fn scans(member: &Member, rank: Rank) -> bool
    ensures { result ≡ scans_rank rank member.now.core.tune }
{
    match member.tune() {
        Tune::Scan(own, _) => own == rank,
        Tune::Hold(..) | Tune::Host(..) => false,
    }
}
