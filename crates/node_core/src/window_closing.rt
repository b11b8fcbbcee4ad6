//! The rows of the node table in which a window closes.

ghost use Rattle.std.specs.Prelude.{◌≡◌, ◌≤◌, ◌<◌, ◌^◌, ◌+◌, IfSome};
ghost use Rattle.std.specs.Option.{option_map};
ghost use Rattle.time_reference.specs.Reference.{times_of};
ghost use Rattle.node_core.specs.WindowClosing.{row_at_closing, waits_after};
ghost use Rattle.lwb_member.specs.Members.{IsHeardInRange};
ghost use Rattle.node_core.specs.Rows.{accepted_in, row_to_next_slot, window_closes, zero_by as zero_taken};
ghost use Rattle.lwb_member.specs.Said.{meaning};
ghost use Rattle.node_core.specs.Standing.{GoesThroughRow, HostsIn, IsWindow};
ghost use Rattle.lwb_base.specs.Orders.{Gives};
ghost use Rattle.node_core.specs.declared.stage.Stage.TheVariants.{InWindow};

use crate::node::{Node, forget};
use crate::stage::Stage;
use crate::times::frame_alarm;
use crate::window::Window;
use bus_rules::Tune;
use lwb_base::Radio;
use lwb_member::{Heard, message_in};
use time_reference::Reference;

impl Node {
    // Window closes, and round ends in the last slot: what the window accepted takes effect, and the node goes on.
    #[tactic(auto, using(crate::proofs::PassedWindows::window_passes))]
    pub(crate) fn close_window<R: Radio>(&mut self, radio: &mut R)
        requires { 2 ≤ (R.told radio.old).room }
        ensures { GoesThroughRow self.old self.new (R.told radio.old) (R.told radio.new) (row_at_closing self.old.setup self.old.node self.old.node.stage) }
    {
        let Stage::InWindow(slot, window) = &self.stage else {
            return;
        };
        // Most windows accept nothing, and then there is no long message to take along.
        if window.flood.has_accepted() {
            self.close_heard(radio);
            return;
        }
        let (slot, last, part) = (*slot, window.last, window.part);
        let initiated = window.flood.initiated();
        self.stage = stage_after(slot, last);
        forget(&mut self.delivery);
        self.member.pass(self.frame, part, initiated);
        self.go_on(slot, last, radio);
    }

    // As `close_window`, for a window that may have accepted something.
    fn close_heard<R: Radio>(&mut self, radio: &mut R)
        requires { 2 ≤ (R.told radio.old).room }
        ensures { GoesThroughRow self.old self.new (R.told radio.old) (R.told radio.new) (row_at_closing self.old.setup self.old.node self.old.node.stage) }
    {
        let Stage::InWindow(slot, window) = &self.stage else {
            return;
        };
        let (slot, last, part) = (*slot, window.last, window.part);
        let initiated = window.flood.initiated();
        let accepted = window.accepted();
        self.reference = self.reference_after(window.reference, &accepted);
        self.stage = stage_after(slot, last);
        self.delivery = self
            .member
            .close(self.frame, slot, part, initiated, accepted);
        self.go_on(slot, last, radio);
    }

    // The reference from the closing of a window on: that of an accepted schedule, whose zero this is, for the next round.
    fn reference_after(&self, heard: Option<u64>, accepted: &Option<Heard>) -> Reference
        requires { IfSome heard (λ z. z < 2 ^ 47) }
        ensures zero { result.zero ≡ zero_taken self.now.setup.profile self.now.node.zero heard (option_map meaning accepted.now) }
        ensures times { result ≡ times_of self.now.setup.profile result.zero }
    {
        match (heard, accepted) {
            (Some(zero), Some(Heard::Schedule(schedule))) => {
                self.reference.moved(zero).next_round(schedule.gap)
            }
            _ => self.reference,
        }
    }

    // After the window of this slot of a round that ends with the last.
    #[tactic(auto, using(crate::proofs::Timed::opening_is))]
    fn go_on<R: Radio>(&mut self, slot: u8, last: u8, radio: &mut R)
        requires stage { self.old.node.stage ≡ waits_after slot last }
        requires room { 2 ≤ (R.told radio.old).room }
        ensures node { self.new ≡ record self.old { node = (row_to_next_slot self.old.setup slot last self.old.node self.old.delivery).node } }
        ensures orders { Gives (R.told radio.old) (R.told radio.new) (row_to_next_slot self.old.setup slot last self.old.node self.old.delivery).orders }
    {
        let profile = self.member.profile();
        radio.off();
        if slot < last {
            radio.alarm(self.reference.slot_start(slot + 1));
        } else {
            if let Tune::Host(_, due) = self.member.tune() {
                self.reference = Reference::of_host(&profile, due);
            }
            radio.alarm(frame_alarm(&profile, self.frame));
        }
    }
}

// Where a node waits after the window of this slot of a round that ends with the last.
fn stage_after(slot: u8, last: u8) -> Stage
    ensures { result ≡ waits_after slot last }
{
    if slot < last {
        Stage::AwaitSlot(slot + 1)
    } else {
        Stage::AwaitFrame
    }
}

impl Window {
    // What its flood accepted.
    fn accepted(&self) -> Option<Heard>
        ensures value { option_map meaning result ≡ accepted_in self.now }
        ensures ranges { IfSome result IsHeardInRange }
    {
        let packet = self.flood.first_accepted()?;
        message_in(packet)
    }
}
