//! The rows of the node table in which power comes on and in which a frame ends.

ghost use Rattle.std.specs.Prelude.{◌≡◌, ◌≤◌, ◌<◌, ◌^◌, ◌==◌, [], None, if◌then◌else◌};
ghost use Rattle.node_core.specs.declared.stage.Stage.TheVariants.{AwaitFrame, AwaitSlot};
ghost use Rattle.node_core.specs.Rows.{boots, frame_alarms, waits};
ghost use Rattle.node_core.specs.Standing.{IsDue};
ghost use Rattle.lwb_base.specs.Orders.{Gives};

use crate::node::{Node, forget};
use crate::stage::Stage;
use crate::times::{frame_alarm, frame_at, next_frame};
use bus_rules::Tune;
use lwb_base::{Radio, Rank};
use time_reference::Reference;

impl Node {
    // Boot.
    pub(crate) fn boot<R: Radio>(&mut self, now: u64, radio: &mut R)
        requires now { now < 2 ^ 46 }
        requires room { 2 ≤ (R.told radio.old).room }
        ensures node { self.new ≡ record self.old { node = (boots self.old.setup self.old.node now).node; delivery = None } }
        ensures orders { Gives (R.told radio.old) (R.told radio.new) (boots self.old.setup self.old.node now).orders }
    {
        let profile = self.member.profile();
        let boot = self.member.boot();
        self.reboot(boot);
        self.frame = frame_at(&profile, now);
        self.stage = Stage::Scanning;
        radio.listen(Rank::new(0).unwrap());
        radio.alarm(frame_alarm(&profile, self.frame));
    }

    // Frame alarm, and quiet ends where the node begins to host.
    #[tactic(auto, using(crate::proofs::KeptRequests::frame_keeps))]
    pub(crate) fn end_frame<R: Radio>(&mut self, radio: &mut R)
        requires kept { self.old.node.core.kept ≡ [] }
        requires room { 2 ≤ (R.told radio.old).room }
        ensures node { self.new ≡ record self.old { node = (frame_alarms self.old.setup self.old.node).node; delivery = None } }
        ensures orders { Gives (R.told radio.old) (R.told radio.new) (frame_alarms self.old.setup self.old.node).orders }
    {
        let profile = self.member.profile();
        self.stage = Stage::AwaitFrame;
        forget(&mut self.delivery);
        let begins = self.member.frame_ended(self.frame);
        self.frame = next_frame(self.frame);
        match self.member.tune() {
            Tune::Scan(rank, _) => {
                self.stage = Stage::Scanning;
                radio.listen(rank);
                radio.alarm(frame_alarm(&profile, self.frame));
            }
            Tune::Hold(_, due) => self.wait_for(due, radio),
            Tune::Host(_, due) => {
                if begins {
                    self.reference = Reference::of_host(&profile, due);
                }
                self.wait_for(due, radio);
            }
        }
    }

    // It waits for slot 0 where the round is due in this frame, else further for the end of the frame.
    fn wait_for<R: Radio>(&mut self, due: u32, radio: &mut R)
        requires stage { self.old.node.stage ≡ AwaitFrame }
        requires room { 2 ≤ (R.told radio.old).room }
        requires due { IsDue due self.old.node.core.tune }
        ensures node { self.new ≡ record self.old { node = record self.old.node { stage = if due == self.old.node.frame then AwaitSlot 0 else AwaitFrame } } }
        ensures orders { Gives (R.told radio.old) (R.told radio.new) (waits self.old.setup.profile due self.old.node.frame self.old.node.zero) }
    {
        radio.off();
        if due == self.frame {
            self.stage = Stage::AwaitSlot(0);
            radio.alarm(self.reference.zero());
        } else {
            radio.alarm(frame_alarm(&self.member.profile(), self.frame));
        }
    }
}
