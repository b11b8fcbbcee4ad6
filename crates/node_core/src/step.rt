//! One event at a node.

ghost use Rattle.std.specs.Prelude.{◌≡◌, ◌≤◌, ◌<◌, ◌^◌};
ghost use Rattle.node_core.specs.Rows.{at_alarm, row};
ghost use Rattle.node_core.specs.Standing.{GoesThroughRow};

use crate::node::Node;
use crate::stage::Stage;
use lwb_base::{Event, LocalClock, Radio};

impl Node {
    /// Handles an event that happens now, by the clock's reading: goes through the row of the node table that fits, and
    /// gives its orders to the radio, which has room for at least 4. An event that fits no row changes nothing and gives no
    /// order.
    pub fn step<C: LocalClock, R: Radio>(&mut self, clock: &C, radio: &mut R, event: Event)
        requires { 4 ≤ (R.told radio.old).room }
        ensures row { GoesThroughRow self.old self.new (R.told radio.old) (R.told radio.new) (row self.old.setup self.old.node (C.time clock.now) event) }
        ensures setup { self.new.setup ≡ self.old.setup }
    {
        self.handle(clock, radio, &event);
    }

    /// As `step`, with an event that stays where it is. The clock is read only where a time is needed.
    pub fn handle<C: LocalClock, R: Radio>(&mut self, clock: &C, radio: &mut R, event: &Event)
        requires { 4 ≤ (R.told radio.old).room }
        ensures row { GoesThroughRow self.old self.new (R.told radio.old) (R.told radio.new) (row self.old.setup self.old.node (C.time clock.now) event.now) }
        ensures setup { self.new.setup ≡ self.old.setup }
    {
        match event {
            Event::Boot => self.boot(clock.now(), radio),
            Event::Alarm => self.alarm(radio),
            Event::Heard(packet) => self.hear(clock.now(), packet, radio),
            Event::Sent => self.end_sending(radio),
        }
    }

    // The alarm is due.
    #[tactic(auto, using(crate::proofs::KeptRequests::scanner_keeps_none, crate::proofs::KeptRequests::waiter_keeps_none))]
    fn alarm<R: Radio>(&mut self, radio: &mut R)
        requires { 3 ≤ (R.told radio.old).room }
        ensures { GoesThroughRow self.old self.new (R.told radio.old) (R.told radio.new) (at_alarm self.old.setup self.old.node self.old.node.stage) }
    {
        match self.stage {
            Stage::Idle => {}
            Stage::Scanning | Stage::AwaitFrame => self.end_frame(radio),
            Stage::AwaitSlot(slot) => self.open_window(slot, radio),
            Stage::InWindow(..) => self.close_window(radio),
        }
    }
}
