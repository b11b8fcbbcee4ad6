//! The gaps of the schedules of a log.

ghost use Rattle.std.specs.Prelude.{◌≡◌, None, IfSome, IfNone};
ghost use Rattle.schedule_codec.specs.Reading.{schedule_of};
ghost use Rattle.bus_time.specs.Gaps.{IsGapOf};

use lwb_base::{LAST_STEP, Packet};
use lwb_packets::{same_body, with_counter};
use schedule_codec::read;
use std::marker::Model;

// The bytes of a schedule, and its gap.
#[derive(Drop)]
struct Told {
    packet: Packet,
    gap: u8,
}

impl Model for Told {
    ghost use Rattle.std.specs.Prelude.{ℕ, List};
    ghost use Rattle.bus_time.specs.Gaps.{IsGapOf};

    ghost Value = { List ℕ × ℕ };

    ghost view = { λ t. (t.packet, t.gap) };

    ghost invariant = { λ t. IsGapOf t.packet t.gap };

    ghost inverse = { λ v. record { packet = v.0; gap = v.1 } };
}

impl Told {
    // The gap, if the packet is the same but for its counter.
    fn gap_of(&self, packet: &Packet) -> Option<u8>
        ensures { IfSome result (λ gap. IsGapOf packet.now gap) }
    {
        if packet.counter() <= LAST_STEP && same_body(packet, &self.packet) {
            Some(self.gap)
        } else {
            None
        }
    }
}

// The schedule that was read last. A log has the receptions of a flood one after another, so most of them need not be read.
#[derive(Drop)]
pub(crate) struct Gaps {
    last: Option<Told>,
}

impl Gaps {
    pub(crate) fn new() -> Gaps {
        Gaps { last: None }
    }

    // The gap of the schedule that these bytes spell, or None if they spell none.
    pub(crate) fn gap_of(&mut self, packet: &Packet) -> Option<u8>
        ensures some { IfSome result (λ gap. IsGapOf packet.now gap) }
        ensures none { IfNone result (schedule_of packet.now ≡ None) }
    {
        if let Some(told) = &self.last {
            if let Some(gap) = told.gap_of(packet) {
                return Some(gap);
            }
        }
        let gap = read(packet)?.gap;
        let packet = with_counter(packet, packet.counter());
        self.last = Some(Told { packet, gap });
        Some(gap)
    }
}
