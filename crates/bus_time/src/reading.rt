//! One pass over a log: what each node received of its rounds, and the transmissions that are stamped.

ghost use Rattle.std.specs.Prelude.{◌≡◌, ◌<◌, ◌++◌, ◌∷◌, [], List, OnOk, IfOk, length, get_or, slice_index, ◌+◌, ◌/◌};
ghost use Rattle.air_log.specs.declared.entry.Entry.{Entry as EntryOf};
ghost use Rattle.air_log.specs.declared.entry.Entry.TheVariants.{Sent, Heard};
ghost use Rattle.bus_time.specs.Reading.{IsRead};

use crate::beginning::{Beginning, begun_by};
use crate::gaps::Gaps;
use crate::words::{Round, Word, Words};
use air_log::{Air, Entry, HeardEntry, SentEntry};
use lwb_base::{Memory, Profile};
use std::alloc::Global;

// The schedules for the round of their own frame, those for a round of a later frame, and the transmissions that are stamped,
// in the order of the log.
#[derive(Drop)]
pub(crate) struct Reading {
    pub(crate) present: Words,
    pub(crate) ahead: Words,
    pub(crate) beginnings: Vec<Beginning>,
    gaps: Gaps,
}

impl Reading {
    pub(crate) fn of(alloc: Global, profile: &Profile, air: &Air) -> Result<Reading, Memory>
        ensures { IfOk result (λ r. IsRead profile.now air.now r.present r.ahead r.beginnings.items) }
    {
        let mut reading = Reading {
            present: Words::new(alloc),
            ahead: Words::new(alloc),
            beginnings: Vec::new(alloc),
            gaps: Gaps::new(),
        };
        for i in 0..air.len() {
            let entry = entry_at(air, i);
            reading.add(profile, entry)?;
        }
        Ok(reading)
    }

    fn add(&mut self, profile: &Profile, entry: &Entry) -> Result<(), Memory>
        ensures { OnOk result ((air : List EntryOf) → IsRead profile.now air self.old.present self.old.ahead self.old.beginnings.items
            → IsRead profile.now (air ++ entry.now ∷ []) self.new.present self.new.ahead self.new.beginnings.items) }
    {
        match entry {
            Entry::Sent(sent) => self.add_sent(profile, sent),
            Entry::Heard(heard) => self.add_heard(profile, heard),
            Entry::Tuned(_) => Ok(()),
        }
    }

    fn add_sent(&mut self, profile: &Profile, sent: &SentEntry) -> Result<(), Memory>
        ensures { OnOk result ((air : List EntryOf) → IsRead profile.now air self.old.present self.old.ahead self.old.beginnings.items
            → IsRead profile.now (air ++ Sent sent.now ∷ []) self.new.present self.new.ahead self.new.beginnings.items) }
    {
        if let Some(beginning) = begun_by(profile, sent) {
            self.beginnings.push(beginning)?;
        }
        Ok(())
    }

    fn add_heard(&mut self, profile: &Profile, heard: &HeardEntry) -> Result<(), Memory>
        ensures { OnOk result ((air : List EntryOf) → IsRead profile.now air self.old.present self.old.ahead self.old.beginnings.items
            → IsRead profile.now (air ++ Heard heard.now ∷ []) self.new.present self.new.ahead self.new.beginnings.items) }
    {
        let Some(gap) = self.gaps.gap_of(&heard.packet) else {
            return Ok(());
        };
        self.present
            .note(round_of(profile, heard, 0), word_of(heard, 0))?;
        if gap != 0 {
            self.ahead
                .note(round_of(profile, heard, gap), word_of(heard, gap))?;
        }
        Ok(())
    }
}

// The round of the node that is this many frames after a schedule that it received.
fn round_of(profile: &Profile, heard: &HeardEntry, ahead: u8) -> Round
    ensures { result ≡ record { node = heard.now.node; rank = heard.now.rank; frame = heard.now.start / profile.now.frame + ahead } }
{
    Round {
        node: heard.node.number(),
        rank: heard.rank.number(),
        frame: heard.start / profile.frame() + u64::from(ahead),
    }
}

fn word_of(heard: &HeardEntry, ahead: u8) -> Word
    ensures { result ≡ record {
      ahead = ahead;
      end = heard.now.end;
      slot = slice_index heard.now.packet 1;
      counter = slice_index heard.now.packet 2;
      length = length heard.now.packet;
    } }
{
    Word {
        ahead,
        end: heard.end,
        slot: heard.packet.slot(),
        counter: heard.packet.counter(),
        length: heard.packet.length(),
    }
}

fn entry_at(air: &Air, i: usize) -> &Entry
    requires { i < length air.now }
    ensures { result.now ≡ get_or air.now i result.now }
{
    air.at(i).unwrap()
}
