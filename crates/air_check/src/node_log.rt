//! What one id did by a log.

ghost use Rattle.std.specs.Prelude.{◌≡◌, ◌++◌, ◌∷◌, [], OnOk};
ghost use Rattle.air_log.specs.Courses.{hearing_of};
ghost use Rattle.air_log.specs.DeviceStates.{tuning_of};
ghost use Rattle.air_check.specs.NodeLogs.{after_entry, empty_node_log};

use air_log::{Entry, HeardEntry, SentEntry, TunedEntry};
use lwb_base::Memory;
use std::alloc::Global;
use std::marker::Model;

/// The entries of one id, of each kind in the order of the log.
#[derive(Drop)]
pub struct NodeLog {
    pub(crate) sent: Vec<SentEntry>,
    pub(crate) heard: Vec<HeardEntry>,
    pub(crate) tuned: Vec<TunedEntry>,
}

impl Model for NodeLog {
    ghost use Rattle.std.specs.Prelude.{map};
    ghost use Rattle.air_log.specs.Courses.{hearing_of};
    ghost use Rattle.air_log.specs.DeviceStates.{tuning_of};
    ghost use Rattle.air_check.specs.NodeLogs.{NodeLogState};

    ghost Value = { NodeLogState };

    ghost view = { λ n. record {
      sent = n.sent.items;
      heard = map hearing_of n.heard.items;
      tuned = map tuning_of n.tuned.items;
    } };
}

impl NodeLog {
    pub fn new(alloc: Global) -> NodeLog
        ensures { result ≡ empty_node_log }
    {
        NodeLog {
            sent: Vec::new(alloc),
            heard: Vec::new(alloc),
            tuned: Vec::new(alloc),
        }
    }

    /// Adds an entry after those of its kind.
    pub fn add(&mut self, entry: &Entry) -> Result<(), Memory>
        ensures { OnOk result (self.new ≡ after_entry self.old entry.now) }
    {
        match entry {
            Entry::Sent(sent) => self.add_sent(sent),
            Entry::Heard(heard) => self.add_heard(heard),
            Entry::Tuned(tuned) => self.add_tuned(*tuned),
        }
    }

    fn add_sent(&mut self, sent: &SentEntry) -> Result<(), Memory>
        ensures { OnOk result (self.new ≡ record self.old { sent = self.old.sent ++ sent.now ∷ [] }) }
    {
        self.sent.push(sent.copy())?;
        Ok(())
    }

    fn add_heard(&mut self, heard: &HeardEntry) -> Result<(), Memory>
        ensures { OnOk result (self.new ≡ record self.old { heard = self.old.heard ++ hearing_of heard.now ∷ [] }) }
    {
        self.heard.push(HeardEntry {
            rank: heard.rank,
            node: heard.node,
            from: heard.from,
            start: heard.start,
            end: heard.end,
            packet: heard.packet.copy(),
        })?;
        Ok(())
    }

    fn add_tuned(&mut self, tuned: TunedEntry) -> Result<(), Memory>
        ensures { OnOk result (self.new ≡ record self.old { tuned = self.old.tuned ++ tuning_of tuned ∷ [] }) }
    {
        self.tuned.push(tuned)?;
        Ok(())
    }
}
