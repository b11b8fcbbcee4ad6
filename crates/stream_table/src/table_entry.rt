//! The entry of one stream in a host's table.

ghost use Rattle.std.specs.Prelude.{◌≡◌, ◌+◌, ◌-◌, ◌≤◌, ◌<◌, ◌^◌};
ghost use Rattle.lwb_base.specs.declared.limits.TheConstants.{GREATEST_GAP, LAST_FRAME};
ghost use Rattle.bus_rules.specs.Tables.{entry_after_data, missed, code_in, interval_in};
ghost use Rattle.bus_rules.specs.Granting.{owed_to};
ghost use Rattle.stream_table.specs.Entries.{granted_once};

use crate::code_order::Coded;
use bus_rules::owed;
use lwb_base::{NodeId, Owner};
use std::marker::Model;

// The data slots in a row without a word after which an entry goes.
const UNHEARD: u8 = 16;

// A stream that the host accepted.
#[derive(Clone, Copy)]
pub(crate) struct TableEntry {
    owner: Owner,
    boot: u8,
    interval: u8,
    accepted: u32,
    granted: u32,
    unheard: u8,
}

impl Model for TableEntry {
    ghost use Rattle.std.specs.Prelude.{◌≤◌};
    ghost use Rattle.bus_rules.specs.Tables.{TableEntry as EntryOf};

    ghost Value = { EntryOf };

    ghost view = { λ e. record { code = e.owner; boot = e.boot; interval = e.interval; accepted = e.accepted; granted = e.granted; unheard = e.unheard } };

    ghost invariant = { λ e. (1 ≤ e.interval) × (e.interval ≤ 120) × (e.unheard ≤ 15) };

    ghost inverse = { λ e. record { owner = e.code; boot = e.boot; interval = e.interval; accepted = e.accepted; granted = e.granted; unheard = e.unheard } };
}

// What is in a place of the table that is not used: stream 0 of node 1, whose owner's code is 4.
impl Default for TableEntry {
    fn default() -> TableEntry
        ensures { result ≡ record { code = 4; boot = 1; interval = 1; accepted = 0; granted = 0; unheard = 0 } }
    {
        TableEntry::new(Owner::new(NodeId::new(1).unwrap(), 0), 1, 1, 0)
    }
}

impl Coded for TableEntry {
    ghost code_of = { code_in };

    fn code(&self) -> u16 {
        self.owner.code()
    }
}

impl TableEntry {
    // A stream accepted in this frame.
    pub(crate) fn new(owner: Owner, boot: u8, interval: u8, frame: u32) -> TableEntry
        requires { (1 ≤ interval) × (interval ≤ 120) }
        ensures { result ≡ record { code = owner; boot = boot; interval = interval; accepted = frame; granted = 0; unheard = 0 } }
    {
        TableEntry {
            owner,
            boot,
            interval,
            accepted: frame,
            granted: 0,
            unheard: 0,
        }
    }

    pub(crate) fn owner(&self) -> Owner
        ensures { result ≡ self.now.code }
    {
        self.owner
    }

    pub(crate) fn interval(&self) -> u8
        ensures value { result ≡ self.now.interval }
        ensures range { result ≤ 120 }
    {
        self.interval
    }

    // The slots that are owed to it in a frame.
    pub(crate) fn owed(&self, seconds: u8, frame: u32) -> u32
        requires seconds { seconds ≤ 5 }
        requires accepted { self.now.accepted ≤ frame }
        requires frame { frame ≤ LAST_FRAME + GREATEST_GAP }
        ensures value { result ≡ owed_to seconds frame self.now }
        ensures bound { result ≤ 83886095 }
    {
        owed(seconds, frame, self.accepted, self.interval, self.granted)
    }

    // The entry once a data slot of its owner was received.
    pub(crate) fn heard(&self) -> TableEntry
        ensures { result ≡ entry_after_data self.now.code self.now }
    {
        let mut e = *self;
        e.unheard = 0;
        e
    }

    // The entry once a data slot of its owner was not received, unless it goes.
    pub(crate) fn unheard(&self) -> Option<TableEntry>
        ensures { result ≡ missed self.now.code self.now }
    {
        if self.unheard + 1 >= UNHEARD {
            return None;
        }
        let mut e = *self;
        e.unheard += 1;
        Some(e)
    }

    // The entry with one slot more.
    pub(crate) fn grant(&self) -> TableEntry
        requires { self.now.granted < 2 ^ 32 - 1 }
        ensures { result ≡ granted_once self.now.code self.now }
    {
        let mut e = *self;
        e.granted += 1;
        e
    }
}
