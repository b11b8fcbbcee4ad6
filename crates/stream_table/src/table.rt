//! The table of the streams that a host accepted.

ghost use Rattle.std.specs.Prelude.{◌≡◌, ◌+◌, ◌-◌, ◌≤◌, ◌<◌, ◌^◌, All, IfSome, IsSome, is_some, slice_get, map};
ghost use Rattle.lwb_base.specs.declared.limits.TheConstants.{GREATEST_GAP, LAST_FRAME};
ghost use Rattle.lwb_packets.specs.Requests.{InRange};
ghost use Rattle.bus_rules.specs.Tables as rule;
ghost use Rattle.bus_rules.specs.Tables.{AreEntries};
ghost use Rattle.bus_rules.specs.Granting.{owed_to, total};
ghost use Rattle.stream_table.specs.Requests.{ask_of, answer_to};
ghost use Rattle.stream_table.specs.Entries.{grant_owner, owed_by};

use crate::code_order::Placement;
use crate::places;
use crate::table_entry::TableEntry;
use arrayvec::ArrayVec;
use lwb_base::Owner;
use lwb_packets::Request;
use std::marker::Model;

/// What became of a request.
#[derive(Clone, Copy, Debug, PartialEq, Eq)]
pub enum Answer {
    /// The stream was added.
    Accepted,
    /// The stream was there, and what it asked before is replaced.
    Replaced,
    /// The stream is not there, since it asked for nothing more.
    Removed,
    /// 32 other streams are there, and nothing changed.
    Full,
}

/// The streams that a host accepted, at most 32, by ascending owner code, and the place at which its turns begin.
#[derive(Drop)]
pub struct Table {
    entries: ArrayVec<TableEntry, 32>,
    place: u16,
}

impl Model for Table {
    ghost use Rattle.bus_rules.specs.Tables.{Table as TableOf, AreEntries};

    ghost Value = { TableOf };

    ghost view = { λ t. record { entries = t.entries.items; place = t.place } };

    ghost invariant = { λ t. AreEntries t.entries.items };
}

impl Table {
    /// A table without streams, whose place is 0.
    pub fn new() -> Table
        ensures { result ≡ rule.no_table }
    {
        Table {
            entries: ArrayVec::new(),
            place: 0,
        }
    }

    /// The code at which the next turns begin.
    pub fn place(&self) -> u16
        ensures value { result ≡ self.now.place }
        ensures kept { AreEntries self.now.entries }
    {
        self.place
    }

    /// The next turns begin at this code, or at the least code above it that is owed something.
    pub fn set_place(&mut self, code: u16)
        ensures { self.new ≡ record self.old { place = code } }
    {
        self.place = code;
    }

    /// The owner at this place by ascending code, counted from 0. Returns `None` if and only if there are no more.
    pub fn owner_at(&self, i: usize) -> Option<Owner>
        ensures { result ≡ slice_get (map rule.code_in self.now.entries) i }
    {
        let entry = self.entries.as_slice().get(i)?;
        Some(entry.owner())
    }

    /// What a stream asks for in a request, put to the table in this frame. Returns `Removed` if and only if its interval is 0,
    /// and `Full` if and only if it is not, the stream is not there and 32 others are.
    pub fn request(&mut self, ask: &Request, frame: u32) -> Answer
        requires { InRange ask.now }
        ensures answer { result ≡ answer_to (ask_of ask.now) self.old }
        ensures after { self.new ≡ rule.after_request frame self.old (ask_of ask.now) }
    {
        let owner = Owner::new(ask.node, ask.stream);
        if ask.interval == 0 {
            self.leave(owner);
            return Answer::Removed;
        }
        let entry = TableEntry::new(owner, ask.boot, ask.interval, frame);
        match places::place_entry(&mut self.entries, entry) {
            Placement::Added => Answer::Accepted,
            Placement::Replaced => Answer::Replaced,
            Placement::Full => Answer::Full,
        }
    }

    /// Removes the entry of this owner. Returns `false` if and only if there is none.
    pub fn leave(&mut self, owner: Owner) -> bool
        ensures answer { result ≡ is_some (rule.entry_of self.old.entries owner) }
        ensures after { self.new ≡ rule.removed owner self.old }
    {
        places::remove(&mut self.entries, owner.code())
    }

    /// The host accepted or initiated a packet in a data slot of this owner.
    pub fn heard(&mut self, owner: Owner)
        ensures { self.new ≡ rule.heard_owner owner self.old }
    {
        places::hear(&mut self.entries, owner.code());
    }

    /// It did neither. Returns `true` if and only if this was the sixteenth time in a row, and the entry is gone.
    pub fn unheard(&mut self, owner: Owner) -> bool
        ensures answer { result ≡ rule.goes owner self.old }
        ensures after { self.new ≡ rule.unheard_owner owner self.old }
    {
        places::miss(&mut self.entries, owner.code())
    }

    /// One slot more is granted to this owner.
    pub fn grant(&mut self, owner: Owner)
        requires granted { IfSome (rule.entry_of self.old.entries owner) (λ e. e.granted < 2 ^ 32 - 1) }
        requires there { IsSome (rule.entry_of self.old.entries owner) }
        ensures { self.new ≡ grant_owner owner self.old }
    {
        places::grant(&mut self.entries, owner.code());
    }

    /// The interval of this owner in seconds, 1 to 120, or 0 for none.
    pub fn interval(&self, owner: Owner) -> u8
        ensures value { result ≡ rule.interval_of self.now owner }
        ensures range { result ≤ 120 }
    {
        match places::search(self.entries.as_slice(), owner.code()) {
            Ok(place) => self.entries[place].interval(),
            Err(_) => 0,
        }
    }

    /// The slots owed to this owner in a frame, 0 for an owner that is not there. `seconds` are those of a frame, at most
    /// 5; the frame is at most a greatest gap after the last, and not below that in which any stream was accepted.
    pub fn owed(&self, seconds: u8, owner: Owner, frame: u32) -> u32
        requires seconds { seconds ≤ 5 }
        requires accepted { All (λ e. e.accepted ≤ frame) self.now.entries }
        requires frame { frame ≤ LAST_FRAME + GREATEST_GAP }
        ensures { result ≡ owed_by seconds frame self.now owner }
    {
        match places::search(self.entries.as_slice(), owner.code()) {
            Ok(place) => self.entries[place].owed(seconds, frame),
            Err(_) => 0,
        }
    }

    /// The slots owed to all streams in a frame, under the conditions of `owed`.
    pub fn total(&self, seconds: u8, frame: u32) -> u32
        requires seconds { seconds ≤ 5 }
        requires accepted { All (λ e. e.accepted ≤ frame) self.now.entries }
        requires frame { frame ≤ LAST_FRAME + GREATEST_GAP }
        ensures { result ≡ total seconds frame self.now.entries }
    {
        let mut sum = 0;
        for entry in self.entries.as_slice() {
            sum += entry.owed(seconds, frame);
        }
        sum
    }
}
