//! Transmissions of a log that were moved manually.

use crate::safe::frame_at;
use air_log::SentEntry;
use lwb_base::{NodeId, Packet, Profile};

/// What is done to a transmission.
#[derive(Clone, Copy)]
pub enum Move {
    /// It is this number of ticks later.
    Later(u64),
    /// It is this number of ticks earlier.
    Earlier(u64),
    /// It ends this number of ticks later.
    Longer(u64),
    /// The byte of its packet at this place is another one.
    Byte(usize, u8),
    /// Another node sends it.
    By(u8),
}

/// A transmission by its node, the frame of its start, and the slot and counter of its packet; and what is done to it.
#[derive(Clone, Copy)]
pub struct MovedEntry {
    pub frame: u64,
    pub slot: u8,
    pub counter: u8,
    pub node: u8,
    pub done: Move,
}

impl MovedEntry {
    // Whether the transmission is the one that is moved.
    fn is(&self, p: &Profile, x: &SentEntry) -> bool {
        x.node.number() == self.node
            && x.packet.slot() == self.slot
            && x.packet.counter() == self.counter
            && frame_at(p, x.start) == self.frame
    }
}

fn with_byte(packet: &Packet, place: usize, byte: u8) -> Option<Packet> {
    let mut bytes = [0u8; 125];
    let length = packet.bytes().len();
    let room = bytes.get_mut(..length)?;
    room.copy_from_slice(packet.bytes());
    *room.get_mut(place)? = byte;
    Packet::new(room)
}

// Moves a transmission.
fn change(x: &mut SentEntry, done: Move) -> Option<()> {
    match done {
        Move::Later(ticks) => {
            x.start = x.start.checked_add(ticks)?;
            x.end = x.end.checked_add(ticks)?;
        }
        Move::Earlier(ticks) => {
            x.start = x.start.checked_sub(ticks)?;
            x.end = x.end.checked_sub(ticks)?;
        }
        Move::Longer(ticks) => x.end = x.end.checked_add(ticks)?,
        Move::Byte(place, byte) => x.packet = with_byte(&x.packet, place, byte)?,
        Move::By(id) => x.node = NodeId::new(id)?,
    }
    Some(())
}

// Adds a transmission, after it is moved.
fn add_moved(kept: &mut Vec<SentEntry>, x: &SentEntry, done: Move) -> Option<()> {
    let mut entry = x.copy();
    change(&mut entry, done)?;
    kept.push(entry).ok()
}

/// Adds all transmissions, with the one that is moved as it is then, and says how many were moved. None if it can't be moved so,
/// or memory is out.
pub fn add_all(
    kept: &mut Vec<SentEntry>,
    p: &Profile,
    sent: &[SentEntry],
    row: &MovedEntry,
) -> Option<u32> {
    let mut count = 0u32;
    for x in sent {
        if row.is(p, x) {
            add_moved(kept, x, row.done)?;
            count = count.saturating_add(1);
        } else {
            kept.push(x.copy()).ok()?;
        }
    }
    Some(count)
}
