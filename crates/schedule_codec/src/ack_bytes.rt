//! The acknowledgements of a schedule as bytes.

ghost use Rattle.std.specs.Prelude.{◌≡◌, ◌≤◌, ◌*◌, ℕ, List, length, true, flat_map, IfSome, Some};
ghost use Rattle.std.specs.List.{list_all};
ghost use Rattle.lwb_base.specs.Messages.{Ask};
ghost use Rattle.schedule_codec.specs.AckLists.{are_acks, ask_in_range, ask_bytes};
ghost use Rattle.schedule_codec.specs.Spelling.{acks_bytes, most_acks, SpellsAcks};

use crate::{Ack, Acks};
use arrayvec::ArrayVec;
use lwb_base::{MOST_BOOTS, NodeId};

/// Without a number of contention slots the four bytes of the one acknowledgement, zero for none. Else that number with
/// the count of acknowledgements, and the four bytes of each.
pub fn write_acks(contend: u8, acks: &Acks) -> ArrayVec<u8, 17>
    requires contend { contend ≤ 4 }
    requires few { length acks.now ≤ most_acks contend }
    ensures value { result.items ≡ acks_bytes contend acks.now }
    ensures acks { are_acks acks.now ≡ true }
{
    let count = acks.count();
    let mut bytes = ArrayVec::new();
    if contend == 0 {
        let single = match acks.at(0) {
            Some(ack) => ack_bytes(&ack),
            None => [0; 4],
        };
        bytes.try_extend_from_slice(&single).unwrap();
        return bytes;
    }
    bytes.push((contend - 1) * 16 + count);
    for place in acks.places() {
        bytes.try_extend_from_slice(&ack_bytes(&place.ack)).unwrap();
    }
    bytes
}

/// How many contention slots a schedule names, and what it acknowledges.
#[derive(Drop)]
pub struct Acknowledged {
    /// The number of contention slots, 1 to 4, or 0 where none is named.
    pub contend: u8,
    /// What is acknowledged: at most one where no number is named.
    pub acks: Acks,
}

/// The acknowledgements that these bytes spell in a schedule that begins with this byte. Returns `None` if and only if they
/// spell none.
pub fn read_acks(kind: u8, bytes: &[u8]) -> Option<Acknowledged>
    ensures some { IfSome result (λ r. SpellsAcks kind bytes.now r.contend r.acks) }
    ensures all { (contend : ℕ) (acks : List Ask) → SpellsAcks kind bytes.now contend acks
        → result ≡ Some (record { contend = contend; acks = acks }) }
{
    match kind {
        1 => Some(Acknowledged {
            contend: 0,
            acks: read_single(bytes)?,
        }),
        4 => read_several(bytes),
        _ => None,
    }
}

// The one acknowledgement, or none for zeros.
fn read_single(bytes: &[u8]) -> Option<Acks>
    ensures some { IfSome result (SpellsAcks 1 bytes.now 0) }
    ensures all { (acks : List Ask) → SpellsAcks 1 bytes.now 0 acks → result ≡ Some acks }
{
    if let [0, 0, 0, 0] = bytes {
        return Some(Acks::new());
    }
    let mut acks = Acks::new();
    acks.add(read_ack(bytes)?);
    Some(acks)
}

// The number of contention slots with the count of acknowledgements, and this many.
fn read_several(bytes: &[u8]) -> Option<Acknowledged>
    ensures some { IfSome result (λ r. SpellsAcks 4 bytes.now r.contend r.acks) }
    ensures all { (contend : ℕ) (acks : List Ask) → SpellsAcks 4 bytes.now contend acks
        → result ≡ Some (record { contend = contend; acks = acks }) }
{
    let [head, each @ ..] = bytes else {
        return None;
    };
    let contend = *head / 16 + 1;
    let count = *head % 16;
    if contend > 4 || count > 4 || each.len() != usize::from(count) * 4 {
        return None;
    }
    let acks = read_each(each, count)?;
    Some(Acknowledged { contend, acks })
}

// This many acknowledgements of four bytes each.
fn read_each(bytes: &[u8], count: u8) -> Option<Acks>
    requires few { count ≤ 4 }
    requires long { length bytes.now ≡ 4 * count }
    ensures some { IfSome result (λ acks. (list_all ask_in_range acks ≡ true) × (are_acks acks ≡ true) × (flat_map ask_bytes acks ≡ bytes.now)) }
    ensures all { (acks : List Ask) → list_all ask_in_range acks ≡ true → are_acks acks ≡ true → flat_map ask_bytes acks ≡ bytes.now
        → result ≡ Some acks }
{
    let mut acks = Acks::new();
    let mut rest = bytes;
    for _ in 0..count {
        let (four, behind) = rest.split_at(4);
        let ack = read_ack(four)?;
        if !acks.add(ack) {
            return None;
        }
        rest = behind;
    }
    Some(acks)
}

fn read_ack(bytes: &[u8]) -> Option<Ack>
    ensures some { IfSome result (λ a. (ask_in_range a ≡ true) × (ask_bytes a ≡ bytes.now)) }
    ensures all { (a : Ask) → ask_in_range a ≡ true → ask_bytes a ≡ bytes.now → result ≡ Some a }
{
    let &[node, boot, stream, interval] = bytes else {
        return None;
    };
    if boot < 1 || boot > MOST_BOOTS || stream > 3 || interval > 120 {
        return None;
    }
    Some(Ack {
        node: NodeId::new(node)?,
        boot,
        stream,
        interval,
    })
}

fn ack_bytes(ack: &Ack) -> [u8; 4]
    ensures { result ≡ ask_bytes ack.now }
{
    [ack.node.number(), ack.boot, ack.stream, ack.interval]
}
