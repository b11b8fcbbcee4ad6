//! From bytes to a schedule.

ghost use Rattle.std.specs.Prelude.{◌≡◌, ◌++◌, ◌≤◌, ℕ, List, length, true, IfSome, Some, slice_index, slice_set};
ghost use Rattle.lwb_base.specs.Messages.{Ask, Schedule as Said};
ghost use Rattle.schedule_codec.specs.Spelling.{acks_bytes, SpellsAcks, SpellsBody, IsWritable, slot_fits as fits, schedule_spelling, spells};
ghost use Rattle.schedule_codec.specs.Reading.{host_named, schedule_of};

use crate::ack_bytes::{Acknowledged, read_acks};
use crate::owner_bytes::read_owners;
use crate::{Owners, Schedule};
use lwb_base::{GREATEST_GAP, MOST_BOOTS, Packet, Rank, greatest_slot};

/// The schedule that these bytes spell, in any slot and with any counter. Returns `None` if and only if they spell none.
pub fn read(p: &Packet) -> Option<Schedule>
    ensures value { result ≡ schedule_of p.now }
    ensures some { IfSome result (λ s. spells p.now s ≡ true) }
    ensures all { (s : Said) → spells p.now s ≡ true → result ≡ Some s }

    // Written again, with the counter set, it is the same packet; and it may be written.
    ensures again { IfSome result (λ s. slice_set (schedule_spelling s (slice_index p.now 1) 0) 2 (slice_index p.now 2) ≡ p.now) }
    ensures writable { IfSome result (λ s. IsWritable s (slice_index p.now 1)) }
{
    spelled(p)
}

/// The rank of the host, where these bytes spell a schedule. Whether they spell one is not tested: any bytes whose first is 1 or
/// 4, as those of schedules are, give the upper half of the fourth byte, and all others None.
pub fn named_host(p: &Packet) -> Option<u8>
    ensures rank { (s : Said) → spells p.now s ≡ true → result ≡ Some s.plan.rank }
    ensures value { result ≡ host_named p.now }
    ensures range { IfSome result (λ n. n ≤ 15) }
{
    let [kind, _, _, head, ..] = p.bytes() else {
        return None;
    };
    if *kind == 1 || *kind == 4 {
        Some(*head / 16)
    } else {
        None
    }
}

// The schedule whose spelling these bytes are.
fn spelled(p: &Packet) -> Option<Schedule>
    ensures some { IfSome result (λ s. spells p.now s ≡ true) }
    ensures all { (s : Said) → spells p.now s ≡ true → result ≡ Some s }
{
    let [kind, slot, counter, head, host_boot, body @ ..] = p.bytes() else {
        return None;
    };
    let gap = *head % 16;
    if *counter > 11 || *host_boot < 1 || *host_boot > MOST_BOOTS || gap > GREATEST_GAP {
        return None;
    }
    let host = Rank::new(*head / 16)?;
    let (Acknowledged { contend, acks }, owners) = read_body(*kind, body)?;
    if !slot_fits(gap, contend, *slot) {
        return None;
    }
    Some(Schedule {
        host,
        host_boot: *host_boot,
        gap,
        contend,
        acks,
        owners,
    })
}

// An opening is in slot 0, and a closing in the last slot of some round of its version.
fn slot_fits(gap: u8, contend: u8, slot: u8) -> bool
    ensures { result ≡ fits gap contend slot }
{
    if gap == 0 {
        slot == 0
    } else {
        2 <= slot && slot <= greatest_slot(contend)
    }
}

// What is after the host's boot: the acknowledgements and the owners.
fn read_body(kind: u8, bytes: &[u8]) -> Option<(Acknowledged, Owners)>
    ensures some { IfSome result (λ b. SpellsBody kind bytes.now b.0.contend b.0.acks b.1) }
    ensures all { (contend : ℕ) (acks : List Ask) (owners : List ℕ) → SpellsBody kind bytes.now contend acks owners
        → result ≡ Some (record { contend = contend; acks = acks }, owners) }
{
    let size = acks_size(kind, bytes)?;
    let (front, rest) = bytes.split_at(size);
    Some((read_acks(kind, front)?, read_owners(rest)?))
}

// How many bytes the acknowledgements take, as far as their first byte tells.
fn acks_size(kind: u8, bytes: &[u8]) -> Option<usize>
    ensures within { IfSome result (λ n. n ≤ length bytes.now) }
    ensures all { (contend : ℕ) (acks : List Ask) (rest : List ℕ) → SpellsAcks kind (acks_bytes contend acks) contend acks
        → acks_bytes contend acks ++ rest ≡ bytes.now
        → result ≡ Some (length (acks_bytes contend acks)) }
{
    let size = match kind {
        1 => 4,
        4 => 1 + usize::from(*bytes.first()? % 16) * 4,
        _ => return None,
    };
    if size <= bytes.len() {
        Some(size)
    } else {
        None
    }
}
