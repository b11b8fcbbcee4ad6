//! Which receptions are in a log: a flag for each transmission and each id.

ghost use Rattle.std.specs.Prelude.{◌≡◌, ◌+◌, ◌*◌, ◌<◌, ◌≤◌, ◌↔◌, ◌++◌, ◌∷◌, [], ℕ, List, true, IfOk, IfSome, IfNone};
ghost use Rattle.std.specs.Prelude.{AllPairs, Contains, length, set, slice_index_or};
ghost use Rattle.std.specs.Option.{option_map, option_copied};
ghost use Rattle.lwb_base.specs.declared.limits.TheConstants.{GREATEST_ID, PLACES_BY_ID};
ghost use Rattle.radio_model.specs.Hearing.{Before};
ghost use Rattle.air_log.specs.Entries.{hearing_in};
ghost use Rattle.radio_model.specs.OnAir.{Hearing, Sending};
ghost use Rattle.air_log.specs.Courses.{hearing_of};
ghost use Rattle.air_check.specs.Flags.{AreFlags, flag};

use air_log::{Entry, HeardEntry};
use lwb_base::{Memory, NodeId, PLACES_BY_ID};
use radio_model::sending::Sending;
use std::alloc::Global;

/// No reception of these transmissions is there.
pub(crate) fn none_received(alloc: Global, sent: &[Sending]) -> Result<Vec<bool>, Memory>
    ensures { IfOk result (λ flags. AreFlags sent.now [] flags.items) }
{
    let size = sent.len().checked_mul(PLACES_BY_ID).ok_or(Memory)?;
    let flags = vec![in alloc; false; size]?;
    Ok(flags)
}

/// Whether the node has received the transmission at that place.
pub(crate) fn is_received(flags: &[bool], place: usize, node: NodeId) -> bool
    requires { place * PLACES_BY_ID + GREATEST_ID < length flags.now }
    ensures value { result ≡ flag flags.now place node }
    ensures range { node ≤ GREATEST_ID }
{
    flags[place * PLACES_BY_ID + usize::from(node.number())]
}

/// One more reception is there.
pub(crate) fn receive(sent: &[Sending], flags: &mut Vec<bool>, h: &HeardEntry)
    requires in_order { AllPairs Before sent.now }
    requires size { length flags.old.items ≡ length sent.now * PLACES_BY_ID }
    ensures { (hs : List Hearing) → AreFlags sent.now hs flags.old.items → AreFlags sent.now (hs ++ hearing_of h.now ∷ []) flags.new.items }
{
    let (begin, end) = starting_at(sent, h.start);
    for k in begin..end {
        if is_of(h, &sent[k]) {
            set_flag(flags, k, h.node);
        }
    }
}

fn set_flag(flags: &mut Vec<bool>, place: usize, node: NodeId)
    requires { place * PLACES_BY_ID + GREATEST_ID < length flags.old.items }
    ensures value { flags.new.items ≡ set flags.old.items (place * PLACES_BY_ID + node) true }
    ensures range { node ≤ GREATEST_ID }
{
    flags[place * PLACES_BY_ID + usize::from(node.number())] = true;
}

/// A place of the transmission that is received. None where it isn't there.
pub(crate) fn place_of(sent: &[Sending], h: &HeardEntry) -> Option<usize>
    requires { AllPairs Before sent.now }
    ensures some { IfSome result (λ k. (k < length sent.now) × ((d : Sending) → slice_index_or sent.now k d ≡ (hearing_of h.now).sending)) }
    ensures none { IfNone result (Contains sent.now (hearing_of h.now).sending → ⊥) }
{
    let (begin, end) = starting_at(sent, h.start);
    for k in begin..end {
        if is_of(h, &sent[k]) {
            return Some(k);
        }
    }
    None
}

/// The reception that an entry says, if it is one.
pub(crate) fn heard_in(entry: &Entry) -> Option<&HeardEntry>
    ensures { option_map hearing_of (option_copied result) ≡ hearing_in entry.now }
{
    match entry {
        Entry::Heard(h) => Some(h),
        Entry::Sent(_) | Entry::Tuned(_) => None,
    }
}

// From which place on the transmissions start at that tick, and up to which.
fn starting_at(sent: &[Sending], t: u64) -> (usize, usize)
    requires { AllPairs Before sent.now }
    ensures range { (result.0 ≤ result.1) × (result.1 ≤ length sent.now) }
    ensures all { (k : ℕ) (d : Sending) → k < length sent.now → (slice_index_or sent.now k d).start ≡ t → (result.0 ≤ k) × (k < result.1) }
{
    let begin = sent.partition_point(|y| y.start < t);
    let mut end = begin;
    while end < sent.len() && sent[end].start == t {
        end += 1;
    }
    (begin, end)
}

// Whether it is the transmission that is received.
fn is_of(h: &HeardEntry, x: &Sending) -> bool
    ensures { result ≡ true ↔ x.now ≡ (hearing_of h.now).sending }
{
    x.rank == h.rank && x.node == h.from && is_at(h, x) && x.packet.bytes() == h.packet.bytes()
}

fn is_at(h: &HeardEntry, x: &Sending) -> bool
    ensures { result ≡ true ↔ (x.now.start ≡ h.now.start) × (x.now.end ≡ h.now.end) }
{
    x.start == h.start && x.end == h.end
}
