//! A line of a log: its entry is added to those above.

ghost use Rattle.std.specs.Prelude.{◌≡◌, map};
ghost use Rattle.text_readers.specs.Reading.{Reads};
ghost use Rattle.air_check.specs.LogGrammar.{sent_log_line, heard_log_line, tuned_log_line, log_line, entry_of_words, entries_after_words};
ghost use Rattle.air_check.specs.LogGrammar.{ids_are_known, front, last_word};

use crate::entries::{heard_entry, knows, sent_entry, tuned_entry};
use crate::packet_words::{is_hex, packet};
use air_log::{Air, Entry};
use scenario_text::NodeLine;
use text_readers::{FaultKind, Refusal, five_numbers, four_numbers, is, word};

/// Adds the entry that the words of a line say. The fault of the line is the first of these: `BadWord`, where they are
/// not those of a line; `BadNumber`, where a number is misspelled; `Range`; `UnknownNode`.
pub(crate) fn add_entry(nodes: &[NodeLine], air: &mut Air, words: &[&[u8]]) -> Result<(), Refusal>
    ensures { Reads result air.new (entries_after_words nodes.now air.old (map (λ w. w.now) words.now)) }
{
    let entry = match entry_of(words) {
        Ok(entry) => entry,
        Err(kind) => return Err(Refusal::Fault(kind)),
    };
    if !are_known(nodes, &entry) {
        return Err(Refusal::Fault(FaultKind::UnknownNode));
    }
    air.push(entry)?;
    Ok(())
}

// The entry that the words say, whatever nodes there are.
#[tactic(auto, unfolding(crate::specs::LogGrammar::log_line))]
fn entry_of(words: &[&[u8]]) -> Result<Entry, FaultKind>
    ensures { let ws = map (λ w. w.now) words.now in result ≡ entry_of_words ws (log_line ws) }
{
    let first = word(words, 0);
    if is(first, b"sent") {
        sent(words)
    } else if is(first, b"heard") {
        heard(words)
    } else if is(first, b"tuned") {
        tuned(words)
    } else {
        Err(FaultKind::BadWord)
    }
}

// A transmission. A misspelled packet is reported before a misspelled number.
#[tactic(auto, unfolding(crate::specs::LogGrammar::sent_log_line))]
fn sent(words: &[&[u8]]) -> Result<Entry, FaultKind>
    ensures { let ws = map (λ w. w.now) words.now in result ≡ entry_of_words ws (sent_log_line ws) }
{
    let (front, hex) = packet_last(words);
    if !is_hex(hex) {
        return Err(FaultKind::BadWord);
    }
    let (rank, node, start, end) = four_numbers(front)?;
    sent_entry(rank, node, start, end, packet(hex)).ok_or(FaultKind::Range)
}

// A node receives what another one transmits.
#[tactic(auto, unfolding(crate::specs::LogGrammar::heard_log_line))]
fn heard(words: &[&[u8]]) -> Result<Entry, FaultKind>
    ensures { let ws = map (λ w. w.now) words.now in result ≡ entry_of_words ws (heard_log_line ws) }
{
    let (front, hex) = packet_last(words);
    if !is_hex(hex) {
        return Err(FaultKind::BadWord);
    }
    let (rank, node, from, start, end) = five_numbers(front)?;
    heard_entry(rank, node, from, start, end, packet(hex)).ok_or(FaultKind::Range)
}

// The radio of a node is on.
fn tuned(words: &[&[u8]]) -> Result<Entry, FaultKind>
    ensures { let ws = map (λ w. w.now) words.now in result ≡ entry_of_words ws (tuned_log_line ws) }
{
    let (rank, node, start, end) = four_numbers(words)?;
    tuned_entry(rank, node, start, end).ok_or(FaultKind::Range)
}

// Whether all ids of the entry are those of nodes.
fn are_known(nodes: &[NodeLine], entry: &Entry) -> bool
    ensures { result ≡ ids_are_known nodes.now entry.now }
{
    match entry {
        Entry::Sent(x) => knows(nodes, x.node),
        Entry::Heard(h) => knows(nodes, h.node) && knows(nodes, h.from),
        Entry::Tuned(t) => knows(nodes, t.node),
    }
}

// The words before the last, and the last. If there are no words, the last is empty.
fn packet_last<'a, 'b>(words: &'b [&'a [u8]]) -> (&'b [&'a [u8]], &'a [u8])
    ensures front { map (λ w. w.now) result.0.now ≡ front (map (λ w. w.now) words.now) }
    ensures last { result.1.now ≡ last_word (map (λ w. w.now) words.now) }
{
    let last = words.len().saturating_sub(1);
    (&words[..last], word(words, last))
}
