//! Writes log entries as lines of text.

ghost use Rattle.std.specs.Prelude.{◌≡◌, ◌++◌, ◌∷◌, [], OnOk, string_bytes};
ghost use Rattle.text_writers.specs.HexWords.{hex_word};
ghost use Rattle.air_log.specs.LogText.{entry_line, sent_line, heard_line, tuned_line};

use crate::{Entry, HeardEntry, SentEntry, TunedEntry};
use std::alloc::AllocError;
use text_writers::{end_line, write_hex, write_line, write_words};

/// Writes the line of an entry.
pub fn write_entry(text: &mut String, entry: &Entry) -> Result<(), AllocError>
    ensures { OnOk result (string_bytes text.new ≡ string_bytes text.old ++ entry_line entry.now) }
{
    match entry {
        Entry::Sent(sent) => write_sent(text, sent),
        Entry::Heard(heard) => write_heard(text, heard),
        Entry::Tuned(tuned) => write_tuned(text, tuned),
    }
}

fn write_sent(text: &mut String, sent: &SentEntry) -> Result<(), AllocError>
    ensures { OnOk result (string_bytes text.new ≡ string_bytes text.old ++ sent_line sent.now) }
{
    let rank = u64::from(sent.rank.number());
    let node = u64::from(sent.node.number());
    write_words(text, "sent", &[rank, node, sent.start, sent.end])?;
    write_packet(text, sent.packet.bytes())
}

fn write_heard(text: &mut String, heard: &HeardEntry) -> Result<(), AllocError>
    ensures { OnOk result (string_bytes text.new ≡ string_bytes text.old ++ heard_line heard.now) }
{
    let rank = u64::from(heard.rank.number());
    let node = u64::from(heard.node.number());
    let from = u64::from(heard.from.number());
    write_words(text, "heard", &[rank, node, from, heard.start, heard.end])?;
    write_packet(text, heard.packet.bytes())
}

fn write_tuned(text: &mut String, tuned: &TunedEntry) -> Result<(), AllocError>
    ensures { OnOk result (string_bytes text.new ≡ string_bytes text.old ++ tuned_line tuned.now) }
{
    let rank = u64::from(tuned.rank.number());
    let node = u64::from(tuned.node.number());
    write_line(text, "tuned", &[rank, node, tuned.start, tuned.end])
}

// The bytes of a packet after a space, and the end of the line.
fn write_packet(text: &mut String, bytes: &[u8]) -> Result<(), AllocError>
    ensures { OnOk result (string_bytes text.new ≡ string_bytes text.old ++ 32 ∷ hex_word bytes.now ++ 10 ∷ []) }
{
    text.push(' ')?;
    write_hex(text, bytes)?;
    end_line(text)
}
