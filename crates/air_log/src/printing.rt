//! Writes a whole log as text.

ghost use Rattle.std.specs.Prelude.{◌≡◌, ◌++◌, map, flat_map, IfOk, OnOk, string_bytes};
ghost use Rattle.air_log.specs.Entries.{node_of_entry};
ghost use Rattle.lwb_base.specs.Sorting.{in_order};
ghost use Rattle.air_log.specs.LogText.{entry_line, log_text, entry_is_before, start_of, kind_number};

use crate::line_writers::write_entry;
use crate::{Air, Entry};
use lwb_base::Memory;
use std::alloc::{AllocError, Global};
use text_writers::write_lines;

/// The log text: one line for each entry, by start, then kind in the order `sent`, `heard`, `tuned`, then node. Entries that
/// this order leaves equal stay in the order in which they were added.
pub fn text(alloc: Global, a: &Air) -> Result<String, Memory>
    ensures { IfOk result (λ text. string_bytes text ≡ log_text a.now) }
{
    let mut text = String::new(alloc);
    write_text(alloc, &mut text, a)?;
    Ok(text)
}

/// Writes the log text after another text.
pub fn write_text(alloc: Global, text: &mut String, a: &Air) -> Result<(), Memory>
    ensures { OnOk result (string_bytes text.new ≡ string_bytes text.old ++ log_text a.now) }
{
    let sorted = entries_in_order(alloc, a.entries())?;
    write_entries(text, &sorted)?;
    Ok(())
}

fn write_entries(text: &mut String, entries: &[&Entry]) -> Result<(), AllocError>
    ensures { OnOk result (string_bytes text.new ≡ string_bytes text.old ++ flat_map entry_line (map (λ e. e.now) entries.now)) }
{
    write_lines(text, entries, |text, entry| write_entry(text, entry))
}

// References are sorted, so that no entry is copied, and each entry is read once for its place.
fn entries_in_order(alloc: Global, entries: &[Entry]) -> Result<Vec<&Entry>, AllocError>
    ensures { IfOk result (λ v. map (λ e. e.now) v.items ≡ in_order entry_is_before entries.now) }
{
    let mut sorted: Vec<&Entry> = entries.iter().collect(alloc)?;
    sorted.sort_by_cached_key(|entry| place(entry))?;
    Ok(sorted)
}

// What the order goes by: the start, the number of the kind, and the node.
fn place(entry: &Entry) -> (u64, u8, u8)
    ensures { result ≡ (start_of entry.now, kind_number entry.now, node_of_entry entry.now) }
{
    match entry {
        Entry::Sent(sent) => (sent.start, 0, sent.node.number()),
        Entry::Heard(heard) => (heard.start, 1, heard.node.number()),
        Entry::Tuned(tuned) => (tuned.start, 2, tuned.node.number()),
    }
}
