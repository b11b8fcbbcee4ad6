//! The lines of what became of each packet.

ghost use Rattle.std.specs.Prelude.{◌≡◌, ◌++◌, OnOk, decimal, flat_map, map, string_bytes};
ghost use Rattle.std.specs.List.{join_with_byte};
ghost use Rattle.text_writers.specs.Lines.{numbered};
ghost use Rattle.fate_report.specs.FateLines.{after_space, fate_line, fate_words, packet_words, put_words};

use bus_terms::{Fate, PacketId, PutFate, PutLine};
use std::alloc::AllocError;
use text_writers::{end_line, write_lines, write_number, write_words};

/// Writes a line for each put line, with what became of its packet: `put FRAME NODE STREAM BOOT SEQ`, then
/// `sent F RANK SLOT COUNT HOST`, `waiting` or `cleared F`; or `put FRAME NODE STREAM dropped`. HOST is 1 where the host of the
/// rank delivered it, else 0.
pub fn write_fates(text: &mut String, fates: &[PutFate]) -> Result<(), AllocError>
    ensures { OnOk result (string_bytes text.new ≡ string_bytes text.old ++ flat_map fate_line fates.now) }
{
    write_lines(text, fates, write_fate)
}

fn write_fate(text: &mut String, fate: &PutFate) -> Result<(), AllocError>
    ensures { OnOk result (string_bytes text.new ≡ string_bytes text.old ++ fate_line fate.now) }
{
    write_put(text, &fate.put)?;
    write_packet(text, fate.put.packet)?;
    write_what_became(text, &fate.fate)?;
    end_line(text)
}

fn write_put(text: &mut String, put: &PutLine) -> Result<(), AllocError>
    ensures { OnOk result (string_bytes text.new ≡ string_bytes text.old ++ join_with_byte 32 (put_words put.now)) }
{
    let node = u32::from(put.node.number());
    write_words(text, "put", &[put.frame, node, u32::from(put.stream)])
}

// The boot and the number of a packet that was queued.
fn write_packet(text: &mut String, packet: Option<PacketId>) -> Result<(), AllocError>
    ensures { OnOk result (string_bytes text.new ≡ string_bytes text.old ++ flat_map after_space (packet_words packet)) }
{
    let Some(packet) = packet else {
        return Ok(());
    };
    write_number(text, u32::from(packet.boot))?;
    write_number(text, u32::from(packet.seq))
}

fn write_what_became(text: &mut String, fate: &Fate) -> Result<(), AllocError>
    ensures { OnOk result (string_bytes text.new ≡ string_bytes text.old ++ flat_map after_space (fate_words fate.now)) }
{
    match fate {
        Fate::Dropped => write_after(text, "dropped", &[]),
        Fate::Waiting => write_after(text, "waiting", &[]),
        Fate::Cleared { frame } => write_after(text, "cleared", &[*frame]),
        Fate::Sent {
            frame,
            rank,
            slot,
            receivers,
            at_host,
        } => {
            let rank = u32::from(rank.number());
            let slot = u32::from(*slot);
            let host = u32::from(*at_host);
            write_after(text, "sent", &[*frame, rank, slot, *receivers, host])
        }
    }
}

// A word and numbers after it, each after a space.
fn write_after(text: &mut String, word: &str, numbers: &[u32]) -> Result<(), AllocError>
    ensures { OnOk result (string_bytes text.new ≡ string_bytes text.old ++ flat_map after_space (numbered word.now numbers.now)) }
{
    text.push(' ')?;
    write_words(text, word, numbers)
}
