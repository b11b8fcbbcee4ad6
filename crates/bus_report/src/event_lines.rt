//! The lines of what is delivered and of what is lost before it is queued.

ghost use Rattle.std.specs.Prelude.{◌≡◌, [], ◌∷◌, ◌++◌, IfOk, OnOk, flat_map, string_bytes};
ghost use Rattle.text_writers.specs.HexWords.{payload_word};
ghost use Rattle.bus_report.specs.ReportLines.{delivery_line, drop_line, report_lines as lines_of};

use crate::short_words::write_short_words;
use bus_rules::{Delivery, DropLine};
use lwb_base::Payload;
use std::alloc::{AllocError, Global};
use text_writers::{end_line, write_line, write_lines, write_payload};

/// A `deliver` line for each delivery, then a `drop` line for each packet that was lost before it was queued.
pub fn report_lines(
    alloc: Global,
    deliveries: &[Delivery],
    drops: &[DropLine],
) -> Result<String, AllocError>
    ensures { IfOk result (λ text. string_bytes text ≡ lines_of deliveries.now drops.now) }
{
    let mut text = String::new(alloc);
    write_report_lines(&mut text, deliveries, drops)?;
    Ok(text)
}

/// Writes these lines after a text.
pub fn write_report_lines(
    text: &mut String,
    deliveries: &[Delivery],
    drops: &[DropLine],
) -> Result<(), AllocError>
    ensures { OnOk result (string_bytes text.new ≡ string_bytes text.old ++ lines_of deliveries.now drops.now) }
{
    write_deliveries(text, deliveries)?;
    write_drops(text, drops)
}

fn write_deliveries(text: &mut String, deliveries: &[Delivery]) -> Result<(), AllocError>
    ensures { OnOk result (string_bytes text.new ≡ string_bytes text.old ++ flat_map delivery_line deliveries.now) }
{
    write_lines(text, deliveries, write_delivery)
}

fn write_drops(text: &mut String, drops: &[DropLine]) -> Result<(), AllocError>
    ensures { OnOk result (string_bytes text.new ≡ string_bytes text.old ++ flat_map drop_line drops.now) }
{
    write_lines(text, drops, write_drop)
}

// `deliver FRAME RANK SLOT NODE FROM BOOT STREAM SEQ PAYLOAD`.
fn write_delivery(text: &mut String, delivery: &Delivery) -> Result<(), AllocError>
    ensures { OnOk result (string_bytes text.new ≡ string_bytes text.old ++ delivery_line delivery.now) }
{
    write_short_words(
        text,
        "deliver",
        &[
            delivery.frame,
            u32::from(delivery.rank.number()),
            u32::from(delivery.slot),
            u32::from(delivery.node.number()),
            u32::from(delivery.from.number()),
            u32::from(delivery.boot),
            u32::from(delivery.stream),
            u32::from(delivery.seq),
        ],
    )?;
    end_with_payload(text, &delivery.payload)
}

// The payload after a space, and the end of the line.
fn end_with_payload(text: &mut String, payload: &Payload) -> Result<(), AllocError>
    ensures { OnOk result (string_bytes text.new ≡ string_bytes text.old ++ 32 ∷ payload_word payload.now ++ 10 ∷ []) }
{
    text.push(' ')?;
    write_payload(text, payload.bytes())?;
    end_line(text)
}

// `drop FRAME NODE STREAM`.
fn write_drop(text: &mut String, drop: &DropLine) -> Result<(), AllocError>
    ensures { OnOk result (string_bytes text.new ≡ string_bytes text.old ++ drop_line drop.now) }
{
    let node = u32::from(drop.node.number());
    write_line(text, "drop", &[drop.frame, node, u32::from(drop.stream)])
}
