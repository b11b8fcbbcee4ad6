//! Writes single lines of a scenario.

ghost use Rattle.std.specs.Prelude.{◌≡◌, ◌++◌, OnOk, string_bytes, codes, [], ◌∷◌};
ghost use Rattle.text_writers.specs.Lines.{line_text, numbered};
ghost use Rattle.scenario_text.specs.Canonical.{node_words, rate_words, link_words, loss_words, cut_words, capture_words};

use crate::{NodeLine, RateLine};
use link_trace::{CaptureLine, CutLine, LinkLine, LoseLine};
use lwb_base::NodeId;
use std::alloc::AllocError;
use text_writers::{end_line, write_line, write_number, write_words};

/// Writes a `node` line.
pub fn write_node(text: &mut String, line: &NodeLine) -> Result<(), AllocError>
    ensures { OnOk result (string_bytes text.new ≡ string_bytes text.old ++ line_text (node_words line.now)) }
{
    write_line(text, "node", &[u64::from(line.node.number()), line.offset])
}

/// Writes a `rate` line.
pub fn write_rate(text: &mut String, line: &RateLine) -> Result<(), AllocError>
    ensures { OnOk result (string_bytes text.new ≡ string_bytes text.old ++ line_text (rate_words line.now)) }
{
    write_words(text, "rate", &[u64::from(line.node.number()), line.from])?;
    write_number(text, line.ppm)?;
    end_line(text)
}

/// Writes a `host` line.
pub fn write_host(text: &mut String, rank: usize, host: &NodeId) -> Result<(), AllocError>
    ensures { OnOk result (string_bytes text.new ≡ string_bytes text.old ++ line_text (numbered (codes "host") (rank ∷ host.now ∷ []))) }
{
    write_line(text, "host", &[rank, usize::from(host.number())])
}

/// Writes a `link` line.
pub fn write_link(text: &mut String, line: &LinkLine) -> Result<(), AllocError>
    ensures { OnOk result (string_bytes text.new ≡ string_bytes text.old ++ line_text (link_words line.now)) }
{
    write_line(text, "link", &[line.from.number(), line.to.number()])
}

/// Writes a `lose` line.
pub fn write_loss(text: &mut String, line: &LoseLine) -> Result<(), AllocError>
    ensures { OnOk result (string_bytes text.new ≡ string_bytes text.old ++ line_text (loss_words line.now)) }
{
    let from = u32::from(line.from.number());
    let to = u32::from(line.to.number());
    write_line(
        text,
        "lose",
        &[
            line.frame,
            u32::from(line.slot),
            u32::from(line.step),
            from,
            to,
        ],
    )
}

/// Writes a `cut` line.
pub fn write_cut(text: &mut String, line: &CutLine) -> Result<(), AllocError>
    ensures { OnOk result (string_bytes text.new ≡ string_bytes text.old ++ line_text (cut_words line.now)) }
{
    let node = u32::from(line.node.number());
    write_line(
        text,
        "cut",
        &[line.frame, u32::from(line.slot), u32::from(line.step), node],
    )
}

/// Writes a `capture` line.
pub fn write_capture(text: &mut String, line: &CaptureLine) -> Result<(), AllocError>
    ensures { OnOk result (string_bytes text.new ≡ string_bytes text.old ++ line_text (capture_words line.now)) }
{
    let at = u32::from(line.at.number());
    let from = u32::from(line.from.number());
    write_line(
        text,
        "capture",
        &[
            line.frame,
            u32::from(line.slot),
            u32::from(line.step),
            at,
            from,
        ],
    )
}
