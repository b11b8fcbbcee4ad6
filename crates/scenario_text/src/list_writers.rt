//! Writes the lists of lines of a scenario.

ghost use Rattle.std.specs.Prelude.{◌≡◌, ◌++◌, OnOk, string_bytes, flat_map};
ghost use Rattle.text_writers.specs.Lines.{line_text, render};
ghost use Rattle.scenario_text.specs.Canonical.{node_words, rate_words, host_lines, link_words, script_words, loss_words, cut_words, capture_words};

use crate::line_writers::{
    write_capture, write_cut, write_host, write_link, write_loss, write_node, write_rate,
};
use crate::script_writers::write_script_line;
use crate::{NodeLine, RateLine, ScriptLine};
use link_trace::{CaptureLine, CutLine, LinkLine, LoseLine};
use lwb_base::NodeId;
use std::alloc::AllocError;
use text_writers::{write_lines, write_lines_in_places};

/// Writes the `host` lines, whose ranks are the places in the list.
pub fn write_hosts(text: &mut String, hosts: &[NodeId]) -> Result<(), AllocError>
    ensures { OnOk result (string_bytes text.new ≡ string_bytes text.old ++ render (host_lines 0 hosts.now)) }
{
    write_lines_in_places(text, hosts, write_host)
}

/// Writes the `node` lines.
pub fn write_nodes(text: &mut String, lines: &[NodeLine]) -> Result<(), AllocError>
    ensures { OnOk result (string_bytes text.new ≡ string_bytes text.old ++ flat_map (λ l. line_text (node_words l)) lines.now) }
{
    write_lines(text, lines, write_node)
}

/// Writes the `rate` lines.
pub fn write_rates(text: &mut String, lines: &[RateLine]) -> Result<(), AllocError>
    ensures { OnOk result (string_bytes text.new ≡ string_bytes text.old ++ flat_map (λ l. line_text (rate_words l)) lines.now) }
{
    write_lines(text, lines, write_rate)
}

/// Writes the `link` lines.
pub fn write_links(text: &mut String, lines: &[LinkLine]) -> Result<(), AllocError>
    ensures { OnOk result (string_bytes text.new ≡ string_bytes text.old ++ flat_map (λ l. line_text (link_words l)) lines.now) }
{
    write_lines(text, lines, write_link)
}

/// Writes the lines of the script.
pub fn write_script(text: &mut String, lines: &[ScriptLine]) -> Result<(), AllocError>
    ensures { OnOk result (string_bytes text.new ≡ string_bytes text.old ++ flat_map (λ l. line_text (script_words l)) lines.now) }
{
    write_lines(text, lines, write_script_line)
}

/// Writes the `lose` lines.
pub fn write_losses(text: &mut String, lines: &[LoseLine]) -> Result<(), AllocError>
    ensures { OnOk result (string_bytes text.new ≡ string_bytes text.old ++ flat_map (λ l. line_text (loss_words l)) lines.now) }
{
    write_lines(text, lines, write_loss)
}

/// Writes the `cut` lines.
pub fn write_cuts(text: &mut String, lines: &[CutLine]) -> Result<(), AllocError>
    ensures { OnOk result (string_bytes text.new ≡ string_bytes text.old ++ flat_map (λ l. line_text (cut_words l)) lines.now) }
{
    write_lines(text, lines, write_cut)
}

/// Writes the `capture` lines.
pub fn write_captures(text: &mut String, lines: &[CaptureLine]) -> Result<(), AllocError>
    ensures { OnOk result (string_bytes text.new ≡ string_bytes text.old ++ flat_map (λ l. line_text (capture_words l)) lines.now) }
{
    write_lines(text, lines, write_capture)
}
