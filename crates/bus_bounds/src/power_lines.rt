//! The lines of a script that are for power, and what they say.

ghost use Rattle.std.specs.Prelude.{◌≡◌, ◌+◌, ◌++◌, ◌==◌, not, ◌&&◌, ◌-◌, ◌≤◌, IfOk, OnOk, option_to_list};
ghost use Rattle.std.specs.List.{list_any, range_with_len};
ghost use Rattle.std.specs.Option.{option_copied};
ghost use Rattle.bus_bounds.specs.BoundFindings.{first_off as first_off_of};
ghost use Rattle.bus_bounds.specs.PowerLines.{boots_in as boots_in_of, goes_off_in as goes_off_in_of, is_on_before as is_on_before_of};
ghost use Rattle.bus_bounds.specs.PowerLines.{last_line as last_line_of, power_line as power_line_of, power_lines as power_lines_of, is_within as is_within_of};

use crate::power_line::PowerLine;
use bus_rules::Act;
use lwb_base::{Memory, NodeId};
use scenario_text::ScriptLine;
use std::alloc::Global;

/// The lines for power, in the order of the script.
pub(crate) fn power_lines(alloc: Global, script: &[ScriptLine]) -> Result<Vec<PowerLine>, Memory>
    ensures { IfOk result (λ lines. lines.items ≡ power_lines_of script.now) }
{
    let mut lines = Vec::new(alloc);
    for line in script {
        push_power(&mut lines, line)?;
    }
    Ok(lines)
}

fn push_power(lines: &mut Vec<PowerLine>, line: &ScriptLine) -> Result<(), Memory>
    ensures { OnOk result (lines.new.items ≡ lines.old.items ++ option_to_list (power_line_of line.now)) }
{
    if let Some(switched) = power_line(line) {
        lines.push(switched)?;
    }
    Ok(())
}

fn power_line(line: &ScriptLine) -> Option<PowerLine>
    ensures { result ≡ power_line_of line.now }
{
    match line.act {
        Act::On => Some(PowerLine {
            frame: line.frame,
            node: line.node,
            on: true,
        }),
        Act::Off => Some(PowerLine {
            frame: line.frame,
            node: line.node,
            on: false,
        }),
        Act::Declare(..) | Act::Leave(_) | Act::Put(..) => None,
    }
}

/// The last of the lines for this node before a frame.
pub(crate) fn last_line(lines: &[PowerLine], node: NodeId, frame: u64) -> Option<&PowerLine>
    ensures { option_copied result ≡ last_line_of lines.now node frame }
{
    lines
        .iter()
        .rev()
        .find(|l| l.node == node && u64::from(l.frame) < frame)
}

/// Whether the node is on before the lines of a frame.
pub(crate) fn is_on_before(lines: &[PowerLine], node: NodeId, frame: u64) -> bool
    ensures { result ≡ is_on_before_of lines.now node frame }
{
    match last_line(lines, node, frame) {
        Some(line) => line.on,
        None => false,
    }
}

fn goes_off_in(lines: &[PowerLine], node: NodeId, frame: u32) -> bool
    ensures { result ≡ goes_off_in_of lines.now node frame }
{
    lines
        .iter()
        .any(|l| l.node == node && !l.on && l.frame == frame)
}

/// Whether the node boots in a frame, and is on after its lines.
pub(crate) fn boots_in(lines: &[PowerLine], node: NodeId, frame: u32) -> bool
    ensures { result ≡ boots_in_of lines.now node frame }
{
    let now = u64::from(frame);
    is_on_before(lines, node, now + 1)
        && (!is_on_before(lines, node, now) || goes_off_in(lines, node, frame))
}

/// Whether the line is of one of this number of frames after the first.
pub(crate) fn is_within(first: u32, frames: u32, line: &PowerLine) -> bool
    ensures { result ≡ is_within_of first (first + frames) line.now }
{
    first < line.frame && u64::from(line.frame) <= u64::from(first) + u64::from(frames)
}

/// The first line by which the node goes off within this number of frames after the first.
pub(crate) fn first_off(
    lines: &[PowerLine],
    node: NodeId,
    first: u32,
    frames: u32,
) -> Option<&PowerLine>
    ensures { option_copied result ≡ first_off_of lines.now node first (first + frames) }
{
    lines
        .iter()
        .find(|l| l.node == node && !l.on && is_within(first, frames, l))
}

/// Whether the node boots in one of these frames, the first to the one before the last.
pub(crate) fn boots_within(lines: &[PowerLine], node: NodeId, first: u32, last: u32) -> bool
    requires { first ≤ last }
    ensures { result ≡ list_any (boots_in_of lines.now node) (range_with_len first (last - first)) }
{
    (first..last).any(|f| boots_in(lines, node, f))
}
