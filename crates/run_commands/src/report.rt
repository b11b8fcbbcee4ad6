//! The report of a flood.

ghost use Rattle.std.specs.Prelude.{◌≡◌, ◌++◌, IfOk, OnOk, flat_map, string_bytes};
ghost use Rattle.run_commands.specs.FloodReport.{accept_line, flood_report as report_of};

use bus_rules::FloodResult;
use lwb_base::NodeId;
use std::alloc::{AllocError, Global};
use text_writers::{write_line, write_lines};

/// The flood report: `accept NODE STEP` for each accepting node, then `sent COUNT`.
pub fn flood_report(alloc: Global, r: &FloodResult) -> Result<String, AllocError>
    ensures { IfOk result (λ text. string_bytes text ≡ report_of r.now) }
{
    let mut text = String::new(alloc);
    write_accepts(&mut text, r.accepts())?;
    write_line(&mut text, "sent", &[r.sent()])?;
    Ok(text)
}

fn write_accepts(text: &mut String, accepts: &[(NodeId, u8)]) -> Result<(), AllocError>
    ensures { OnOk result (string_bytes text.new ≡ string_bytes text.old ++ flat_map accept_line accepts.now) }
{
    write_lines(text, accepts, write_accept)
}

// `accept NODE STEP`.
fn write_accept(text: &mut String, accept: &(NodeId, u8)) -> Result<(), AllocError>
    ensures { OnOk result (string_bytes text.new ≡ string_bytes text.old ++ accept_line accept.now) }
{
    let (node, step) = accept;
    write_line(text, "accept", &[node.number(), *step])
}
