//! The answer to the command `bounds`.

ghost use Rattle.std.specs.Prelude.{◌≡◌, ◌<◌, ◌^◌, All, IfOk, length, string_bytes};
ghost use Rattle.plan_commands.specs.Answers.{Answers};
ghost use Rattle.plan_commands.specs.Reports.{IsBoundsText};
ghost use Rattle.plan_commands.specs.declared.command.Command.TheVariants as asked;

use crate::answer::{Answer, fault_answer};
use bound_report::write_findings;
use bus_bounds::{findings, joins};
use drawn_links::Ratios;
use lwb_base::Memory;
use network_text::parse_network;
use scenario_text::Scenario;
use std::alloc::Global;
use text_readers::ParseFault;

/// Which bounds hold of the network that the bytes are a text of, for every seed, and which are open and by which line; or the line of the
/// first fault.
pub fn bounds_answer(alloc: Global, bytes: &[u8]) -> Result<Answer, Memory>
    requires { length bytes.now < 2 ^ 31 }
    ensures { IfOk result (λ a. Answers asked.Bounds bytes.now a) }
{
    match parse_network(alloc, bytes) {
        Ok((scenario, ratios)) => {
            let report = bounds_report(alloc, &scenario, &ratios, bytes)?;
            Ok(Answer::Report(report, ()))
        }
        Err(ParseFault::Line(line, kind)) => fault_answer(alloc, line, kind),
        Err(ParseFault::Memory) => Err(Memory),
    }
}

fn bounds_report(
    alloc: Global,
    scenario: &Scenario,
    ratios: &Ratios,
    bytes: &[u8],
) -> Result<String, Memory>
    requires { length bytes.now < 2 ^ 31 }
    ensures { IfOk result (λ text. IsBoundsText bytes.now scenario.now ratios.now.lines (string_bytes text)) }
{
    let of_hosts = findings(alloc, scenario)?;
    let of_nodes = joins(alloc, scenario, ratios)?;
    let mut report = String::new(alloc);
    write_findings(alloc, &mut report, &of_hosts, bytes)?;
    write_findings(alloc, &mut report, &of_nodes, bytes)?;
    Ok(report)
}
