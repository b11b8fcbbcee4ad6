//! A text to be checked: the lines of a scenario, a line `log`, and the lines of a log.

ghost use Rattle.std.specs.Prelude.{◌<◌, ◌^◌, IfOk, length};
ghost use Rattle.text_readers.specs.Faults.{IsAsDefined};
ghost use Rattle.scenario_text.specs.ScenarioGrammar.{IsScenario};
ghost use Rattle.air_check.specs.CheckedText.{checked_text};

use crate::log_lines::{LogFault, parse_log};
use air_log::Air;
use scenario_text::{Scenario, parse};
use std::alloc::Global;
use text_readers::{FaultKind, divided};

/// Reads a text of fewer than 2^31 bytes: the lines of a scenario, a line whose only word is `log`, and the lines of a log.
/// The first such line divides them.
///
/// `Line` comes if and only if a line is rejected: one of the scenario, with the line `log` as the one after its last, where
/// something is missing; or one of the log (`parse_log`). A text without a line `log` has `Missing` in the line after its
/// last one, unless the scenario is rejected.
pub fn parse_checked(alloc: Global, bytes: &[u8]) -> Result<(Scenario, Air), LogFault>
    requires { length bytes.now < 2 ^ 31 }
    ensures text { IsAsDefined result (checked_text bytes.now) }
    ensures scenario { IfOk result (λ t. IsScenario t.0) }
{
    let Ok(division) = divided(alloc, bytes, b"log") else {
        return Err(LogFault::Memory);
    };
    let scenario = parse(alloc, division.above)?;
    match division.below {
        Some(below) => {
            let air = parse_log(alloc, &scenario, below, division.count + 1)?;
            Ok((scenario, air))
        }
        None => Err(LogFault::Line(division.count + 1, FaultKind::Missing)),
    }
}
