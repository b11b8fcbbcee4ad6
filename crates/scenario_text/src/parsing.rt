//! Reads the text of a scenario.

ghost use Rattle.std.specs.Prelude.{◌<◌, ◌≤◌, ◌^◌, length};
ghost use Rattle.text_readers.specs.Faults.{IsAsDefined};
ghost use Rattle.scenario_text.specs.ScenarioGrammar.{scenario_of, long_scenario_of, scenario_within};
ghost use Rattle.scenario_text.specs.declared.limits.TheConstants.{BUS_NODE_FRAMES, BUS_SCRIPT_LINES};

use crate::ParseFault;
use crate::limits::{LONG_LIMITS, Limits, RUN_LIMITS};
use crate::scenario::Scenario;
use crate::scenario_draft::ScenarioDraft;
use std::alloc::Global;
use text_readers::read_lines;

/// Reads the text of a scenario of fewer than 2^31 bytes. `Line` names the first line that is rejected and why, or, with the
/// number of lines plus 1, what is missing at the end, or that nodes times frames is above `RUN_NODE_FRAMES`. The script line
/// after `MOST_SCRIPT_LINES` is rejected.
pub fn parse(alloc: Global, bytes: &[u8]) -> Result<Scenario, ParseFault>
    requires { length bytes.now < 2 ^ 31 }
    ensures { IsAsDefined result (scenario_of bytes.now) }
{
    parse_within(alloc, bytes, &RUN_LIMITS)
}

/// The same over the long horizon, for networks: nodes times frames may be up to `BUS_NODE_FRAMES`, and there may be up to
/// `BUS_SCRIPT_LINES` script lines.
pub fn parse_long(alloc: Global, bytes: &[u8]) -> Result<Scenario, ParseFault>
    requires { length bytes.now < 2 ^ 31 }
    ensures { IsAsDefined result (long_scenario_of bytes.now) }
{
    parse_within(alloc, bytes, &LONG_LIMITS)
}

fn parse_within(alloc: Global, bytes: &[u8], limits: &Limits) -> Result<Scenario, ParseFault>
    requires length { length bytes.now < 2 ^ 31 }
    requires node_frames { limits.now.node_frames ≤ BUS_NODE_FRAMES }
    requires script_lines { limits.now.script_lines ≤ BUS_SCRIPT_LINES }
    ensures { IsAsDefined result (scenario_within limits.now bytes.now) }
{
    let (draft, count) = read_lines(alloc, ScenarioDraft::new(alloc, limits.script_lines), bytes)?;
    match draft.finish(alloc, limits.node_frames) {
        Ok(scenario) => Ok(scenario),
        Err(refusal) => Err(refusal.in_line(count + 1)),
    }
}
