//! The text of a scenario with more lose lines.

ghost use Rattle.std.specs.Prelude.{◌≡◌, ◌*◌, IfOk, length, nat_le, string_bytes};
ghost use Rattle.text_readers.specs.Faults.{RefusesBy};
ghost use Rattle.scenario_text.specs.declared.limits.TheConstants.{RUN_NODE_FRAMES};
ghost use Rattle.added_losses.specs.LossesAdded.{AreInRange, SaysWithLosses, text_fault};

use crate::with_losses;
use link_trace::LoseLine;
use lwb_base::Memory;
use scenario_text::{FaultKind, RUN_NODE_FRAMES, Scenario, print};
use std::alloc::Global;

/// The canonical text of the scenario with these lose lines more in its trace, for a run with a log. The lines are in its ranges, and
/// may be in any order. `TooBig` comes if and only if its nodes times its frames are more than `RUN_NODE_FRAMES`. `TooMany` comes
/// if and only if they are not, and these lines and its script lines of all kinds are more than `MOST_SCRIPT_LINES` together. The
/// only other error is out of memory.
pub fn drawn_text(
    alloc: Global,
    s: &Scenario,
    lines: &[LoseLine],
) -> Result<Result<String, FaultKind>, Memory>
    requires { AreInRange s.now lines.now }
    ensures text { IfOk result (λ r. IfOk r (λ text. SaysWithLosses s.now lines.now (string_bytes text))) }
    ensures fault { IfOk result (λ r. RefusesBy r (text_fault s.now lines.now)) }
{
    if !is_short(s) {
        return Ok(Err(FaultKind::TooBig));
    }
    let Some(t) = with_losses(alloc, s, lines)? else {
        return Ok(Err(FaultKind::TooMany));
    };
    Ok(Ok(print(alloc, &t)?))
}

// Whether the scenario is short enough for a run with a log.
fn is_short(s: &Scenario) -> bool
    ensures { result ≡ nat_le (length s.now.nodes * s.now.frames) RUN_NODE_FRAMES }
{
    s.nodes().len() as u64 * u64::from(s.frames()) <= u64::from(RUN_NODE_FRAMES)
}
