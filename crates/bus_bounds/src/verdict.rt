//! Whether a bound holds, by its frames.

ghost use Rattle.std.specs.Prelude.{◌≡◌};
ghost use Rattle.std.specs.Option.{option_copied};
ghost use Rattle.bus_bounds.specs.BoundFindings.{against_verdict as against_verdict_of, verdict_of};
ghost use Rattle.bus_bounds.specs.declared.breaking_line.BreakingLine.TheVariants.{Switch};
ghost use Rattle.bus_bounds.specs.declared.finding.Reason.TheVariants.{Power};
ghost use Rattle.bus_bounds.specs.declared.finding.Verdict.TheVariants.{Broken};

use crate::breaking_line::BreakingLine;
use crate::finding::{Reason, Verdict};
use crate::power_line::PowerLine;

/// A bound of this number of frames, counted from one of a run: it is open by a line that breaks it, and where the run ends by then.
pub(crate) fn verdict(run: u32, broken: Option<&PowerLine>, frame: u32, frames: u32) -> Verdict
    ensures { result ≡ verdict_of run (option_copied broken.entry) frame frames }
{
    if let Some(line) = broken {
        return broken_by(line);
    }
    if u64::from(frame) + u64::from(frames) < u64::from(run) {
        return Verdict::Holds {
            from: frame + frames,
            frames,
        };
    }
    Verdict::Open {
        reason: Reason::Rounds,
    }
}

/// Its premise on power is broken by the line.
pub(crate) fn broken_by(line: &PowerLine) -> Verdict
    ensures { result ≡ Broken Power (Switch line.now) }
{
    Verdict::Broken {
        reason: Reason::Power,
        line: BreakingLine::Switch(*line),
    }
}

/// Of a node that is not as it has to be, by its last line, where it has one.
pub(crate) fn against_verdict(line: Option<&PowerLine>) -> Verdict
    ensures { result ≡ against_verdict_of (option_copied line.entry) }
{
    match line {
        Some(line) => broken_by(line),
        None => Verdict::Open {
            reason: Reason::Power,
        },
    }
}
