//! Reads the text of a plan.

ghost use Rattle.std.specs.Prelude.{◌<◌, ◌^◌, length};
ghost use Rattle.text_readers.specs.Faults.{IsAsDefined};
ghost use Rattle.deadline_plan.specs.DeadlineText.{plan_of};

use crate::DeadlineText;
use crate::draft::DeadlineDraft;
use std::alloc::Global;
use text_readers::{FaultKind, ParseFault, read_lines};

/// Reads the text of a plan. Returns `Line` if and only if a line is rejected, with the first of them and its kind: `NotUtf8`,
/// `BadWord`, `BadNumber`, `Range`, `Twice`, where slots, frames or an owner are given again, `TooMany`, for the 33rd stream,
/// and `Missing`, where slots, frames or a stream are missing after the last line.
pub fn parse_deadlines(alloc: Global, bytes: &[u8]) -> Result<DeadlineText, ParseFault>
    requires { length bytes.now < 2 ^ 31 }
    ensures { IsAsDefined result (plan_of bytes.now) }
{
    let (draft, count) = read_lines(alloc, DeadlineDraft::new(alloc), bytes)?;
    match draft.finish() {
        Some(text) => Ok(text),
        None => Err(ParseFault::Line(count + 1, FaultKind::Missing)),
    }
}
