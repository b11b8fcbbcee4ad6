//! Reads the text of a flood.

ghost use Rattle.std.specs.Prelude.{◌<◌, ◌^◌, length};
ghost use Rattle.scenario_text.specs.FloodGrammar.{flood_of};
ghost use Rattle.text_readers.specs.Faults.{IsAsDefined};

use crate::flood_draft::FloodDraft;
use crate::{FaultKind, FloodText, ParseFault};
use std::alloc::Global;
use text_readers::read_lines;

/// Reads a flood text of fewer than 2^31 bytes. `Line` names the first line that is rejected and why, or, with the number of
/// lines plus 1, what is missing at the end.
pub fn parse_flood(alloc: Global, bytes: &[u8]) -> Result<FloodText, ParseFault>
    requires { length bytes.now < 2 ^ 31 }
    ensures { IsAsDefined result (flood_of bytes.now) }
{
    let (draft, count) = read_lines(alloc, FloodDraft::new(alloc), bytes)?;
    match draft.finish(alloc) {
        Ok(Some(text)) => Ok(text),
        Ok(None) => Err(ParseFault::Line(count + 1, FaultKind::Missing)),
        Err(_) => Err(ParseFault::Memory),
    }
}
