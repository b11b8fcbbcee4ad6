//! What a text says.

use lwb_base::INPUT_LIMIT;
use scenario_text::{FloodText, Scenario, parse, parse_flood};
use std::alloc::Global;
use std::test::Fail;

/// The scenario that the text of these parts says. The test fails if the text is rejected, or longer than `INPUT_LIMIT`.
pub fn scenario(alloc: Global, parts: &[&str]) -> Result<Scenario, Fail> {
    let text = parts.concat(alloc)?;
    let bytes = text.as_bytes();
    if bytes.len() > INPUT_LIMIT {
        return Err("length")?;
    }
    Ok(parse(alloc, bytes)?)
}

/// The flood that a text says. The test fails if the text is rejected, or longer than `INPUT_LIMIT`.
pub fn flood_text(alloc: Global, text: &str) -> Result<FloodText, Fail> {
    let bytes = text.as_bytes();
    if bytes.len() > INPUT_LIMIT {
        return Err("length")?;
    }
    Ok(parse_flood(alloc, bytes)?)
}
