//! Logs of runs and floods over the clocks that their texts state.

use air_log::Air;
use lwb_base::Memory;
use lwb_flood::flood_air;
use lwb_world::world_after;
use scenario_clocks::stated_clocks;
use scenario_text::{FloodText, Scenario};
use std::alloc::Global;
use std::test::Fail;
use test_texts::{flood_text, scenario};

/// The log of the run of a scenario, whose text is given in parts.
pub fn run_log(alloc: Global, parts: &[&str]) -> Result<Air, Fail> {
    let s = scenario(alloc, parts)?;
    Ok(log_of_run(alloc, &s)?)
}

fn log_of_run(alloc: Global, s: &Scenario) -> Result<Air, Memory> {
    let world = world_after(alloc, s)?;
    Ok(world.into_air())
}

/// The log of the flood of a text.
pub fn flood_log(alloc: Global, text: &str) -> Result<Air, Fail> {
    let f = flood_text(alloc, text)?;
    Ok(log_of_flood(alloc, &f)?)
}

fn log_of_flood(alloc: Global, f: &FloodText) -> Result<Air, Memory> {
    let clocks = stated_clocks(alloc, f.nodes(), f.rates())?;
    flood_air(alloc, f, clocks)
}
