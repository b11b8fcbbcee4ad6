//! One flood over drifting clocks, a medium and a log.

ghost use Rattle.std.specs.Prelude.{◌≡◌, IfOk, length};
ghost use Rattle.air_log.specs.FloodLaw.{FloodLaw};
ghost use Rattle.air_log.specs.ClockLists.{clocks_by};
ghost use Rattle.lwb_flood.specs.FloodLog.{HasClocks};

use crate::flood_world::FloodWorld;
use air_log::Air;
use lwb_base::Memory;
use scenario_text::FloodText;
use std::alloc::Global;
use tick_clock::DriftClock;

/// The log of the flood that a text tells of, run in true time with one clock for each node, in the order of their ids.
///
/// All nodes tune in at true tick 1,344,000,000, in frame 5, and the starting node sends at 1,344,064,000. A node goes off at
/// the end of its last transmission, or at 1,346,096,000. The log keeps the law of one flood. With `Memory` the clocks are
/// dropped.
pub fn flood_air<C: DriftClock>(alloc: Global, f: &FloodText, clocks: Vec<C>) -> Result<Air, Memory>
    requires { length clocks.items ≡ length f.now.nodes }
    ensures { IfOk result (λ air. FloodLaw f.now (clocks_by C.readings f.now.nodes clocks.items) air) }
{
    flood_log(alloc, f, clocks)
}

// As `flood_air`. The text keeps to its limits, and the clocks keep the drift law.
pub(crate) fn flood_log<C: DriftClock>(
    alloc: Global,
    f: &FloodText,
    clocks: Vec<C>,
) -> Result<Air, Memory>
    requires { length clocks.items ≡ length f.now.nodes }
    ensures clocks { IfOk result (λ air. HasClocks f.now (clocks_by C.readings f.now.nodes clocks.items)) }
    ensures law { IfOk result (λ air. FloodLaw f.now (clocks_by C.readings f.now.nodes clocks.items) air) }
{
    let mut world = FloodWorld::new(alloc, f)?;
    while let Some(place) = world.next() {
        world.step(f.trace(), clocks.as_slice(), place)?;
    }
    world.close()?;
    Ok(world.into_air())
}
