//! The result of one flood over clocks that drift.

ghost use Rattle.std.specs.Prelude.{◌≡◌, IfOk, length};
ghost use Rattle.bus_terms.specs.FloodOfText.{outcome};

use crate::outcome_of;
use crate::true_time::flood_log;
use bus_rules::FloodResult;
use lwb_base::Memory;
use scenario_text::FloodText;
use std::alloc::Global;
use tick_clock::DriftClock;

/// What one flood gives over these clocks, one for each node by ascending ids: it is read off the log of the flood. `Err` means
/// out of memory.
pub fn flood<C: DriftClock>(
    alloc: Global,
    f: &FloodText,
    clocks: Vec<C>,
) -> Result<FloodResult, Memory>
    requires { length clocks.items ≡ length f.now.nodes }
    ensures { IfOk result (λ r. r ≡ outcome f.now) }
{
    let air = flood_log(alloc, f, clocks)?;
    outcome_of(alloc, f, &air)
}
