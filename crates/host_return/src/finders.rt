//! Two ways to find where nodes were idle in the last run of a runner.

ghost use Rattle.std.specs.Prelude.{◌≡◌, IfOk};
ghost use Rattle.host_return.specs.Probes.{idle_of};

use crate::idle_trails::idle_by_trails;
use crate::{ListsIdle, Runner};
use air_log::{Air, Idle};
use lwb_base::Memory;
use scenario_text::Scenario;
use std::alloc::Global;

/// Finds where nodes were idle in the last run of a runner.
pub(crate) trait FindsIdle<R: Runner> {
    /// Those of a run of `s`, by frame and then node. `air` is its log. The only error is out of memory.
    fn idle(&self, alloc: Global, runner: &R, s: &Scenario, air: &Air) -> Result<Vec<Idle>, Memory>
        requires kept { R.kept runner.now s.now air.now }
        ensures { IfOk result (λ idle. idle.items ≡ idle_of s.now air.now) };
}

/// As the runner lists them.
pub(crate) struct ByList;

impl<R: ListsIdle> FindsIdle<R> for ByList {
    fn idle(
        &self,
        alloc: Global,
        runner: &R,
        s: &Scenario,
        air: &Air,
    ) -> Result<Vec<Idle>, Memory> {
        Ok(Vec::from_slice(alloc, runner.idle())?)
    }
}

/// By the trails of the nodes.
pub(crate) struct ByTrails;

impl<R: Runner> FindsIdle<R> for ByTrails {
    fn idle(&self, alloc: Global, _: &R, s: &Scenario, air: &Air) -> Result<Vec<Idle>, Memory> {
        idle_by_trails(alloc, s, air)
    }
}
