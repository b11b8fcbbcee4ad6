//! Runs a scenario again and again, with one return more each time.

ghost use Rattle.std.specs.Prelude.{◌≡◌, [], true, false, Ok, IfOk, OnOk};
ghost use Rattle.scenario_text.specs.ScenarioGrammar.{IsScenario};
ghost use Rattle.scenario_clocks.specs.StatedClocks.{scenario_clock};
ghost use Rattle.air_log.specs.Lawful.{Lawful};
ghost use Rattle.air_log.specs.Safe.{Safe};
ghost use Rattle.host_return.specs.AfterReturns.{AllProbed, AllQuiet};
ghost use Rattle.host_return.specs.Courses.{IsFollowed, IsOneMore};
ghost use Rattle.host_return.specs.Probes.{idle_of};
ghost use Rattle.host_return.specs.Returned.{ReturnsEnd, IsReturned, counts_in};

use crate::candidates::next_return;
use crate::finders::{ByList, ByTrails, FindsIdle};
use crate::probes::counts_of;
use crate::restart::with_return;
use crate::{ListsIdle, Return, Returned, Runner};
use air_log::{Air, Idle};
use lwb_base::Memory;
use scenario_text::{Scenario, copy_of};
use std::alloc::Global;

/// Follows the returns of a scenario, at most 16: in each run it takes the least candidate by frame and then node, and runs the
/// scenario again with the script lines of that return. What the runner keeps is of the last run. The only error is out of
/// memory; after it the runner may hold anything.
pub fn follow_returns<R: Runner>(
    alloc: Global,
    s: &Scenario,
    runner: &mut R,
) -> Result<Returned, Memory>
    ensures returned { IfOk result (IsReturned s.now) }
    ensures safe { IfOk result (λ x. Safe x.scenario (scenario_clock x.scenario) x.air) }
    ensures probed { IfOk result AllProbed }
    ensures quiet { IfOk result AllQuiet }
    ensures kept { IfOk result (λ x. R.kept runner.new x.scenario x.air) }
{
    follow(alloc, s, runner, &ByTrails)
}

/// The same by a runner that lists where nodes were idle in its last run. Trails are not computed.
pub fn follow_listed<R: ListsIdle>(
    alloc: Global,
    s: &Scenario,
    runner: &mut R,
) -> Result<Returned, Memory>
    ensures returned { IfOk result (IsReturned s.now) }
    ensures safe { IfOk result (λ x. Safe x.scenario (scenario_clock x.scenario) x.air) }
    ensures probed { IfOk result AllProbed }
    ensures quiet { IfOk result AllQuiet }
    ensures kept { IfOk result (λ x. R.kept runner.new x.scenario x.air) }
{
    follow(alloc, s, runner, &ByList)
}

// The same, where `finder` finds where nodes were idle.
fn follow<R: Runner, F: FindsIdle<R>>(
    alloc: Global,
    s: &Scenario,
    runner: &mut R,
    finder: &F,
) -> Result<Returned, Memory>
    ensures returned { IfOk result (IsReturned s.now) }
    ensures safe { IfOk result (λ x. Safe x.scenario (scenario_clock x.scenario) x.air) }
    ensures probed { IfOk result AllProbed }
    ensures quiet { IfOk result AllQuiet }
    ensures kept { IfOk result (λ x. R.kept runner.new x.scenario x.air) }
{
    let mut course = Course::first(alloc, s, runner, finder)?;
    while course.returns.len() < 16 {
        if !course.go_back(alloc, s, runner, finder)? {
            return course.finish(alloc);
        }
    }
    course.finish(alloc)
}

// The scenario with the lines of the returns so far, a run of it, and where nodes were idle in that run.
#[derive(Drop)]
struct Course {
    scenario: Scenario,
    air: Air,
    returns: Vec<Return>,
    idle: Vec<Idle>,
}

impl Course {
    // The scenario as it was read, with no return.
    fn first<R: Runner, F: FindsIdle<R>>(
        alloc: Global,
        read: &Scenario,
        runner: &mut R,
        finder: &F,
    ) -> Result<Course, Memory>
        ensures followed { IfOk result (IsFollowed read.now) }
        ensures none { IfOk result (λ c. c.returns.items ≡ []) }
        ensures kept { IfOk result (λ c. R.kept runner.new c.scenario c.air) }
    {
        let air = runner.run(alloc, read)?;
        let idle = finder.idle(alloc, runner, read, &air)?;
        let scenario = copy_of(alloc, read)?;
        Ok(Course {
            scenario,
            air,
            returns: Vec::new(alloc),
            idle,
        })
    }

    // Takes one return more. It is `false` where there is none, or no room for its lines.
    fn go_back<R: Runner, F: FindsIdle<R>>(
        &mut self,
        alloc: Global,
        read: &Scenario,
        runner: &mut R,
        finder: &F,
    ) -> Result<bool, Memory>
        requires lawful { Lawful self.old.scenario (scenario_clock self.old.scenario) self.old.air }
        requires frames { read.now.frames ≡ self.old.scenario.frames }
        requires said { IsScenario self.old.scenario }
        requires idle { self.old.idle.items ≡ idle_of self.old.scenario self.old.air }
        ensures more { result ≡ Ok true → IsOneMore read.now self.old self.new }
        ensures end { result ≡ Ok false → (self.new ≡ self.old) × ReturnsEnd read.now self.old.scenario self.old.air self.old.returns.items }
        ensures kept { result ≡ Ok true → R.kept runner.new self.new.scenario self.new.air }
        ensures no_run { result ≡ Ok false → runner.new ≡ runner.old }
    {
        let s = &self.scenario;
        let Some(r) = next_return(alloc, read, s, &self.air, &self.idle, &self.returns)? else {
            return Ok(false);
        };
        let Some(scenario) = with_return(alloc, s, &r)? else {
            return Ok(false);
        };
        self.returns.push(r)?;
        self.run(alloc, scenario, runner, finder)?;
        Ok(true)
    }

    // Runs this scenario, which takes the place of the last one.
    fn run<R: Runner, F: FindsIdle<R>>(
        &mut self,
        alloc: Global,
        scenario: Scenario,
        runner: &mut R,
        finder: &F,
    ) -> Result<(), Memory>
        ensures scenario { OnOk result (self.new.scenario ≡ scenario) }
        ensures returns { OnOk result (self.new.returns.items ≡ self.old.returns.items) }
        ensures lawful { OnOk result (Lawful self.new.scenario (scenario_clock self.new.scenario) self.new.air) }
        ensures idle { OnOk result (self.new.idle.items ≡ idle_of self.new.scenario self.new.air) }
        ensures kept { OnOk result (R.kept runner.new self.new.scenario self.new.air) }
    {
        let air = runner.run(alloc, &scenario)?;
        let idle = finder.idle(alloc, runner, &scenario, &air)?;
        self.idle = idle;
        self.air = air;
        self.scenario = scenario;
        Ok(())
    }

    // What came of it, with the counts of its run.
    fn finish(self, alloc: Global) -> Result<Returned, Memory>
        requires { self.idle.items ≡ idle_of self.scenario self.air }
        ensures { IfOk result (λ x. x ≡ record {
          scenario = self.scenario;
          returns = self.returns.items;
          air = self.air;
          counts = counts_in self.scenario self.air;
        }) }
    {
        let counts = counts_of(alloc, &self.scenario, &self.idle)?;
        let Course {
            scenario,
            air,
            returns,
            ..
        } = self;
        Ok(Returned {
            scenario,
            returns,
            air,
            counts,
        })
    }
}
