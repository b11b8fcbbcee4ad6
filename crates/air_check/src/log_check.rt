//! The verdict on a recorded log.

ghost use Rattle.std.specs.Prelude.{◌≡◌, ◌↔◌, [], IfOk};
ghost use Rattle.scenario_clocks.specs.StatedClocks.{scenario_clock};
ghost use Rattle.air_log.specs.Lawful.{Lawful as LawfulLog, FollowsTrails};
ghost use Rattle.air_check.specs.Flags.{AreFlags};
ghost use Rattle.air_check.specs.Indexes.{IsIndex, IsSearchable};
ghost use Rattle.air_check.specs.Verdicts.{IsVerdict};
ghost use Rattle.air_check.specs.declared.verdict.Verdict.TheVariants.{Lawful as LawfulOf};

use crate::Verdict;
use crate::astray::first_astray;
use crate::flags::none_received;
use crate::index::{Index, index_of};
use crate::missing::{Missed, first_missing};
use crate::wrong::first_wrong;
use air_log::Air;
use lwb_base::Memory;
use scenario_text::Scenario;
use std::alloc::Global;

/// What is wrong first with a log of a scenario, over the clocks that the scenario states, or `Lawful`. It is of any log, also of
/// one that no run leaves. `Err` means out of memory.
pub fn check(alloc: Global, s: &Scenario, air: &Air) -> Result<Verdict, Memory>
    ensures verdict { IfOk result (λ v. IsVerdict s.now (scenario_clock s.now) air.now v) }
    ensures lawful { IfOk result (λ v. v ≡ LawfulOf ↔ LawfulLog s.now (scenario_clock s.now) air.now) }
{
    if let Some(node) = first_astray(alloc, s, air)? {
        return Ok(Verdict::Trail(node));
    }
    verdict_on_receptions(alloc, s, air)
}

// What is wrong first with a log in which each node follows its trail.
fn verdict_on_receptions(alloc: Global, s: &Scenario, air: &Air) -> Result<Verdict, Memory>
    requires { FollowsTrails s.now (scenario_clock s.now) air.now }
    ensures { IfOk result (λ v. IsVerdict s.now (scenario_clock s.now) air.now v) }
{
    let index = index_of(alloc, s, air)?;
    let mut flags = none_received(alloc, &index.sent)?;
    Ok(verdict_by(s, air, &index, &mut flags))
}

// The same by the index of the log. No flag is set yet.
fn verdict_by(s: &Scenario, air: &Air, index: &Index, flags: &mut Vec<bool>) -> Verdict
    requires trails { FollowsTrails s.now (scenario_clock s.now) air.now }
    requires searchable { IsSearchable s.now index.now }
    requires holds { IsIndex air.now index.now }
    requires none { AreFlags index.now.sent.items [] flags.old.items }
    ensures { IsVerdict s.now (scenario_clock s.now) air.now result }
{
    if let Some(place) = first_wrong(s, air, index, flags) {
        return Verdict::Heard(place);
    }
    match first_missing(s, index, flags) {
        Some(
            Missed {
                receiver,
                sender,
                start,
            },
        ) => Verdict::Missing(receiver, sender, start),
        None => Verdict::Lawful,
    }
}
