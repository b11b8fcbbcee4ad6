//! The text that tells of a run.

ghost use Rattle.std.specs.Prelude.{◌≡◌, IfOk, string_bytes};
ghost use Rattle.link_trace.specs.Sealed.{traced};
ghost use Rattle.bus_terms.specs.Bus.{bus_deliveries, bus_drops};
ghost use Rattle.scenario_clocks.specs.StatedClocks.{scenario_clock};
ghost use Rattle.scenario_text.specs.FloodParts.{IsSealed};
ghost use Rattle.scenario_text.specs.OverLines.{over};
ghost use Rattle.run_report.specs.RunReport.{log_report as log_report_of, run_report as run_report_of};
ghost use Rattle.run_report.specs.RunsLeft.{IsLeft};
ghost use Rattle.run_report.specs.RunsTold.{IsOfRun};

use crate::energy_lines::write_energies_over;
use crate::scenario_run::run_over;
use air_log::{Air, write_text};
use bus_report::report_lines;
use link_trace::Links;
use lwb_base::Memory;
use lwb_world::RunParts;
use scenario_text::{Scenario, ScenarioOver};
use std::alloc::Global;

/// A text that tells of a run, and the log of this run.
#[derive(Drop)]
pub struct RunText {
    pub text: String,
    pub air: Air,
}

/// The report of a run of the scenario over the clocks that it states, and over links that take the place of its trace: its
/// deliveries, its drops, and what the radio of each node costs. The links are sealed with the nodes.
pub fn run_report<M: Links>(alloc: Global, s: &Scenario, links: &M) -> Result<RunText, Memory>
    requires { IsSealed (traced (M.lines links.now) (M.nodes links.now)) s.now.nodes }
    ensures { IfOk result (λ r. IsOfRun run_report_of (over s.now (M.lines links.now)) r.air (string_bytes r.text)) }
{
    let run = run_over(alloc, s, links)?;
    let text = text_of(alloc, &ScenarioOver::new(s, links), &run)?;
    Ok(RunText { text, air: run.air })
}

/// The same, with the text of the run's log after the report.
pub fn log_report<M: Links>(alloc: Global, s: &Scenario, links: &M) -> Result<RunText, Memory>
    requires { IsSealed (traced (M.lines links.now) (M.nodes links.now)) s.now.nodes }
    ensures { IfOk result (λ r. IsOfRun log_report_of (over s.now (M.lines links.now)) r.air (string_bytes r.text)) }
{
    let RunText { mut text, air } = run_report(alloc, s, links)?;
    write_text(alloc, &mut text, &air)?;
    Ok(RunText { text, air })
}

// The report of a run of the scenario that left this.
fn text_of<M: Links>(
    alloc: Global,
    s: &ScenarioOver<'_, M>,
    run: &RunParts,
) -> Result<String, Memory>
    requires { IsLeft s.now run.now }
    ensures { IfOk result
        (λ text. string_bytes text ≡ run_report_of (bus_deliveries s.now) (bus_drops s.now) s.now (scenario_clock s.now) run.now.air) }
{
    let mut report = report_lines(alloc, &run.deliveries, &run.drops)?;
    write_energies_over(alloc, &mut report, s, &run.air, &run.charges)?;
    Ok(report)
}
