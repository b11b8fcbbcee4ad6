//! What became of the packets by one seed.

ghost use Rattle.std.specs.Prelude.{◌≡◌, ◌<◌, ◌^◌, ◌++◌, ◌∷◌, [], IfOk, OnOk, codes, length, map, string_bytes};
ghost use Rattle.text_writers.specs.Lines.{line_text, numbered};
ghost use Rattle.link_trace.specs.Passes.{Lines};
ghost use Rattle.scenario_text.specs.FloodParts.{node_id};
ghost use Rattle.bus_model.specs.BusRuns.{IsBusRun};
ghost use Rattle.scenario_text.specs.OverLines.{over};
ghost use Rattle.fate_report.specs.SampleLines.{sample_text, streams_text, times_text};
ghost use Rattle.plan_commands.specs.SeedTexts.{seed_text as seed_text_of};

use crate::drawn_run::drawn_run;
use crate::run_fates::run_fates;
use bus_model::Bus;
use bus_report::write_costs;
use drawn_links::Ratios;
use fate_report::{write_counts, write_host_latencies, write_hosted, write_latencies};
use lwb_base::Memory;
use packet_fates::{host_latency_counts, hosted_counts, latency_counts, stream_counts};
use scenario_text::Scenario;
use std::alloc::Global;
use text_writers::write_line;

/// The line of the seed, what became of the packets of the scenario with the losses that it draws from these ratios, and what each
/// node costs.
pub fn seed_text(
    alloc: Global,
    scenario: &Scenario,
    ratios: &Ratios,
    seed: u64,
) -> Result<String, Memory>
    requires { ratios.now.nodes ≡ map node_id scenario.now.nodes }
    ensures { IfOk result (λ text. string_bytes text ≡ seed_text_of scenario.now ratios.now.lines seed) }
{
    let bus = drawn_run(alloc, scenario, ratios, seed)?;
    run_text(alloc, scenario, &bus, seed)
}

// The same by the run of the scenario with those losses.
fn run_text(alloc: Global, scenario: &Scenario, bus: &Bus, seed: u64) -> Result<String, Memory>
    requires few { length bus.now.deliveries < 2 ^ 32 }
    requires run { (t : Lines) × IsBusRun (over scenario.now t) bus.now }
    ensures { (t : Lines) → IsBusRun (over scenario.now t) bus.now
        → IfOk result (λ text. string_bytes text ≡ line_text (numbered (codes "seed") (seed ∷ [])) ++ sample_text (over scenario.now t)) }
{
    let mut text = String::new(alloc);
    write_line(&mut text, "seed", &[seed])?;
    write_streams(alloc, &mut text, scenario, bus)?;
    write_times(alloc, &mut text, scenario, bus)?;
    write_costs(&mut text, scenario.nodes(), bus)?;
    Ok(text)
}

// What became of the packets of each stream, and in rounds of which hosts they were sent.
fn write_streams(
    alloc: Global,
    text: &mut String,
    scenario: &Scenario,
    bus: &Bus,
) -> Result<(), Memory>
    requires few { length bus.now.deliveries < 2 ^ 32 }
    requires run { (t : Lines) × IsBusRun (over scenario.now t) bus.now }
    ensures { (t : Lines) → IsBusRun (over scenario.now t) bus.now
        → OnOk result (string_bytes text.new ≡ string_bytes text.old ++ streams_text (over scenario.now t)) }
{
    let became = run_fates(alloc, scenario, bus)?;
    let counts = stream_counts(alloc, scenario.nodes(), &became)?;
    let hosted = hosted_counts(alloc, scenario.nodes(), scenario.hosts(), &became, &counts)?;
    write_counts(text, &counts)?;
    write_hosted(text, &hosted)?;
    Ok(())
}

// How long the packets took, to all that delivered them and to the hosts.
fn write_times(
    alloc: Global,
    text: &mut String,
    scenario: &Scenario,
    bus: &Bus,
) -> Result<(), Memory>
    requires few { length bus.now.deliveries < 2 ^ 32 }
    ensures { (t : Lines) → IsBusRun (over scenario.now t) bus.now
        → OnOk result (string_bytes text.new ≡ string_bytes text.old ++ times_text (over scenario.now t)) }
{
    let latencies = latency_counts(alloc, bus.puts(), bus.deliveries())?;
    write_latencies(text, &latencies)?;
    let at_hosts = host_latency_counts(alloc, scenario.hosts(), bus.puts(), bus.deliveries())?;
    write_host_latencies(text, &at_hosts)?;
    Ok(())
}
