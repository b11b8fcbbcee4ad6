//! The `cost` lines of a bus report.

ghost use Rattle.std.specs.Prelude.{◌≡◌, ◌++◌, OnOk, true, string_bytes};
ghost use Rattle.bus_model.specs.BusRuns.{IsBusRun};
ghost use Rattle.scenario_text.specs.FloodParts.{knows};
ghost use Rattle.scenario_text.specs.ScenarioParts.{ScenarioParts};
ghost use Rattle.bus_report.specs.BusReport.{node_cost, cost_lines};

use bus_model::Bus;
use scenario_text::NodeLine;
use std::alloc::AllocError;
use text_writers::{write_line, write_lines};

/// Writes a line for each of these nodes, which are those of the scenario that was run: `cost NODE SENT WINDOWS SCANNED`, by
/// its run on the bus.
pub fn write_costs(text: &mut String, nodes: &[NodeLine], bus: &Bus) -> Result<(), AllocError>
    ensures { (s : ScenarioParts) → IsBusRun s bus.now → s.nodes ≡ nodes.now
        → OnOk result (string_bytes text.new ≡ string_bytes text.old ++ cost_lines s) }
{
    write_lines(text, nodes, |text, line| write_cost(text, bus, line))
}

fn write_cost(text: &mut String, bus: &Bus, line: &NodeLine) -> Result<(), AllocError>
    ensures { (s : ScenarioParts) → IsBusRun s bus.now → knows s.nodes line.now.node ≡ true
        → OnOk result (string_bytes text.new ≡ string_bytes text.old ++ node_cost s line.now) }
{
    // Each node of the scenario has a cost.
    let Some(cost) = bus.cost(line.node) else {
        return Ok(());
    };
    let node = u64::from(line.node.number());
    let scanned = u64::from(cost.scanned);
    write_line(text, "cost", &[node, cost.sent, cost.windows, scanned])
}
