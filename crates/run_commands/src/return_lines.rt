//! The `return` and `probe` lines of a report.

ghost use Rattle.std.specs.Prelude.{◌≡◌, ◌++◌, OnOk, flat_map, string_bytes};
ghost use Rattle.host_return.specs.Returned.{count_of_node, counts_in};
ghost use Rattle.run_commands.specs.ReturnReport.{node_probes, probe_line, return_line};

use host_return::{Return, Returned};
use scenario_text::NodeLine;
use std::alloc::AllocError;
use text_writers::{write_line, write_lines};

/// Writes a line for each return: `return FRAME NODE RANK`.
pub fn write_returns(text: &mut String, returns: &[Return]) -> Result<(), AllocError>
    ensures { OnOk result (string_bytes text.new ≡ string_bytes text.old ++ flat_map return_line returns.now) }
{
    write_lines(text, returns, write_return)
}

fn write_return(text: &mut String, r: &Return) -> Result<(), AllocError>
    ensures { OnOk result (string_bytes text.new ≡ string_bytes text.old ++ return_line r.now) }
{
    let node = u32::from(r.node.number());
    write_line(text, "return", &[r.frame, node, u32::from(r.rank.number())])
}

/// Writes a line for each of the nodes, which are those of the scenario, that probed in some frame: `probe NODE COUNT`.
pub fn write_probes(
    text: &mut String,
    nodes: &[NodeLine],
    returned: &Returned,
) -> Result<(), AllocError>
    requires nodes { nodes.now ≡ returned.now.scenario.nodes }
    requires counts { returned.now.counts ≡ counts_in returned.now.scenario returned.now.air }
    ensures { OnOk result (string_bytes text.new ≡ string_bytes text.old ++ flat_map node_probes returned.now.counts) }
{
    write_lines(text, nodes, |text, line| write_probe(text, returned, line))
}

// Nothing for a node that did not probe.
fn write_probe(text: &mut String, returned: &Returned, line: &NodeLine) -> Result<(), AllocError>
    ensures { OnOk result (string_bytes text.new ≡ string_bytes text.old ++ probe_line line.now.node (count_of_node returned.now.counts line.now.node)) }
{
    let count = returned.probes(line.node);
    if count == 0 {
        return Ok(());
    }
    let node = u32::from(line.node.number());
    write_line(text, "probe", &[node, count])
}
