//! Seals a trace with the nodes of a text.

ghost use Rattle.std.specs.Prelude.{◌≡◌, ◌≤◌, OnOk, length};
ghost use Rattle.lwb_base.specs.declared.limits.TheConstants.{MOST_NODES};
ghost use Rattle.scenario_text.specs.FloodDrafts.{Rises};
ghost use Rattle.scenario_text.specs.FloodParts.{IsSealed};

use crate::NodeLine;
use crate::known_nodes::ids;
use link_trace::Trace;
use lwb_base::Memory;
use std::alloc::Global;

/// Seals the trace with these nodes, 2 to 64 by ascending id. The lines stay.
pub fn seal(alloc: Global, trace: &mut Trace, nodes: &[NodeLine]) -> Result<(), Memory>
    requires rises { Rises nodes.now }
    requires two { 2 ≤ length nodes.now }
    requires few { length nodes.now ≤ MOST_NODES }
    ensures lines { trace.new.lines ≡ trace.old.lines }
    ensures sealed { OnOk result (IsSealed trace.new nodes.now) }
{
    let ids = ids(alloc, nodes)?;
    trace.seal(&ids)
}
