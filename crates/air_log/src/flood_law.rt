//! The law of the log of one flood, at a worked flood.

ghost use Rattle.air_log.specs.FloodLaw.{FloodLaw};
ghost use Rattle.air_log.specs.TwoNodeLog.{two_node_flood, true_time, two_node_log};

/// Worked example: the log of a flood over two nodes keeps the law.
pub fn two_nodes_keep_the_flood_law()
    ensures { FloodLaw two_node_flood true_time two_node_log }
{}
