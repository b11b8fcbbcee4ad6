//! Parts of scenario texts, each of whole lines: the nodes, the network, and the script.

/// Nodes 1 and 2, with clocks that begin at 0.
pub const TWO_NODES: &str = "node 1 0\nnode 2 0\n";

/// Nodes 1 to 3, with clocks that begin at 0.
pub const THREE_NODES: &str = "node 1 0\nnode 2 0\nnode 3 0\n";

/// Node 1 hosts rank 0, within reach of node 2. A node transmits at most twice in a flood.
pub const ONE_HOST: &str = "sends 2\nhost 0 1\npair 1 2\n";

/// Node 1 hosts rank 0, and node 2 rank 1. They and node 3 are within reach of each other.
pub const TWO_HOSTS: &str = "sends 2\nhost 0 1\nhost 1 2\npair 1 2\npair 1 3\npair 2 3\n";

/// Nodes 1 and 2 boot in frame 0.
pub const TWO_ON: &str = "on 0 1\non 0 2\n";

/// Nodes 1 to 3 boot in frame 0.
pub const THREE_ON: &str = "on 0 1\non 0 2\non 0 3\n";

/// Node 2 requests a slot each 4 seconds, and has a packet.
pub const OF_NODE_2: &str = "stream 0 2 0 4\nput 0 2 0 aa\n";

/// Node 3 requests a slot each 4 seconds, and has a packet.
pub const OF_NODE_3: &str = "stream 0 3 0 4\nput 0 3 0 aa\n";

/// Of two hosts, node 1 goes off in frame 6. Nodes 2 and 3 come to the round of frame 9, scan for rank 0 from frame 10 to 21 and
/// for rank 1 from frame 22 on, and node 2 hosts from frame 27 on, each fourth frame. Node 3 has its second packet in the round of
/// frame 31.
pub const FAILOVER: &str =
    "on 0 1\non 0 2\non 0 3\nstream 0 3 0 4\nput 0 3 0 aa\noff 6 1\nput 20 3 0 bb\n";
