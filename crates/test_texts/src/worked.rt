//! Whole texts of worked examples.

use crate::parts::{OF_NODE_2, ONE_HOST, TWO_NODES, TWO_ON};

/// One packet of node 2, which is delivered in frame 9.
pub const ONE_PACKET: &[&str] = &[TWO_NODES, ONE_HOST, "frames 12\n", TWO_ON, OF_NODE_2];

/// As many frames as there may be, over clocks that drift apart as fast as they may, and a packet near the end.
pub const LONGEST_RUN: &[&str] = &[
    "node 1 256000\nnode 2 0\n",
    ONE_HOST,
    "frames 4096\nrate 1 0 20\nrate 2 0 -20\n",
    TWO_ON,
    "stream 4080 2 0 4\nput 4080 2 0 aa\n",
];

/// A flood from node 1 along a line of three nodes.
pub const THREE_IN_A_LINE: &str =
    "sends 2\nnode 1 0\nnode 2 0\nnode 3 0\npair 1 2\npair 2 3\nstart 1\n";
