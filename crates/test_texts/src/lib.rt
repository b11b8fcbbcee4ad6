//! Texts that the tests of several crates use: parts of scenarios, scenarios in such parts, and a flood.
#![tactic(auto)]

mod parts;
mod reading;
mod worked;

pub use parts::{
    FAILOVER, OF_NODE_2, OF_NODE_3, ONE_HOST, THREE_NODES, THREE_ON, TWO_HOSTS, TWO_NODES, TWO_ON,
};
pub use reading::{flood_text, scenario};
pub use worked::{LONGEST_RUN, ONE_PACKET, THREE_IN_A_LINE};
