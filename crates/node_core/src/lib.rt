//! The core of a node: what it does and orders at each event, over any clock and any radio.
#![tactic(auto)]

mod frame_rows;
mod node;
mod packet_hearing;
mod sending;
mod stage;
mod step;
mod times;
mod window;
mod window_closing;
mod window_opening;

pub use node::{Node, Place};
