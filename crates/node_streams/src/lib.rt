//! The streams of a node: what it requests, what the host has granted, and the packets that wait.
#![tactic(auto)]

mod stream;
mod streams;

pub use stream::{Put, Waiting};
pub use streams::Streams;
