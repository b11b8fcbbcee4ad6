//! Which links pass in which step of which slot, by the lines of a recorded trace.
#![tactic(auto)]

mod captures;
mod in_order;
mod lines;
mod links;
mod masks;
mod node_set;
mod ranges;
mod sealed_trace;
mod sides;
mod starts;
mod trace;

pub use lines::{CaptureLine, CutLine, LinkLine, LoseLine};
pub use links::Links;
pub use node_set::NodeSet;
pub use trace::Trace;
