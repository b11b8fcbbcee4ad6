//! A node as a member of its rounds, without times and without a radio: what it says in each slot, what it does with what
//! it accepted, and what the end of a frame changes.
#![tactic(auto)]

mod accepting;
mod kept;
pub mod laws;
mod member;
mod message;
mod planning;
mod round_end;
mod speaking;

pub use member::Member;
pub use message::{Heard, message_in};
pub use round_end::last_slot;
