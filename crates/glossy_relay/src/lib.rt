//! The relaying of one flood at one node.
#![tactic(auto)]

mod flood;
mod laws;

pub use flood::{After, Flood, Reply};
pub use laws::{
    accepts_the_first_that_fits, orders_at_most_its_limit, relays_raise_the_counter,
    turns_off_after_its_last_sending,
};
