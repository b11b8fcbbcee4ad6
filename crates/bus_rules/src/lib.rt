//! What the bus and its nodes have in common: rules and results, over numbers and lists.
#![tactic(auto)]

mod act;
mod charges;
mod delivery;
mod flood_result;
mod part;
mod rounds;
mod slots_owed;
mod tune;

pub use act::{Act, Switch};
pub use charges::until_last_sending;
pub use delivery::{Delivery, DropLine};
pub use flood_result::FloodResult;
pub use part::Part;
pub use rounds::{contention_slots, last_slot};
pub use slots_owed::owed;
pub use tune::{Tune, next_tune};
