//! The bus run by code: floods by sets of nodes over sealed links, nodes that are off or on, and how a slot opens and
//! closes at all of them.
#![tactic(auto)]

mod accepting;
mod charging;
mod closing;
mod cost;
mod hearing;
mod leading;
mod network;
mod node;
mod offers;
mod places;
mod reaching;
mod round_slot;
mod sent;
mod sent_steps;
mod slot_flood;
mod slot_windows;
mod station;
mod stepping;
mod window;
mod window_closing;

pub use accepting::accepts;
pub use charging::charge_all;
pub use closing::close_all;
pub use cost::{Cost, Steps};
pub use hearing::hears;
pub use leading::parts_of_round;
pub use network::Network;
pub use node::BusNode;
pub use places::place_of;
pub use round_slot::{RoundSlot, Setting};
pub use slot_flood::{flood_in, open_slot};
pub use slot_windows::open_all;
pub use station::{Flood, Station, Stations};
pub use stepping::{FloodEnd, first, flooded, with_lone};
pub use window::Window;
