//! The log of a run: who sent, who received, and who was tuned, and the laws that logs keep.
#![tactic(auto)]

mod air;
mod charge;
mod course;
mod device;
mod device_events;
mod device_orders;
mod device_script;
mod device_steps;
mod energy;
mod entry;
mod event_radio;
pub mod flood_law;
mod hearings;
mod idle;
mod line_writers;
mod notice;
mod printing;
mod settings;
mod trail;
pub mod trail_laws;
mod trails;
mod window_sum;

pub use air::Air;
pub use charge::NodeCharge;
pub use device::Device;
pub use energy::Energy;
pub use entry::{Entry, HeardEntry, SentEntry, TunedEntry};
pub use event_radio::EventRadio;
pub use idle::Idle;
pub use notice::Notice;
pub use printing::{text, write_text};
pub use settings::Settings;
pub use trail::Trail;
pub use trails::{trail_of, trail_over};
