//! The orders of up to 64 places, and the next of them: a sorted queue for each class.
#![tactic(auto)]

mod calendar;
mod class;
mod due;
pub mod laws;
mod orders;
mod placed_order;
mod queue;
mod queues;

pub use calendar::Calendar;
pub use class::Class;
pub use orders::Orders;
