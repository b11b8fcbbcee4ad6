//! What became of the packets of a run of the bus: the fate of each, how late they were delivered, and how many of each stream
//! had each fate or were sent in rounds of each host.
#![tactic(auto)]

mod bus_lists;
mod counting;
mod emptyings;
mod first_by_packet;
mod hosted_tally;
mod latency_tally;
mod put_fates;
mod receivers;
mod stream_tally;

pub use bus_lists::BusLists;
pub use hosted_tally::hosted_counts;
pub use latency_tally::{host_latency_counts, latency_counts};
pub use put_fates::fates;
pub use stream_tally::stream_counts;
