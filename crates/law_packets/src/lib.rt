//! What becomes of every packet on the bus: laws on the bus as it is defined. They say that counts of packets add up, and that
//! the packets that were sent, with their receivers, are the deliveries. What is said to wait is what is in
//! the queues when the run is over.
//!
//! Each law is the contract of a function that does nothing.
#![tactic(auto)]

mod packet_laws;

pub use packet_laws::{
    counts_add_up, deliveries_are_of_sent_packets, each_put_has_one_fate, hosted_counts_add_up,
    packets_are_sent_once, sent_packets_were_put, waiting_packets_are_queued,
};
