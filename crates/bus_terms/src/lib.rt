//! The bus as it would be without clocks and counters: floods as sets of senders and hearers by step, rounds slot by slot,
//! and whole runs frame by frame.
#![tactic(auto)]

mod bus_laws;
mod flood_laws;
mod packets;
mod round_laws;

pub use bus_laws::each_stream_is_delivered_in_order;
pub use flood_laws::{
    accepts_by_distance, accepts_by_the_least_relay_path, accepts_the_first_hearing,
};
pub use packets::{
    Fate, HostedCount, Latency, LatencyCount, PacketId, PutFate, PutLine, SentPacket, StreamCounts,
};
pub use round_laws::{data_is_received_by_relay_paths, ranks_go_in_any_order};
