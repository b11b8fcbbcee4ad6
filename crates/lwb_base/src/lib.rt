//! Types that every crate speaks of, the traits of the outside, and whole reads and writes over them.
#![tactic(auto)]

mod event;
mod limits;
mod local_clock;
mod memory_sink;
mod memory_source;
mod node;
mod order;
mod outside;
mod owner;
mod packet;
mod payload;
mod profile;
mod radio;
mod rank;
mod read;
mod recording_radio;
mod slots;
mod standard;
mod write;

pub use event::Event;
pub use limits::{
    DATA_SLOTS, DRIFT_BOUND, DRIFT_PERIOD, FLOOD_STEPS, GREATEST_GAP, GREATEST_ID, LAST_FRAME,
    LAST_RANK, LAST_STEP, MOST_BOOTS, MOST_FRAMES, MOST_NODES, MOST_OWNERS, MOST_RANKS,
    MOST_SCRIPT_LINES, PLACES_BY_ID, QUIET_FRAMES, SEARCH_FRAMES, limits_have_their_numbers,
};
pub use local_clock::LocalClock;
pub use memory_sink::MemorySink;
pub use memory_source::MemorySource;
pub use node::NodeId;
pub use order::Order;
pub use outside::{Failed, Memory, Sink, Source};
pub use owner::Owner;
pub use packet::Packet;
pub use payload::Payload;
pub use profile::Profile;
pub use radio::Radio;
pub use rank::Rank;
pub use read::{INPUT_LIMIT, ReadStop, read_all};
pub use recording_radio::RecordingRadio;
pub use slots::greatest_slot;
pub use standard::{ReaderSource, WriterSink};
pub use write::{WriteFault, write_all};
