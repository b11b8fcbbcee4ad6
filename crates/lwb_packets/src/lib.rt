//! Packets and their bytes: each value has exactly one spelling.
#![tactic(auto)]

mod body;
mod data_packet;
mod kind;
mod laws;
mod request;

pub use body::{same_body, with_counter};
pub use data_packet::{DataPacket, decode_payload, encode_payload};
pub use kind::{Kind, kind_of};
pub use laws::two_bytes_are_their_number;
pub use request::{Request, decode_request, encode_request};
