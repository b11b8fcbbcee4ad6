//! Tests of streams.

use lwb_base::Payload;
use node_streams::{Put, Streams};
use std::alloc::Global;

// Whether as many packets as a stream may have wait with their numbers.
fn fills(streams: &mut Streams, payload: &Payload) -> bool {
    for seq in 0..16_u16 {
        if streams.put(0, payload) != Put::Queued(seq) {
            return false;
        }
    }
    true
}

// The number of the packet that is taken.
fn taken(streams: &mut Streams) -> Option<u16> {
    Some(streams.take(0)?.seq)
}

fn drops_and_queues_again(streams: &mut Streams, payload: &Payload) -> bool {
    if streams.put(0, payload) != Put::Dropped {
        return false;
    }
    streams.declare(0, 4);
    fills(streams, payload)
        && streams.put(0, payload) == Put::Dropped
        && taken(streams) == Some(0)
        && streams.put(0, payload) == Put::Queued(16)
}

// Whether a stream of new ones does.
fn new_streams_do(alloc: Global) -> Option<bool> {
    let payload = Payload::new(&[0xaa])?;
    let mut streams = Streams::new(alloc).ok()?;
    Some(drops_and_queues_again(&mut streams, &payload))
}

#[test]
fn a_full_stream_drops_and_takes_and_queues_again(rt: HostRuntime) {
    assert!(rt; new_streams_do(rt.alloc()) == Some(true));
}
