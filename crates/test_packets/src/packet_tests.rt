//! Tests of packets and their bytes.

use lwb_base::{NodeId, Packet, Payload};
use lwb_packets::{
    DataPacket, Request, decode_payload, decode_request, encode_payload, encode_request,
};

const DATA: [u8; 9] = [2, 1, 0, 2, 1, 0, 0, 0, 0xaa];

const REQUEST: [u8; 7] = [3, 1, 0, 2, 1, 0, 4];

// Whether the bytes of data are read so.
fn is_data_read() -> Option<bool> {
    let data = decode_payload(&Packet::new(&DATA)?)?;
    let is_head = (data.slot, data.counter, data.node.number()) == (1, 0, 2);
    let is_numbered = (data.boot, data.stream, data.seq) == (1, 0, 0);
    Some(is_head && is_numbered && data.payload.bytes() == [0xaa].as_slice())
}

// Whether data is written so.
fn is_data_written() -> Option<bool> {
    let written = encode_payload(&DataPacket {
        slot: 1,
        counter: 0,
        node: NodeId::new(2)?,
        boot: 1,
        stream: 0,
        seq: 0,
        payload: Payload::new(&[0xaa])?,
    });
    Some(written.bytes() == DATA.as_slice())
}

// Whether the request is written so, and read.
fn is_request_written_and_read() -> Option<bool> {
    let request = Request {
        slot: 1,
        counter: 0,
        node: NodeId::new(2)?,
        boot: 1,
        stream: 0,
        interval: 4,
    };
    let is_written = encode_request(&request).bytes() == REQUEST.as_slice();
    Some(is_written && request_of(&REQUEST) == Some(request))
}

// What request the bytes are.
fn request_of(bytes: &[u8]) -> Option<Request> {
    decode_request(&Packet::new(bytes)?)
}

#[test]
fn vectors_are_written_and_read(rt: HostRuntime) {
    assert!(rt; is_data_read() == Some(true));
    assert!(rt; is_data_written() == Some(true));
    assert!(rt; is_request_written_and_read() == Some(true));
}

// The number of the data packet that the bytes are, if they are one; and that they are the bytes of some packet.
fn seq_of(bytes: &[u8]) -> Option<Option<u16>> {
    let packet = Packet::new(bytes)?;
    Some(decode_payload(&packet).map(|data| data.seq))
}

#[test]
fn near_spellings_are_refused(rt: HostRuntime) {
    let longer = [3, 1, 0, 2, 1, 0, 4, 0];
    assert!(rt; Packet::new(&longer).is_some() && request_of(&longer).is_none());
    assert!(rt; seq_of(&[2, 1, 0, 2, 1, 0, 0xff, 0xfe]) == Some(Some(65_534)));
    assert!(rt; seq_of(&[2, 1, 0, 2, 1, 0, 0xff, 0xff]) == Some(None));
    assert!(rt; seq_of(&DATA[..7]) == Some(None));
}
