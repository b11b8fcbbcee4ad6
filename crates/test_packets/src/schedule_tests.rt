//! Tests of schedules and their bytes.

use lwb_base::{Owner, Packet, Rank};
use schedule_codec::{Acks, Owners, Schedule, read, write};

// A closing and the next opening, which acknowledge one request; and an opening without acknowledgement.
const CLOSING: [u8; 12] = [1, 2, 0, 4, 1, 2, 1, 0, 4, 4, 0, 0x80];

const NEXT_OPENING: [u8; 12] = [1, 0, 0, 0, 1, 2, 1, 0, 4, 4, 0, 0x80];

const OPENING: [u8; 13] = [1, 0, 0, 0, 1, 0, 0, 0, 0, 3, 0, 0x43, 0x14];

// A closing that names two contention slots and acknowledges two requests.
const CONTENDED: [u8; 20] = [
    4, 3, 0, 4, 1, 0x12, 2, 1, 0, 5, 3, 1, 0, 5, 8, 0, 0x83, 0, 0x40, 0,
];

// The owner of this code, and then another one so often.
fn owners(first: u16, next: u16, times: u8) -> Option<Owners> {
    let first = Owner::from_code(first)?;
    let next = Owner::from_code(next)?;
    let mut owners = Owners::new();
    let mut fits = owners.add(first);
    for _ in 0..times {
        fits = owners.add(next) && fits;
    }
    if fits { Some(owners) } else { None }
}

// An opening of the host of rank 0, boot 1, without acknowledgement.
fn opening(owners: Owners) -> Option<Packet> {
    let schedule = Schedule {
        host: Rank::new(0)?,
        host_boot: 1,
        gap: 0,
        contend: 0,
        acks: Acks::new(),
        owners,
    };
    Some(write(&schedule, 0))
}

// Whether the owners have these codes.
fn have_codes(owners: &Owners, codes: &[u16]) -> bool {
    for (i, code) in codes.iter().enumerate() {
        match owners.at(i) {
            Some(owner) if owner.code() == *code => {}
            _ => return false,
        }
    }
    usize::from(owners.count()) == codes.len()
}

// Whether the acknowledgements are of these nodes.
fn are_of(acks: &Acks, nodes: &[u8]) -> bool {
    for (i, node) in nodes.iter().enumerate() {
        match acks.at(i) {
            Some(ack) if ack.node.number() == *node => {}
            _ => return false,
        }
    }
    usize::from(acks.count()) == nodes.len()
}

// Whether the bytes are a schedule of the host of rank 0, boot 1, with this gap and these contention slots, which acknowledges
// requests of these nodes and has owners of these codes; and whether it is written so.
fn spells(bytes: &[u8], (gap, contend): (u8, u8), nodes: &[u8], codes: &[u16]) -> Option<bool> {
    let vector = Packet::new(bytes)?;
    let schedule = read(&vector)?;
    let is_of_host = schedule.host.number() == 0 && schedule.host_boot == 1;
    let is_said = schedule.gap == gap
        && schedule.contend == contend
        && are_of(&schedule.acks, nodes)
        && have_codes(&schedule.owners, codes);
    let written = write(&schedule, vector.slot());
    Some(is_of_host && is_said && written.bytes() == bytes)
}

#[test]
fn vectors_are_read_and_written(rt: HostRuntime) {
    let four = [8, 8, 8, 8];
    assert!(rt; spells(&CLOSING, (4, 0), &[2], &four) == Some(true));
    assert!(rt; spells(&NEXT_OPENING, (0, 0), &[2], &four) == Some(true));
    assert!(rt; spells(&OPENING, (0, 0), &[], &[4, 4, 9]) == Some(true));
    let eight = [8, 8, 8, 8, 12, 12, 12, 12];
    assert!(rt; spells(&CONTENDED, (4, 2), &[2, 3], &eight) == Some(true));
}

// Whether the bytes of a packet are no schedule.
fn is_refused(bytes: &[u8]) -> Option<bool> {
    let packet = Packet::new(bytes)?;
    Some(read(&packet).is_none())
}

#[test]
fn least_width_only(rt: HostRuntime) {
    let wider = [1, 0, 0, 0, 1, 0, 0, 0, 0, 3, 0, 0x44, 0x05];
    assert!(rt; is_refused(&wider) == Some(true));
}

// Whether the opening without owners is of these bytes.
fn is_shortest(bytes: &[u8]) -> Option<bool> {
    Some(opening(Owners::new())?.bytes() == bytes)
}

// The length of the longest opening, and its bytes of the width and the first digits.
fn longest() -> Option<(u8, u8, u8)> {
    let longest = opening(owners(4, 803, 39)?)?;
    let bytes = longest.bytes();
    Some((longest.length(), *bytes.get(10)?, *bytes.get(11)?))
}

#[test]
fn shortest_and_longest(rt: HostRuntime) {
    assert!(rt; is_shortest(&[1, 0, 0, 0, 1, 0, 0, 0, 0, 0]) == Some(true));
    assert!(rt; longest() == Some((61, 0, 0x4a)));
}

#[test]
fn acknowledgements_stand_in_order(rt: HostRuntime) {
    let exchanged = [
        4, 3, 0, 4, 1, 0x12, 3, 1, 0, 5, 2, 1, 0, 5, 8, 0, 0x83, 0, 0x40, 0,
    ];
    assert!(rt; is_refused(&exchanged) == Some(true));
}
