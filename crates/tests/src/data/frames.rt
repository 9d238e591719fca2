//! Bytes that are too long for a line of `conformance`' input, which has the frames that were worked out by hand; and frames that carry a
//! snapshot, where a part is missing or a byte is another.

use std::alloc::Global;
use std::ops::Range;
use std::test::Fail;
use wire::{
    Envelope, LONGEST_FRAME, Message, NodeId, Nodes, Part, PartNumber, Position, WireFault, decode,
    encode,
};

// A snapshot text at position 1: no feature, and one client, whose request 1 was replied 21.
const TEXT: [u8; 14] = [0, 0, 0, 1, 7, 0, 0, 0, 0, 0, 0, 0, 1, 21];

// Its only part, from node 0 to node 2: the position, the length of the text, where the part begins, how many bytes it has, and these.
const CARRIED: [u8; 34] = [
    0x4D, 0x50, 2, 9, 0, 2, 0, 0, 0, 1, 0, 0, 0, 14, 0, 0, 0, 0, 0, 14, 0, 0, 0, 1, 7, 0, 0, 0, 0,
    0, 0, 0, 1, 21,
];

// Node 2 asks node 0 for it; node 0 tells node 2 that it has no votes below position 1.
const ASKED: [u8; 14] = [0x4D, 0x50, 2, 8, 2, 0, 0, 0, 0, 1, 0, 0, 0, 0];

const BEHIND: [u8; 10] = [0x4D, 0x50, 2, 10, 0, 2, 0, 0, 0, 1];

#[test]
fn too_long(rt: HostRuntime) -> Result<(), Fail> {
    assert!(rt; fault_of_zeros(rt.alloc(), LONGEST_FRAME + 1)? == 7);
    assert!(rt; fault_of_zeros(rt.alloc(), LONGEST_FRAME)? == 2);
    Ok(())
}

/// The number of the fault that three nodes find in so many zeros, or 0 for a frame.
fn fault_of_zeros(alloc: Global, len: usize) -> Result<u8, Fail> {
    let nodes = Nodes::new(3).ok_or("three nodes")?;
    let mut bytes = Vec::new(alloc);
    bytes.resize(len, 0)?;
    match decode(alloc, bytes.as_slice(), nodes) {
        Ok(_) => Ok(0),
        Err(fault) => Ok(fault.code()),
    }
}

#[test]
fn a_part_is_spelled(rt: HostRuntime) -> Result<(), Fail> {
    let alloc = rt.alloc();
    let position = Position::new(1).ok_or("position")?;
    let part = Part::of(alloc, position, TEXT.as_slice(), PartNumber::first())?;
    let envelope = Envelope {
        from: NodeId::new(0).ok_or("node 0")?,
        to: NodeId::new(2).ok_or("node 2")?,
        message: Message::SnapPart(part.ok_or("a part")?),
    };
    let bytes = encode(alloc, &envelope)?;
    assert!(rt; bytes.as_slice() == CARRIED.as_slice());
    Ok(())
}

#[test]
fn no_beginning_carries_a_snapshot(rt: HostRuntime) -> Result<(), Fail> {
    for frame in [CARRIED.as_slice(), ASKED.as_slice(), BEHIND.as_slice()] {
        for len in 0..frame.len() {
            assert!(rt; fault_of(rt.alloc(), &frame[..len])? == 1, "{len}");
        }
        let mut longer = frame.to_vec(rt.alloc())?;
        assert!(rt; fault_of(rt.alloc(), longer.as_slice())? == 0);
        longer.push(0)?;
        assert!(rt; fault_of(rt.alloc(), longer.as_slice())? == 6);
    }
    Ok(())
}

// Each byte is given each value. In parts, as the interpreter stops a test after so many steps.
#[test]
fn other_bytes_of_questions_and_floors(rt: HostRuntime) -> Result<(), Fail> {
    try_bytes(rt.alloc(), ASKED.as_slice(), 0..14)?;
    try_bytes(rt.alloc(), BEHIND.as_slice(), 0..10)
}

#[test]
fn other_heads_of_parts(rt: HostRuntime) -> Result<(), Fail> {
    try_bytes(rt.alloc(), CARRIED.as_slice(), 0..20)
}

#[test]
fn other_bytes_of_parts(rt: HostRuntime) -> Result<(), Fail> {
    try_bytes(rt.alloc(), CARRIED.as_slice(), 20..27)
}

#[test]
fn further_bytes_of_parts(rt: HostRuntime) -> Result<(), Fail> {
    try_bytes(rt.alloc(), CARRIED.as_slice(), 27..34)
}

/// Gives the bytes at these places each value.
fn try_bytes(alloc: Global, frame: &[u8], places: Range<usize>) -> Result<(), Fail> {
    for place in places {
        for value in 0..=u8::MAX {
            let bytes = changed(alloc, frame, place, value)?;
            if (fault_of(alloc, bytes.as_slice())? == 0) != stays_right(frame, place, value) {
                return Err(Fail::from((place, value)));
            }
        }
    }
    Ok(())
}

/// The frame with this value at a place.
fn changed(alloc: Global, frame: &[u8], place: usize, value: u8) -> Result<Vec<u8>, Fail> {
    let mut bytes = frame.to_vec(alloc)?;
    let byte = bytes.get_mut(place).ok_or("a place")?;
    *byte = value;
    Ok(bytes)
}

/// Whether the frame stays right with this value at the place: any of three nodes may send it, and any may get it; the position is 1 to
/// 65,536; a part is asked for that begins below 6,311,428, at a multiple of 32,768; and the bytes of a text are any.
fn stays_right(frame: &[u8], place: usize, value: u8) -> bool {
    match (place, frame.len()) {
        (4 | 5, _) => value < 3,
        (8, _) => true,
        (9, _) => value > 0,
        (11, 14) => value <= 96,
        (12, 14) => value == 0 || value == 128,
        (20..=33, _) => true,
        _ => frame.get(place) == Some(&value),
    }
}

/// The number of the fault that three nodes find in these bytes, or 0 for a frame, which is spelled so again.
fn fault_of(alloc: Global, bytes: &[u8]) -> Result<u8, Fail> {
    let nodes = Nodes::new(3).ok_or("three nodes")?;
    match decode(alloc, bytes, nodes) {
        Ok(envelope) => {
            if encode(alloc, &envelope)?.as_slice() != bytes {
                return Err(Fail::from("it is spelled otherwise"));
            }
            Ok(0)
        }
        Err(WireFault::Memory) => Err(Fail::from("out of memory")),
        Err(fault) => Ok(fault.code()),
    }
}
