//! Packets: digests of RFC 4231, a packet made elsewhere, faults by cause, and a stream that is cut anywhere.

use peers::{Dropped, Drops, HEAD, Key, LONGEST_PACKET, Run, Stream, StreamFault};
use std::alloc::Global;
use std::test::Fail;

const NAME: [u8; 16] = *b"run of 29 Nov 26";

const KEY: [u8; 32] = [b'k'; 32];

/// The packet of `frame` in that run, behind its length, as Python's `hmac` makes it.
const PACKET: &str =
    "0000003572756e206f66203239204e6f762032363152c103efb8f23db7d15dc899652d339614374b42631a32fd944843fa7fda2d6672616d65";

/// A key, a text and its HMAC-SHA-256: test cases 1 to 4, 6 and 7 of RFC 4231.
const VECTORS: [(&str, &str, &str); 6] = [
    (
        "0b0b0b0b0b0b0b0b0b0b0b0b0b0b0b0b0b0b0b0b",
        "4869205468657265",
        "b0344c61d8db38535ca8afceaf0bf12b881dc200c9833da726e9376c2e32cff7",
    ),
    (
        "4a656665",
        "7768617420646f2079612077616e7420666f72206e6f7468696e673f",
        "5bdcc146bf60754e6a042426089575c75a003f089d2739839dec58b964ec3843",
    ),
    (
        "aaaaaaaaaaaaaaaaaaaaaaaaaaaaaaaaaaaaaaaa",
        "dddddddddddddddddddddddddddddddddddddddddddddddddddddddddddddddddddddddddddddddddddddddddddddddddddd",
        "773ea91e36800e46854db8ebd09181a72959098b3ef8c122d9635514ced565fe",
    ),
    (
        "0102030405060708090a0b0c0d0e0f10111213141516171819",
        "cdcdcdcdcdcdcdcdcdcdcdcdcdcdcdcdcdcdcdcdcdcdcdcdcdcdcdcdcdcdcdcdcdcdcdcdcdcdcdcdcdcdcdcdcdcdcdcdcdcd",
        "82558a389a443c0ea4cc819899f2083a85f0faa3e578f8077a2e3ff46729665b",
    ),
    (
        "aaaaaaaaaaaaaaaaaaaaaaaaaaaaaaaaaaaaaaaaaaaaaaaaaaaaaaaaaaaaaaaaaaaaaaaaaaaaaaaaaaaaaaaaaaaaaaaaaaaaaaaaaaaaaaaaaaaaaaaaaaaaaaaaaaaaaaaaaaaaaaaaaaaaaaaaaaaaaaaaaaaaaaaaaaaaaaaaaaaaaaaaaaaaaaaaaaaaaaaaaaaaaaaaaaaaaaaaaaaaaaaaaaaaaaaaaaaaaaaaaaaaaaaaaaaaaaaaaaaaaa",
        "54657374205573696e67204c6172676572205468616e20426c6f636b2d53697a65204b6579202d2048617368204b6579204669727374",
        "60e431591ee0b67f0d8a26aacbf5b77f8e0bc6213728c5140546040f0ee37f54",
    ),
    (
        "aaaaaaaaaaaaaaaaaaaaaaaaaaaaaaaaaaaaaaaaaaaaaaaaaaaaaaaaaaaaaaaaaaaaaaaaaaaaaaaaaaaaaaaaaaaaaaaaaaaaaaaaaaaaaaaaaaaaaaaaaaaaaaaaaaaaaaaaaaaaaaaaaaaaaaaaaaaaaaaaaaaaaaaaaaaaaaaaaaaaaaaaaaaaaaaaaaaaaaaaaaaaaaaaaaaaaaaaaaaaaaaaaaaaaaaaaaaaaaaaaaaaaaaaaaaaaaaaaaaaaa",
        "5468697320697320612074657374207573696e672061206c6172676572207468616e20626c6f636b2d73697a65206b657920616e642061206c6172676572207468616e20626c6f636b2d73697a6520646174612e20546865206b6579206e6565647320746f20626520686173686564206265666f7265206265696e6720757365642062792074686520484d414320616c676f726974686d2e",
        "9b09ffa71b942fcb27635fbcd5b0e944bfdc63644f0713938a7f51535c3a35e2",
    ),
];

#[test]
fn digests(rt: HostRuntime) -> Result<(), Fail> {
    for (key, text, digest) in VECTORS {
        let key = Key::new(hex::decode(rt.alloc(), key)?.as_slice());
        let text = hex::decode(rt.alloc(), text)?;
        let digest = hex::decode(rt.alloc(), digest)?;
        let (first, second) = text.as_slice().split_at(text.len() / 2);
        assert_eq!(rt;
            key.authenticate(first, second).as_slice(),
            digest.as_slice()
        );
    }
    Ok(())
}

#[test]
fn sealed(rt: HostRuntime) -> Result<(), Fail> {
    let packet = Run::new(NAME, &KEY).seal(rt.alloc(), b"frame")?;
    assert_eq!(rt;
        packet.as_slice(),
        hex::decode(rt.alloc(), PACKET)?.as_slice()
    );
    Ok(())
}

#[test]
fn opened(rt: HostRuntime) -> Result<(), Fail> {
    let run = Run::new(NAME, &KEY);
    let sealed = run.seal(rt.alloc(), b"frame")?;
    let packet = bare(sealed.as_slice());
    assert!(rt; run.open(packet) == Ok(b"frame".as_slice()));
    let mut drops = Drops::none();
    for run in [
        Run::new(*b"run of 28 Nov 26", &KEY),
        Run::new(NAME, b"guess"),
    ] {
        if let Err(dropped) = run.open(packet) {
            drops.count(dropped);
        }
    }
    if let Err(dropped) = run.open(packet.get(..HEAD - 1).unwrap_or(packet)) {
        drops.count(dropped);
    }
    assert!(rt;
        drops
            == Drops {
                short: 1,
                another_run: 1,
                digest: 1
            }
    );
    Ok(())
}

/// Each byte of a packet counts.
#[test]
fn changed(rt: HostRuntime) -> Result<(), Fail> {
    let run = Run::new(NAME, &KEY);
    let mut packet = run.seal(rt.alloc(), b"frame")?;
    for place in 4..packet.len() {
        change(packet.as_mut_slice(), place);
        let dropped = if place < 20 {
            Dropped::AnotherRun
        } else {
            Dropped::Digest
        };
        assert!(rt; run.open(bare(packet.as_slice())) == Err(dropped));
        change(packet.as_mut_slice(), place);
    }
    Ok(())
}

/// The packet without its length.
fn bare(packet: &[u8]) -> &[u8] {
    packet.get(4..).unwrap_or(packet)
}

fn change(bytes: &mut [u8], place: usize) {
    if let Some(byte) = bytes.get_mut(place) {
        *byte ^= 1;
    }
}

/// Two packets, in reads of each size.
#[test]
fn cut(rt: HostRuntime) -> Result<(), Fail> {
    let run = Run::new(NAME, &KEY);
    let mut bytes = run.seal(rt.alloc(), b"first")?;
    let second = run.seal(rt.alloc(), b"")?;
    bytes.extend_from_slice(second.as_slice())?;
    for size in 1..=bytes.len() {
        let mut stream = Stream::new(rt.alloc());
        let mut frames = Vec::new(rt.alloc());
        for read in bytes.as_slice().chunks(size) {
            stream.feed(read)?;
            // A read brings at most both.
            for _ in 0..2 {
                if let Some(packet) = stream.next()? {
                    frames.push(packet)?;
                }
            }
        }
        assert!(rt; frames.len() == 2);
        let first = frames.get(0).ok_or("first")?;
        assert!(rt; run.open(first.as_slice()) == Ok(b"first".as_slice()));
        let second = frames.get(1).ok_or("second")?;
        assert!(rt; run.open(second.as_slice()) == Ok(b"".as_slice()));
    }
    Ok(())
}

/// The limit of `wire`, on which `peers` doesn't stand.
#[test]
fn limit(rt: HostRuntime) {
    assert_eq!(rt; peers::LONGEST_FRAME, wire::LONGEST_FRAME);
}

#[test]
fn longest(rt: HostRuntime) -> Result<(), Fail> {
    let mut stream = Stream::new(rt.alloc());
    stream.feed(&(LONGEST_PACKET as u32).to_be_bytes())?;
    assert!(rt; stream.next()?.is_none());
    let mut stream = Stream::new(rt.alloc());
    stream.feed(&(LONGEST_PACKET as u32 + 1).to_be_bytes())?;
    assert!(rt; stream.next().err() == Some(StreamFault::TooLong));
    Ok(())
}
