//! The longest snapshot text, in as many parts as a text can have: a node fetches it, and answers from its last byte.
//!
//! It is written by bytes, as no schedule leads to it: 256 features whose ids have 64 bytes at 1,024 instants each, and 256 clients.

use super::letters::{part_number, position};
use super::test_nodes::{Member, TestNodes};
use sessions::LONGEST_SNAPSHOT;
use std::alloc::{AllocError, Global};
use std::process::Abort;
use std::test::Fail;
use store::Query;
use wire::{Id, Instant, MOST_PARTS, Message, Part};

const STEP: u8 = 2;

const UNKNOWN: u8 = 21;

#[test]
fn the_longest_text_is_fetched(rt: HostRuntime) -> Result<(), Fail> {
    let alloc = rt.alloc();
    let text = longest_text(alloc)?;
    assert!(rt; text.len() == LONGEST_SNAPSHOT);
    let mut nodes_under_test = TestNodes::new(alloc, 3)?;
    nodes_under_test.take(alloc, "hear 0 1, behind 65535")?;
    for at in 1..MOST_PARTS {
        let said = part_comes(alloc, &mut nodes_under_test, text.as_slice(), at - 1)?;
        assert_eq!(rt; said, format!(in alloc; "send 0 snapask 65535 {at} to 1")?);
    }
    let said = part_comes(
        alloc,
        &mut nodes_under_test,
        text.as_slice(),
        MOST_PARTS - 1,
    )?;
    assert_eq!(rt; said.as_str(), "restore 0 65535; send 0 ask 65535 to 1");
    is_restored(&rt, alloc, nodes_under_test.member(0)?)
}

/// Node 1 sends node 0 a part of the text: what is told.
fn part_comes(
    alloc: Global,
    nodes_under_test: &mut TestNodes,
    text: &[u8],
    at: u8,
) -> Result<String, Fail> {
    let number = part_number(u64::from(at))?;
    let part = Part::of(alloc, position(65_535)?, text, number)?.ok_or("a part")?;
    nodes_under_test.hand(alloc, 1, 0, Message::SnapPart(part))
}

/// The node has all features, and the last of them at its last instant.
fn is_restored(rt: &impl Abort, alloc: Global, node: &Member) -> Result<(), Fail> {
    let last = Id::new(&id_of(255)).ok_or("id")?;
    let instant = Instant::new(1023).ok_or("instant")?;
    let (_, place) = node.query(alloc, &Query::At(last, instant))?;
    assert!(rt; place.as_bytes() == b"at 7 1023".as_slice());
    let (at, count) = node.query(alloc, &Query::Count)?;
    assert!(rt; count.as_bytes() == b"count 256".as_slice());
    assert!(rt; at == 65_535);
    Ok(())
}

/// The text of the largest database, and of each client.
fn longest_text(alloc: Global) -> Result<Vec<u8>, Fail> {
    let points = points_text(alloc)?;
    let mut text = Vec::with_capacity(alloc, LONGEST_SNAPSHOT)?;
    text.extend_from_slice(&[1, 0])?;
    for feature in 0..=255 {
        push_feature(&mut text, feature, points.as_slice())?;
    }
    text.extend_from_slice(&[1, 0])?;
    for client in 0..=255 {
        text.extend_from_slice(&[client, 0, 0, 0, 0, 0, 0, 0, 1, UNKNOWN])?;
    }
    Ok(text)
}

/// A feature's id and its sequence.
fn push_feature(text: &mut Vec<u8>, feature: u8, points: &[u8]) -> Result<(), AllocError> {
    text.push(64)?;
    text.extend_from_slice(&id_of(feature))?;
    text.extend_from_slice(&[STEP, 4, 0])?;
    text.extend_from_slice(points)
}

/// The id of this feature, of 64 bytes. They ascend with the features.
fn id_of(feature: u8) -> [u8; 64] {
    let mut id = [b'x'; 64];
    id[0] = b'a' + feature / 16;
    id[1] = b'a' + feature % 16;
    id
}

/// The points of a sequence of 1,024 instants, a millisecond apart, each at seven millimetres and its own number.
fn points_text(alloc: Global) -> Result<Vec<u8>, AllocError> {
    let mut points = Vec::new(alloc);
    for at in 0..1024_u16 {
        let [high, low] = [(at / 256) as u8, (at % 256) as u8];
        points.extend_from_slice(&[0, 0, 0, 0, 0, 0, high, low])?;
        points.extend_from_slice(&[0, 0, 0, 0, 0, 0, 0, 7])?;
        points.extend_from_slice(&[0, 0, 0, 0, 0, 0, high, low])?;
    }
    Ok(points)
}
