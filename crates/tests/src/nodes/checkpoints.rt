//! Checkpoints and trims: what they write, what a restart finds of them, and records that are none.

use super::faults::{node_over, stays_down};
use super::tables_hold;
use super::test_nodes::TestNodes;
use stable::{Key, MemStable, Stable};
use std::alloc::Global;
use std::test::Fail;

// A checkpoint is refused, and a trim finds nothing to take out: the fault that is armed waits for the put of a vote. Then a
// checkpoint is written. The trim behind it fails, though the vote is gone: so the next one finds nothing, and the promise that
// the vote raised is still kept.
const ARMED: &str = "\
arm 0 old
checkpoint 0 > refuse 0 49
trim 0
hear 0 1, accept 2.1 0 7:1 > stop 0 46
checkpoint 0 > refuse 0 41
trim 0 > refuse 0 41
restart 0
hear 0 1, accept 2.1 0 7:1 > send 0 accepted 2.1 0 7:1 to 0 1 2
hear 0 1, decided 0 7:1 > learn 0 0 7:1; send 0 ask 1 to 1
checkpoint 0
checkpoint 0 > refuse 0 49
arm 0 new
trim 0 > stop 0 46
restart 0
look 0 > 0 up 1 vote 0 checkpoint
count 0 > answer 0 1 count 0
arm 0 old
trim 0
hear 0 1, prepare 1.1 1 > send 0 nack 1.1 2.1 to 1
hear 0 1, prepare 3.1 1 > stop 0 46";

// A checkpoint that fails is there after a restart where it was written all the same, and else isn't.
const FAILED: &str = "\
hear 0 1, decided 0 7:1 > learn 0 0 7:1; send 0 ask 1 to 1
arm 0 old
checkpoint 0 > stop 0 46
restart 0
look 0 > 0 up 0
hear 0 1, decided 0 7:1 > learn 0 0 7:1; send 0 ask 1 to 1
arm 0 new
checkpoint 0 > stop 0 46
look 0 > 0 down 0 checkpoint
restart 0
look 0 > 0 up 1 checkpoint
checkpoint 0 > refuse 0 49
count 0 > answer 0 1 count 0";

#[test]
fn faults_wait_for_checkpoints_and_trims(rt: HostRuntime) -> Result<(), Fail> {
    tables_hold(&rt, rt.alloc(), [(3, ARMED), (3, FAILED)].as_slice())
}

// What a node writes that has executed the removal of an unknown feature, for client 7 under number 1, and has promised nothing:
// the position and no promise; and the text, no feature and one client.
const RECORD: [u8; 19] = [0, 0, 0, 1, 0, 0, 0, 0, 1, 7, 0, 0, 0, 0, 0, 0, 0, 1, 21];

// Damaged: no byte; the positions 0 and 65,537; the flag 2; round 0, and node 7, of what was promised; a text cut by a byte, and
// one byte longer; and a ballot behind the flag 0.
const DAMAGED: [&[u8]; 9] = [
    &[],
    &[0, 0, 0, 0, 0, 0, 0, 0, 0],
    &[0, 1, 0, 1, 0, 0, 0, 0, 0],
    &[0, 0, 0, 1, 2, 0, 0, 0, 0],
    &[0, 0, 0, 1, 1, 0, 0, 0, 0, 0, 0, 0, 0, 0, 0, 0, 0, 0],
    &[0, 0, 0, 1, 1, 0, 0, 0, 0, 0, 0, 0, 1, 7, 0, 0, 0, 0],
    &[0, 0, 0, 1, 0, 0, 0, 0, 1, 7, 0, 0, 0, 0, 0, 0, 0, 1],
    &[0, 0, 0, 1, 0, 0, 0, 0, 1, 7, 0, 0, 0, 0, 0, 0, 0, 1, 21, 0],
    &[0, 0, 0, 1, 0, 0, 0, 0, 0, 0, 0, 0, 1, 0, 0, 0, 0, 0],
];

/// Records of which one is a checkpoint of these bytes.
fn records_of(alloc: Global, bytes: &[u8]) -> Result<MemStable, Fail> {
    let mut records = MemStable::new(alloc);
    records.put(alloc, Key::Checkpoint, bytes.to_vec(alloc)?)?;
    Ok(records)
}

/// Whether a node stays down over a checkpoint of these bytes.
fn is_kept_down(alloc: Global, bytes: &[u8]) -> Result<bool, Fail> {
    let mut nodes_under_test = node_over(alloc, records_of(alloc, bytes)?)?;
    Ok(stays_down(alloc, nodes_under_test.member(0)?))
}

#[test]
fn damaged_checkpoints_keep_a_node_down(rt: HostRuntime) -> Result<(), Fail> {
    for bytes in DAMAGED {
        assert!(rt; is_kept_down(rt.alloc(), bytes)?, "{bytes:?}");
    }
    Ok(())
}

/// Whether a node writes this checkpoint, once it has executed a removal.
fn is_written(alloc: Global, record: &[u8]) -> Result<bool, Fail> {
    let mut nodes_under_test = TestNodes::new(alloc, 3)?;
    nodes_under_test.take(alloc, "hear 0 1, decided 0 7:1")?;
    nodes_under_test.take(alloc, "checkpoint 0")?;
    let written = nodes_under_test.member(0)?.writes().last().ok_or("a put")?;
    Ok(written.key() == Key::Checkpoint && written.bytes() == record)
}

/// What a node tells of its features, over a checkpoint of these bytes.
fn told_over(alloc: Global, bytes: &[u8]) -> Result<String, Fail> {
    node_over(alloc, records_of(alloc, bytes)?)?.take(alloc, "count 0")
}

#[test]
fn a_checkpoint_is_written_and_read(rt: HostRuntime) -> Result<(), Fail> {
    let alloc = rt.alloc();
    assert!(rt; is_written(alloc, RECORD.as_slice())?);
    assert_eq!(rt;
        told_over(alloc, RECORD.as_slice())?.as_str(),
        "answer 0 1 count 0"
    );
    Ok(())
}
