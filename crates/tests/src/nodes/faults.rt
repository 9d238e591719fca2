//! Nodes that go down, and what a restart finds.

use super::tables_hold;
use super::test_nodes::{Member, TestNodes};
use node_model::NodeFault;
use stable::{Key, MemStable, Stable};
use std::alloc::Global;
use std::test::Fail;
use synod::Slot;
use wire::Nodes;

// Node 1 goes down on the accept, and nothing was written. It refuses all that comes, until a restart. Node 2 is told of no
// vote, and leads with a no-op.
const LOST_VOTE: &str = "\
submit 0 7 1
timeout 0 > send 0 prepare 1.0 0 to 0 1 2
deliver 0 > send 0 promise 1.0 0 65535 to 0
deliver 1 > send 1 promise 1.0 0 65535 to 0
deliver 3
deliver 4 > send 0 accept 1.0 0 7:1 to 0 1 2
look 1 > 1 up 0 promise
arm 1 old
deliver 6 > stop 1 46
look 1 > 1 down 0 promise
deliver 6 > refuse 1 41
submit 1 9 1 > refuse 1 41
timeout 1 > refuse 1 41
tick 1 > refuse 1 41
count 1 > refuse 1 41
look 1 > 1 down 0 promise
restart 1
look 1 > 1 up 0 promise
count 1 > answer 1 0 count 0
timeout 2 > send 2 prepare 1.2 0 to 0 1 2
deliver 9 > send 1 promise 1.2 0 65535 to 2
deliver 10 > send 2 promise 1.2 0 65535 to 2
deliver 11
deliver 12 > send 2 accept 1.2 0 noop to 0 1 2
deliver 14 > send 1 accepted 1.2 0 noop to 0 1 2
deliver 15 > send 2 accepted 1.2 0 noop to 0 1 2
deliver 18
deliver 21 > learn 2 0 noop
count 2 > answer 2 1 count 0
look 1 > 1 up 0 promise promise vote 0";

// The vote was written all the same. Node 2 is told of it, and leads with the request.
const KEPT_VOTE: &str = "\
submit 0 7 1
timeout 0 > send 0 prepare 1.0 0 to 0 1 2
deliver 0 > send 0 promise 1.0 0 65535 to 0
deliver 1 > send 1 promise 1.0 0 65535 to 0
deliver 3
deliver 4 > send 0 accept 1.0 0 7:1 to 0 1 2
arm 1 new
deliver 6 > stop 1 46
look 1 > 1 down 0 promise vote 0
restart 1
timeout 2 > send 2 prepare 1.2 0 to 0 1 2
deliver 9 > send 1 promise 1.2 0 65535 (1.0 0 7:1) to 2
deliver 10 > send 2 promise 1.2 0 65535 to 2
deliver 11
deliver 12 > send 2 accept 1.2 0 7:1 to 0 1 2
deliver 14 > send 1 accepted 1.2 0 7:1 to 0 1 2
deliver 15 > send 2 accepted 1.2 0 7:1 to 0 1 2
deliver 18
deliver 21 > learn 2 0 7:1
look 1 > 1 up 0 promise vote 0 promise vote 0";

// An armed fault waits for a put, whatever comes before it. It comes once, and a later one takes its place.
const ARMED: &str = "\
hear 0 1, accept 2.1 0 7:1 > send 0 accepted 2.1 0 7:1 to 0 1 2
arm 0 old
hear 0 1, accept 2.1 0 7:1 > send 0 accepted 2.1 0 7:1 to 0 1 2
hear 0 1, accept 1.1 0 8:1 > send 0 nack 1.1 2.1 to 1
hear 0 1, prepare 2.1 0 > send 0 promise 2.1 0 65535 (2.1 0 7:1) to 1
submit 0 7 1
tick 0 > send 0 ask 0 to 1 2
restart 0
hear 0 1, prepare 3.1 0 > stop 0 46
look 0 > 0 down 0 vote 0
restart 0
hear 0 1, prepare 3.1 0 > send 0 promise 3.1 0 65535 (2.1 0 7:1) to 1
arm 0 old
arm 0 new
hear 0 1, accept 3.1 1 8:1 > stop 0 46
look 0 > 0 down 0 vote 0 promise vote 1
restart 0
hear 0 1, prepare 4.1 0 > send 0 promise 4.1 0 65535 (2.1 0 7:1) (3.1 1 8:1) to 1
look 0 > 0 up 0 vote 0 promise vote 1 promise";

// A round that was written isn't drawn again, and one that wasn't is.
const ROUNDS: &str = "\
arm 0 old
timeout 0 > stop 0 46
look 0 > 0 down 0
restart 0
timeout 0 > send 0 prepare 1.0 0 to 0 1 2
arm 0 new
timeout 0 > stop 0 46
look 0 > 0 down 0 round round
restart 0
timeout 0 > send 0 prepare 3.0 0 to 0 1 2
look 0 > 0 up 0 round round round";

const TABLES: [(u8, &str); 4] = [(3, LOST_VOTE), (3, KEPT_VOTE), (3, ARMED), (3, ROUNDS)];

#[test]
fn a_restart_finds_what_was_written(rt: HostRuntime) -> Result<(), Fail> {
    tables_hold(&rt, rt.alloc(), TABLES.as_slice())
}

#[test]
fn damaged_records_keep_a_node_down(rt: HostRuntime) -> Result<(), Fail> {
    for &key in &[
        Key::Checkpoint,
        Key::Promise,
        Key::Round,
        Key::Vote(Slot::first()),
    ] {
        assert!(rt; is_kept_down(rt.alloc(), key)?, "{key:?}");
    }
    Ok(())
}

/// Whether a node stays down where this record of it is of no form.
fn is_kept_down(alloc: Global, key: Key) -> Result<bool, Fail> {
    let mut nodes_under_test = node_over(alloc, damaged(alloc, key)?)?;
    Ok(stays_down(alloc, nodes_under_test.member(0)?))
}

/// Node 0 of three, over these records.
pub fn node_over(alloc: Global, records: MemStable) -> Result<TestNodes, Fail> {
    let nodes = Nodes::new(3).ok_or("nodes")?;
    let mut nodes_under_test = TestNodes::empty(alloc);
    nodes_under_test.start(alloc, records, 0, nodes)?;
    Ok(nodes_under_test)
}

/// Records of which one is of no form.
fn damaged(alloc: Global, key: Key) -> Result<MemStable, Fail> {
    let bytes = [0u8; 8].to_vec(alloc)?;
    let mut records = MemStable::new(alloc);
    records.put(alloc, key, bytes)?;
    Ok(records)
}

/// Whether a node is down, and a restart finds the damage and leaves it down.
pub fn stays_down(alloc: Global, member: &mut Member) -> bool {
    let was_up = member.is_up();
    let restarted = member.restart(alloc);
    !was_up && restarted == Err(NodeFault::Damaged) && !member.is_up()
}
