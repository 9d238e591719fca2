//! What a node refuses, and with which number.

use super::test_nodes::TestNodes;
use super::{rows_follow, tables_hold};
use node_model::NodeFault;
use std::alloc::Global;
use std::test::Fail;
use synod::SLOTS;

// Each fault, and its number and text.
const FAULTS: [(NodeFault, &str); 9] = [
    (NodeFault::Down, "41: the node is down"),
    (NodeFault::LogFull, "42: the whole log is executed"),
    (NodeFault::RoundsUsedUp, "43: no round is left"),
    (NodeFault::QueueFull, "44: as many requests wait as may"),
    (
        NodeFault::TooLong,
        "45: the sequence is too long for a request",
    ),
    (NodeFault::Device, "46: the storage failed"),
    (NodeFault::Memory, "47: out of memory"),
    (NodeFault::Damaged, "48: a record is damaged"),
    (
        NodeFault::NothingNew,
        "49: nothing was executed since the last checkpoint",
    ),
];

#[test]
fn faults_have_their_numbers(rt: HostRuntime) -> Result<(), Fail> {
    for (fault, text) in FAULTS {
        assert!(rt; is_told(rt.alloc(), fault, text)?, "{text}");
    }
    Ok(())
}

fn is_told(alloc: Global, fault: NodeFault, text: &str) -> Result<bool, Fail> {
    let code = fault.code();
    let told = format!(in alloc; "{code}: {fault}")?;
    Ok(told.as_str() == text)
}

// Where 64 requests wait: what is too long is refused first, a repeat is taken, and one more is refused. Once one of them is
// executed there is room for one.
const SIXTY_FOUR_WAIT: &str = "\
put 0 7 65 513 > refuse 0 45
put 0 7 1 513 > refuse 0 45
submit 0 7 1
put 0 7 64 512
submit 0 7 65 > refuse 0 44
submit 0 8 1 > refuse 0 44
look 0 > 0 up 0
hear 0 1, decided 0 7:1 > learn 0 0 7:1; reply 0 7:1 21 1; send 0 ask 1 to 1
submit 0 8 1
submit 0 7 65 > refuse 0 44
restart 0
submit 0 7 65";

#[test]
fn sixty_four_requests_wait(rt: HostRuntime) -> Result<(), Fail> {
    let mut nodes_under_test = TestNodes::new(rt.alloc(), 3)?;
    submit(rt.alloc(), &mut nodes_under_test, 64)?;
    rows_follow(&rt, rt.alloc(), &mut nodes_under_test, SIXTY_FOUR_WAIT)
}

// Client 7 submits so many requests at node 0.
fn submit(alloc: Global, nodes_under_test: &mut TestNodes, requests: u8) -> Result<(), Fail> {
    for value in 1..=requests {
        let step = format!(in alloc; "submit 0 7 {value}")?;
        let _told = nodes_under_test.take(alloc, step.as_str())?;
    }
    Ok(())
}

// A request that is submitted twice is executed once. What is refused leaves nothing behind.
const PUTS: &str = "\
put 0 7 1 2
put 0 7 2 513 > refuse 0 45
timeout 0 > send 0 prepare 1.0 0 to 0 1 2
flush > learn 0 0 7:1; reply 0 7:1 0 1; learn 1 0 7:1; learn 2 0 7:1
count 0 > answer 0 1 count 1
put 1 7 1 2
timeout 1 > send 1 prepare 1.1 1 to 0 1 2
flush > learn 0 1 7:1; learn 1 1 7:1; reply 1 7:1 0 2; learn 2 1 7:1
count 1 > answer 1 2 count 1
submit 1 7 2 > send 1 accept 1.1 2 7:2 to 0 1 2
flush > learn 0 2 7:2; learn 1 2 7:2; reply 1 7:2 0 3; learn 2 2 7:2
count 0 > answer 0 3 count 0
count 1 > answer 1 3 count 0
count 2 > answer 2 3 count 0";

// The last round is drawn, and no other after it. Without a round left the node stays up, and nothing is written.
const LAST_ROUND: &str = "\
hear 0 1, nack 1.0 18446744073709551614.1
timeout 0 > send 0 prepare 18446744073709551615.0 0 to 0 1 2
timeout 0 > refuse 0 43
look 0 > 0 up 0 round
submit 0 7 1
tick 0 > send 0 prepare 18446744073709551615.0 0 to 0 1 2; send 0 ask 0 to 1 2
look 0 > 0 up 0 round";

// A restart forgets a refusal, and not the round.
const REFUSED_ROUND: &str = "\
hear 0 1, nack 1.0 18446744073709551615.1
timeout 0 > refuse 0 43
look 0 > 0 up 0
restart 0
timeout 0 > send 0 prepare 1.0 0 to 0 1 2";

#[test]
fn repeats_and_rounds_are_refused(rt: HostRuntime) -> Result<(), Fail> {
    let tables = [(3, PUTS), (3, LAST_ROUND), (3, REFUSED_ROUND)];
    tables_hold(&rt, rt.alloc(), tables.as_slice())
}

// The window ends with the log. Once every slot is learnt nothing more is taken, though requests wait, and nobody is asked for more.
const FULL_LOG: &str = "\
submit 0 7 1
submit 0 7 2
submit 0 7 3
submit 0 7 4
timeout 0 > send 0 prepare 1.0 65533 to 0 1 2
hear 0 0, promise 1.0 65533 65535
hear 0 1, promise 1.0 65533 65535 > send 0 accept 1.0 65533 7:1 to 0 1 2; send 0 accept 1.0 65534 7:2 to 0 1 2; \
    send 0 accept 1.0 65535 7:3 to 0 1 2
hear 0 1, decided 65535 0:0 > learn 0 65535 noop; send 0 ask 65533 to 1
hear 0 1, decided 65533 0:0 > learn 0 65533 noop; send 0 ask 65534 to 1
hear 0 1, decided 65534 0:0 > learn 0 65534 noop
look 0 > 0 up 65536 round
submit 0 7 5 > refuse 0 42
put 0 7 1 513 > refuse 0 42
timeout 0 > refuse 0 42
tick 0";

// Node 0 is told what is decided at each of so many slots.
fn decide(alloc: Global, nodes_under_test: &mut TestNodes, slots: u32) -> Result<(), Fail> {
    for at in 0..slots {
        let step = format!(in alloc; "hear 0 1, decided {at} 0:0")?;
        let _told = nodes_under_test.take(alloc, step.as_str())?;
    }
    Ok(())
}

#[test]
fn the_log_fills(rt: HostRuntime) -> Result<(), Fail> {
    let mut nodes_under_test = TestNodes::new(rt.alloc(), 3)?;
    decide(rt.alloc(), &mut nodes_under_test, SLOTS - 3)?;
    rows_follow(&rt, rt.alloc(), &mut nodes_under_test, FULL_LOG)
}
