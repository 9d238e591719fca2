//! What clients of three processes are told.

use crate::processes::Trio;
use node_model::NodeFault;
use serving::{MOST_CLAIMS, MOST_IN_A_TURN, TurnFault};
use std::fs;
use std::test::Fail;

// A client of each node makes a request.
const REQUESTS: [(usize, &str, &str); 3] = [
    (0, "submit 7 1 remove bus-7", "reply 7:1 21 "),
    (1, "submit 8 1 remove bus-8", "reply 8:1 21 "),
    (2, "submit 9 1 remove bus-9", "reply 9:1 21 "),
];

#[test]
fn each_request_is_replied_to_where_it_was_made(rt: HostRuntime) -> Result<(), Fail> {
    const FOLDER: &str = "servers_each";
    let alloc = rt.alloc();
    let mut trio = Trio::start(&rt, FOLDER)?;
    for (number, line, _) in REQUESTS {
        trio.write(alloc, number, 4, line)?;
    }
    trio.pass(alloc, 3_000)?;
    for (number, _, reply) in REQUESTS {
        let told = trio.told(alloc, number, 4)?;
        assert!(rt; told.as_slice().starts_with(reply.as_bytes()), "{number}");
        let lines = told
            .as_slice()
            .iter()
            .filter(|byte| **byte == b'\n')
            .count();
        assert_eq!(rt; lines, 1);
        trio.write(alloc, number, 5, "query count from 3")?;
        trio.write(alloc, number, 5, "last 8")?;
    }
    trio.pass(alloc, 200)?;
    for number in 0..3 {
        let told = trio.told(alloc, number, 5)?;
        assert_eq!(rt; told.as_slice(), b"answer 3 count 0\nlast 8 1\n".as_slice());
    }
    fs::remove_dir_all(&rt, FOLDER)?;
    Ok(())
}

#[test]
fn a_query_waits_for_its_position_and_a_fault_does_not(rt: HostRuntime) -> Result<(), Fail> {
    const FOLDER: &str = "servers_held";
    let alloc = rt.alloc();
    let mut trio = Trio::start(&rt, FOLDER)?;
    trio.write(alloc, 1, 6, "query count from 1")?;
    trio.write(alloc, 1, 6, "nonsense")?;
    trio.pass(alloc, 1_000)?;
    assert_eq!(rt; trio.told(alloc, 1, 6)?.as_slice(), b"fault 2\n".as_slice());
    trio.write(alloc, 2, 5, "submit 7 1 remove bus-7")?;
    trio.pass(alloc, 2_000)?;
    let told = trio.told(alloc, 1, 6)?;
    assert_eq!(rt; told.as_slice(), b"fault 2\nanswer 1 count 0\n".as_slice());
    fs::remove_dir_all(&rt, FOLDER)?;
    Ok(())
}

#[test]
fn requests_are_handed_on_to_who_leads(rt: HostRuntime) -> Result<(), Fail> {
    const FOLDER: &str = "servers_led";
    let alloc = rt.alloc();
    let mut trio = Trio::start(&rt, FOLDER)?;
    trio.write(alloc, 0, 1, "submit 7 1 remove bus-7")?;
    trio.pass(alloc, 2_000)?;
    assert_eq!(rt;
        trio.told(alloc, 0, 1)?.as_slice(),
        b"reply 7:1 21 1\n".as_slice()
    );
    let campaigns = trio.campaigns();
    // Within less than any node's patience, and so without a campaign.
    trio.write(alloc, 2, 1, "submit 8 1 remove bus-8")?;
    trio.pass(alloc, 200)?;
    assert_eq!(rt;
        trio.told(alloc, 2, 1)?.as_slice(),
        b"reply 8:1 21 2\n".as_slice()
    );
    assert_eq!(rt; trio.campaigns(), campaigns);
    trio.write(alloc, 2, 1, "status")?;
    trio.pass(alloc, 10)?;
    let told = trio.told(alloc, 2, 1)?;
    let status = b"status node 2 position 2 horizon 2 leader 0 waiting 0\n".as_slice();
    assert!(rt; told.as_slice().ends_with(status));
    fs::remove_dir_all(&rt, FOLDER)?;
    Ok(())
}

#[test]
fn a_node_campaigns_when_its_patience_ends(rt: HostRuntime) -> Result<(), Fail> {
    const FOLDER: &str = "servers_patience";
    let alloc = rt.alloc();
    let mut trio = Trio::start(&rt, FOLDER)?;
    // Nobody asks for anything.
    trio.pass(alloc, 5_000)?;
    assert_eq!(rt; trio.campaigns(), 0);
    trio.write(alloc, 0, 1, "submit 7 1 remove bus-7")?;
    trio.pass(alloc, 300)?;
    assert_eq!(rt; trio.campaigns(), 0);
    trio.pass(alloc, 10)?;
    assert_eq!(rt; trio.campaigns(), 1);
    fs::remove_dir_all(&rt, FOLDER)?;
    Ok(())
}

#[test]
fn a_node_comes_back_over_its_records(rt: HostRuntime) -> Result<(), Fail> {
    const FOLDER: &str = "servers_back";
    let alloc = rt.alloc();
    let mut trio = Trio::start(&rt, FOLDER)?;
    trio.write(alloc, 0, 1, "submit 7 1 remove bus-7")?;
    trio.pass(alloc, 2_000)?;
    trio.stop(2);
    trio.write(alloc, 0, 1, "submit 7 2 remove bus-7")?;
    trio.pass(alloc, 1_000)?;
    let told = trio.told(alloc, 0, 1)?;
    assert_eq!(rt;
        told.as_slice(),
        b"reply 7:1 21 1\nreply 7:2 21 2\n".as_slice()
    );
    trio.begin_again(&rt, 2)?;
    trio.pass(alloc, 2_000)?;
    trio.write(alloc, 2, 3, "last 7")?;
    trio.write(alloc, 2, 3, "query count from 2")?;
    trio.pass(alloc, 10)?;
    assert_eq!(rt;
        trio.told(alloc, 2, 3)?.as_slice(),
        b"last 7 2\nanswer 2 count 0\n".as_slice()
    );
    fs::remove_dir_all(&rt, FOLDER)?;
    Ok(())
}

#[test]
fn a_turn_says_whether_more_may_have_come(rt: HostRuntime) -> Result<(), Fail> {
    const FOLDER: &str = "servers_busy";
    let alloc = rt.alloc();
    let mut trio = Trio::start(&rt, FOLDER)?;
    trio.pass(alloc, 100)?;
    assert_eq!(rt; trio.busy(1), 0);
    // As many lines as a turn takes: it can't tell whether there are more.
    for line in 0..MOST_IN_A_TURN {
        let connection = 10 + line / MOST_CLAIMS;
        trio.write(alloc, 1, connection as u64, "submit 7 1 remove bus-7")?;
    }
    trio.pass(alloc, 100)?;
    assert_eq!(rt; trio.busy(1), 1);
    // Who was told anything may have lines that wait unread.
    trio.write(alloc, 1, 4, "nonsense")?;
    trio.pass(alloc, 100)?;
    assert_eq!(rt; trio.busy(1), 2);
    trio.pass(alloc, 3_000)?;
    assert_eq!(rt; trio.busy(1), 3);
    fs::remove_dir_all(&rt, FOLDER)?;
    Ok(())
}

#[test]
fn so_many_lines_of_a_connection_wait_at_most(rt: HostRuntime) -> Result<(), Fail> {
    const FOLDER: &str = "servers_full";
    let alloc = rt.alloc();
    let mut trio = Trio::start(&rt, FOLDER)?;
    for _ in 0..MOST_CLAIMS + 8 {
        trio.write(alloc, 1, 4, "query count from 1")?;
    }
    trio.pass(alloc, 100)?;
    assert_eq!(rt; trio.unread(1), 8);
    // One position further they are answered, and the others are read.
    trio.write(alloc, 0, 5, "submit 7 1 remove bus-7")?;
    trio.pass(alloc, 3_000)?;
    assert_eq!(rt; trio.unread(1), 0);
    let told = trio.told(alloc, 1, 4)?;
    assert_eq!(rt; told.len(), (MOST_CLAIMS + 8) * "answer 1 count 0\n".len());
    fs::remove_dir_all(&rt, FOLDER)?;
    Ok(())
}

// Why a process ends, and what it says.
const ENDS: [(TurnFault, &str); 3] = [
    (TurnFault::Memory, "out of memory"),
    (TurnFault::Node(NodeFault::Device), "the storage failed"),
    (TurnFault::Node(NodeFault::Down), "the node is down"),
];

#[test]
fn a_process_says_why_it_ends(rt: HostRuntime) -> Result<(), Fail> {
    for (fault, words) in ENDS {
        let told = format!(in rt.alloc(); "{fault}")?;
        assert_eq!(rt; told.as_str(), words);
    }
    Ok(())
}
