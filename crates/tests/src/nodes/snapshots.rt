//! A node that missed what the others have forgotten, and is restored from the parts of a snapshot text.

use super::letters::{number, part_number, position};
use super::tables_hold;
use super::test_nodes::{TestNodes, ride};
use sessions::{Command, Machine, Request};
use std::alloc::Global;
use std::process::Abort;
use std::test::Fail;
use wire::{Message, Part};

// A node asks for the lowest part that is missing: all others on a tick, who sent a part after it. A part counts once, and only of the
// text that is fetched. A higher floor takes its place, and nothing is kept of what there was. A target that is reached is none.
const FETCHED: &str = "\
hear 0 1, behind 3 > send 0 snapask 3 0 to 1 2
hear 0 2, behind 3
hear 0 2, behind 2
hear 0 2, snappart 2 65537 0
hear 0 2, snappart 4 65537 0
hear 0 1, snappart 3 65537 1 > send 0 snapask 3 0 to 1
hear 0 2, snappart 3 65537 1
hear 0 2, snappart 3 65536 0
hear 0 2, snappart 3 65537 0 > send 0 snapask 3 2 to 2
tick 0 > send 0 snapask 3 2 to 1 2
hear 0 2, behind 5 > send 0 snapask 5 0 to 1 2
hear 0 1, snappart 3 65537 2
tick 0 > send 0 snapask 5 0 to 1 2
hear 0 1, snappart 5 4 0 > restore 0 5; send 0 ask 5 to 1
hear 0 1, snappart 5 4 0
hear 0 1, behind 5
look 0 > 0 up 5
count 0 > answer 0 5 count 0
tick 0 > send 0 ask 5 to 1 2";

// A target that is reached by learning is given up, and so is one that is passed.
const REACHED: &str = "\
hear 0 1, behind 2 > send 0 snapask 2 0 to 1 2
hear 0 1, decided 2 7:3 > learn 0 2 7:3; send 0 ask 0 to 1
hear 0 1, decided 1 7:2 > learn 0 1 7:2; send 0 ask 0 to 1
tick 0 > send 0 snapask 2 0 to 1 2
hear 0 1, decided 0 7:1 > learn 0 0 7:1; send 0 ask 3 to 1
tick 0 > send 0 ask 3 to 1 2
hear 0 2, snappart 2 4 0
hear 0 2, behind 3
count 0 > answer 0 3 count 0
hear 0 2, behind 4 > send 0 snapask 4 0 to 1 2
hear 0 1, decided 3 7:4 > learn 0 3 7:4; send 0 ask 4 to 1
hear 0 2, snappart 4 4 0
tick 0 > send 0 ask 4 to 1 2";

// A text that no machine has leaves the node as it was, and is fetched no more. A restart forgets what is fetched.
const NO_TEXT: &str = "\
submit 0 7 1
hear 0 1, decided 0 7:1 > learn 0 0 7:1; reply 0 7:1 21 1; send 0 ask 1 to 1
hear 0 1, behind 3 > send 0 snapask 3 0 to 1 2
hear 0 2, snappart 3 14 0
tick 0 > send 0 ask 1 to 1 2
count 0 > answer 0 1 count 0
checkpoint 0
restart 0
hear 0 1, behind 3 > send 0 snapask 3 0 to 1 2
restart 0
hear 0 2, snappart 3 4 0
tick 0 > send 0 ask 1 to 1 2
look 0 > 0 up 1 checkpoint";

// What is learnt from the target on is executed with the restore, and what waited for it has its reply. What waited for a lower slot
// waits on. A lower slot is never learnt any more; one that is learnt is still told.
const AHEAD: &str = "\
submit 0 7 2
submit 0 8 1
hear 0 1, decided 1 8:1 > learn 0 1 8:1; send 0 ask 0 to 1
hear 0 1, decided 3 7:2 > learn 0 3 7:2; send 0 ask 0 to 1
hear 0 1, decided 4 0:0 > learn 0 4 noop; send 0 ask 0 to 1
hear 0 1, behind 3 > send 0 snapask 3 0 to 1 2
hear 0 2, snappart 3 4 0 > restore 0 3; reply 0 7:2 32 4; send 0 ask 5 to 2
hear 0 1, decided 2 7:1
hear 0 1, accepted 1.1 0 7:1
hear 0 2, accepted 1.1 0 7:1
hear 0 1, ask 0
hear 0 1, ask 1 > send 0 decided 1 8:1 to 1
hear 0 1, ask 2
hear 0 1, snapask 3 0
hear 0 1, decided 5 8:1 > learn 0 5 8:1; reply 0 8:1 21 6; send 0 ask 6 to 1
look 0 > 0 up 6";

// A node serves the text of its checkpoint. Of slots below it, what it holds is told, and else its floor; nothing is promised there, and
// nothing voted for.
const SERVED: &str = "\
hear 0 1, decided 0 7:1 > learn 0 0 7:1; send 0 ask 1 to 1
hear 0 2, snapask 1 0
checkpoint 0
hear 0 2, snapask 1 0 > send 0 snappart 1 14 0 to 2
hear 0 2, snapask 1 1
hear 0 2, snapask 2 0
hear 0 2, ask 0 > send 0 decided 0 7:1 to 2
hear 0 2, prepare 1.2 0 > send 0 behind 1 to 2
hear 0 2, accept 1.2 0 0:0 > send 0 behind 1 to 2
look 0 > 0 up 1 checkpoint
restart 0
hear 0 2, ask 0 > send 0 behind 1 to 2
hear 0 2, ask 1
hear 0 2, snapask 1 0 > send 0 snappart 1 14 0 to 2
hear 0 1, decided 1 7:2 > learn 0 1 7:2; send 0 ask 2 to 1
hear 0 2, ask 0 > send 0 behind 1 to 2
checkpoint 0
hear 0 2, snapask 1 0 > send 0 behind 2 to 2
hear 0 2, snapask 2 0 > send 0 snappart 2 14 0 to 2";

// A leader is restored behind its first proposal: that one is open no more, and its request, which still waits, is proposed at another
// slot. Its other proposal stays.
const LEADER: &str = "\
submit 0 7 1
submit 0 8 1
timeout 0 > send 0 prepare 1.0 0 to 0 1 2
hear 0 1, promise 1.0 0 65535
hear 0 2, promise 1.0 0 65535 > send 0 accept 1.0 0 7:1 to 0 1 2; send 0 accept 1.0 1 8:1 to 0 1 2
hear 0 1, behind 1 > send 0 snapask 1 0 to 1 2
hear 0 1, snappart 1 4 0 > restore 0 1; send 0 accept 1.0 2 7:1 to 0 1 2; send 0 ask 1 to 1
tick 0 > send 0 accept 1.0 1 8:1 to 0 1 2; send 0 accept 1.0 2 7:1 to 0 1 2; send 0 ask 1 to 1 2
hear 0 1, accepted 1.0 0 7:1
hear 0 2, accepted 1.0 0 7:1
hear 0 1, accepted 1.0 1 8:1
hear 0 2, accepted 1.0 1 8:1 > learn 0 1 8:1; reply 0 8:1 21 2
hear 0 1, accepted 1.0 2 7:1
hear 0 2, accepted 1.0 2 7:1 > learn 0 2 7:1; reply 0 7:1 21 3";

// A leader is restored beyond what its promises speak of: it asks for promises again, under the same ballot.
const BEYOND: &str = "\
submit 0 7 1
timeout 0 > send 0 prepare 1.0 0 to 0 1 2
hear 0 1, promise 1.0 0 65535
hear 0 2, promise 1.0 0 3 > send 0 accept 1.0 0 7:1 to 0 1 2
hear 0 1, behind 4 > send 0 snapask 4 0 to 1 2
hear 0 1, snappart 4 4 0 > restore 0 4; send 0 prepare 1.0 4 to 0 1 2; send 0 ask 4 to 1
hear 0 1, promise 1.0 4 65535
hear 0 2, promise 1.0 4 65535 > send 0 accept 1.0 4 7:1 to 0 1 2";

// Each message of a transfer is lost once, and sent again on a tick. One that comes again changes nothing.
const LOST: &str = "\
hear 0 1, decided 0 7:1 > learn 0 0 7:1; send 0 ask 1 to 1
checkpoint 0
restart 0
tick 2 > send 2 ask 0 to 0 1
lose 1
lose 2
tick 2 > send 2 ask 0 to 0 1
deliver 3 > send 0 behind 1 to 2
lose 5
tick 2 > send 2 ask 0 to 0 1
deliver 6 > send 0 behind 1 to 2
deliver 8 > send 2 snapask 1 0 to 0 1
lose 9
deliver 10
tick 2 > send 2 snapask 1 0 to 0 1
deliver 11 > send 0 snappart 1 14 0 to 2
lose 13
deliver 8
tick 2 > send 2 snapask 1 0 to 0 1
deliver 14 > send 0 snappart 1 14 0 to 2
deliver 16 > restore 2 1; send 2 ask 1 to 0
deliver 16
deliver 13
deliver 8
deliver 17
count 2 > answer 2 1 count 0";

// The last entry of the log is below the last position: there is nothing to ask for then.
const WHOLE_LOG: &str = "\
hear 0 1, behind 65536 > send 0 snapask 65536 0 to 1 2
hear 0 1, snappart 65536 4 0 > restore 0 65536
submit 0 7 1 > refuse 0 42
tick 0";

// how many nodes there are, and their steps
const TABLES: [(u8, &str); 9] = [
    (3, FETCHED),
    (3, REACHED),
    (3, NO_TEXT),
    (3, AHEAD),
    (3, SERVED),
    (3, LEADER),
    (3, BEYOND),
    (3, LOST),
    (3, WHOLE_LOG),
];

#[test]
fn what_was_forgotten_is_fetched(rt: HostRuntime) -> Result<(), Fail> {
    tables_hold(&rt, rt.alloc(), TABLES.as_slice())
}

// Three parts come, each from another node: part 0 from node 1, and so on. Which one comes when, and what is said of each.
const ORDERS: [[(u8, &str); 3]; 6] = [
    [
        (0, "send 0 snapask 6 1 to 1"),
        (1, "send 0 snapask 6 2 to 2"),
        (2, "restore 0 6; send 0 ask 6 to 3"),
    ],
    [
        (0, "send 0 snapask 6 1 to 1"),
        (2, "send 0 snapask 6 1 to 3"),
        (1, "restore 0 6; send 0 ask 6 to 2"),
    ],
    [
        (1, "send 0 snapask 6 0 to 2"),
        (0, "send 0 snapask 6 2 to 1"),
        (2, "restore 0 6; send 0 ask 6 to 3"),
    ],
    [
        (1, "send 0 snapask 6 0 to 2"),
        (2, "send 0 snapask 6 0 to 3"),
        (0, "restore 0 6; send 0 ask 6 to 1"),
    ],
    [
        (2, "send 0 snapask 6 0 to 3"),
        (0, "send 0 snapask 6 1 to 1"),
        (1, "restore 0 6; send 0 ask 6 to 2"),
    ],
    [
        (2, "send 0 snapask 6 0 to 3"),
        (1, "send 0 snapask 6 0 to 2"),
        (0, "restore 0 6; send 0 ask 6 to 1"),
    ],
];

const NAMES: [&[u8]; 6] = [b"a", b"b", b"c", b"d", b"e", b"f"];

#[test]
fn parts_come_in_any_order(rt: HostRuntime) -> Result<(), Fail> {
    let text = long_text(rt.alloc())?;
    for parts in ORDERS {
        order_restores(&rt, rt.alloc(), text.as_slice(), parts.as_slice())?;
    }
    Ok(())
}

/// The text of six features at 512 instants each, which has three parts.
fn long_text(alloc: Global) -> Result<Vec<u8>, Fail> {
    let mut machine = Machine::new(alloc);
    for name in NAMES {
        put(alloc, &mut machine, name)?;
    }
    Ok(machine.snapshot(alloc)?)
}

/// A machine executes the put of a feature, the first request of a client of its own.
fn put(alloc: Global, machine: &mut Machine, name: &[u8]) -> Result<(), Fail> {
    let client = *name.first().ok_or("a name")?;
    let request = Request::new(client, number(1)?, ride(alloc, name, 512)?)?;
    machine.execute(&Command::Request(request))?;
    Ok(())
}

/// Hands the parts to a node, each twice. What is restored has this text.
fn order_restores(
    rt: &impl Abort,
    alloc: Global,
    text: &[u8],
    parts: &[(u8, &str)],
) -> Result<(), Fail> {
    let mut nodes_under_test = TestNodes::new(alloc, 5)?;
    nodes_under_test.take(alloc, "hear 0 1, behind 6")?;
    for (at, said) in parts {
        part_comes(rt, alloc, &mut nodes_under_test, text, *at, said)?;
    }
    assert_eq!(rt;
        nodes_under_test.take(alloc, "count 0")?.as_str(),
        "answer 0 6 count 6"
    );
    nodes_under_test.take(alloc, "checkpoint 0")?;
    let written = nodes_under_test.member(0)?.writes().last().ok_or("a put")?;
    assert!(rt; written.bytes().get(5..) == Some(text));
    Ok(())
}

/// Hands a part of the text to a node, twice.
fn part_comes(
    rt: &impl Abort,
    alloc: Global,
    nodes_under_test: &mut TestNodes,
    text: &[u8],
    at: u8,
    said: &str,
) -> Result<(), Fail> {
    for expected in [said, ""] {
        let number = part_number(u64::from(at))?;
        let part = Part::of(alloc, position(6)?, text, number)?.ok_or("a part")?;
        let told = nodes_under_test.hand(alloc, at.saturating_add(1), 0, Message::SnapPart(part))?;
        assert_eq!(rt; told.as_str(), expected, "part {at}");
    }
    Ok(())
}
