//! Verdicts on transcripts, as they are printed.

use audit::{AuditFault, audit, report, status};
use std::alloc::Global;
use std::test::Fail;

const SCHEDULE: &[u8] = b"\
nodes 3
submit 0 7 1 remove bus-7
submit 0 7 2 remove bus-7
query 0 count
";

// A request that is submitted with two operations.
const TWO_OPERATIONS: &[u8] = b"\
nodes 3
submit 0 8 1 remove bus-7
submit 0 8 1 put {\"type\":\"Feature\",\"id\":\"bus-7\",\"temporalGeometry\":{\"type\":\"MovingPoint\",\"interpolation\":\"Step\",\"datetimes\":[\"1970-01-01T00:00:01Z\"],\"coordinates\":[[1,2]]}}
";

// Each line of the table once, in an order in which one list explains them.
const EACH_LINE: &[u8] = b"\
learn 0 0 7:1
reply 0 7:1 21
answer 0 1 count 0
learn 0 1 noop
restore 1 1
refuse 2 41
stop 2 46
round 0 decided 1
round 0 low 3.1
round 0 noquorum
round 0 down 2
round 0 behind 1
round 0 refused 42
round 0 stopped 2
strangers 4
";

// A transcript, and the status and the text of the verdict.
const VERDICTS: [(&[u8], u8, &str); 11] = [
    (b"", 0, "explained"),
    (EACH_LINE, 0, "explained"),
    (
        b"learn 0 0 7:1\nreply 0 7:1 21\nanswer 0 1 count 0",
        0,
        "explained",
    ),
    (
        b"learn 0 0 noop\nanswer 0 2 count 0\n",
        3,
        "undecided: slot 1",
    ),
    (
        b"learn 0 0 noop\nlearn 1 0 7:1\n",
        1,
        "node0:2: another command was learnt at this slot",
    ),
    (
        b"learn 0 0 7:3\n",
        1,
        "node0:1: no `submit` line has this request",
    ),
    (
        b"learn 0 0 7:2\nreply 0 7:2 21\n",
        1,
        "node0:2: at no slot has this request this reply",
    ),
    (
        b"learn 0 0 7:1\nanswer 0 1 count 1\n",
        1,
        "node0:2: no query of this node is answered so at this position",
    ),
    (
        b"strangers 0\nstrangers 0\n",
        1,
        "node0:1: this is no line of a transcript",
    ),
    (
        b"learn 0 0 noop\n\n",
        1,
        "node0:2: this is no line of a transcript",
    ),
    (b"\n", 1, "node0:1: this is no line of a transcript"),
];

// Lines that are none of a transcript, where the run has three nodes.
const NO_LINES: [&[u8]; 29] = [
    b"learn 3 0 noop",
    b"learn 0 65536 noop",
    b"learn 00 0 noop",
    b"learn 0 0 7:0",
    b"learn 0 0 256:1",
    b"learn 0 0 7:18446744073709551616",
    b"learn 0 0 7:1:1",
    b"learn 0 0 Noop",
    b"learn 0 0 noop ",
    b"learn  0 0 noop",
    b"Learn 0 0 noop",
    b"learn 0 0",
    b"reply 0 7:1 20",
    b"reply 0 7:1",
    b"answer 0 65537 count 0",
    b"answer 0 1",
    b"restore 3 1",
    b"restore 0 65537",
    b"refuse 0 46",
    b"stop 0 45",
    b"round 0 decided 65536",
    b"round 0 low 0.1",
    b"round 0 low 1.3",
    b"round 0 noquorum 0",
    b"round 0 down 3",
    b"round 0 refused 41",
    b"round 0 ended",
    b"strangers -1",
    b"learn 0 0 noop\r",
];

/// The status and the text of the verdict on these transcripts, which are called node0 and so on.
fn verdict_on(alloc: Global, schedule: &[u8], transcripts: &[&[u8]]) -> Result<(u8, String), Fail> {
    let mut all = Vec::new(alloc);
    for bytes in transcripts {
        all.push(Vec::from_slice(alloc, bytes)?)?;
    }
    let verdict = audit(alloc, schedule, &all).ok().ok_or("no verdict")?;
    Ok((
        status(&verdict),
        report(alloc, &verdict, &["node0", "node1", "node2"])?,
    ))
}

#[test]
fn transcripts_are_judged(rt: HostRuntime) -> Result<(), Fail> {
    for (bytes, wanted, text) in VERDICTS {
        let (status, told) = verdict_on(rt.alloc(), SCHEDULE, &[bytes])?;
        assert_eq!(rt; status, wanted);
        assert_eq!(rt; told.as_str(), text);
    }
    Ok(())
}

#[test]
fn other_lines_are_none_of_a_transcript(rt: HostRuntime) -> Result<(), Fail> {
    for line in NO_LINES {
        let (status, told) = verdict_on(rt.alloc(), SCHEDULE, &[line])?;
        assert_eq!(rt; status, 1);
        assert_eq!(rt; told.as_str(), "node0:1: this is no line of a transcript");
    }
    Ok(())
}

#[test]
fn transcripts_of_several_nodes_are_judged_together(rt: HostRuntime) -> Result<(), Fail> {
    let alloc = rt.alloc();
    let first = b"learn 0 0 7:1\nreply 0 7:1 21\n".as_slice();
    let second = b"learn 1 0 7:1\nlearn 1 1 7:2\n".as_slice();
    let (status, told) = verdict_on(alloc, SCHEDULE, &[first, second])?;
    assert_eq!(rt; (status, told.as_str()), (0, "explained"));
    let third = b"refuse 2 41\nlearn 2 1 noop\n".as_slice();
    let (status, told) = verdict_on(alloc, SCHEDULE, &[first, second, third])?;
    assert_eq!(rt;
        (status, told.as_str()),
        (1, "node2:2: another command was learnt at this slot")
    );
    Ok(())
}

#[test]
fn one_of_two_operations_explains_a_reply(rt: HostRuntime) -> Result<(), Fail> {
    // The reply to the remove, and that to the put.
    for transcript in [
        b"learn 0 0 8:1\nreply 0 8:1 21\n".as_slice(),
        b"learn 0 0 8:1\nreply 0 8:1 0\n".as_slice(),
    ] {
        let (status, told) = verdict_on(rt.alloc(), TWO_OPERATIONS, &[transcript])?;
        assert_eq!(rt; (status, told.as_str()), (0, "explained"));
    }
    Ok(())
}

#[test]
fn no_schedule_has_no_verdict(rt: HostRuntime) -> Result<(), Fail> {
    let alloc = rt.alloc();
    match audit(alloc, b"nodes 3\ntick\n", &[]) {
        Err(AuditFault::Schedule(fault)) => {
            let told = format!(in alloc; "{fault}")?;
            assert_eq!(rt; told.as_str(), "line 2: too few or too many words");
            Ok(())
        }
        _ => Err("it was read as a schedule".into()),
    }
}
