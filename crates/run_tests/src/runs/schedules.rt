//! Lines of schedules with their faults, and a run over records. Schedules with their transcripts are the examples.

use crate::runs::worlds::three_storages;
use events::WorldFault;
use replay::run;
use schedule::{
    ReplayCause, ReplayFault, faulty_is_no_schedule, first_faults_are_one, parse_schedule,
    schedules_are_one,
};
use stable::MemStable;
use std::alloc::Global;
use std::test::Fail;

// the number of a fault, and lines that have it after `nodes 3`, parted by line feeds
const LATER: [(u8, &str); 9] = [
    (
        1,
        "\tflush\n\
deliver 8\t\n\
flush\r\n\
foo\x7F\n\
submit 0 7 1 remove \u{e9}",
    ),
    (
        2,
        "\x20\n\
\x20flush\n\
\x20deliver 4\n\
0\n\
foo\n\
Flush\n\
deliver0\n\
dTeliver 6\n\
timeou 2\n\
rounds 0 0\n\
checkpoints 9\n\
query 0 foo\n\
query 0 \n\
query 0 counet\n\
query x foo 1\n\
submit 0 7 1 \n\
submit 0 245 1 1 remove c\n\
submit 0 7 1 putt {}\n\
query 0  count\n\
query 9 speed a",
    ),
    (
        3,
        "nodes 3\n\
nodes\n\
nodes 4 x",
    ),
    (
        4,
        "flush \n\
flush 0\n\
deliver\n\
deliver 0 1\n\
deliver x \n\
timeout  0\n\
tick\n\
restart 0 0\n\
fault 0\n\
round\n\
round x\n\
fault 0 old now\n\
query 0\n\
query 0 count \n\
submit\n\
submit 0\n\
submit 0 7 1\n\
submit 0 7 1 remove\n\
submit 0 7 1 remove a b\n\
submit 0 7 1 put\n\
submit 0 7 1 append a\n\
submit 9 7 0 append a b\n\
submit 0 7 1 append a 2020-01-01T00:00:00Z 1 2 3\n\
query 0 get\n\
query 0 get a b\n\
query 0 at a\n\
query 0 cut a 2020-01-01T00:00:00Z\n\
query 0 ever a 2020-01-01T00:00:00Z 2020-01-02T00:00:00Z 0 0 1\n\
query 0 within 2020-01-01T00:00:00Z 2020-01-02T00:00:00Z 0 0 1 1 2",
    ),
    (
        5,
        "deliver \n\
deliver x\n\
deliver -1\n\
deliver +1\n\
deliver 00\n\
drop 18446744073709551616\n\
timeout 3\n\
tick 00\n\
query  count\n\
fault 0 other\n\
fault 3 new\n\
round 0  0\n\
round 0 1 3\n\
submit 0 256 1 remove a\n\
submit 0 7 0 remove a\n\
submit 0 255 18446744073709551616 remove a\n\
submit 0 7 1 remove a/b\n\
submit 0 7 1 remove xxxxxxxxxxxxxxxxxxxxxxxxxxxxxxxxxxxxxxxxxxxxxxxxxxxxxxxxxxxxxxxxx\n\
submit 9 7 1 put {bad\n\
submit 0 7 0 put {}\n\
submit 0 7 1 append a 2020-01-01 1 2\n\
submit 0 7 1 append a 2020-02-30T00:00:00Z 1 2\n\
submit 0 7 1 append a 2020-01-01T00:00:00Z -0 2\n\
submit 0 7 1 append a 2020-01-01T00:00:00Z 1 02\n\
submit 0 7 1 append a 2020-01-01T00:00:00Z +1 2\n\
submit 0 7 1 append a 2020-01-01T00:00:00Z 1 -\n\
submit 0 7 1 append a 2020-01-01T00:00:00Z 10000000001 2\n\
submit 0 7 1 append a 2020-01-01T00:00:00Z 1 -10000000001\n\
query 0 get a/b\n\
query 3 count\n\
query 0 at a 2020-01-01T00:00:00\n\
query 0 cut a 2020-01-02T00:00:00Z 2020-01-01T00:00:00Z\n\
query 0 ever a 2020-01-01T00:00:00Z 2020-01-02T00:00:00Z 1 0 0 1\n\
query 0 always a 2020-01-01T00:00:00Z 2020-01-02T00:00:00Z 0 1 1 0\n\
query 0 within 2020-01-01T00:00:00Z 2020-01-02T00:00:00Z 0 0 -0 1",
    ),
    // Two marks, a mark on the wrong side, another mark, a mark alone.
    (
        5,
        "query 0 cut a [[2020-01-01T00:00:00Z 2020-01-02T00:00:00Z\n\
query 0 cut a ([2020-01-01T00:00:00Z 2020-01-02T00:00:00Z\n\
query 0 cut a 2020-01-01T00:00:00Z 2020-01-02T00:00:00Z))\n\
query 0 cut a 2020-01-01T00:00:00Z 2020-01-02T00:00:00Z])\n\
query 0 cut a )2020-01-01T00:00:00Z 2020-01-02T00:00:00Z\n\
query 0 cut a 2020-01-01T00:00:00Z[ 2020-01-02T00:00:00Z\n\
query 0 cut a 2020-01-01T00:00:00Z) 2020-01-02T00:00:00Z\n\
query 0 cut a 2020-01-01T00:00:00Z 2020-01-02T00:00:00Z(\n\
query 0 ever a ]2020-01-01T00:00:00Z 2020-01-02T00:00:00Z 0 0 1 1\n\
query 0 ever a 2020-01-01T00:00:00Z [2020-01-02T00:00:00Z 0 0 1 1\n\
query 0 always a 2020-01-01T00:00:00Z (2020-01-02T00:00:00Z 0 0 1 1\n\
query 0 within 2020-01-01T00:00:00Z 2020-01-02T00:00:00Z[ 0 0 1 1\n\
query 0 within {2020-01-01T00:00:00Z 2020-01-02T00:00:00Z} 0 0 1 1\n\
query 0 cut a [ 2020-01-02T00:00:00Z\n\
query 0 cut a 2020-01-01T00:00:00Z )",
    ),
    // A period without an instant.
    (
        5,
        "query 0 cut a (2020-01-01T00:00:00Z 2020-01-01T00:00:00Z\n\
query 0 cut a (2020-01-01T00:00:00Z 2020-01-01T00:00:00Z]\n\
query 0 ever a 2020-01-01T00:00:00Z 2020-01-01T00:00:00Z) 0 0 1 1\n\
query 0 always a [2020-01-01T00:00:00Z 2020-01-01T00:00:00.000Z) 0 0 1 1\n\
query 0 within (2020-01-01T00:00:00Z 2020-01-01T00:00:00Z) 0 0 1 1\n\
query 0 within (2020-01-02T00:00:00Z 2020-01-01T00:00:00Z) 0 0 1 1",
    ),
    // A mark at a datetime that is no end of a period.
    (
        5,
        "query 0 at a [2020-01-01T00:00:00Z\n\
query 0 at a (2020-01-01T00:00:00Z\n\
query 0 at a 2020-01-01T00:00:00Z]\n\
query 0 at a 2020-01-01T00:00:00Z)\n\
submit 0 7 1 append a [2020-01-01T00:00:00Z 1 2\n\
submit 0 7 1 append a (2020-01-01T00:00:00Z 1 2\n\
submit 0 7 1 append a 2020-01-01T00:00:00Z] 1 2\n\
submit 0 7 1 append a 2020-01-01T00:00:00Z) 1 2",
    ),
    (
        6,
        "submit 0 7 1 put \n\
submit 0 7 1 put {}\n\
submit 0 7 1 put {bad\n\
submit 0 7 1 put  {} ",
    ),
];

// a file, the first faulty line, and the fault that is told of it
const FILES: [(&[u8], u64, u8); 33] = [
    (b"", 1, 3),
    (b"\n\n", 1, 3),
    (b"nodes 4", 1, 3),
    (b"nodes 1", 1, 3),
    (b"nodes 8\n", 1, 3),
    (b"nodes 03", 1, 3),
    (b"nodes 05", 1, 3),
    (b"nodes 57", 1, 3),
    (b"nodes 3 ", 1, 3),
    (b"nodes 5 ", 1, 3),
    (b"nodes  7", 1, 3),
    (b"nodes ", 1, 3),
    (b"nodes", 1, 3),
    (b"flush", 1, 3),
    (b"submit 0 7 1", 1, 3),
    (b"query 0 count", 1, 3),
    (b"\n\nflush\nfoo", 3, 3),
    (b"nodes 3\r\nflush\r\n", 1, 1),
    (b" nodes 3", 1, 2),
    (b" ", 1, 2),
    (b"foo", 1, 2),
    (b"query 0 foo", 1, 2),
    (b"submit 0 7 1 put {}", 1, 3),
    (b"submit 0 7 1 putt {}", 1, 2),
    (b"round 1", 1, 3),
    (b"nodes 3\nflush\nsubmit 0 7 1 put {}\nfoo", 3, 6),
    (b"nodes 3\nflush\n\nnodes 3\nfoo\n", 4, 3),
    (b"nodes 3\n\n\ntick 3", 4, 5),
    (b"nodes 3\nflush\n \n", 3, 2),
    (b"nodes 3\nflush\ntick\n\t\n", 3, 4),
    (b"nodes 5\ntimeout 4\ntick 5", 3, 5),
    (b"nodes 7\nrestart 6\nquery 7 count", 3, 5),
    (b"nodes 5\nnodes 7", 2, 3),
];

fn refusal(alloc: Global, bytes: &[u8]) -> Option<(u64, u8)> {
    match parse_schedule(alloc, bytes) {
        Err(fault) => Some((fault.line, fault.cause.code())),
        Ok(_) => None,
    }
}

// Whether it is the second line's fault where this follows `nodes 3`.
fn is_second_lines(alloc: Global, line: &str, fault: u8) -> Result<bool, Fail> {
    let mut file = b"nodes 3\n".to_vec(alloc)?;
    file.extend_from_slice(line.as_bytes())?;
    Ok(refusal(alloc, &file) == Some((2, fault)))
}

#[test]
fn faults_of_later_lines(rt: HostRuntime) -> Result<(), Fail> {
    for (fault, lines) in LATER {
        for line in lines.split('\n') {
            assert!(rt;
                is_second_lines(rt.alloc(), line, fault)?,
                "{fault} of {line}"
            );
        }
    }
    Ok(())
}

#[test]
fn first_faults_of_files(rt: HostRuntime) -> Result<(), Fail> {
    for (file, line, fault) in FILES {
        assert_eq!(rt;
            refusal(rt.alloc(), file),
            Some((line, fault)),
            "of {file:?}"
        );
    }
    Ok(())
}

#[test]
fn laws_run_nothing() {
    schedules_are_one();
    faulty_is_no_schedule();
    first_faults_are_one();
}

// a file, and its transcript
const ONE_REQUEST: (&[u8], &[u8]) = (
    b"nodes 3\nsubmit 0 7 1 remove bus-7\ntimeout 0\nflush\n",
    b"learn 0 0 7:1\nreply 0 7:1 21\nlearn 1 0 7:1\nlearn 2 0 7:1\n",
);

/// Whether a run of one request over these storages has its transcript.
fn is_told_over(alloc: Global, stores: Vec<MemStable>) -> Result<bool, ReplayFault> {
    let (file, wanted) = ONE_REQUEST;
    let schedule = parse_schedule(alloc, file)?;
    if stores.len() != usize::from(schedule.nodes().count()) {
        return Ok(false);
    }
    Ok(run(alloc, schedule, stores)?.text.as_slice() == wanted)
}

/// A run over storages that are handed over has the transcript of a replay, where these are empty.
#[test]
fn runs_over_records(rt: HostRuntime) -> Result<(), Fail> {
    let alloc = rt.alloc();
    assert_eq!(rt; is_told_over(alloc, three_storages(alloc, 3)?), Ok(true));
    let not_empty = ReplayFault {
        line: 1,
        cause: ReplayCause::World(WorldFault::NotEmpty),
    };
    assert_eq!(rt;
        is_told_over(alloc, three_storages(alloc, 2)?),
        Err(not_empty)
    );
    Ok(())
}
