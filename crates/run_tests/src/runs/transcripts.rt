//! Schedules with their transcripts, over the files of a folder and over tables in memory.

use crate::runs::checks::LINE;
use crate::runs::folders::make_folder;
use crate::runs::program::{FIRST_LINES, FIRST_RUN};
use crate::runs::streams::ends_so;
use commands::{Archive, Failure, replay};
use sqlite::MemStore;
use sqlstable::SqlStable;
use stable::StableFault;
use std::alloc::{AllocError, Global};
use std::fs;
use std::test::Fail;
use wire::Nodes;

const FOLDER: &str = "transcripts_test";

const SCHEDULE: &str = "transcripts_test.schedule";

// rounds in each other's way, and what is told of them
const ROUNDS: &str = "nodes 3\nround 2 0 2\nround 0 0 1\nround 0 0 1\n";

pub(crate) const ROUND_LINES: &str =
    "learn 2 0 noop\nround 2 decided 0\nround 0 low 1.2\nlearn 0 0 noop\nround 0 decided 0\n";

// schedules of three nodes, each with its transcript
const TOLD: [(&str, &str); 5] = [
    (ROUNDS, ROUND_LINES),
    // a vote that is written, though its write fails
    (
        "nodes 3\nsubmit 0 7 1 remove bus-7\ntimeout 0\n\
deliver 0\ndeliver 1\ndeliver 3\ndeliver 4\nfault 1 new\ndeliver 6\nrestart 1\nround 2 1 2\n",
        "stop 1 46\nlearn 2 0 7:1\nround 2 decided 0\n",
    ),
    // the same, where it isn't written
    (
        "nodes 3\nsubmit 0 7 1 remove bus-7\ntimeout 0\n\
deliver 0\ndeliver 1\ndeliver 3\ndeliver 4\nfault 1 old\ndeliver 6\nrestart 1\nround 2 1 2\n",
        "stop 1 46\nlearn 2 0 noop\nround 2 decided 0\n",
    ),
    // requests that come again after a restart, and one that leaves a gap
    (
        "nodes 3\nsubmit 0 7 1 remove bus-7\ntimeout 0\nflush\n\
restart 0\nquery 0 count\ntick 0\nflush\n\
submit 0 7 1 remove bus-7\ntimeout 0\nflush\nsubmit 0 7 3 remove bus-7\nflush\n",
        "learn 0 0 7:1\nreply 0 7:1 21\nlearn 1 0 7:1\nlearn 2 0 7:1\n\
answer 0 0 count 0\nlearn 0 0 7:1\n\
learn 0 1 7:1\nreply 0 7:1 21\nlearn 1 1 7:1\nlearn 2 1 7:1\n\
learn 0 2 7:3\nreply 0 7:3 32\nlearn 1 2 7:3\nlearn 2 2 7:3\n",
    ),
    // a no-op fills a gap
    (
        "nodes 3\nsubmit 0 7 1 remove a\nsubmit 0 8 1 remove b\ntimeout 0\n\
deliver 0\ndeliver 1\ndeliver 3\ndeliver 4\ndeliver 9\nround 2 1 2\nquery 2 count\n",
        "learn 2 0 noop\nlearn 2 1 8:1\nround 2 decided 0\nanswer 2 2 count 0\n",
    ),
];

const LED_TWICE_LINES: &str = "learn 0 0 7:1\nreply 0 7:1 0\nlearn 1 0 7:1\nlearn 2 0 7:1\n\
learn 0 1 7:1\nlearn 1 1 7:1\nreply 1 7:1 0\nlearn 2 1 7:1\n\
answer 0 2 count 1\nanswer 1 2 count 1\nanswer 2 2 count 1\n";

// One node leads after the other, and is asked for the same.
fn led_twice(alloc: Global) -> Result<String, Fail> {
    Ok(format!(in alloc;
        "nodes 3\nsubmit 0 7 1 put {LINE}timeout 0\nflush\nsubmit 1 7 1 put {LINE}timeout 1\nflush\n\
query 0 count\nquery 1 count\nquery 2 count\n"
    )?)
}

const FULL_LINES: &str = "refuse 0 44\n";

// As many requests as may wait, one more, and the first again.
fn waiting(alloc: Global) -> Result<String, Fail> {
    let mut schedule = String::from_str(alloc, "nodes 3\n")?;
    for number in 1..=65 {
        let line = format!(in alloc; "submit 0 7 {number} remove a\n")?;
        schedule.push_str(line.as_str())?;
    }
    schedule.push_str("submit 0 7 1 remove a\n")?;
    Ok(schedule)
}

// Whether a run prints its transcript with its records in memory, and with a file for each node.
fn is_kept(rt: &HostRuntime, schedule: &str, told: &str) -> Result<bool, Fail> {
    make_folder(rt, FOLDER)?;
    fs::write(rt, SCHEDULE, schedule.as_bytes())?;
    let done = (0, told, "");
    let in_memory = ends_so(rt, &["replay", SCHEDULE], b"", done)?;
    let in_files = ends_so(rt, &["replay", SCHEDULE, "--db", FOLDER], b"", done)?;
    Ok(in_memory && in_files && fs::read_dir(rt, FOLDER)?.count() == 3)
}

// What a run over them leaves is looked at where odd names are folders.
#[test]
fn transcripts_over_files(rt: HostRuntime) -> Result<(), Fail> {
    let alloc = rt.alloc();
    assert!(rt; is_kept(&rt, led_twice(alloc)?.as_str(), LED_TWICE_LINES)?);
    for (schedule, told) in TOLD {
        assert!(rt; is_kept(&rt, schedule, told)?, "{schedule}");
    }
    assert!(rt; is_kept(&rt, waiting(alloc)?.as_str(), FULL_LINES)?);
    fs::remove_dir_all(&rt, FOLDER)?;
    fs::remove_file(&rt, SCHEDULE)?;
    Ok(())
}

// Tables in memory, without a record.
fn three_tables(alloc: Global) -> Result<Vec<SqlStable<MemStore>>, StableFault> {
    let mut tables = Vec::with_capacity(alloc, 3)?;
    for _ in 0..3 {
        tables.push(SqlStable::open_in_memory(alloc)?)?;
    }
    Ok(tables)
}

// Hands out three tables in memory, whatever the folder.
#[derive(Drop)]
struct Tables;

impl Archive for Tables {
    type Records = SqlStable<MemStore>;

    fn read(&mut self, _rt: &HostRuntime, _path: &str) -> Result<Vec<u8>, Failure> {
        Err(Failure::Device)
    }

    fn open(
        &mut self,
        rt: &HostRuntime,
        _folder: &str,
        count: Nodes,
    ) -> Result<Vec<SqlStable<MemStore>>, Failure> {
        let Ok(tables) = three_tables(rt.alloc()) else {
            return Err(Failure::Device);
        };
        if tables.len() != usize::from(count.count()) {
            return Err(Failure::Device);
        }
        Ok(tables)
    }

    fn has_unmerged_log(
        &mut self,
        _rt: &HostRuntime,
        _folder: &str,
        _count: Nodes,
    ) -> Result<bool, AllocError> {
        Ok(false)
    }

    fn merge_logs(&mut self, _rt: &HostRuntime, _folder: &str, _count: Nodes) {}
}

fn is_told(rt: &HostRuntime, schedule: &[u8], told: &str) -> bool {
    match replay(rt, &mut Tables, FOLDER, schedule) {
        Ok(text) => text.as_slice() == told.as_bytes(),
        Err(_) => false,
    }
}

#[test]
fn transcripts_over_tables(rt: HostRuntime) -> Result<(), Fail> {
    let alloc = rt.alloc();
    assert!(rt; is_told(&rt, FIRST_RUN, FIRST_LINES));
    assert!(rt; is_told(&rt, led_twice(alloc)?.as_bytes(), LED_TWICE_LINES));
    for (schedule, told) in TOLD {
        assert!(rt; is_told(&rt, schedule.as_bytes(), told), "{schedule}");
    }
    assert!(rt; is_told(&rt, waiting(alloc)?.as_bytes(), FULL_LINES));
    Ok(())
}
