//! Runs for people: in words, as JSON, as pictures, and what they are made of.

use replay::{Unwatched, Watch};
use run_map::map;
use std::alloc::Global;
use std::str;
use std::test::Fail;
use story::{Entry, Form, draw, follow, list_run, tell};

const SCHEDULE: &[u8] = b"\
nodes 3
submit 0 7 1 remove bus-7

timeout 0
flush
query 1 count
deliver 99
tick 0
";

const WORDS: &str = "     1  nodes 3
     2  submit 0 7 1 remove bus-7
     4  timeout 0
        frames sent: 3, from number 0 on
     5  flush
        node 0 learns slot 0: 7:1
        node 0 replies to 7:1: 21, there is no feature with this id
        node 1 learns slot 0: 7:1
        node 2 learns slot 0: 7:1
        frames sent: 15, from number 3 on
     6  query 1 count
        node 1 answers at position 1: count 0
     7  deliver 99
fault 51 at line 7: no frame of this number was sent
        frames so far: 18, numbered from 0
";

const OBJECTS: &str = "\
{\"line\":5,\"what\":\"learn\",\"node\":2,\"slot\":0,\"command\":\"7:1\"}
{\"line\":6,\"what\":\"line\",\"text\":\"query 1 count\"}
{\"line\":6,\"what\":\"answer\",\"node\":1,\"position\":1,\"text\":\"count 0\"}
{\"line\":7,\"what\":\"line\",\"text\":\"deliver 99\"}
{\"line\":7,\"what\":\"fault\",\"code\":51,\"meaning\":\"no frame of this number was sent\",\"frames\":18,\"waiting\":[]}
";

const WELL: &[u8] = b"nodes 3\nquery 0 count\ntimeout 0\n";

const WELL_WORDS: &str = "     1  nodes 3
     2  query 0 count
        node 0 answers at position 0: count 0
     3  timeout 0
        frames sent: 3, from number 0 on
";

// One frame of the first campaign came, one was dropped, and the second one's wait.
const ROUNDS: &[u8] = b"\
nodes 3
submit 0 7 1 remove bus-7
timeout 0
deliver 0
drop 2
timeout 0
fault 1 old
round 0 0 1
deliver 1000
";

// Of each line that is done, its number and how many frames there are.
#[derive(Drop)]
struct Noted {
    lines: Vec<(u64, usize)>,
}

impl Watch for Noted {
    fn line_done(&mut self, line: u64, frames: usize) {
        let _ = self.lines.push((line, frames));
    }
}

fn text_of(alloc: Global, bytes: &[u8], form: Form, frames: bool) -> Result<String, Fail> {
    let account = tell(alloc, bytes, form, frames, &mut Unwatched)?;
    Ok(String::from_utf8(account.text)?)
}

#[test]
fn tells_what_came_of_each_line(rt: HostRuntime) -> Result<(), Fail> {
    let alloc = rt.alloc();
    let words = text_of(alloc, SCHEDULE, Form::Words, false)?;
    assert_eq!(rt; words.as_str(), WORDS);
    let framed = text_of(alloc, SCHEDULE, Form::Words, true)?;
    assert!(rt;
        framed
            .as_str()
            .contains("\n        frame 0 prepare 0 -> 0 slot 0 ballot 1.0\n")
    );
    assert!(rt; !framed.as_str().contains("frames sent"));
    let objects = text_of(alloc, SCHEDULE, Form::Json, true)?;
    assert!(rt; objects.as_str().ends_with(OBJECTS));
    Ok(())
}

#[test]
fn frames_that_wait_are_ranges(rt: HostRuntime) -> Result<(), Fail> {
    let words = text_of(rt.alloc(), ROUNDS, Form::Words, false)?;
    assert!(rt; words.as_str().contains("fault 51 at line 9"));
    let objects = text_of(rt.alloc(), ROUNDS, Form::Json, false)?;
    assert!(rt;
        objects
            .as_str()
            .contains("\"waiting\":[[1,1],[3,6],[9,10]]}")
    );
    Ok(())
}

#[test]
fn a_flush_without_end_names_what_waits(rt: HostRuntime) -> Result<(), Fail> {
    let alloc = rt.alloc();
    let mut text = String::from_str(alloc, "nodes 3\n")?;
    for _ in 0..3334 {
        text.push_str("timeout 0\n")?;
    }
    text.push_str("flush\n")?;
    let words = text_of(alloc, text.as_bytes(), Form::Words, false)?;
    assert!(rt; words.as_str().contains("\nfault 53 at line 3336: "));
    assert!(rt;
        words
            .as_str()
            .contains("\n        frames that wait: 10000 to 20001\n")
    );
    Ok(())
}

#[test]
fn a_run_that_ends_well_tells_no_fault(rt: HostRuntime) -> Result<(), Fail> {
    let words = text_of(rt.alloc(), WELL, Form::Words, false)?;
    assert_eq!(rt; words.as_str(), WELL_WORDS);
    Ok(())
}

#[test]
fn a_frame_that_was_delivered_came(rt: HostRuntime) -> Result<(), Fail> {
    let ledger = follow(rt.alloc(), ROUNDS, &mut Unwatched)?;
    let passages = ledger.passages.as_slice();
    assert!(rt; passages.first().and_then(|passage| passage.came).is_some());
    assert!(rt; passages.get(2).and_then(|passage| passage.came).is_none());
    Ok(())
}

#[test]
fn a_round_is_parted_into_its_deliveries(rt: HostRuntime) -> Result<(), Fail> {
    let alloc = rt.alloc();
    let ledger = follow(
        alloc,
        b"nodes 3\nsubmit 0 7 1 remove bus-7\nround 0 0 1\n",
        &mut Unwatched,
    )?;
    assert!(rt; ledger.fault.is_none());
    let mut came: usize = 0;
    for passage in ledger.passages.iter() {
        if let Some(step) = passage.came {
            came = came.saturating_add(1);
            assert!(rt; passage.sent < step);
        }
    }
    let mut wait: usize = 0;
    for waits in ledger.world.waiting() {
        if *waits {
            wait = wait.saturating_add(1);
        }
    }
    assert_eq!(rt; came, ledger.passages.len().saturating_sub(wait));
    assert_eq!(rt; ledger.steps.len(), came.saturating_add(4));
    let entries = list_run(alloc, &ledger)?;
    assert_eq!(rt; entries.first(), Some(&Entry::Line(0)));
    assert_eq!(rt; entries.last(), Some(&Entry::Step(came.saturating_add(3))));
    let mut end = 0;
    let mut learnt = 0;
    for (index, entry) in entries.iter().enumerate() {
        match entry {
            Entry::Step(step) if *step == came.saturating_add(2) => end = index,
            Entry::Learnt(0) => learnt = index,
            _ => {}
        }
    }
    assert!(rt; 0 < end && end < learnt);
    Ok(())
}

#[test]
fn a_frame_that_comes_to_a_node_that_is_down_is_lost(rt: HostRuntime) -> Result<(), Fail> {
    const DOWN: &[u8] = b"nodes 3\ntimeout 0\nfault 1 old\ndeliver 1\ndeliver 1\n";
    const LOST: &str =
        "     5  deliver 1\n        lost, as node 1 is down: frame 1 prepare 0 -> 1 slot 0 ballot 1.0\n";
    const OBJECT: &str =
        "{\"line\":5,\"what\":\"lost\",\"frame\":1,\"kind\":\"prepare\",\"from\":0,\"to\":1,\"slot\":0,\"ballot\":\"1.0\"}\n";
    let alloc = rt.alloc();
    let words = tell(alloc, DOWN, Form::Words, false, &mut Unwatched)?;
    assert!(rt; str::from_utf8(words.text.as_slice())?.contains(LOST));
    let objects = tell(alloc, DOWN, Form::Json, false, &mut Unwatched)?;
    assert!(rt; str::from_utf8(objects.text.as_slice())?.contains(OBJECT));
    let picture = draw(alloc, DOWN, None, None, &mut Unwatched)?;
    assert!(rt; str::from_utf8(picture.text.as_slice())?.contains("sign missed"));
    Ok(())
}

#[test]
fn a_frame_of_a_round_is_sent_when_what_it_answers_has_come(rt: HostRuntime) -> Result<(), Fail> {
    // Prepares; promises, behind the prepares at their senders; proposals, behind the second promise; votes, behind the proposals.
    const SENT: [usize; 14] = [1, 1, 1, 2, 3, 5, 5, 5, 6, 6, 6, 7, 7, 7];
    let ledger = follow(
        rt.alloc(),
        b"nodes 3\nsubmit 0 7 1 remove bus-7\nround 0 0 1\n",
        &mut Unwatched,
    )?;
    assert_eq!(rt; ledger.passages.len(), SENT.len());
    for index in 0..SENT.len() {
        assert_eq!(rt; ledger.passages[index].sent, SENT[index]);
    }
    Ok(())
}

#[test]
fn a_watch_is_told_of_each_line_that_is_done(rt: HostRuntime) -> Result<(), Fail> {
    let alloc = rt.alloc();
    let mut told = Noted {
        lines: Vec::new(alloc),
    };
    let _ = tell(alloc, SCHEDULE, Form::Words, false, &mut told)?;
    assert_eq!(rt;
        told.lines.as_slice(),
        [(2, 0), (4, 3), (5, 18), (6, 18)].as_slice()
    );
    let mut drawn = Noted {
        lines: Vec::new(alloc),
    };
    let _ = draw(alloc, WELL, None, None, &mut drawn)?;
    assert_eq!(rt; drawn.lines.as_slice(), [(2, 0), (3, 3)].as_slice());
    let mut mapped = Noted {
        lines: Vec::new(alloc),
    };
    let _ = map(alloc, WELL, None, 0, &mut mapped);
    assert_eq!(rt; mapped.lines.as_slice(), [(2, 0), (3, 3)].as_slice());
    Ok(())
}

#[test]
fn a_picture_has_lines_frames_and_marks(rt: HostRuntime) -> Result<(), Fail> {
    let account = draw(rt.alloc(), SCHEDULE, Some(1), Some(2), &mut Unwatched)?;
    assert!(rt; account.fault.is_some());
    let text = str::from_utf8(account.text.as_slice())?;
    assert!(rt; text.contains("frames 1 to 2 of 18, 3 nodes"));
    assert!(rt; text.contains("<title>frame 2 prepare 0 "));
    assert!(rt; !text.contains("<title>frame 3 "));
    let account = draw(rt.alloc(), SCHEDULE, None, None, &mut Unwatched)?;
    let text = str::from_utf8(account.text.as_slice())?;
    assert!(rt; text.contains("submit 0 7 1 remove bus-7"));
    assert!(rt; text.contains("node 0 learns slot 0: 7:1"));
    Ok(())
}
