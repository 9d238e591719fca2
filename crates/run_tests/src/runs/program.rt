//! Whole runs of the program: what goes in, and all that comes out. Further ones are the examples.

use crate::runs::clusters::REMOVED;
use crate::runs::loopbacks::end_with_strangers;
use crate::runs::streams::{answer, ends_so};
use std::test::Fail;

// the main job
pub(crate) const FIRST_RUN: &[u8] = b"nodes 3\nsubmit 0 7 1 remove bus-7\ntimeout 0\nflush\n";

pub(crate) const FIRST_LINES: &str =
    "learn 0 0 7:1\nreply 0 7:1 21\nlearn 1 0 7:1\nlearn 2 0 7:1\n";

/// Whether the run's lines are told, in some order, and then how many strangers there were.
fn is_looped(rt: &HostRuntime, schedule: &[u8], lines: &[&str]) -> Result<bool, Fail> {
    let (status, out, err) = answer(rt, &["loopback", "-"], schedule)?;
    Ok(status == 0 && err.is_empty() && end_with_strangers(out.as_slice(), lines))
}

#[test]
fn schedules_through_sockets(rt: HostRuntime) -> Result<(), Fail> {
    assert!(rt; is_looped(&rt, FIRST_RUN, REMOVED.as_slice())?);
    let round = ["learn 0 0 noop", "round 0 decided 0"];
    assert!(rt; is_looped(&rt, b"nodes 3\nround 0 0 1\n", round.as_slice())?);
    let fault = (1, "", "mfpx: line 2 fault 2\n");
    assert!(rt; ends_so(&rt, &["loopback", "-"], b"nodes 3\nflash\n", fault)?);
    Ok(())
}
