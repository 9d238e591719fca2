//! What a time index is asked for.

use super::fleet::name;
use super::numbers::STEP;
use super::scene::{EVERY, SHORT, START, instant, period};
use std::alloc::{AllocError, Global};
use timeindex::TimeIndex;
use tpoint::Period;

/// So many entries of ten minutes, each of which begins a minute after the one before.
pub fn index_of(alloc: Global, entries: u16) -> Result<TimeIndex, AllocError> {
    let mut index = TimeIndex::new(alloc);
    for place in 0..u32::from(entries) {
        let begin = START + u64::from(EVERY) * u64::from(place);
        let end = begin + 10 * u64::from(EVERY);
        index.insert(name(place), instant(begin), instant(end))?;
    }
    Ok(index)
}

/// One more than the number of entries that overlap the round's period.
pub fn overlap_number(
    alloc: Global,
    index: &TimeIndex,
    entries: u16,
    round: u32,
) -> Result<u64, AllocError> {
    let ids = index.overlapping(alloc, &period_of(entries, round))?;
    Ok(1 + ids.len() as u64)
}

/// The short period of a round, which begins a step later than that of the round before, and at the start again.
fn period_of(entries: u16, round: u32) -> Period {
    let extent = u64::from(EVERY) * u64::from(entries.max(1));
    let begin = START + u64::from(round) * STEP % extent;
    period(begin, begin + SHORT)
}
