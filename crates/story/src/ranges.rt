//! Frames that wait, told as ranges.

ghost use Rattle.std.specs.Prelude.{◌≡◌, ◌++◌, IfOk, OnOk, option_to_list};
ghost use Rattle.story.specs.Ranges.{range_to, ranges_of};

use std::alloc::{AllocError, Global};

/// Frames that wait one behind another, from the number of the first to that of the last.
#[derive(Clone, Copy, Debug, PartialEq, Eq)]
pub(crate) struct Range {
    pub first: usize,
    pub last: usize,
}

/// The ranges of the frames that wait, from the lowest number on. `waiting` has a flag for each frame.
pub(crate) fn list_ranges(alloc: Global, waiting: &[bool]) -> Result<Vec<Range>, AllocError>
    ensures { IfOk result (λ ranges. ranges.items ≡ ranges_of waiting.now) }
{
    let mut ranges = Vec::new(alloc);
    let mut before = None;
    for number in 0..waiting.len() {
        if waiting[number] {
            before = Some(go_on(before, number));
        } else {
            push_some(&mut ranges, before)?;
            before = None;
        }
    }
    push_some(&mut ranges, before)?;
    Ok(ranges)
}

/// The range before a number goes on to it; where there is none, one begins.
fn go_on(before: Option<Range>, number: usize) -> Range
    ensures { result ≡ range_to before number }
{
    let first = match before {
        Some(range) => range.first,
        None => number,
    };
    Range {
        first,
        last: number,
    }
}

/// A range that has ended, if there is one, is listed.
fn push_some(ranges: &mut Vec<Range>, ended: Option<Range>) -> Result<(), AllocError>
    ensures { OnOk result (ranges.new.items ≡ ranges.old.items ++ option_to_list ended) }
{
    if let Some(range) = ended {
        ranges.push(range)?;
    }
    Ok(())
}
