//! A line, and below it a caret under a place.

use crate::place::Place;
use std::alloc::{AllocError, Global};

/// How much of a long line is shown.
const WIDTH: usize = 100;

/// A line of a text, and how many bytes of it come before a place.
#[derive(Clone, Copy)]
pub(crate) struct LinePlace<'a> {
    /// Which line of the text it is, counted from 1.
    pub number: u64,
    pub text: &'a [u8],
    pub at: usize,
}

/// The line in which the byte stands that so many bytes come before.
pub(crate) fn line_at(bytes: &[u8], at: usize) -> LinePlace<'_> {
    let mut number = 1u64;
    let mut start = 0usize;
    for text in bytes.split(|byte| *byte == b'\n') {
        let end = start.saturating_add(text.len());
        if at <= end {
            return LinePlace {
                number,
                text,
                at: at.saturating_sub(start),
            };
        }
        start = end.saturating_add(1);
        number = number.saturating_add(1);
    }
    LinePlace {
        number,
        text: b"",
        at: 0,
    }
}

/// The line, what of it is near the place where it is long, and below it a caret and what was wanted.
pub(crate) fn picture(
    alloc: Global,
    line: LinePlace<'_>,
    wanted: &str,
) -> Result<String, AllocError> {
    let low = if line.text.len() > WIDTH {
        line.at.saturating_sub(WIDTH / 2)
    } else {
        0
    };
    let high = low.saturating_add(WIDTH).min(line.text.len());
    let shown = match line.text.get(low..high) {
        Some(part) => shown(alloc, part)?,
        None => String::new(alloc),
    };
    let before = if low > 0 { ".." } else { "" };
    let behind = if high < line.text.len() { ".." } else { "" };
    let number = format!(in alloc; "{}", line.number)?;
    let margin = blanks(alloc, number.len())?;
    let column = line.at.saturating_sub(low).saturating_add(before.len());
    let indent = blanks(alloc, column)?;
    format!(in alloc;
        "{} | {before}{}{behind}\n{} | {}^ {wanted}\n",
        number.as_str(),
        shown.as_str(),
        margin.as_str(),
        indent.as_str()
    )
}

/// The text, each byte in a column of its own.
fn shown(alloc: Global, part: &[u8]) -> Result<String, AllocError> {
    let mut text = String::new(alloc);
    for byte in part {
        let letter = match *byte {
            b'\t' => ' ',
            0x20..=0x7E => char::from(*byte),
            _ => '?',
        };
        text.push(letter)?;
    }
    Ok(text)
}

/// So many blanks.
fn blanks(alloc: Global, count: usize) -> Result<String, AllocError> {
    let mut text = String::new(alloc);
    for _ in 0..count {
        text.push(' ')?;
    }
    Ok(text)
}
