//! The words of a line, with their places.

use std::alloc::{AllocError, Global};

/// A word of a line.
#[derive(Clone, Copy)]
pub(crate) struct Word<'a> {
    /// How many bytes of the line come before it.
    pub at: usize,
    pub text: &'a [u8],
}

/// The words of a line: what stands between its blanks.
pub(crate) fn words_of<'a>(alloc: Global, text: &'a [u8]) -> Result<Vec<Word<'a>>, AllocError> {
    let mut words = Vec::new(alloc);
    let mut at = 0usize;
    for part in text.split(|byte| *byte == b' ') {
        words.push(Word { at, text: part })?;
        at = at.saturating_add(part.len()).saturating_add(1);
    }
    Ok(words)
}
