//! The texts of a schedule's lines.

ghost use Rattle.std.specs.Prelude.{◌≡◌, IfOk, map};
ghost use Rattle.story.specs.Lines.{text_at, texts_in};

use schedule::Lines;
use std::alloc::{AllocError, Global};

/// The texts of all lines of the file.
pub(crate) fn split_lines(alloc: Global, bytes: &[u8]) -> Result<Vec<&[u8]>, AllocError>
    ensures { IfOk result (λ texts. map (λ t. t.now) texts.items ≡ texts_in bytes.now) }
{
    let mut texts = Vec::new(alloc);
    let mut lines = Lines::of(bytes);
    while let Some(line) = lines.next_piece() {
        texts.push(line.text)?;
    }
    Ok(texts)
}

/// The text of the line of this number, counted from 1. Whatever parses has the line.
pub(crate) fn text_of<'a>(texts: &[&'a [u8]], number: u64) -> &'a [u8]
    ensures { result.now ≡ text_at (map (λ t. t.now) texts.now) number }
{
    match texts.get(number.saturating_sub(1) as usize) {
        Some(text) => text,
        None => &[],
    }
}
