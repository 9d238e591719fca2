//! All lines of several transcripts.

ghost use Rattle.std.specs.Prelude.{◌≡◌, ◌≢◌, ◌++◌, ◌∷◌, [], ℕ, List, map, IfOk, MatchOption};
ghost use Rattle.audit.specs.Files.{AreRead, PlacedText, placed, placed_lines, texts_from, transcript_lines, without_end};

use crate::line::Line;
use crate::rows::read_line;
use schedule::{Line as TextLine, Lines};
use std::alloc::{AllocError, Global};
use verdicts::{LearnLine, Place, ToldLine};

/// What the lines of transcripts tell, each in their order.
#[derive(Drop)]
pub(crate) struct Tellings {
    pub learns: Vec<LearnLine>,
    pub told: Vec<ToldLine>,
}

/// What the lines of these transcripts tell, in a run of so many nodes.
pub(crate) fn read_transcripts(
    alloc: Global,
    nodes: u8,
    transcripts: &[Vec<u8>],
) -> Result<Tellings, AllocError>
    ensures { IfOk result (λ read.
        AreRead nodes (texts_from 0 (map (λ t. t.items) transcripts.now)) read.learns.items read.told.items) }
{
    let mut read = Tellings {
        learns: Vec::new(alloc),
        told: Vec::new(alloc),
    };
    for (file, transcript) in transcripts.iter().enumerate() {
        read_transcript(alloc, nodes, file, transcript, &mut read)?;
    }
    Ok(read)
}

/// Adds what the lines of one transcript tell.
fn read_transcript(
    alloc: Global,
    nodes: u8,
    file: usize,
    transcript: &[u8],
    read: &mut Tellings,
) -> Result<(), AllocError>
    ensures { IfOk result (λ _. (before : List PlacedText) → AreRead nodes before read.old.learns.items read.old.told.items
        → AreRead nodes (before ++ placed_lines file (transcript_lines transcript.now)) read.new.learns.items read.new.told.items) }
{
    if transcript.is_empty() {
        return Ok(());
    }
    let mut lines = Lines::of(without_line_feed(transcript));
    while let Some(line) = lines.next_piece() {
        let is_last = lines.is_over();
        read_one(alloc, nodes, file, is_last, line, read)?;
    }
    Ok(())
}

/// The bytes without the line feed that ends them.
fn without_line_feed(bytes: &[u8]) -> &[u8]
    ensures { result.now ≡ without_end bytes.now }
{
    match before_line_feed(bytes) {
        Some(text) => text,
        None => bytes,
    }
}

/// What stands before the line feed that ends the bytes.
fn before_line_feed(bytes: &[u8]) -> Option<&[u8]>
    ensures { MatchOption result ((text : List ℕ) → bytes.now ≢ text ++ 10 ∷ [])
        (λ text. bytes.now ≡ text.now ++ 10 ∷ []) }
{
    bytes.strip_suffix(b"\n")
}

/// Adds what one line tells, which is the last of its transcript or isn't.
fn read_one(
    alloc: Global,
    nodes: u8,
    file: usize,
    is_last: bool,
    line: TextLine,
    read: &mut Tellings,
) -> Result<(), AllocError>
    ensures { IfOk result (λ _. (before : List PlacedText) → AreRead nodes before read.old.learns.items read.old.told.items
        → AreRead nodes (before ++ placed file is_last (record { number = line.entry.number; text = line.entry.text.now }) ∷ [])
        read.new.learns.items read.new.told.items) }
{
    let place = Place {
        file,
        line: line.number as usize,
    };
    match read_line(alloc, nodes, is_last, line.text)? {
        Line::Learn { slot, name } => read.learns.push(LearnLine { place, slot, name })?,
        Line::Told(told) => read.told.push(ToldLine { place, told })?,
    }
    Ok(())
}
