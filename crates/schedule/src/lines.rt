//! The lines of a file, one after another.

ghost use Rattle.std.specs.Prelude.{◌≡◌, [], ◌∷◌, Some, filter, MatchOption, ◌↔◌, IsTrue};
ghost use Rattle.schedule.specs.Lines.{pieces, numbered, is_filled, line_feed};

use super::first_mark::cut;
use std::marker::Model;

/// A line, without its line feed.
#[derive(Clone, Copy)]
pub struct Line<'a> {
    /// Which line of the file it is, counted from 1.
    pub number: u64,
    pub text: &'a [u8],
}

/// The lines that were not read yet.
#[derive(Drop)]
pub struct Lines<'a> {
    rest: Option<&'a [u8]>,
    /// The number of the first of them.
    number: u64,
}

impl<'a> Model for Lines<'a> {
    ghost use Rattle.std.specs.Prelude.{◌+◌, ◌<◌, ◌^◌, List, length};
    ghost use Rattle.std.specs.Option.{option_copied};
    ghost use Rattle.schedule.specs.Lines.{NumberedText, pieces, numbered, line_feed};

    ghost Value = { List NumberedText };

    ghost view = { λ l. numbered l.number (pieces line_feed (option_copied l.rest)) };

    // Each line that is left has a number.
    ghost invariant = { λ l. l.number + length (pieces line_feed (option_copied l.rest)) < 2 ^ 64 };
}

impl<'a> Lines<'a> {
    /// All lines of the file.
    pub fn of(bytes: &'a [u8]) -> Lines<'a>
        ensures { result ≡ numbered 1 (pieces line_feed (Some bytes.now)) }
    {
        Lines {
            rest: Some(bytes),
            number: 1,
        }
    }

    /// Whether no line is left.
    pub fn is_over(&self) -> bool
        ensures { IsTrue result ↔ (self.now ≡ []) }
    {
        match self.rest {
            Some(_) => false,
            None => true,
        }
    }

    /// Takes the next line, which may be empty. One that ends the file behind its last line feed is a line here.
    pub fn next_piece(&mut self) -> Option<Line<'a>>
        ensures { MatchOption result ((self.old ≡ []) × (self.new ≡ []))
            (λ line. self.old ≡ record { number = line.number; text = line.text.now } ∷ self.new) }
    {
        let (text, rest) = cut(self.rest?, b'\n');
        let number = self.number;
        self.rest = rest;
        self.number += 1;
        Some(Line { number, text })
    }

    /// Takes the next line that is not empty.
    pub(crate) fn next(&mut self) -> Option<Line<'a>>
        ensures { MatchOption result ((filter is_filled self.old ≡ []) × (self.new ≡ []))
            (λ line. filter is_filled self.old
            ≡ record { number = line.number; text = line.text.now } ∷ filter is_filled self.new) }
    {
        while let Some(line) = self.next_piece() {
            if !line.text.is_empty() {
                return Some(line);
            }
        }
        None
    }
}
