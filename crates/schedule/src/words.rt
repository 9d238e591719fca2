//! The words of a line, one after another.

ghost use Rattle.std.specs.Prelude.{◌≡◌, ◌≢◌, ◌<◌, [], ◌∷◌, ◌++◌, length, MatchOption, MatchResult};
ghost use Rattle.schedule.specs.Words.{words_of};
ghost use Rattle.schedule.specs.WordLists.{period_words, rect_words};

use super::fault::ScheduleFault;
use super::first_mark::first_end;
use std::marker::Model;

/// The words of a period.
#[derive(Clone, Copy)]
pub(crate) struct PeriodWords<'a> {
    pub begin: &'a [u8],
    pub end: &'a [u8],
}

/// The words of a rectangle.
#[derive(Clone, Copy)]
pub(crate) struct RectWords<'a> {
    pub x0: &'a [u8],
    pub y0: &'a [u8],
    pub x1: &'a [u8],
    pub y1: &'a [u8],
}

/// The words that were not read yet.
#[derive(Drop)]
pub struct Words<'a> {
    rest: Option<&'a [u8]>,
}

impl<'a> Model for Words<'a> {
    ghost use Rattle.std.specs.Prelude.{ℕ, List};
    ghost use Rattle.std.specs.Option.{option_copied};
    ghost use Rattle.schedule.specs.Lines.{pieces};
    ghost use Rattle.schedule.specs.Words.{blank};

    ghost Value = { List (List ℕ) };

    ghost view = { λ w. pieces blank (option_copied w.rest) };
}

impl<'a> Words<'a> {
    /// All words of the line.
    pub fn of(text: &'a [u8]) -> Words<'a>
        ensures { result ≡ words_of text.now }
    {
        Words { rest: Some(text) }
    }

    /// Takes the next word.
    pub fn next(&mut self) -> Option<&'a [u8]>
        ensures { MatchOption result ((self.old ≡ []) × (self.new ≡ [])) (λ word. self.old ≡ word.now ∷ self.new) }
    {
        let text = self.rest?;
        let end = first_end(text, b' ');
        if end < text.len() {
            self.rest = Some(&text[end + 1..]);
            return Some(&text[..end]);
        }
        self.rest = None;
        Some(text)
    }

    /// Takes the next word, which has to be there.
    pub(crate) fn needed(&mut self) -> Result<&'a [u8], ScheduleFault>
        ensures { MatchResult result (λ word. self.old ≡ word.now ∷ self.new)
            (λ fault. (fault ≡ ScheduleFault.WordCount) × (self.old ≡ [])) }
    {
        self.next().ok_or(ScheduleFault::WordCount)
    }

    /// Takes the next two words, which have to be there.
    pub fn needed_pair(&mut self) -> Result<(&'a [u8], &'a [u8]), ScheduleFault>
        ensures { MatchResult result
            (λ words. self.old ≡ words.0.now ∷ words.1.now ∷ self.new)
            (λ fault. (fault ≡ ScheduleFault.WordCount) × (length self.old < 2)) }
    {
        let first = self.needed()?;
        let second = self.needed()?;
        Ok((first, second))
    }

    /// Takes the next two words, which have to be there, as those of a period.
    pub(crate) fn needed_period(&mut self) -> Result<PeriodWords<'a>, ScheduleFault>
        ensures { MatchResult result (λ period. self.old ≡ period_words period ++ self.new)
            (λ fault. (fault ≡ ScheduleFault.WordCount) × (length self.old < 2)) }
    {
        let (begin, end) = self.needed_pair()?;
        Ok(PeriodWords { begin, end })
    }

    /// The four words that are left.
    pub(crate) fn only_rect(mut self) -> Result<RectWords<'a>, ScheduleFault>
        ensures { MatchResult result (λ rect. self.entry ≡ rect_words rect)
            (λ fault. (fault ≡ ScheduleFault.WordCount) × (length self.entry ≢ 4)) }
    {
        let x0 = self.needed()?;
        let y0 = self.needed()?;
        let (x1, y1) = self.pair()?;
        Ok(RectWords { x0, y0, x1, y1 })
    }

    /// All that is left of the line, blanks included.
    pub fn rest(self) -> Result<&'a [u8], ScheduleFault>
        ensures { MatchResult result (λ text. self.entry ≡ words_of text.now)
            (λ fault. (fault ≡ ScheduleFault.WordCount) × (self.entry ≡ [])) }
    {
        self.rest.ok_or(ScheduleFault::WordCount)
    }

    /// Nothing may be left.
    pub fn end(mut self) -> Result<(), ScheduleFault>
        ensures { MatchResult result (λ _. self.entry ≡ [])
            (λ fault. (fault ≡ ScheduleFault.WordCount) × (length self.entry ≢ 0)) }
    {
        match self.next() {
            Some(_) => Err(ScheduleFault::WordCount),
            None => Ok(()),
        }
    }

    /// The one word that is left.
    pub fn only(mut self) -> Result<&'a [u8], ScheduleFault>
        ensures { MatchResult result (λ word. self.entry ≡ word.now ∷ [])
            (λ fault. (fault ≡ ScheduleFault.WordCount) × (length self.entry ≢ 1)) }
    {
        let word = self.needed()?;
        self.end()?;
        Ok(word)
    }

    /// The two words that are left.
    pub fn pair(mut self) -> Result<(&'a [u8], &'a [u8]), ScheduleFault>
        ensures { MatchResult result (λ words. self.entry ≡ words.0.now ∷ words.1.now ∷ [])
            (λ fault. (fault ≡ ScheduleFault.WordCount) × (length self.entry ≢ 2)) }
    {
        let first = self.needed()?;
        let second = self.only()?;
        Ok((first, second))
    }
}
