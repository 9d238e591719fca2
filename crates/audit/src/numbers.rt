//! Numbers as words, alone and two in one.

ghost use Rattle.std.specs.Prelude.{◌≡◌, ◌≢◌, ℕ, ◌^◌, List, [], ◌∷◌, Some, MatchOption};
ghost use Rattle.schedule.specs.Lines.{pieces};
ghost use Rattle.schedule.specs.Table.{IsRequestNumber};
ghost use Rattle.audit.specs.Rows.{IsNumber, IsNodeNumber, IsRequest};

use schedule::forms::{below, decimal};
use schedule::{Words, cut};

/// The one number that is left, below the limit.
pub(crate) fn only_below(limit: u64, words: Words) -> Option<u64>
    ensures { MatchOption result ((value : ℕ) → ¬ IsNumber limit words.entry value) (IsNumber limit words.entry) }
{
    let word = words.only().ok()?;
    below(limit, word)
}

/// The one number that is left.
pub(crate) fn only_number(words: Words) -> Option<u64>
    ensures { MatchOption result ((value : ℕ) → ¬ IsNumber (2 ^ 64) words.entry value) (IsNumber (2 ^ 64) words.entry) }
{
    let word = words.only().ok()?;
    decimal(word)
}

/// The number below the limit that follows a node, where nothing else is left.
pub(crate) fn node_number(nodes: u8, limit: u64, words: Words) -> Option<u64>
    ensures { MatchOption result ((value : ℕ) → ¬ IsNodeNumber nodes limit words.entry value)
        (IsNodeNumber nodes limit words.entry) }
{
    let (node, number) = words.pair().ok()?;
    let _node = below(nodes.into(), node)?;
    below(limit, number)
}

/// The number from 1 on that the word writes.
pub(crate) fn from_one(word: &[u8]) -> Option<u64>
    ensures { MatchOption result ((value : ℕ) → ¬ IsRequestNumber word.now value) (IsRequestNumber word.now) }
{
    let value = decimal(word)?;
    if value == 0 { None } else { Some(value) }
}

/// The two parts of the word, on both sides of its one mark.
pub(crate) fn two_parts(word: &[u8], mark: u8) -> Option<(&[u8], &[u8])>
    ensures { MatchOption result
        ((first second : List ℕ) → pieces mark (Some word.now) ≢ first ∷ second ∷ [])
        (λ parts. pieces mark (Some word.now) ≡ parts.0.now ∷ parts.1.now ∷ []) }
{
    let (first, more) = cut(word, mark);
    let (second, others) = cut(more?, mark);
    match others {
        Some(_) => None,
        None => Some((first, second)),
    }
}

/// The client and the number of the request that the word names.
pub(crate) fn request(word: &[u8]) -> Option<(u8, u64)>
    ensures { MatchOption result ((client number : ℕ) → ¬ IsRequest word.now client number)
        (λ named. IsRequest word.now named.0 named.1) }
{
    let (first, second) = two_parts(word, b':')?;
    let client = below(256, first)? as u8;
    let number = from_one(second)?;
    Some((client, number))
}
