//! Lines `round`.

ghost use Rattle.std.specs.Prelude.{◌≡◌, ℕ, List, [], ◌∷◌, ◌↔◌, IsTrue, MatchOption};
ghost use Rattle.audit.specs.Rows.{IsRound, EndSays, IsBallot, IsNumber, IsCampaignCode};

use crate::codes::is_campaign_code;
use crate::kind::{End, end_of};
use crate::numbers::{from_one, only_below, two_parts};
use schedule::Words;
use schedule::forms::below;
use synod::SLOTS;

/// Whether these are the words of the end of a manual round, after `round`.
pub(crate) fn is_round(nodes: u8, mut words: Words) -> bool
    ensures { IsTrue result ↔ IsRound nodes words.entry }
{
    let Ok((node, end)) = words.needed_pair() else {
        return false;
    };
    let Some(_node) = below(nodes.into(), node) else {
        return false;
    };
    match end_of(end) {
        Some(end) => says_end(nodes, end, words),
        None => false,
    }
}

/// Whether these words follow the one that says how a round ended.
fn says_end(nodes: u8, end: End, words: Words) -> bool
    ensures { IsTrue result ↔ EndSays nodes end words.entry }
{
    match end {
        End::Decided => is_below(SLOTS.into(), words),
        End::Low => is_low(nodes, words),
        End::NoQuorum => is_end(words),
        End::Refused => refuses(words),
        End::Down | End::Behind | End::Stopped => is_below(nodes.into(), words),
    }
}

/// Whether nothing is left.
fn is_end(words: Words) -> bool
    ensures { IsTrue result ↔ (words.entry ≡ []) }
{
    match words.end() {
        Ok(()) => true,
        Err(_) => false,
    }
}

/// Whether one number is left, below the limit.
fn is_below(limit: u64, words: Words) -> bool
    ensures { IsTrue result ↔ ((value : ℕ) × IsNumber limit words.entry value) }
{
    match only_below(limit, words) {
        Some(_) => true,
        None => false,
    }
}

/// Whether one number is left with which a node refuses to start a campaign.
fn refuses(words: Words) -> bool
    ensures { IsTrue result ↔ ((code : ℕ) × IsNumber 256 words.entry code × IsCampaignCode code) }
{
    match only_below(256, words) {
        Some(code) => is_campaign_code(code),
        None => false,
    }
}

/// Whether one word is left, which is a ballot.
fn is_low(nodes: u8, words: Words) -> bool
    ensures { IsTrue result
        ↔ ((word : List ℕ) × (words.entry ≡ word ∷ []) × ((round : ℕ) × (node : ℕ) × IsBallot nodes word round node)) }
{
    match words.only() {
        Ok(word) => is_ballot(nodes, word),
        Err(_) => false,
    }
}

/// Whether the word is a ballot.
fn is_ballot(nodes: u8, word: &[u8]) -> bool
    ensures { IsTrue result ↔ ((round : ℕ) × (node : ℕ) × IsBallot nodes word.now round node) }
{
    match ballot(nodes, word) {
        Some(_) => true,
        None => false,
    }
}

/// The round and the node of the ballot that the word is.
fn ballot(nodes: u8, word: &[u8]) -> Option<(u64, u64)>
    ensures { MatchOption result ((round node : ℕ) → ¬ IsBallot nodes word.now round node)
        (λ ballot. IsBallot nodes word.now ballot.0 ballot.1) }
{
    let (round, node) = two_parts(word, b'.')?;
    Some((from_one(round)?, below(nodes.into(), node)?))
}
