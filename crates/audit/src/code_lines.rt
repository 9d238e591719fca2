//! Lines of a number, or of a node and a number: `refuse`, `stop`, `restore`, `strangers`.

ghost use Rattle.std.specs.Prelude.{ℕ, ◌+◌, ◌^◌, ◌↔◌, IsTrue, MatchOption};
ghost use Rattle.audit.specs.Rows.{IsNodeNumber, IsNumber, IsRefusalCode, IsStopCode};

use crate::codes::{is_refusal_code, is_stop_code};
use crate::numbers::{node_number, only_number};
use schedule::Words;
use synod::SLOTS;

/// The position that was restored, after `restore`.
pub(crate) fn restore_row(nodes: u8, words: Words) -> Option<u32>
    ensures { MatchOption result ((position : ℕ) → ¬ IsNodeNumber nodes (SLOTS + 1) words.entry position)
        (IsNodeNumber nodes (SLOTS + 1) words.entry) }
{
    Some(node_number(nodes, u64::from(SLOTS) + 1, words)? as u32)
}

/// Whether these are the words of a refusal, after `refuse`.
pub(crate) fn is_refusal(nodes: u8, words: Words) -> bool
    ensures { IsTrue result ↔ ((code : ℕ) × IsNodeNumber nodes 256 words.entry code × IsRefusalCode code) }
{
    match node_number(nodes, 256, words) {
        Some(code) => is_refusal_code(code),
        None => false,
    }
}

/// Whether these are the words of a stop, after `stop`.
pub(crate) fn is_stop(nodes: u8, words: Words) -> bool
    ensures { IsTrue result ↔ ((code : ℕ) × IsNodeNumber nodes 256 words.entry code × IsStopCode code) }
{
    match node_number(nodes, 256, words) {
        Some(code) => is_stop_code(code),
        None => false,
    }
}

/// Whether one number is left, of strangers, after `strangers`, which begins a transcript's last line.
pub(crate) fn is_last_count(is_last: bool, words: Words) -> bool
    ensures { IsTrue result ↔ (IsTrue is_last × ((count : ℕ) × IsNumber (2 ^ 64) words.entry count)) }
{
    match only_number(words) {
        Some(_) => is_last,
        None => false,
    }
}
