//! What one line spells, but for its document.

ghost use Rattle.std.specs.Prelude.{◌≡◌, ◌≤◌, ◌∷◌, ℕ, All, IsTrue, MatchBool, MatchOption, MatchResult};
ghost use Rattle.schedule.specs.Codes.{IsLowestFault};
ghost use Rattle.schedule.specs.Keywords.{text_of};
ghost use Rattle.schedule.specs.Rows.{IsWordsFault, in_first_line};
ghost use Rattle.schedule.specs.Table.{HasFault, HasFirstFault, IsNodesLine, IsPrintable, IsNotPrintable};
ghost use Rattle.schedule.specs.PendingLines.{LineGives, WordsGive};

use super::action::Action;
use super::fault::ScheduleFault;
use super::keyword::{Keyword, keyword_of};
use super::pending_line::PendingLine;
use super::queries::query_row;
use super::rows::{fault_row, frame_row, node_row, round_row};
use super::submits::submit_row;
use super::words::Words;
use events::Event;
use wire::Nodes;

/// How many nodes the first line says that there are.
pub fn nodes_line(text: &[u8]) -> Result<Nodes, ScheduleFault>
    ensures { MatchResult result (IsNodesLine text.now) (IsLowestFault (HasFirstFault text.now)) }
{
    if let Some(nodes) = run_size(text) {
        return Ok(nodes);
    }
    // What is told of it is the same in every run.
    let Err(fault) = later_line(smallest_run(), text) else {
        return Err(ScheduleFault::NodesLine);
    };
    Err(in_first_line(fault))
}

/// What is told of a first line that is no right one, where this would be its fault as a later line.
fn in_first_line(fault: ScheduleFault) -> ScheduleFault
    ensures { result ≡ in_first_line fault }
{
    match fault {
        ScheduleFault::NotPrintable => ScheduleFault::NotPrintable,
        ScheduleFault::UnknownWord => ScheduleFault::UnknownWord,
        _ => ScheduleFault::NodesLine,
    }
}

/// The nodes of a run of which this is the first line, or None where it is no right one.
#[tactic(auto, using(crate::proofs::FirstLines::right_text))]
fn run_size(text: &[u8]) -> Option<Nodes>
    ensures { MatchOption result ((n : ℕ) → ¬ IsNodesLine text.now n) (IsNodesLine text.now) }
{
    match text {
        b"nodes 3" => Nodes::new(3),
        b"nodes 5" => Nodes::new(5),
        b"nodes 7" => Nodes::new(7),
        _ => None,
    }
}

/// The nodes of the smallest run.
fn smallest_run() -> Nodes
    ensures { result ≡ 3 }
{
    match Nodes::new(3) {
        Some(nodes) => nodes,
        None => unreachable!(),
    }
}

/// What a later line spells, its document unread.
pub(crate) fn later_line<'a>(nodes: Nodes, text: &'a [u8]) -> Result<PendingLine<'a>, ScheduleFault>
    ensures { MatchResult result (LineGives nodes text.now) (IsLowestFault (HasFault nodes text.now)) }
{
    if !prints(text) {
        return Err(ScheduleFault::NotPrintable);
    }
    any_row(nodes, Words::of(text))
}

/// Whether all bytes of the line print.
fn prints(text: &[u8]) -> bool
    ensures { MatchBool result (All IsPrintable text.now) (IsNotPrintable text.now) }
{
    // Few lines don't print, and only of these it matters where.
    lie_between(text, 0x20, 0x7E) || text.iter().all(|byte| 0x20 <= *byte && *byte <= 0x7E)
}

/// Whether no byte is below the one or above the other. It doesn't stop early, so many bytes are looked at at once.
fn lie_between(text: &[u8], low: u8, high: u8) -> bool
    ensures { IsTrue result → All (λ byte. (low ≤ byte) × (byte ≤ high)) text.now }
{
    let mut least = low;
    let mut greatest = high;
    for byte in text {
        least = least.min(*byte);
        greatest = greatest.max(*byte);
    }
    least == low && greatest == high
}

/// What the words of a line spell.
fn any_row<'a>(nodes: Nodes, mut words: Words<'a>) -> Result<PendingLine<'a>, ScheduleFault>
    ensures { MatchResult result (WordsGive nodes words.entry) (IsWordsFault nodes words.entry) }
{
    let first = words.needed()?;
    if first == b"submit".as_slice() {
        return submit_row(nodes, words);
    }
    if first == b"query".as_slice() {
        return Ok(PendingLine::Whole(Action::Step(query_row(nodes, words)?)));
    }
    let keyword = keyword_of(first).ok_or(ScheduleFault::UnknownWord)?;
    row(nodes, keyword, words)
}

/// What a line is that begins with the keyword and goes on with the words.
fn row<'a>(
    nodes: Nodes,
    keyword: Keyword,
    words: Words<'a>,
) -> Result<PendingLine<'a>, ScheduleFault>
    ensures { MatchResult result (WordsGive nodes (text_of keyword ∷ words.entry))
        (IsWordsFault nodes (text_of keyword ∷ words.entry)) }
{
    match keyword {
        Keyword::Nodes => Err(ScheduleFault::NodesLine),
        Keyword::Deliver => Ok(PendingLine::Whole(Action::Step(Event::Deliver(frame_row(words)?)))),
        Keyword::Drop => Ok(PendingLine::Whole(Action::Step(Event::Drop(frame_row(words)?)))),
        Keyword::Flush => {
            words.end()?;
            Ok(PendingLine::Whole(Action::Flush))
        }
        Keyword::Timeout => Ok(PendingLine::Whole(Action::Step(Event::Timeout(node_row(
            nodes, words,
        )?)))),
        Keyword::Tick => Ok(PendingLine::Whole(Action::Step(Event::Tick(node_row(nodes, words)?)))),
        Keyword::Checkpoint => Ok(PendingLine::Whole(Action::Step(Event::Checkpoint(node_row(
            nodes, words,
        )?)))),
        Keyword::Trim => Ok(PendingLine::Whole(Action::Step(Event::Trim(node_row(nodes, words)?)))),
        Keyword::Restart => Ok(PendingLine::Whole(Action::Step(Event::Restart(node_row(
            nodes, words,
        )?)))),
        Keyword::Fault => Ok(PendingLine::Whole(Action::Step(fault_row(nodes, words)?))),
        Keyword::Round => round_row(nodes, words),
    }
}
