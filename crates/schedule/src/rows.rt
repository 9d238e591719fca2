//! The words after a keyword.

ghost use Rattle.std.specs.Prelude.{◌≡◌, ℕ, ◌∷◌, MatchResult};
ghost use Rattle.schedule.specs.Keywords.{text_of};
ghost use Rattle.schedule.specs.Rows.{IsFaultAt, IsWordsFault};
ghost use Rattle.schedule.specs.Spelling.{IsOneWord, WordsSpell};
ghost use Rattle.schedule.specs.Table.{IsNode, IsFrameNumber, keyword_places};
ghost use Rattle.schedule.specs.PendingLines.{WordsGive};
ghost use Rattle.schedule.specs.declared.action.Action.TheVariants.{Step};

use super::fault::ScheduleFault;
use super::forms::{decimal, failing, node};
use super::keyword::Keyword;
use super::pending_line::{PendingLine, PendingRound};
use super::words::Words;
use events::Event;
use wire::{NodeId, Nodes};

/// After `deliver` and `drop`: the number of a frame.
pub(crate) fn frame_row(words: Words) -> Result<u64, ScheduleFault>
    ensures { MatchResult result (λ frame. IsOneWord (λ word. IsFrameNumber word frame) words.entry)
        (λ fault. (n : ℕ) → IsFaultAt n (keyword_places Keyword.Deliver) words.entry fault) }
{
    decimal(words.only()?).ok_or(ScheduleFault::WordForm)
}

/// After `timeout`, `tick`, `checkpoint`, `trim` and `restart`: a node.
pub(crate) fn node_row(nodes: Nodes, words: Words) -> Result<NodeId, ScheduleFault>
    ensures { MatchResult result (λ node. IsOneWord (λ word. IsNode nodes word node) words.entry)
        (IsFaultAt nodes (keyword_places Keyword.Timeout) words.entry) }
{
    node(nodes, words.only()?).ok_or(ScheduleFault::WordForm)
}

/// After `fault`: a node, and how its next put, or its next reading of the keys, fails.
pub(crate) fn fault_row(nodes: Nodes, words: Words) -> Result<Event, ScheduleFault>
    ensures { MatchResult result
        (λ event. WordsSpell nodes (text_of Keyword.Fault ∷ words.entry) (Step event))
        (IsFaultAt nodes (keyword_places Keyword.Fault) words.entry) }
{
    let (target, how) = words.pair()?;
    match node(nodes, target) {
        Some(node) => match failing(how) {
            Some(failing) => Ok(Event::Fault(node, failing)),
            None => Err(ScheduleFault::WordForm),
        },
        None => Err(ScheduleFault::WordForm),
    }
}

/// After `round`: a node, and its members, which are all that is left.
pub(crate) fn round_row<'a>(
    nodes: Nodes,
    mut words: Words<'a>,
) -> Result<PendingLine<'a>, ScheduleFault>
    ensures { MatchResult result (WordsGive nodes (text_of Keyword.Round ∷ words.entry))
        (IsWordsFault nodes (text_of Keyword.Round ∷ words.entry)) }
{
    let target = words.needed()?;
    let members = words.rest()?;
    match node(nodes, target) {
        Some(node) => Ok(PendingLine::Round(PendingRound { node, members })),
        None => Err(ScheduleFault::WordForm),
    }
}
