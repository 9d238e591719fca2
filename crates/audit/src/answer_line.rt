//! Lines `answer`.

ghost use Rattle.std.specs.Prelude.{ℕ, List, MatchOption};
ghost use Rattle.audit.specs.Rows.{IsAnswer};

use schedule::Words;
use schedule::forms::below;
use synod::SLOTS;

/// The answer of a node, as a line tells it.
#[derive(Clone, Copy)]
pub(crate) struct AnswerRow<'a> {
    pub node: u8,
    pub position: u32,
    pub text: &'a [u8],
}

/// The node, the position and the text, after `answer`.
pub(crate) fn answer_row<'a>(nodes: u8, mut words: Words<'a>) -> Option<AnswerRow<'a>>
    ensures { MatchOption result ((node position : ℕ) (text : List ℕ) → ¬ IsAnswer nodes words.entry node position text)
        (λ answer. IsAnswer nodes words.entry answer.node answer.position answer.text.now) }
{
    let Ok((node, position)) = words.needed_pair() else {
        return None;
    };
    let Ok(text) = words.rest() else {
        return None;
    };
    let node = below(nodes.into(), node)? as u8;
    let position = below(u64::from(SLOTS) + 1, position)? as u32;
    Some(AnswerRow {
        node,
        position,
        text,
    })
}
