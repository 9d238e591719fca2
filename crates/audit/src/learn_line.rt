//! Lines `learn`.

ghost use Rattle.std.specs.Prelude.{ℕ, MatchOption};
ghost use Rattle.audit.specs.Rows.{IsLearn, IsName};
ghost use Rattle.verdicts.specs.declared.lines.Name.{Name as AName};

use crate::numbers::request;
use schedule::Words;
use schedule::forms::below;
use synod::SLOTS;
use verdicts::Name;

/// The slot and what was learnt there, after `learn`.
pub(crate) fn learn_row(nodes: u8, mut words: Words) -> Option<(u32, Name)>
    ensures { MatchOption result ((slot : ℕ) (name : AName) → ¬ IsLearn nodes words.entry slot name)
        (λ learnt. IsLearn nodes words.entry learnt.0 learnt.1) }
{
    let node = words.next()?;
    let (slot, name) = words.pair().ok()?;
    let _node = below(nodes.into(), node)?;
    let slot = below(SLOTS.into(), slot)? as u32;
    Some((slot, name_of(name)?))
}

/// What the word calls a command.
fn name_of(word: &[u8]) -> Option<Name>
    ensures { MatchOption result ((name : AName) → ¬ IsName word.now name) (IsName word.now) }
{
    if word == b"noop".as_slice() {
        return Some(Name::NoOp);
    }
    let (client, number) = request(word)?;
    Some(Name::Request { client, number })
}
