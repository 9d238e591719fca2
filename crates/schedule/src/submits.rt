//! The words after `submit`.

ghost use Rattle.std.specs.Prelude.{◌≡◌, ℕ, ◌<◌, ◌∷◌, [], ◌++◌, length, MatchOption, MatchResult, codes};
ghost use Rattle.schedule.specs.Rows.{IsFaultAt, IsRowFault, IsWordsFault};
ghost use Rattle.schedule.specs.Spelling.{SpellsOp};
ghost use Rattle.schedule.specs.Submissions.{NamesAsker, asker_places, asker_words, submit_words};
ghost use Rattle.schedule.specs.Table.{HasMisfit, operation_places, submit_of};
ghost use Rattle.schedule.specs.PendingLines.{WordsGive};

use super::action::Action;
use super::fault::ScheduleFault;
use super::forms::{client, coordinate, id, instant, node, request_number};
use super::keyword::{Operation, operation_of};
use super::pending_line::{PendingLine, Putting};
use super::words::Words;
use events::Event;
use sessions::{Number, Submission};
use store::Op;
use tpoint::Point;
use wire::{NodeId, Nodes};

/// The words that say who asks whom, and under which number.
#[derive(Clone, Copy)]
struct AskerWords<'a> {
    node: &'a [u8],
    client: &'a [u8],
    number: &'a [u8],
}

/// A client that asks a node, under a number.
#[derive(Clone, Copy)]
struct Asker {
    node: NodeId,
    client: u8,
    number: Number,
}

/// After `submit`: a node, a client, a number, and what is asked for.
pub(crate) fn submit_row<'a>(
    nodes: Nodes,
    mut words: Words<'a>,
) -> Result<PendingLine<'a>, ScheduleFault>
    ensures { MatchResult result (WordsGive nodes (codes "submit" ∷ words.entry))
        (IsWordsFault nodes (codes "submit" ∷ words.entry)) }
{
    let (asking, word) = first_words(&mut words)?;
    let Some(operation) = operation_of(word) else {
        return Err(ScheduleFault::UnknownWord);
    };
    match operation {
        Operation::Put => put_row(nodes, asking, words),
        Operation::Append => append_row(nodes, asking, words),
        Operation::Remove => remove_row(nodes, asking, words),
    }
}

/// Takes the words that say who asks, and the one that says what for.
fn first_words<'a>(words: &mut Words<'a>) -> Result<(AskerWords<'a>, &'a [u8]), ScheduleFault>
    ensures { MatchResult result
        (λ first. words.old ≡ asker_words first.0 ++ first.1.now ∷ words.new)
        (λ fault. (fault ≡ ScheduleFault.WordCount) × (length words.old < 4)) }
{
    let (node, client) = words.needed_pair()?;
    let (number, word) = words.needed_pair()?;
    let asking = AskerWords {
        node,
        client,
        number,
    };
    Ok((asking, word))
}

/// After `put`: a document, which is all that is left.
fn put_row<'a>(
    nodes: Nodes,
    asking: AskerWords,
    words: Words<'a>,
) -> Result<PendingLine<'a>, ScheduleFault>
    ensures { MatchResult result (WordsGive nodes (submit_words asking.entry Operation.Put words.entry))
        (IsRowFault nodes (submit_of Operation.Put) (submit_words asking.entry Operation.Put words.entry)) }
{
    let document = words.rest()?;
    let Some(asker) = asker_of(nodes, asking) else {
        return Err(ScheduleFault::WordForm);
    };
    Ok(PendingLine::Put(Putting {
        node: asker.node,
        client: asker.client,
        number: asker.number,
        document,
    }))
}

/// After `append`: an id, an instant and two coordinates.
fn append_row<'a>(
    nodes: Nodes,
    asking: AskerWords,
    words: Words,
) -> Result<PendingLine<'a>, ScheduleFault>
    ensures { MatchResult result (WordsGive nodes (submit_words asking.entry Operation.Append words.entry))
        (IsRowFault nodes (submit_of Operation.Append) (submit_words asking.entry Operation.Append words.entry)) }
{
    let op = addition(words)?;
    let Some(asker) = asker_of(nodes, asking) else {
        return Err(ScheduleFault::WordForm);
    };
    Ok(submitted(asker, op))
}

/// After `remove`: an id.
fn remove_row<'a>(
    nodes: Nodes,
    asking: AskerWords,
    words: Words,
) -> Result<PendingLine<'a>, ScheduleFault>
    ensures { MatchResult result (WordsGive nodes (submit_words asking.entry Operation.Remove words.entry))
        (IsRowFault nodes (submit_of Operation.Remove) (submit_words asking.entry Operation.Remove words.entry)) }
{
    let op = removal(words)?;
    let Some(asker) = asker_of(nodes, asking) else {
        return Err(ScheduleFault::WordForm);
    };
    Ok(submitted(asker, op))
}

/// The point that the words add to a feature.
fn addition(mut words: Words) -> Result<Op, ScheduleFault>
    ensures { MatchResult result
        (λ op. (n : ℕ) → SpellsOp n Operation.Append words.entry op)
        (λ fault. (n : ℕ) → IsFaultAt n (operation_places Operation.Append) words.entry fault) }
{
    let name = words.needed()?;
    let datetime = words.needed()?;
    let (across, along) = words.pair()?;
    match appended(name, datetime, across, along) {
        Some(op) => Ok(op),
        None => Err(ScheduleFault::WordForm),
    }
}

/// The point that an id, an instant and two coordinates add to a feature.
fn appended(name: &[u8], datetime: &[u8], across: &[u8], along: &[u8]) -> Option<Op>
    ensures { MatchOption result
        ((n : ℕ) → HasMisfit n (operation_places Operation.Append) (name.now ∷ datetime.now ∷ across.now ∷ along.now ∷ []))
        (λ op. (n : ℕ) → SpellsOp n Operation.Append (name.now ∷ datetime.now ∷ across.now ∷ along.now ∷ []) op) }
{
    let Some(id) = id(name) else {
        return None;
    };
    let Some(t) = instant(datetime) else {
        return None;
    };
    let Some(x) = coordinate(across) else {
        return None;
    };
    let Some(y) = coordinate(along) else {
        return None;
    };
    Op::append(id, Point { t, x, y })
}

/// The removal of the feature that the words name.
fn removal(words: Words) -> Result<Op, ScheduleFault>
    ensures { MatchResult result
        (λ op. (n : ℕ) → SpellsOp n Operation.Remove words.entry op)
        (λ fault. (n : ℕ) → IsFaultAt n (operation_places Operation.Remove) words.entry fault) }
{
    let Some(id) = id(words.only()?) else {
        return Err(ScheduleFault::WordForm);
    };
    Ok(Op::Remove(id))
}

/// The client that asks.
fn asker_of(nodes: Nodes, words: AskerWords) -> Option<Asker>
    ensures { MatchOption result (HasMisfit nodes asker_places (asker_words words.entry))
        (NamesAsker nodes words.entry) }
{
    Some(Asker {
        node: node(nodes, words.node)?,
        client: client(words.client)?,
        number: request_number(words.number)?,
    })
}

/// What the client asks for, submitted.
fn submitted<'a>(asker: Asker, op: Op) -> PendingLine<'a>
    ensures { result ≡ PendingLine.Whole (Action.Step
        (Event.Submit asker.node (record { client = asker.client; number = asker.number; op = op }))) }
{
    PendingLine::Whole(Action::Step(Event::Submit {
        node: asker.node,
        submission: Submission {
            client: asker.client,
            number: asker.number,
            op,
        },
    }))
}
