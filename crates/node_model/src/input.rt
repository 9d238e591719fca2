//! What comes to a node.

ghost use Rattle.std.specs.Prelude.{◌≡◌};
ghost use Rattle.std.specs.List.{list_all};
ghost use Rattle.node_model.specs.Inputs.{is_for_this_run, names_run, is_of_run, is_vote_of_run};

use sessions::{Command, Number};
use store::Op;
use synod::{Ballot, Vote};
use wire::{Entry, Envelope, Message, NodeId, Nodes};

/// What comes to a node.
#[derive(Drop)]
pub enum Input {
    /// A client's request.
    Submit { client: u8, number: Number, op: Op },
    /// A message, from whom it comes and to whom it goes.
    Message(Envelope),
    /// Its patience ends: it starts a campaign.
    Timeout,
    /// It is time to send again what may have been lost.
    Tick,
    /// What it has executed is to be written as a checkpoint.
    Checkpoint,
    /// The votes that its checkpoint stands for are to be taken out.
    Trim,
}

/// Whether an envelope concerns a node of a run of so many: it is addressed to the node, and names no node that the run
/// doesn't have.
pub fn is_for_this_run(id: NodeId, nodes: Nodes, envelope: &Envelope) -> bool
    ensures { result ≡ is_for_this_run id nodes envelope.now }
{
    let of_run = envelope.from.value() < nodes.count();
    let names_run = names_run(nodes, &envelope.message);
    envelope.to == id && of_run && names_run
}

/// Whether every node that the message names is of a run of so many.
fn names_run(nodes: Nodes, message: &Message) -> bool
    ensures { result ≡ names_run nodes message.now }
{
    match message {
        Message::Prepare { ballot, .. } => is_of_run(nodes, *ballot),
        Message::Promise(promise) => {
            let entries = are_of_run(nodes, promise.entries());
            is_of_run(nodes, promise.ballot()) && entries
        }
        Message::Nack(nack) => {
            let promised = is_of_run(nodes, nack.promised());
            is_of_run(nodes, nack.ballot()) && promised
        }
        Message::Accept(vote) | Message::Accepted(vote) => is_of_run(nodes, vote.ballot),
        Message::Ask { .. } | Message::Decided { .. } => true,
        Message::SnapAsk { .. } | Message::SnapPart(_) | Message::Behind { .. } => true,
    }
}

/// Whether the ballot is of a node of a run of so many.
fn is_of_run(nodes: Nodes, ballot: Ballot) -> bool
    ensures { result ≡ is_of_run nodes ballot }
{
    ballot.node < nodes.count()
}

/// Whether the ballots of all these votes are.
fn are_of_run(nodes: Nodes, entries: &[Entry]) -> bool
    ensures { result ≡ list_all (is_vote_of_run nodes) entries.now }
{
    entries
        .iter()
        .all(|entry| is_of_run(nodes, entry.vote().ballot))
}
