//! What a frame says, for people.

ghost use Rattle.std.specs.Prelude.{◌≡◌, ◌++◌, OnOk};
ghost use Rattle.diagram.specs.Facts.{ballot_text, facts_of, frame_text, kind_text, slot_text};

use std::io::{self, Write};
use synod::Ballot;
use wire::{Kind, Message, NodeId};

/// What stands in the head of a message: its kind, and the slot and the ballot of which it speaks, where it does.
#[derive(Clone, Copy)]
pub struct Facts {
    pub kind: Kind,
    pub slot: Option<u32>,
    pub ballot: Option<Ballot>,
}

/// What stands in the head of a message. Of a promise and a prepare it is the first slot, of what a checkpoint's text needs its position.
pub fn facts_of(message: &Message) -> Facts
    ensures { result ≡ facts_of message.now }
{
    let kind = message.kind();
    let (slot, ballot) = match message {
        Message::Prepare { ballot, first } => (Some(first.value()), Some(*ballot)),
        Message::Promise(promise) => (Some(promise.first().value()), Some(promise.ballot())),
        Message::Nack(nack) => (None, Some(nack.promised())),
        Message::Accept(vote) | Message::Accepted(vote) => {
            (Some(vote.slot.value()), Some(vote.ballot))
        }
        Message::Ask { slot } | Message::Decided { slot, command: _ } => (Some(slot.value()), None),
        Message::SnapAsk {
            position,
            number: _,
        } => (Some(position.value()), None),
        Message::SnapPart(part) => (Some(part.position().value()), None),
        Message::Behind { floor } => (Some(floor.value()), None),
    };
    Facts { kind, slot, ballot }
}

/// The word for a kind of message.
pub fn kind_name(kind: Kind) -> &'static str
    ensures { result.now ≡ kind_text kind }
{
    match kind {
        Kind::Prepare => "prepare",
        Kind::Promise => "promise",
        Kind::Nack => "nack",
        Kind::Accept => "accept",
        Kind::Accepted => "accepted",
        Kind::Ask => "ask",
        Kind::Decided => "decided",
        Kind::SnapAsk => "snapask",
        Kind::SnapPart => "snappart",
        Kind::Behind => "behind",
    }
}

/// Adds what a frame is: `frame 4 accept 0 -> 1 slot 0 ballot 1.0`. An error is out of memory.
pub fn push_frame(
    text: &mut Vec<u8>,
    number: usize,
    from: NodeId,
    to: NodeId,
    facts: &Facts,
) -> io::Result<()>
    ensures { OnOk result (text.new.items ≡ text.old.items ++ frame_text number from to facts.now) }
{
    let (from, to) = (from.value(), to.value());
    let kind = kind_name(facts.kind);
    write!(text, "frame {number} {kind} {from} -> {to}")?;
    push_slot(text, facts.slot)?;
    push_ballot(text, facts.ballot)
}

/// Adds the slot of which a message speaks, if it speaks of one.
fn push_slot(text: &mut Vec<u8>, slot: Option<u32>) -> io::Result<()>
    ensures { OnOk result (text.new.items ≡ text.old.items ++ slot_text slot) }
{
    match slot {
        Some(slot) => write!(text, " slot {slot}"),
        None => Ok(()),
    }
}

/// Adds the ballot of which it speaks.
fn push_ballot(text: &mut Vec<u8>, ballot: Option<Ballot>) -> io::Result<()>
    ensures { OnOk result (text.new.items ≡ text.old.items ++ ballot_text ballot) }
{
    match ballot {
        Some(ballot) => {
            let (round, node) = (ballot.round, ballot.node);
            write!(text, " ballot {round}.{node}")
        }
        None => Ok(()),
    }
}
