//! Messages that are written by hand, and not by a node.
//!
//! They are spelled as `telling` tells them, but for a no-op, which is `0:0`. The bytes of a part are zeros: four of them are the text of a
//! machine that has executed nothing, and more are no machine's.

use sessions::{Command, Number, Request};
use std::alloc::Global;
use std::test::Fail;
use store::Op;
use synod::{Ballot, Slot, Vote};
use wire::{
    Entries, Entry, Envelope, Id, Message, Nack, NodeId, Part, PartNumber, Position, Promise,
    SharedCommand,
};

/// The numbers of a text, whatever stands between them.
pub fn numbers(alloc: Global, text: &str) -> Result<Vec<u64>, Fail> {
    let mut numbers = Vec::new(alloc);
    for word in text.split([' ', '.', ':', '(', ')']) {
        if let Ok(number) = word.parse() {
            numbers.push(number)?;
        }
    }
    Ok(numbers)
}

/// A number of one byte.
pub fn small(number: u64) -> u8 {
    number.min(255) as u8
}

/// The node of this number.
pub fn node_id(value: u8) -> Result<NodeId, Fail> {
    let node = NodeId::new(value).ok_or("node")?;
    Ok(node)
}

/// The number of a request.
pub fn number(value: u64) -> Result<Number, Fail> {
    let number = Number::new(value).ok_or("number")?;
    Ok(number)
}

/// The operation that removes `bus-7`.
pub fn removal() -> Result<Op, Fail> {
    let id = Id::new(b"bus-7").ok_or("id")?;
    Ok(Op::Remove(id))
}

/// The ballot of a round and a node.
pub fn ballot(round: u64, node: u64) -> Result<Ballot, Fail> {
    let ballot = Ballot::new(round, small(node)).ok_or("ballot")?;
    Ok(ballot)
}

/// The slot of this number.
pub fn slot(value: u64) -> Result<Slot, Fail> {
    let slot = Slot::new(value.min(65_536) as u32).ok_or("slot")?;
    Ok(slot)
}

/// The position of this number.
pub fn position(value: u64) -> Result<Position, Fail> {
    let position = Position::new(value.min(65_537) as u32).ok_or("position")?;
    Ok(position)
}

/// The number of a part.
pub fn part_number(value: u64) -> Result<PartNumber, Fail> {
    let number = PartNumber::new(small(value)).ok_or("part's number")?;
    Ok(number)
}

/// The removal of a client under a number, or for the number 0 the no-op.
fn command(alloc: Global, client: u64, value: u64) -> Result<SharedCommand, Fail> {
    if value == 0 {
        return Ok(SharedCommand::new(alloc, Command::NoOp)?);
    }
    let Ok(request) = Request::new(small(client), number(value)?, removal()?) else {
        return Err("request".into());
    };
    Ok(SharedCommand::new(alloc, Command::Request(request))?)
}

/// The vote of five numbers: the ballot, the slot and the command.
pub fn vote(alloc: Global, numbers: &[u64]) -> Result<Vote<SharedCommand>, Fail> {
    let &[round, node, at, client, value] = numbers else {
        return Err("a vote".into());
    };
    Ok(Vote {
        slot: slot(at)?,
        ballot: ballot(round, node)?,
        command: command(alloc, client, value)?,
    })
}

/// The votes that a promise tells.
fn entries(alloc: Global, told: &[u64]) -> Result<Entries, Fail> {
    let mut entries = Entries::new(alloc);
    for numbers in told.chunks(5) {
        entries.push(Entry::new(vote(alloc, numbers)?))?;
    }
    Ok(entries)
}

fn prepare(numbers: &[u64]) -> Result<Message, Fail> {
    let &[round, node, first] = numbers else {
        return Err("a prepare".into());
    };
    Ok(Message::Prepare {
        ballot: ballot(round, node)?,
        first: slot(first)?,
    })
}

/// The promise of a ballot, its slots, and the votes that are told.
fn promise(alloc: Global, numbers: &[u64]) -> Result<Message, Fail> {
    let &[round, node, first, last, ref told @ ..] = numbers else {
        return Err("a promise".into());
    };
    let (ballot, first, last) = (ballot(round, node)?, slot(first)?, slot(last)?);
    let entries = entries(alloc, told)?;
    let promise = Promise::new(ballot, first, last, entries).ok_or("promise")?;
    Ok(Message::Promise(promise))
}

fn nack(numbers: &[u64]) -> Result<Message, Fail> {
    let &[round, node, promised, by] = numbers else {
        return Err("a nack".into());
    };
    let nack = Nack::new(ballot(round, node)?, ballot(promised, by)?).ok_or("nack")?;
    Ok(Message::Nack(nack))
}

fn ask(numbers: &[u64]) -> Result<Message, Fail> {
    let &[at] = numbers else {
        return Err("a question".into());
    };
    Ok(Message::Ask { slot: slot(at)? })
}

fn decided(alloc: Global, numbers: &[u64]) -> Result<Message, Fail> {
    let &[at, client, value] = numbers else {
        return Err("what is decided".into());
    };
    Ok(Message::Decided {
        slot: slot(at)?,
        command: command(alloc, client, value)?,
    })
}

fn snap_ask(numbers: &[u64]) -> Result<Message, Fail> {
    let &[at, part] = numbers else {
        return Err("a question for a part".into());
    };
    Ok(Message::SnapAsk {
        position: position(at)?,
        number: part_number(part)?,
    })
}

/// A part of so many zeros.
fn snap_part(alloc: Global, numbers: &[u64]) -> Result<Message, Fail> {
    let &[at, total, part] = numbers else {
        return Err("a part".into());
    };
    let mut zeros = Vec::new(alloc);
    zeros.resize(total.min(100_000) as usize, 0)?;
    let part = Part::of(alloc, position(at)?, zeros.as_slice(), part_number(part)?)?;
    Ok(Message::SnapPart(part.ok_or("no such part")?))
}

fn behind(numbers: &[u64]) -> Result<Message, Fail> {
    let &[floor] = numbers else {
        return Err("a floor".into());
    };
    Ok(Message::Behind {
        floor: position(floor)?,
    })
}

fn message(alloc: Global, word: &str, numbers: &[u64]) -> Result<Message, Fail> {
    match word {
        "prepare" => prepare(numbers),
        "promise" => promise(alloc, numbers),
        "nack" => nack(numbers),
        "accept" => Ok(Message::Accept(vote(alloc, numbers)?)),
        "accepted" => Ok(Message::Accepted(vote(alloc, numbers)?)),
        "ask" => ask(numbers),
        "decided" => decided(alloc, numbers),
        "snapask" => snap_ask(numbers),
        "snappart" => snap_part(alloc, numbers),
        "behind" => behind(numbers),
        _ => Err("a message".into()),
    }
}

/// What one node says to another.
pub fn envelope(alloc: Global, from: u8, to: u8, said: &str) -> Result<Envelope, Fail> {
    let (from, to) = (node_id(from)?, node_id(to)?);
    let (word, _) = said.split_once(' ').ok_or("a word")?;
    let numbers = numbers(alloc, said)?;
    let message = message(alloc, word, numbers.as_slice())?;
    Ok(Envelope { from, to, message })
}
