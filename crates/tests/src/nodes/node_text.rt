//! What nodes tell, as text: one thing after another, parted by semicolons.

use node_model::{LearntCommand, NodeFault, ReplyOut};
use sessions::Command;
use stable::{Key, Put};
use std::alloc::{AllocError, Global};
use std::fmt::Write;
use synod::{Ballot, Slot, Vote};
use wire::{Frame, Message, Position, Promise, SharedCommand};

/// Another thing is to be told.
pub fn part(text: &mut String) -> Result<(), AllocError> {
    if !text.is_empty() {
        text.push_str("; ")?;
    }
    Ok(())
}

/// What is newly learnt.
pub fn tell_learnt(text: &mut String, node: u8, entry: &LearntCommand) -> Result<(), AllocError> {
    part(text)?;
    write!(text, "learn {node}")?;
    tell_command(text, " ", entry.slot, entry.command.command())
}

/// A node was restored: what it holds now is that of the first so many entries.
pub fn tell_restored(text: &mut String, node: u8, position: Position) -> Result<(), AllocError> {
    let position = position.value();
    part(text)?;
    write!(text, "restore {node} {position}")
}

/// The replies to requests that waited.
pub fn tell_replies(text: &mut String, node: u8, replies: &[ReplyOut]) -> Result<(), AllocError> {
    for executed in replies {
        let client = executed.client;
        let number = executed.number.value();
        let code = executed.reply.code();
        let position = executed.position;
        part(text)?;
        write!(text, "reply {node} {client}:{number} {code} {position}")?;
    }
    Ok(())
}

/// Why a node refuses an input, or goes down on it.
pub fn tell_fault(text: &mut String, node: u8, fault: NodeFault) -> Result<(), AllocError> {
    let what = if fault.is_stop() { "stop" } else { "refuse" };
    let code = fault.code();
    part(text)?;
    write!(text, "{what} {node} {code}")
}

/// The keys of the puts that took effect.
pub fn tell_writes(text: &mut String, writes: &[Put]) -> Result<(), AllocError> {
    for put in writes {
        match put.key() {
            Key::Checkpoint => text.push_str(" checkpoint")?,
            Key::Promise => text.push_str(" promise")?,
            Key::Round => text.push_str(" round")?,
            Key::Vote(slot) => {
                let slot = slot.value();
                write!(text, " vote {slot}")?;
            }
        }
    }
    Ok(())
}

/// What is sent. A message to several nodes in a row is told once.
pub fn tell_sends(alloc: Global, text: &mut String, sends: &[Frame]) -> Result<(), AllocError> {
    let mut last = String::new(alloc);
    for frame in sends {
        last = tell_sent(alloc, text, frame, last)?;
    }
    Ok(())
}

/// Tells what is sent, or to whom else, where it is what was told last: what is told last then.
fn tell_sent(
    alloc: Global,
    text: &mut String,
    frame: &Frame,
    last: String,
) -> Result<String, AllocError> {
    let said = said(alloc, frame)?;
    tell_said(text, frame, said.as_str(), last.as_str())?;
    Ok(said)
}

fn tell_said(text: &mut String, frame: &Frame, said: &str, last: &str) -> Result<(), AllocError> {
    let from = frame.sender().value();
    let to = frame.receiver().value();
    if said == last {
        return write!(text, " {to}");
    }
    part(text)?;
    write!(text, "send {from} {said} to {to}")
}

fn said(alloc: Global, frame: &Frame) -> Result<String, AllocError> {
    let mut text = String::new(alloc);
    tell_frame(alloc, &mut text, frame)?;
    Ok(text)
}

fn tell_frame(alloc: Global, text: &mut String, frame: &Frame) -> Result<(), AllocError> {
    let envelope = frame.open(alloc)?;
    tell_message(text, &envelope.message)
}

fn tell_message(text: &mut String, message: &Message) -> Result<(), AllocError> {
    match message {
        Message::Prepare { ballot, first } => tell_prepare(text, *ballot, *first),
        Message::Promise(promise) => tell_promise(text, promise),
        Message::Nack(nack) => {
            tell_ballot(text, "nack ", nack.ballot())?;
            tell_ballot(text, " ", nack.promised())
        }
        Message::Accept(vote) => tell_vote(text, "accept ", vote),
        Message::Accepted(vote) => tell_vote(text, "accepted ", vote),
        Message::Ask { slot } => {
            let slot = slot.value();
            write!(text, "ask {slot}")
        }
        Message::Decided { slot, command } => {
            tell_command(text, "decided ", *slot, command.command())
        }
        Message::SnapAsk { position, number } => {
            let position = position.value();
            let number = number.value();
            write!(text, "snapask {position} {number}")
        }
        Message::SnapPart(part) => {
            let position = part.position().value();
            let total = part.total();
            let number = part.number().value();
            write!(text, "snappart {position} {total} {number}")
        }
        Message::Behind { floor } => {
            let floor = floor.value();
            write!(text, "behind {floor}")
        }
    }
}

fn tell_prepare(text: &mut String, ballot: Ballot, first: Slot) -> Result<(), AllocError> {
    let first = first.value();
    tell_ballot(text, "prepare ", ballot)?;
    write!(text, " {first}")
}

/// The ballot, the first slot and the last, and each vote that is told.
fn tell_promise(text: &mut String, promise: &Promise) -> Result<(), AllocError> {
    let first = promise.first().value();
    let last = promise.last().value();
    tell_ballot(text, "promise ", promise.ballot())?;
    write!(text, " {first} {last}")?;
    for entry in promise.entries() {
        tell_vote(text, " (", entry.vote())?;
        text.push_str(")")?;
    }
    Ok(())
}

/// The ballot of a vote, its slot and its command.
fn tell_vote(
    text: &mut String,
    before: &str,
    vote: &Vote<SharedCommand>,
) -> Result<(), AllocError> {
    tell_ballot(text, before, vote.ballot)?;
    tell_command(text, " ", vote.slot, vote.command.command())
}

fn tell_ballot(text: &mut String, before: &str, ballot: Ballot) -> Result<(), AllocError> {
    let round = ballot.round;
    let node = ballot.node;
    write!(text, "{before}{round}.{node}")
}

/// A slot and the command at it.
fn tell_command(
    text: &mut String,
    before: &str,
    slot: Slot,
    command: &Command,
) -> Result<(), AllocError> {
    let slot = slot.value();
    match command {
        Command::NoOp => write!(text, "{before}{slot} noop"),
        Command::Request(request) => {
            let client = request.client();
            let number = request.number().value();
            write!(text, "{before}{slot} {client}:{number}")
        }
    }
}
