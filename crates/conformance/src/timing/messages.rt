//! Messages, spelled as frames and read again.

ghost use Rattle.std.specs.Prelude.{IfErr};
ghost use Rattle.conformance.specs.Faults.{IsUntimed};

use super::fleet::{name, put};
use super::operations::next_point;
use super::scene::Scene;
use super::task::Sent;
use crate::fault::Fault;
use sessions::{Command, MOST_PUT_POINTS, Number, Request};
use std::alloc::{AllocError, Global};
use store::Op;
use wire::{
    Ballot, Entries, Entry, Envelope, MOST_ENTRIES, Message, NodeId, Nodes, Promise, SharedCommand,
    Slot, Vote, decode, encode,
};

/// The envelope that is spelled, or whose frame is read. A sequence that it puts has as many instants as a request may
/// put.
pub fn envelope(alloc: Global, sent: Sent) -> Result<Envelope, Fault>
    ensures { IfErr result IsUntimed }
{
    let scene = Scene::new(alloc, MOST_PUT_POINTS as u16)?;
    Ok(Envelope {
        from: NodeId::new(0).unwrap(),
        to: NodeId::new(1).unwrap(),
        message: message(alloc, &scene, sent)?,
    })
}

/// The length of the envelope's frame.
pub fn frame_length(alloc: Global, envelope: &Envelope) -> Result<u64, AllocError> {
    Ok(encode(alloc, envelope)?.len() as u64)
}

/// One more than the number of the last slot of which the message of a frame speaks that was spelled.
pub fn slot_number(alloc: Global, frame: &[u8]) -> Result<u64, AllocError> {
    let nodes = Nodes::new(7).unwrap();
    match decode(alloc, frame, nodes) {
        Ok(read) => Ok(1 + u64::from(last_slot(&read.message))),
        // What was spelled is refused for memory alone.
        Err(_) => Err(AllocError),
    }
}

/// The last slot of which a message speaks, or the first where it speaks of none.
fn last_slot(message: &Message) -> u32 {
    match message {
        Message::Prepare { first, .. } => first.value(),
        Message::Promise(promise) => promise.last().value(),
        Message::Nack(_) => 0,
        Message::Accept(vote) => vote.slot.value(),
        Message::Accepted(vote) => vote.slot.value(),
        Message::Ask { slot } => slot.value(),
        Message::Decided { slot, .. } => slot.value(),
        Message::SnapAsk { position, .. } => position.value(),
        Message::SnapPart(part) => part.position().value(),
        Message::Behind { floor } => floor.value(),
    }
}

fn message(alloc: Global, scene: &Scene, sent: Sent) -> Result<Message, Fault>
    ensures { IfErr result IsUntimed }
{
    match sent {
        Sent::Prepare => Ok(Message::Prepare {
            ballot: first_ballot(),
            first: Slot::first(),
        }),
        Sent::Promise => Ok(Message::Promise(promise(alloc, scene)?)),
        Sent::AcceptPut => Ok(Message::Accept(vote(alloc, Slot::first(), put(scene, 0)?)?)),
        Sent::AcceptedAppend => Ok(Message::Accepted(vote(alloc, Slot::first(), append(scene))?)),
    }
}

/// The promise of the first slots, with as many votes as it may tell.
fn promise(alloc: Global, scene: &Scene) -> Result<Promise, Fault>
    ensures { IfErr result IsUntimed }
{
    let entries = entries(alloc, scene)?;
    let last = Slot::new(MOST_ENTRIES as u32 - 1).unwrap();
    let Some(promise) = Promise::new(first_ballot(), Slot::first(), last, entries) else {
        return Err(Fault::Usage);
    };
    Ok(promise)
}

/// As many votes for a put as a promise may tell, at the first slots.
fn entries(alloc: Global, scene: &Scene) -> Result<Entries, Fault>
    ensures { IfErr result IsUntimed }
{
    let mut entries = Entries::new(alloc);
    for number in 0..MOST_ENTRIES as u32 {
        let slot = Slot::new(number).unwrap();
        entries.push(Entry::new(vote(alloc, slot, put(scene, 0)?)?))?;
    }
    Ok(entries)
}

/// A vote under the first ballot for a request.
fn vote(alloc: Global, slot: Slot, op: Op) -> Result<Vote<SharedCommand>, Fault>
    ensures { IfErr result IsUntimed }
{
    let request = Request::new(7, Number::new(1).unwrap(), op)?;
    Ok(Vote {
        slot,
        ballot: first_ballot(),
        command: SharedCommand::new(alloc, Command::Request(request))?,
    })
}

/// An operation that adds a point.
fn append(scene: &Scene) -> Op {
    Op::append(name(0), next_point(scene, 1)).unwrap()
}

/// The first ballot of node 0.
pub fn first_ballot() -> Ballot {
    Ballot::new(1, 0).unwrap()
}
