//! What is told of a run, entry by entry.

ghost use Rattle.std.specs.Prelude.{◌≡◌, ◌++◌, IfOk, OnOk, option_and_then, option_map, slice_get};
ghost use Rattle.replay.specs.Transcripts.{command_text, request_text};
ghost use Rattle.story.specs.Happenings.{coming_at, coming_by, happening, lost_in, own_happening, sending_of, told_by};
ghost use Rattle.world.specs.Seen.{world_of};

use super::deeds::Deed;
use super::entries::Entry;
use super::ledger::Step;
use diagram::{Facts, facts_of};
use node_model::NodeFault;
use sessions::Command;
use stable::MemStable;
use std::alloc::{AllocError, Global};
use std::io::{self, Write};
use wire::{Frame, NodeId, Position};
use world::World;
use world_model::{Answered, LearntEntry, Replied, RoundEnd, StepOutcome};

/// Something that came of a line.
#[derive(Clone, Copy)]
pub(crate) enum Item<'a> {
    /// A frame was sent.
    Sent {
        number: usize,
        from: NodeId,
        to: NodeId,
        facts: Facts,
    },
    Learnt(&'a LearntEntry),
    Replied(&'a Replied),
    Answered(&'a Answered),
    Restored(NodeId, Position),
    /// A frame came to a node that is down.
    Lost {
        number: usize,
        from: NodeId,
        to: NodeId,
        facts: Facts,
    },
    Refused(NodeId, NodeFault),
    Stopped(NodeId, NodeFault),
    Round(NodeId, RoundEnd),
}

/// The frame that comes at a step, if one does.
pub(crate) fn coming_at(steps: &[Step], step: usize) -> Option<u64>
    ensures { result ≡ coming_at steps.now step }
{
    coming_by(steps.get(step)?.deed)
}

/// The frame that comes by a deed, if one does.
fn coming_by(deed: Deed) -> Option<u64>
    ensures { result ≡ coming_by deed }
{
    match deed {
        Deed::Delivered(frame) => Some(frame),
        Deed::Submitted(_) | Deed::Dropped(_) | Deed::TimedOut(_) | Deed::Restarted(_) => None,
        Deed::Other(_) | Deed::Flushed | Deed::Ended => None,
    }
}

/// What an entry tells of what came of a step, at which this frame comes, if one does. A line and a step have no item, nor has an outcome
/// that only counts entries: these have.
pub(crate) fn item_of<'a>(
    alloc: Global,
    world: &'a World<MemStable>,
    coming: Option<u64>,
    entry: Entry,
) -> Result<Option<Item<'a>>, AllocError>
    ensures { IfOk result (λ item. option_map told_by item ≡ happening (world_of world.now) coming entry) }
{
    match entry {
        Entry::Line(_) | Entry::Step(_) => Ok(None),
        Entry::Frame(number) => sent_item(alloc, world.frames(), number),
        Entry::Outcome(index) => outcome_item(alloc, world, coming, index),
        Entry::Learnt(index) => match world.learnt().get(index) {
            Some(entry) => Ok(Some(Item::Learnt(entry))),
            None => Ok(None),
        },
        Entry::Replied(index) => match world.replies().get(index) {
            Some(entry) => Ok(Some(Item::Replied(entry))),
            None => Ok(None),
        },
        Entry::Answered(index) => match world.answers().get(index) {
            Some(entry) => Ok(Some(Item::Answered(entry))),
            None => Ok(None),
        },
    }
}

/// What is told of a frame.
fn sent_item<'a>(
    alloc: Global,
    frames: &[Frame],
    number: usize,
) -> Result<Option<Item<'a>>, AllocError>
    ensures { IfOk result (λ item. option_map told_by item ≡ option_map (sending_of number) (slice_get frames.now number)) }
{
    let Some(frame) = frames.get(number) else {
        return Ok(None);
    };
    let facts = facts_of(&frame.open(alloc)?.message);
    Ok(Some(Item::Sent {
        number,
        from: frame.sender(),
        to: frame.receiver(),
        facts,
    }))
}

/// What is told of a frame that is lost.
fn lost_item<'a>(
    alloc: Global,
    frames: &[Frame],
    coming: Option<u64>,
) -> Result<Option<Item<'a>>, AllocError>
    ensures { IfOk result (λ item. option_map told_by item ≡ option_and_then (lost_in frames.now) coming) }
{
    let Some(number) = coming else {
        return Ok(None);
    };
    let Some(frame) = frames.get(number as usize) else {
        return Ok(None);
    };
    let facts = facts_of(&frame.open(alloc)?.message);
    Ok(Some(Item::Lost {
        number: number as usize,
        from: frame.sender(),
        to: frame.receiver(),
        facts,
    }))
}

/// What is told of the outcome of this number, if there is one.
fn outcome_item<'a>(
    alloc: Global,
    world: &World<MemStable>,
    coming: Option<u64>,
    index: usize,
) -> Result<Option<Item<'a>>, AllocError>
    ensures { IfOk result (λ item. option_map told_by item
        ≡ option_and_then (own_happening (world_of world.now).frames coming) (slice_get (world_of world.now).outcomes index)) }
{
    match world.outcomes().get(index) {
        Some(outcome) => item_by(alloc, world.frames(), coming, *outcome),
        None => Ok(None),
    }
}

/// What is told of an outcome.
fn item_by<'a>(
    alloc: Global,
    frames: &[Frame],
    coming: Option<u64>,
    outcome: StepOutcome,
) -> Result<Option<Item<'a>>, AllocError>
    ensures { IfOk result (λ item. option_map told_by item ≡ own_happening frames.now coming outcome) }
{
    match outcome {
        StepOutcome::Done { .. } | StepOutcome::Answered => Ok(None),
        StepOutcome::Restored { node, position, .. } => Ok(Some(Item::Restored(node, position))),
        StepOutcome::Lost => lost_item(alloc, frames, coming),
        StepOutcome::Refused(node, fault) => Ok(Some(Item::Refused(node, fault))),
        StepOutcome::Stopped(node, fault) => Ok(Some(Item::Stopped(node, fault))),
        StepOutcome::Round(node, end) => Ok(Some(Item::Round(node, end))),
    }
}

/// Adds a command by its request, as 7:1, or as noop.
pub(crate) fn push_command(text: &mut Vec<u8>, command: &Command) -> io::Result<()>
    ensures { OnOk result (text.new.items ≡ text.old.items ++ command_text command.now) }
{
    match command {
        Command::NoOp => {
            text.extend_from_slice(b"noop")?;
            Ok(())
        }
        Command::Request(request) => {
            push_request(text, request.client(), request.number().value())
        }
    }
}

/// Adds a request by its client and number.
pub(crate) fn push_request(text: &mut Vec<u8>, client: u8, number: u64) -> io::Result<()>
    ensures { OnOk result (text.new.items ≡ text.old.items ++ request_text client number) }
{
    write!(text, "{client}:{number}")
}
