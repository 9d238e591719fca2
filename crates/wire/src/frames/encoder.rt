//! From envelopes to bytes.

ghost use Rattle.std.specs.Prelude.{◌≡◌, ℕ, ◌+◌, ◌*◌, ◌<◌, ◌≤◌, ◌++◌, length, IfOk, OnOk};
ghost use Rattle.std.specs.List.{flat_map, AllByRecursion};
ghost use Rattle.byteorder.specs.Endian.{big_bytes};
ghost use Rattle.wire.specs.FrameSpelling.{IsFrame, MessageFits, VoteFits, PromiseFits, head_bytes, body_bytes};
ghost use Rattle.wire.specs.FrameSpelling.{vote_bytes, entry_bytes, promise_bytes, piece_bytes, spelling};
ghost use Rattle.wire.specs.Parts.{IsPiece};
ghost use Rattle.wire.specs.declared.frames.message.Message.TheVariants as message;

use super::entry::Entry;
use super::envelope::{Envelope, LONGEST_FRAME, MAGIC};
use super::kind::Kind;
use super::message::Message;
use super::part::{Part, PartNumber};
use super::position::Position;
use super::promise::Promise;
use super::value_writer::{command_len, push_ballot, push_command, push_slot};
use crate::{NodeId, SharedCommand, Slot};
use fields::push_u32;
use sessions::Command;
use std::alloc::{AllocError, Global};
use synod::Vote;

/// The bytes that spell the envelope. Every envelope has them, and they are grown once.
pub fn encode(alloc: Global, envelope: &Envelope) -> Result<Vec<u8>, AllocError>
    ensures frame { IfOk result (λ bytes. IsFrame 7 bytes.items envelope.now) }
    ensures short { IfOk result (λ bytes. length bytes.items ≤ LONGEST_FRAME) }
{
    spell(alloc, envelope.from, envelope.to, &envelope.message)
}

/// The bytes that spell the envelope of a message.
pub(super) fn spell(
    alloc: Global,
    from: NodeId,
    to: NodeId,
    message: &Message,
) -> Result<Vec<u8>, AllocError>
    ensures frame { IfOk result (λ bytes. IsFrame 7 bytes.items (record { from = from; to = to; message = message.now })) }
    ensures short { IfOk result (λ bytes. length bytes.items ≤ LONGEST_FRAME) }
{
    let mut out = Vec::with_capacity(alloc, frame_len(message))?;
    push_head(&mut out, message.kind(), from, to)?;
    push_body(&mut out, message)?;
    Ok(out)
}

/// The same of what is decided at a slot. The command is only looked at.
pub(super) fn spell_decided(
    alloc: Global,
    from: NodeId,
    to: NodeId,
    slot: Slot,
    command: &Command,
) -> Result<Vec<u8>, AllocError>
    ensures frame { IfOk result (λ bytes.
        IsFrame 7 bytes.items (record { from = from; to = to; message = message.Decided slot command.now })) }
{
    let mut out = Vec::with_capacity(alloc, 10 + command_len(command))?;
    push_head(&mut out, Kind::Decided, from, to)?;
    push_decided(&mut out, slot, command)?;
    Ok(out)
}

/// What is decided at a slot.
fn push_decided(out: &mut Vec<u8>, slot: Slot, command: &Command) -> Result<(), AllocError>
    ensures spelled { OnOk result (out.new.items ≡ out.old.items ++ body_bytes (message.Decided slot command.now)) }
    ensures fits { OnOk result (MessageFits 7 (message.Decided slot command.now)) }
{
    push_slot(out, slot)?;
    push_command(out, command)
}

/// What stands before the body: how each frame begins, the version, the kind, who sends, who receives.
fn push_head(out: &mut Vec<u8>, kind: Kind, from: NodeId, to: NodeId) -> Result<(), AllocError>
    ensures spelled { OnOk result (out.new.items ≡ out.old.items ++ head_bytes kind from to) }
    ensures from { from < 7 }
    ensures to { to < 7 }
{
    out.extend_from_slice(&MAGIC.to_be_bytes())?;
    let rest = [kind.version(), kind.byte(), from.value(), to.value()];
    out.extend_from_slice(&rest)
}

fn push_body(out: &mut Vec<u8>, message: &Message) -> Result<(), AllocError>
    ensures spelled { OnOk result (out.new.items ≡ out.old.items ++ body_bytes message.now) }
    ensures fits { OnOk result (MessageFits 7 message.now) }
{
    match message {
        Message::Prepare { ballot, first } => {
            push_ballot(out, *ballot)?;
            push_slot(out, *first)
        }
        Message::Promise(promise) => push_promise(out, promise),
        Message::Nack(nack) => {
            push_ballot(out, nack.ballot())?;
            push_ballot(out, nack.promised())
        }
        Message::Accept(vote) => push_vote(out, vote),
        Message::Accepted(vote) => push_vote(out, vote),
        Message::Ask { slot } => push_slot(out, *slot),
        Message::Decided { slot, command } => push_decided(out, *slot, command.command()),
        Message::SnapAsk { position, number } => push_part_asked(out, *position, *number),
        Message::SnapPart(part) => push_part(out, part),
        Message::Behind { floor } => push_u32(out, floor.value()),
    }
}

/// Which part of which checkpoint's text is asked for.
fn push_part_asked(
    out: &mut Vec<u8>,
    position: Position,
    number: PartNumber,
) -> Result<(), AllocError>
    ensures spelled { OnOk result (out.new.items ≡ out.old.items ++ body_bytes (message.SnapAsk position number)) }
    ensures fits { OnOk result (MessageFits 7 (message.SnapAsk position number)) }
{
    push_u32(out, position.value())?;
    push_u32(out, number.offset())
}

/// A part of a text.
#[tactic(auto, using(crate::proofs::PartLaws::piece_most))]
fn push_part(out: &mut Vec<u8>, part: &Part) -> Result<(), AllocError>
    ensures spelled { OnOk result (out.new.items ≡ out.old.items ++ piece_bytes part.now) }
    ensures fits { OnOk result (IsPiece part.now) }
{
    push_u32(out, part.position().value())?;
    push_u32(out, part.total())?;
    push_u32(out, part.number().offset())?;
    push_counted(out, part.bytes())
}

/// So many bytes as two bytes can count: how many they are, and they themselves.
fn push_counted(out: &mut Vec<u8>, bytes: &[u8]) -> Result<(), AllocError>
    requires { length bytes.now < 65_536 }
    ensures spelled { OnOk result (out.new.items ≡ out.old.items ++ (big_bytes 2 (length bytes.now) ++ bytes.now)) }
{
    let count = bytes.len() as u16;
    out.extend_from_slice(&count.to_be_bytes())?;
    out.extend_from_slice(bytes)
}

/// What is proposed or was voted for.
fn push_vote(out: &mut Vec<u8>, vote: &Vote<SharedCommand>) -> Result<(), AllocError>
    ensures spelled { OnOk result (out.new.items ≡ out.old.items ++ vote_bytes vote.now) }
    ensures fits { OnOk result (VoteFits 7 vote.now) }
{
    push_ballot(out, vote.ballot)?;
    push_slot(out, vote.slot)?;
    push_command(out, vote.command.command())
}

fn push_promise(out: &mut Vec<u8>, promise: &Promise) -> Result<(), AllocError>
    ensures spelled { OnOk result (out.new.items ≡ out.old.items ++ promise_bytes promise.now) }
    ensures fits { OnOk result (PromiseFits 7 promise.now) }
{
    let entries = promise.entries();
    push_ballot(out, promise.ballot())?;
    push_slot(out, promise.first())?;
    push_slot(out, promise.last())?;
    out.push(entries.len() as u8)?;
    push_entries(out, entries)
}

fn push_entries(out: &mut Vec<u8>, entries: &[Entry]) -> Result<(), AllocError>
    ensures spelled { OnOk result (out.new.items ≡ out.old.items ++ flat_map entry_bytes entries.now) }
    ensures fits { OnOk result (AllByRecursion (VoteFits 7) entries.now) }
{
    match entries {
        [] => Ok(()),
        [entry, rest @ ..] => {
            push_entry(out, entry.vote())?;
            push_entries(out, rest)
        }
    }
}

/// A vote as a promise tells it.
fn push_entry(out: &mut Vec<u8>, vote: &Vote<SharedCommand>) -> Result<(), AllocError>
    ensures spelled { OnOk result (out.new.items ≡ out.old.items ++ entry_bytes vote.now) }
    ensures fits { OnOk result (VoteFits 7 vote.now) }
{
    push_slot(out, vote.slot)?;
    push_ballot(out, vote.ballot)?;
    push_command(out, vote.command.command())
}

/// How many bytes the frame has: at most those of a promise of four of the largest commands.
#[tactic(auto, using(crate::proofs::PartLaws::piece_most))]
fn frame_len(message: &Message) -> usize
    ensures value { (from to : ℕ) → result ≡ length (spelling (record { from = from; to = to; message = message.now })) }
    ensures most { result ≤ 49_544 }
{
    let body = match message {
        Message::Prepare { .. } => 13,
        Message::Promise(promise) => 18 + entries_len(promise.entries()),
        Message::Nack(_) => 18,
        Message::Accept(vote) => 13 + command_len(vote.command.command()),
        Message::Accepted(vote) => 13 + command_len(vote.command.command()),
        Message::Ask { .. } => 4,
        Message::Decided { command, .. } => 4 + command_len(command.command()),
        Message::SnapAsk { .. } => 8,
        Message::SnapPart(part) => 14 + part.bytes().len(),
        Message::Behind { .. } => 4,
    };
    6 + body
}

/// How many bytes entries take.
fn entries_len(entries: &[Entry]) -> usize
    requires { length entries.now ≤ 4 }
    ensures value { result ≡ length (flat_map entry_bytes entries.now) }
    ensures most { result ≤ 12_380 * length entries.now }
{
    match entries {
        [] => 0,
        [entry, rest @ ..] => {
            let others = entries_len(rest);
            13 + command_len(entry.vote().command.command()) + others
        }
    }
}
