//! From bytes to envelopes, with the first fault that is met.

ghost use Rattle.std.specs.Prelude.{ℕ, List, [], ⊤, ◌++◌, ◌≡◌, ◌≤◌, ◌<◌, length, Ok, IsOk, IsOkAnd, IfOk, IsErrOf};
ghost use Rattle.synod.specs.Ballots.{rank};
ghost use Rattle.wire.specs.Puts.{TakesMemory, BringsContent, FrameWithContentBegins};
ghost use Rattle.fields.specs.Reading.{Tells};
ghost use Rattle.wire.specs.Reading.{Gives, ReadMayWant};
ghost use Rattle.wire.specs.FrameReading.{version_at, kind_at, node_at, ends_at, Head, head_at};
ghost use Rattle.wire.specs.FrameReading.{ballot_above, nack_at, vote_at};
ghost use Rattle.wire.specs.FrameReading.{message_at, envelope_at, frame_in};
ghost use Rattle.wire.specs.FrameSpelling.{IsFrame};
ghost use Rattle.wire.specs.declared.frames.envelope.Envelope.{Envelope};
ghost use Rattle.wire.specs.declared.frames.kind.Kind.TheVariants as kind;

use super::envelope::{Envelope, LONGEST_FRAME, MAGIC};
use super::fault::WireFault;
use super::kind::Kind;
use super::message::Message;
use super::nack::Nack;
use super::parts::{read_part, read_position, read_snap_ask};
use super::promise_reader::read_promise;
use super::value_reader::{read_ballot, read_held, read_slot};
use crate::{NodeId, Nodes, SharedCommand};
use fields::Input;
use sessions::Command;
use std::alloc::Global;
use synod::{Ballot, Vote};

/// The envelope that these bytes spell among so many nodes.
///
/// Of the faults the first in reading order is told, but that `Long` is tested before all.
// Inlined, the envelope would be put together from its parts at each step on its way.
#[inline(never)]
pub fn decode(alloc: Global, bytes: &[u8], nodes: Nodes) -> Result<Envelope, WireFault>
    // What is read was spelled so, and what is spelled so is read.
    ensures found { IfOk result (λ e. IsFrame nodes bytes.now e) }
    ensures only { (e : Envelope) → IsFrame nodes bytes.now e → Gives (λ x. x) result (Ok e) }
    // Which fault it is.
    ensures exact { Gives (λ x. x) result (frame_in nodes bytes.now) }
    // Memory is taken for a command, which lies apart, for the votes that a promise tells, for the bytes of a part, and for nothing else.
    ensures in_place { (e : Envelope) → IsFrame nodes bytes.now e → ¬ TakesMemory e.message → IsOk result }
    // Nor is it asked for bytes that are too many, or whose head is none, or that of a kind that brings none of these.
    ensures memory { IsErrOf result WireFault.Memory → FrameWithContentBegins nodes bytes.now }
{
    let _count = nodes.count();
    read_frame(alloc, bytes, nodes)
}

#[tactic(auto, unfolding(crate::specs::FrameReading::frame_in))]
fn read_frame(alloc: Global, bytes: &[u8], nodes: Nodes) -> Result<Envelope, WireFault>
    ensures read { Gives (λ x. x) result (frame_in nodes bytes.now) }
    ensures memory { IsErrOf result WireFault.Memory → ReadMayWant (λ e. TakesMemory e.message) (frame_in nodes bytes.now) }
    ensures not_long { IsErrOf result WireFault.Memory → length bytes.now ≤ LONGEST_FRAME }
    ensures brings { IsErrOf result WireFault.Memory → IsOkAnd (head_at nodes bytes.now) (λ h. BringsContent h.0.kind) }
{
    if bytes.len() > LONGEST_FRAME {
        return Err(WireFault::Long);
    }
    let mut input = Input::new(bytes);
    let envelope = read_envelope(alloc, &mut input, nodes)?;
    let at_end = input.is_empty();
    if !at_end {
        return Err(WireFault::Trailing);
    }
    Ok(envelope)
}

#[tactic(auto, unfolding(crate::specs::FrameReading::envelope_at))]
fn read_envelope(alloc: Global, input: &mut Input, nodes: Nodes) -> Result<Envelope, WireFault>
    ensures read { Gives (λ x. (x, input.new)) result (envelope_at nodes input.old) }
    ensures memory { IsErrOf result WireFault.Memory → ReadMayWant (λ x. TakesMemory x.0.message) (envelope_at nodes input.old) }
    ensures brings { IsErrOf result WireFault.Memory → IsOkAnd (head_at nodes input.old) (λ h. BringsContent h.0.kind) }
{
    let head = read_head(input, nodes)?;
    let message = read_message(alloc, head.kind, input, nodes)?;
    Ok(Envelope {
        from: head.from,
        to: head.to,
        message,
    })
}

/// What stands before the body of a frame.
#[derive(Clone, Copy)]
struct Head {
    kind: Kind,
    from: NodeId,
    to: NodeId,
}

#[tactic(auto, unfolding(crate::specs::FrameReading::head_at))]
fn read_head(input: &mut Input, nodes: Nodes) -> Result<Head, WireFault>
    ensures { Tells (λ h. (record { kind = h.kind; from = h.from; to = h.to }, input.new)) result (head_at nodes input.old) }
{
    let version = read_version(input)?;
    let kind = read_kind(input, version)?;
    let (from, to) = read_ends(input, nodes)?;
    Ok(Head { kind, from, to })
}

#[tactic(auto, unfolding(crate::specs::FrameReading::version_at))]
fn read_version(input: &mut Input) -> Result<u8, WireFault>
    ensures { Tells (λ x. (x, input.new)) result (version_at input.old) }
{
    let magic = input.u16()?;
    if magic != MAGIC {
        return Err(WireFault::Magic);
    }
    let version = input.u8()?;
    if version != 1 && version != 2 {
        return Err(WireFault::Version);
    }
    Ok(version)
}

#[tactic(auto, unfolding(crate::specs::FrameReading::kind_at))]
fn read_kind(input: &mut Input, version: u8) -> Result<Kind, WireFault>
    ensures { Tells (λ x. (x, input.new)) result (kind_at version input.old) }
{
    let byte = input.u8()?;
    match Kind::of(version, byte) {
        Some(kind) => Ok(kind),
        None => Err(WireFault::Kind),
    }
}

/// Who sends, and who receives.
#[tactic(auto, unfolding(crate::specs::FrameReading::ends_at))]
fn read_ends(input: &mut Input, nodes: Nodes) -> Result<(NodeId, NodeId), WireFault>
    ensures { Tells (λ x. (x, input.new)) result (ends_at nodes input.old) }
{
    let from = read_node(input, nodes)?;
    let to = read_node(input, nodes)?;
    Ok((from, to))
}

#[tactic(auto, unfolding(crate::specs::FrameReading::node_at))]
fn read_node(input: &mut Input, nodes: Nodes) -> Result<NodeId, WireFault>
    ensures { Tells (λ x. (x, input.new)) result (node_at nodes input.old) }
{
    let node = input.u8()?;
    if node >= nodes.count() {
        return Err(WireFault::Field);
    }
    Ok(nodes.node(node))
}

/// The body of a message of this kind.
// Inlined, the message would be put together from its parts at each step on its way.
#[tactic(auto, unfolding(crate::specs::FrameReading::message_at))]
#[inline(never)]
fn read_message(
    alloc: Global,
    kind: Kind,
    input: &mut Input,
    nodes: Nodes,
) -> Result<Message, WireFault>
    ensures read { Gives (λ x. (x, input.new)) result (message_at kind nodes input.old) }
    ensures memory { IsErrOf result WireFault.Memory → ReadMayWant (λ x. TakesMemory x.0) (message_at kind nodes input.old) }
    ensures brings { IsErrOf result WireFault.Memory → BringsContent kind }
{
    match kind {
        Kind::Prepare => read_prepare(input, nodes),
        Kind::Promise => Ok(Message::Promise(read_promise(alloc, input, nodes)?)),
        Kind::Nack => Ok(Message::Nack(read_nack(input, nodes)?)),
        Kind::Accept => Ok(Message::Accept(read_vote(alloc, input, nodes)?)),
        Kind::Accepted => Ok(Message::Accepted(read_vote(alloc, input, nodes)?)),
        Kind::Ask => Ok(Message::Ask {
            slot: read_slot(input)?,
        }),
        Kind::Decided => read_decided(alloc, input),
        Kind::SnapAsk => read_snap_ask(input),
        Kind::SnapPart => Ok(Message::SnapPart(read_part(alloc, input)?)),
        Kind::Behind => Ok(Message::Behind {
            floor: read_position(input)?,
        }),
    }
}

#[tactic(auto, unfolding(crate::specs::FrameReading::message_at))]
fn read_prepare(input: &mut Input, nodes: Nodes) -> Result<Message, WireFault>
    ensures { Tells (λ x. (x, input.new)) result (message_at kind.Prepare nodes input.old) }
{
    let ballot = read_ballot(input, nodes)?;
    let first = read_slot(input)?;
    Ok(Message::Prepare { ballot, first })
}

#[tactic(auto, unfolding(crate::specs::FrameReading::nack_at))]
fn read_nack(input: &mut Input, nodes: Nodes) -> Result<Nack, WireFault>
    ensures { Tells (λ x. (x, input.new)) result (nack_at nodes input.old) }
{
    let ballot = read_ballot(input, nodes)?;
    let promised = read_ballot_above(input, nodes, ballot)?;
    Ok(Nack::of(ballot, promised))
}

/// A ballot that is above another.
#[tactic(auto, unfolding(crate::specs::FrameReading::ballot_above))]
fn read_ballot_above(input: &mut Input, nodes: Nodes, refused: Ballot) -> Result<Ballot, WireFault>
    ensures above { IfOk result (λ b. rank refused < rank b) }
    ensures read { Tells (λ x. (x, input.new)) result (ballot_above nodes refused input.old) }
{
    let ballot = read_ballot(input, nodes)?;
    if ballot <= refused {
        return Err(WireFault::Field);
    }
    Ok(ballot)
}

/// What is proposed or was voted for.
#[tactic(auto, unfolding(crate::specs::FrameReading::vote_at))]
fn read_vote(
    alloc: Global,
    input: &mut Input,
    nodes: Nodes,
) -> Result<Vote<SharedCommand>, WireFault>
    ensures read { Gives (λ x. (x, input.new)) result (vote_at nodes input.old) }
    ensures memory { IsErrOf result WireFault.Memory → ReadMayWant (λ _. ⊤) (vote_at nodes input.old) }
{
    let ballot = read_ballot(input, nodes)?;
    let slot = read_slot(input)?;
    let command = read_held(alloc, input)?;
    Ok(Vote {
        slot,
        ballot,
        command,
    })
}

#[tactic(auto, unfolding(crate::specs::FrameReading::message_at))]
fn read_decided(alloc: Global, input: &mut Input) -> Result<Message, WireFault>
    ensures read { (nodes : ℕ) → Gives (λ x. (x, input.new)) result (message_at kind.Decided nodes input.old) }
    ensures memory { (nodes : ℕ) → IsErrOf result WireFault.Memory
        → ReadMayWant (λ x. TakesMemory x.0) (message_at kind.Decided nodes input.old) }
{
    let slot = read_slot(input)?;
    let command = read_held(alloc, input)?;
    Ok(Message::Decided { slot, command })
}

/// No frame is a proper beginning of another, and no bytes spell two envelopes.
pub fn no_frame_begins_another()
    ensures { (nodes : ℕ) (a b rest : List ℕ) (e f : Envelope) → IsFrame nodes a e → IsFrame nodes b f
        → a ++ rest ≡ b → (e ≡ f) × (rest ≡ []) }
{}
