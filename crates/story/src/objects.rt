//! What came of a line, as JSON: an object a line, its members in a fixed order.

ghost use Rattle.std.specs.Prelude.{◌≡◌, ◌++◌, codes, decimal, IfOk, OnOk};
ghost use Rattle.diagram.specs.Facts.{kind_text};
ghost use Rattle.replay.specs.Transcripts.{command_text, request_text};
ghost use Rattle.sessions.specs.SessionReplies.{outcome_code};
ghost use Rattle.story.specs.Happenings.{answer_given, frame_lost, frame_sent, node_refused, node_stopped, reply_given, round_ended, slot_learnt, text_restored, told_by};
ghost use Rattle.story.specs.Lines.{Says};
ghost use Rattle.story.specs.Members.{ballot_member, code_members, fault_members, frame_members, json_text, members_of, reply_members, slot_member};
ghost use Rattle.story.specs.Ranges.{range_pairs};
ghost use Rattle.story.specs.Saying.{count_said, ending_members, item_said, line_said, object_begin};
ghost use Rattle.story.specs.Wordings.{end_words, meaning_of};
ghost use Rattle.story.specs.declared.writer.Form.TheVariants.{Json};

use super::items::{Item, push_command, push_request};
use super::ranges::Range;
use super::words::{push_end, reply_meaning};
use diagram::{Facts, kind_name};
use node_model::NodeFault;
use schedule::ReplayFault;
use serde_json::Value;
use sessions::Command;
use std::alloc::Global;
use std::io::{self, Write};
use synod::Ballot;
use wire::{Kind, NodeId, Position};
use world_model::{Answered, LearntEntry, Replied, RoundEnd};

/// A line of the schedule.
pub(crate) fn line_object(alloc: Global, number: u64, line: &[u8]) -> io::Result<Vec<u8>>
    ensures { IfOk result (λ text. Says (line_said Json number line.now) text.items) }
{
    let mut text = begin_object(alloc, number)?;
    text.extend_from_slice(b"\"line\",\"text\":")?;
    push_quoted(alloc, &mut text, line)?;
    text.extend_from_slice(b"}")?;
    Ok(text)
}

/// What came of a line.
pub(crate) fn item_object(alloc: Global, line: u64, item: &Item) -> io::Result<Vec<u8>>
    ensures { IfOk result (λ text. Says (item_said Json line (told_by item.now)) text.items) }
{
    let mut text = begin_object(alloc, line)?;
    push_item(alloc, &mut text, item)?;
    text.extend_from_slice(b"}")?;
    Ok(text)
}

/// How an object of a line begins.
fn begin_object(alloc: Global, line: u64) -> io::Result<Vec<u8>>
    ensures { IfOk result (λ text. text.items ≡ object_begin line) }
{
    let mut text = Vec::new(alloc);
    write!(&mut text, "{{\"line\":{line},\"what\":")?;
    Ok(text)
}

/// How many frames were sent at a line, of which the first has this number.
pub(crate) fn count_object(
    alloc: Global,
    line: u64,
    first: usize,
    count: usize,
) -> io::Result<Vec<u8>>
    ensures { IfOk result (λ text. Says (count_said Json line first count) text.items) }
{
    let mut text = begin_object(alloc, line)?;
    write!(
        &mut text,
        "\"frames\",\"first\":{first},\"count\":{count}}}"
    )?;
    Ok(text)
}

/// The fault with which the run ends, how many frames there are, and those that wait.
pub(crate) fn fault_object(
    alloc: Global,
    fault: ReplayFault,
    frames: usize,
    waiting: &[Range],
) -> io::Result<Vec<u8>>
    ensures { IfOk result (λ text. text.items ≡ object_begin fault.line ++ (ending_members fault frames ++ (range_pairs waiting.now ++ codes "]}"))) }
{
    let mut text = begin_object(alloc, fault.line)?;
    push_fault(&mut text, fault, frames)?;
    push_pairs(&mut text, waiting)?;
    text.extend_from_slice(b"]}")?;
    Ok(text)
}

fn push_fault(text: &mut Vec<u8>, fault: ReplayFault, frames: usize) -> io::Result<()>
    ensures { OnOk result (text.new.items ≡ text.old.items ++ ending_members fault frames) }
{
    let (code, cause) = (fault.cause.code(), fault.cause);
    write!(
        text,
        "\"fault\",\"code\":{code},\"meaning\":\"{cause}\",\"frames\":{frames},\"waiting\":["
    )
}

/// Adds the ranges of frames as JSON: an array of the first and the last number for each.
fn push_pairs(text: &mut Vec<u8>, ranges: &[Range]) -> io::Result<()>
    ensures { OnOk result (text.new.items ≡ text.old.items ++ range_pairs ranges.now) }
{
    let mut lead: &[u8] = b"";
    for range in ranges {
        text.extend_from_slice(lead)?;
        lead = b",";
        let (first, last) = (range.first, range.last);
        write!(text, "[{first},{last}]")?;
    }
    Ok(())
}

/// Adds the members of an item: its kind, and what is told of it.
fn push_item(alloc: Global, text: &mut Vec<u8>, item: &Item) -> io::Result<()>
    ensures { OnOk result (text.new.items ≡ text.old.items ++ members_of (told_by item.now)) }
{
    match item {
        Item::Sent {
            number,
            from,
            to,
            facts,
        } => push_sent(text, *number, *from, *to, facts),
        Item::Learnt(entry) => push_learnt(text, *entry),
        Item::Replied(entry) => push_replied(text, *entry),
        Item::Answered(entry) => push_answered(alloc, text, *entry),
        Item::Restored(node, position) => push_restored(text, *node, *position),
        Item::Lost {
            number,
            from,
            to,
            facts,
        } => push_lost(text, *number, *from, *to, facts),
        Item::Refused(node, fault) => push_refused(text, *node, *fault),
        Item::Stopped(node, fault) => push_stopped(text, *node, *fault),
        Item::Round(node, end) => push_round(text, *node, *end),
    }
}

fn push_sent(
    text: &mut Vec<u8>,
    number: usize,
    from: NodeId,
    to: NodeId,
    facts: &Facts,
) -> io::Result<()>
    ensures { OnOk result (text.new.items ≡ text.old.items ++ members_of (frame_sent number from to facts.now)) }
{
    text.extend_from_slice(b"\"frame\"")?;
    push_frame(text, number, from, to, facts)
}

fn push_lost(
    text: &mut Vec<u8>,
    number: usize,
    from: NodeId,
    to: NodeId,
    facts: &Facts,
) -> io::Result<()>
    ensures { OnOk result (text.new.items ≡ text.old.items ++ members_of (frame_lost number from to facts.now)) }
{
    text.extend_from_slice(b"\"lost\"")?;
    push_frame(text, number, from, to, facts)
}

/// Adds the members of a frame.
fn push_frame(
    text: &mut Vec<u8>,
    number: usize,
    from: NodeId,
    to: NodeId,
    facts: &Facts,
) -> io::Result<()>
    ensures { OnOk result (text.new.items ≡ text.old.items ++ frame_members number from to facts.now) }
{
    push_way(text, number, from, to, facts.kind)?;
    push_facts(text, facts)
}

/// The number, the kind and the way of a frame.
fn push_way(
    text: &mut Vec<u8>,
    number: usize,
    from: NodeId,
    to: NodeId,
    kind: Kind,
) -> io::Result<()>
    ensures { OnOk result (text.new.items ≡ text.old.items ++ (codes ",\"frame\":" ++ (decimal number ++ (codes ",\"kind\":\"" ++ (kind_text kind
        ++ (codes "\",\"from\":" ++ (decimal from ++ (codes ",\"to\":" ++ decimal to)))))))) }
{
    let (from, to, kind) = (from.value(), to.value(), kind_name(kind));
    write!(
        text,
        ",\"frame\":{number},\"kind\":\"{kind}\",\"from\":{from},\"to\":{to}"
    )
}

/// What it speaks of.
fn push_facts(text: &mut Vec<u8>, facts: &Facts) -> io::Result<()>
    ensures { OnOk result (text.new.items ≡ text.old.items ++ (slot_member facts.now.slot ++ ballot_member facts.now.ballot)) }
{
    push_slot(text, facts.slot)?;
    push_ballot(text, facts.ballot)
}

/// The slot of which a frame speaks.
fn push_slot(text: &mut Vec<u8>, slot: Option<u32>) -> io::Result<()>
    ensures { OnOk result (text.new.items ≡ text.old.items ++ slot_member slot) }
{
    match slot {
        Some(slot) => write!(text, ",\"slot\":{slot}"),
        None => Ok(()),
    }
}

/// The ballot of which it speaks.
fn push_ballot(text: &mut Vec<u8>, ballot: Option<Ballot>) -> io::Result<()>
    ensures { OnOk result (text.new.items ≡ text.old.items ++ ballot_member ballot) }
{
    match ballot {
        Some(ballot) => {
            let (round, node) = (ballot.round, ballot.node);
            write!(text, ",\"ballot\":\"{round}.{node}\"")
        }
        None => Ok(()),
    }
}

fn push_learnt(text: &mut Vec<u8>, entry: &LearntEntry) -> io::Result<()>
    ensures { OnOk result (text.new.items ≡ text.old.items ++ members_of (slot_learnt entry.now)) }
{
    let (node, slot) = (entry.node.value(), entry.slot.value());
    write!(
        text,
        "\"learn\",\"node\":{node},\"slot\":{slot},\"command\":\""
    )?;
    push_named(text, entry.command.command())
}

/// A command, and the end of its text.
fn push_named(text: &mut Vec<u8>, command: &Command) -> io::Result<()>
    ensures { OnOk result (text.new.items ≡ text.old.items ++ (command_text command.now ++ codes "\"")) }
{
    push_command(text, command)?;
    text.extend_from_slice(b"\"")?;
    Ok(())
}

fn push_replied(text: &mut Vec<u8>, entry: &Replied) -> io::Result<()>
    ensures { OnOk result (text.new.items ≡ text.old.items ++ members_of (reply_given entry.now)) }
{
    let node = entry.node.value();
    write!(text, "\"reply\",\"node\":{node}")?;
    push_reply(text, entry)
}

/// To which request a reply is, and what it says.
fn push_reply(text: &mut Vec<u8>, entry: &Replied) -> io::Result<()>
    ensures { OnOk result (text.new.items ≡ text.old.items ++ reply_members entry.now) }
{
    text.extend_from_slice(b",\"request\":\"")?;
    push_request(text, entry.client, entry.number.value())?;
    let (code, meaning) = (entry.reply.code(), reply_meaning(entry.reply));
    write!(text, "\",\"code\":{code},\"meaning\":\"{meaning}\"")
}

fn push_answered(alloc: Global, text: &mut Vec<u8>, entry: &Answered) -> io::Result<()>
    ensures { OnOk result (text.new.items ≡ text.old.items ++ members_of (answer_given entry.now)) }
{
    let node = entry.node.value();
    write!(text, "\"answer\",\"node\":{node}")?;
    push_answer(alloc, text, entry)
}

/// At which position an answer is, and its text.
fn push_answer(alloc: Global, text: &mut Vec<u8>, entry: &Answered) -> io::Result<()>
    ensures { OnOk result (text.new.items ≡ text.old.items ++ (codes ",\"position\":" ++ (decimal entry.now.position ++ (codes ",\"text\":" ++ json_text entry.now.text)))) }
{
    let position = entry.position;
    write!(text, ",\"position\":{position},\"text\":")?;
    push_quoted(alloc, text, entry.text.as_bytes())
}

fn push_restored(text: &mut Vec<u8>, node: NodeId, position: Position) -> io::Result<()>
    ensures { OnOk result (text.new.items ≡ text.old.items ++ members_of (text_restored node position)) }
{
    let (node, position) = (node.value(), position.value());
    write!(text, "\"restore\",\"node\":{node},\"position\":{position}")
}

fn push_round(text: &mut Vec<u8>, node: NodeId, end: RoundEnd) -> io::Result<()>
    ensures { OnOk result (text.new.items ≡ text.old.items ++ members_of (round_ended node end)) }
{
    let node = node.value();
    write!(text, "\"round\",\"node\":{node},\"meaning\":\"")?;
    push_round_end(text, end)
}

/// How a round ended, and the end of its text.
fn push_round_end(text: &mut Vec<u8>, end: RoundEnd) -> io::Result<()>
    ensures { OnOk result (text.new.items ≡ text.old.items ++ (end_words end ++ codes "\"")) }
{
    push_end(text, end)?;
    text.extend_from_slice(b"\"")?;
    Ok(())
}

fn push_refused(text: &mut Vec<u8>, node: NodeId, fault: NodeFault) -> io::Result<()>
    ensures { OnOk result (text.new.items ≡ text.old.items ++ members_of (node_refused node fault)) }
{
    let node = node.value();
    write!(text, "\"refuse\",\"node\":{node}")?;
    push_node_fault(text, fault)
}

fn push_stopped(text: &mut Vec<u8>, node: NodeId, fault: NodeFault) -> io::Result<()>
    ensures { OnOk result (text.new.items ≡ text.old.items ++ members_of (node_stopped node fault)) }
{
    let node = node.value();
    write!(text, "\"stop\",\"node\":{node}")?;
    push_node_fault(text, fault)
}

/// The number and the words of a node's fault.
fn push_node_fault(text: &mut Vec<u8>, fault: NodeFault) -> io::Result<()>
    ensures { OnOk result (text.new.items ≡ text.old.items ++ fault_members fault) }
{
    let code = fault.code();
    write!(text, ",\"code\":{code},\"meaning\":\"{fault}\"")
}

/// Adds a text as JSON has it.
pub(crate) fn push_quoted(alloc: Global, text: &mut Vec<u8>, bytes: &[u8]) -> io::Result<()>
    ensures { OnOk result (text.new.items ≡ text.old.items ++ json_text bytes.now) }
{
    let plain = String::from_utf8_lossy(alloc, bytes)?;
    let quoted = Value::String(plain).to_string(alloc)?;
    text.extend_from_slice(quoted.as_bytes())?;
    Ok(())
}
