//! What came of a line, in words.

ghost use Rattle.std.specs.Prelude.{◌≡◌, ◌++◌, codes, decimal, IfOk, OnOk};
ghost use Rattle.diagram.specs.Facts.{frame_text};
ghost use Rattle.replay.specs.Transcripts.{request_text};
ghost use Rattle.story.specs.Happenings.{answer_given, frame_lost, node_refused, node_stopped, reply_given, round_ended, slot_learnt, text_restored, told_by};
ghost use Rattle.story.specs.Lines.{Says};
ghost use Rattle.story.specs.Ranges.{range_words, ranges_words};
ghost use Rattle.story.specs.Saying.{count_said, ending_words, item_said, line_said, right_aligned, way_out};
ghost use Rattle.story.specs.Wordings.{end_words, meaning_of, reply_words, words_of};
ghost use Rattle.story.specs.declared.writer.Form.TheVariants.{Words};

use super::items::{Item, push_command, push_request};
use super::ranges::Range;
use diagram::{Facts, push_frame};
use node_model::NodeFault;
use schedule::ReplayFault;
use sessions::SessionReply;
use std::alloc::Global;
use std::io::{self, Write};
use store::Reply;
use wire::{NodeId, Position};
use world_model::{Answered, LearntEntry, Replied, RoundEnd};

/// A line of the schedule.
pub(crate) fn line_words(alloc: Global, number: u64, line: &[u8]) -> io::Result<Vec<u8>>
    ensures { IfOk result (λ text. Says (line_said Words number line.now) text.items) }
{
    let mut text = Vec::new(alloc);
    push_right_aligned(&mut text, number)?;
    text.extend_from_slice(b"  ")?;
    text.extend_from_slice(line)?;
    Ok(text)
}

/// Adds a number, which ends where the sixth column does, if it isn't longer.
fn push_right_aligned(text: &mut Vec<u8>, number: u64) -> io::Result<()>
    ensures { OnOk result (text.new.items ≡ text.old.items ++ right_aligned number) }
{
    write!(text, "{number:>6}")
}

/// What came of a line, below it.
pub(crate) fn item_words(alloc: Global, line: u64, item: &Item) -> io::Result<Vec<u8>>
    ensures { IfOk result (λ text. Says (item_said Words line (told_by item.now)) text.items) }
{
    let mut text = Vec::new(alloc);
    text.extend_from_slice(b"        ")?;
    push_item(&mut text, item)?;
    Ok(text)
}

/// How many frames were sent at a line, of which the first has this number.
pub(crate) fn count_words(
    alloc: Global,
    line: u64,
    first: usize,
    count: usize,
) -> io::Result<Vec<u8>>
    ensures { IfOk result (λ text. Says (count_said Words line first count) text.items) }
{
    let mut text = Vec::new(alloc);
    write!(
        &mut text,
        "        frames sent: {count}, from number {first} on"
    )?;
    Ok(text)
}

/// The fault with which the run ends.
pub(crate) fn fault_words(alloc: Global, fault: ReplayFault) -> io::Result<Vec<u8>>
    ensures { IfOk result (λ text. text.items ≡ ending_words fault) }
{
    let mut text = Vec::new(alloc);
    let (line, code, cause) = (fault.line, fault.cause.code(), fault.cause);
    write!(&mut text, "fault {code} at line {line}: {cause}")?;
    Ok(text)
}

/// How many frames there are.
pub(crate) fn frames_words(alloc: Global, frames: usize) -> io::Result<Vec<u8>>
    ensures { IfOk result (λ text. text.items ≡ codes "        frames so far: " ++ (decimal frames ++ codes ", numbered from 0")) }
{
    let mut text = Vec::new(alloc);
    write!(
        &mut text,
        "        frames so far: {frames}, numbered from 0"
    )?;
    Ok(text)
}

/// Which frames wait where a flush doesn't end.
pub(crate) fn waiting_words(alloc: Global, waiting: &[Range]) -> io::Result<Vec<u8>>
    ensures { IfOk result (λ text. text.items ≡ codes "        frames that wait: " ++ ranges_words waiting.now) }
{
    let mut text = Vec::new(alloc);
    text.extend_from_slice(b"        frames that wait: ")?;
    push_ranges(&mut text, waiting)?;
    Ok(text)
}

/// What ends such a flush.
pub(crate) fn way_out_words(alloc: Global) -> io::Result<Vec<u8>>
    ensures { IfOk result (λ text. text.items ≡ way_out) }
{
    let mut text = Vec::new(alloc);
    text.extend_from_slice(
        b"        a way out: `timeout N` of a node that is up and `flush` again, which catches up with four slots each time",
    )?;
    Ok(text)
}

/// Adds the ranges of frames in words: `3, 7 to 12`.
fn push_ranges(text: &mut Vec<u8>, ranges: &[Range]) -> io::Result<()>
    ensures { OnOk result (text.new.items ≡ text.old.items ++ ranges_words ranges.now) }
{
    let mut lead: &[u8] = b"";
    for range in ranges {
        text.extend_from_slice(lead)?;
        lead = b", ";
        push_range(text, *range)?;
    }
    Ok(())
}

/// Adds a range of frames in words.
fn push_range(text: &mut Vec<u8>, range: Range) -> io::Result<()>
    ensures { OnOk result (text.new.items ≡ text.old.items ++ range_words range) }
{
    let (first, last) = (range.first, range.last);
    if first == last {
        return write!(text, "{first}");
    }
    write!(text, "{first} to {last}")
}

/// Adds an item in words.
pub(crate) fn push_item(text: &mut Vec<u8>, item: &Item) -> io::Result<()>
    ensures { OnOk result (text.new.items ≡ text.old.items ++ words_of (told_by item.now)) }
{
    match item {
        Item::Sent {
            number,
            from,
            to,
            facts,
        } => push_frame(text, *number, *from, *to, facts),
        Item::Learnt(entry) => push_learnt(text, *entry),
        Item::Replied(entry) => push_replied(text, *entry),
        Item::Answered(entry) => push_answered(text, *entry),
        Item::Restored(node, position) => push_restored(text, *node, *position),
        Item::Lost {
            number,
            from,
            to,
            facts,
        } => push_lost(text, *number, *from, *to, facts),
        Item::Refused(node, fault) => push_refused(text, *node, *fault),
        Item::Stopped(node, fault) => push_stopped(text, *node, *fault),
        Item::Round(node, end) => push_round(text, *node, *end),
    }
}

/// Adds that a node learnt a slot.
fn push_learnt(text: &mut Vec<u8>, entry: &LearntEntry) -> io::Result<()>
    ensures { OnOk result (text.new.items ≡ text.old.items ++ words_of (slot_learnt entry.now)) }
{
    let (node, slot) = (entry.node.value(), entry.slot.value());
    write!(text, "node {node} learns slot {slot}: ")?;
    push_command(text, entry.command.command())
}

/// Adds a reply.
fn push_replied(text: &mut Vec<u8>, entry: &Replied) -> io::Result<()>
    ensures { OnOk result (text.new.items ≡ text.old.items ++ words_of (reply_given entry.now)) }
{
    let node = entry.node.value();
    write!(text, "node {node} replies to ")?;
    push_reply(text, entry)
}

/// Adds to which request a reply is, and what it says.
fn push_reply(text: &mut Vec<u8>, entry: &Replied) -> io::Result<()>
    ensures { OnOk result (text.new.items ≡ text.old.items ++ (request_text entry.now.client entry.now.number ++ (codes ": " ++ reply_words entry.now.reply))) }
{
    push_request(text, entry.client, entry.number.value())?;
    let (code, meaning) = (entry.reply.code(), reply_meaning(entry.reply));
    write!(text, ": {code}, {meaning}")
}

/// Adds an answer.
fn push_answered(text: &mut Vec<u8>, entry: &Answered) -> io::Result<()>
    ensures { OnOk result (text.new.items ≡ text.old.items ++ words_of (answer_given entry.now)) }
{
    let (node, position) = (entry.node.value(), entry.position);
    write!(text, "node {node} answers at position {position}: ")?;
    push_bytes(text, entry.text.as_bytes())
}

fn push_bytes(text: &mut Vec<u8>, bytes: &[u8]) -> io::Result<()>
    ensures { OnOk result (text.new.items ≡ text.old.items ++ bytes.now) }
{
    text.extend_from_slice(bytes)?;
    Ok(())
}

/// Adds that a node restored a checkpoint.
fn push_restored(text: &mut Vec<u8>, node: NodeId, position: Position) -> io::Result<()>
    ensures { OnOk result (text.new.items ≡ text.old.items ++ words_of (text_restored node position)) }
{
    let (node, position) = (node.value(), position.value());
    write!(
        text,
        "node {node} restores the checkpoint at position {position}"
    )
}

/// Adds that a frame was lost.
fn push_lost(
    text: &mut Vec<u8>,
    number: usize,
    from: NodeId,
    to: NodeId,
    facts: &Facts,
) -> io::Result<()>
    ensures { OnOk result (text.new.items ≡ text.old.items ++ words_of (frame_lost number from to facts.now)) }
{
    let node = to.value();
    write!(text, "lost, as node {node} is down: ")?;
    push_frame(text, number, from, to, facts)
}

/// Adds how a round of a node ended.
fn push_round(text: &mut Vec<u8>, node: NodeId, end: RoundEnd) -> io::Result<()>
    ensures { OnOk result (text.new.items ≡ text.old.items ++ words_of (round_ended node end)) }
{
    let node = node.value();
    write!(text, "the round of node {node} ends: ")?;
    push_end(text, end)
}

/// Adds that a node refused.
fn push_refused(text: &mut Vec<u8>, node: NodeId, fault: NodeFault) -> io::Result<()>
    ensures { OnOk result (text.new.items ≡ text.old.items ++ words_of (node_refused node fault)) }
{
    let (node, code) = (node.value(), fault.code());
    write!(text, "node {node} refuses: {code}, ")?;
    write!(text, "{fault}")
}

/// Adds that it stopped.
fn push_stopped(text: &mut Vec<u8>, node: NodeId, fault: NodeFault) -> io::Result<()>
    ensures { OnOk result (text.new.items ≡ text.old.items ++ words_of (node_stopped node fault)) }
{
    let (node, code) = (node.value(), fault.code());
    write!(text, "node {node} stops: {code}, ")?;
    write!(text, "{fault}")
}

/// Adds how a round by hand ended.
pub(crate) fn push_end(text: &mut Vec<u8>, end: RoundEnd) -> io::Result<()>
    ensures { OnOk result (text.new.items ≡ text.old.items ++ end_words end) }
{
    match end {
        RoundEnd::NotAQuorum => write!(text, "the members are no quorum"),
        RoundEnd::Down(member) => {
            let member = member.value();
            write!(text, "node {member} is down")
        }
        RoundEnd::Behind(member) => {
            let member = member.value();
            write!(text, "node {member} has forgotten the slot")
        }
        RoundEnd::Refused(fault) => {
            let code = fault.code();
            write!(text, "refused, {code}, {fault}")
        }
        RoundEnd::Stopped(member) => {
            let member = member.value();
            write!(text, "node {member} has stopped")
        }
        RoundEnd::TooLow(promised) => {
            let promised = promised.ballot();
            let (round, node) = (promised.round, promised.node);
            write!(text, "ballot {round}.{node} was promised")
        }
        RoundEnd::Decided(slot) => {
            let slot = slot.value();
            write!(text, "slot {slot} is decided")
        }
    }
}

/// What a reply means.
pub(crate) fn reply_meaning(reply: SessionReply) -> &'static str
    ensures { result.now ≡ meaning_of reply }
{
    match reply {
        SessionReply::Applied(Reply::Done) => "done",
        SessionReply::Applied(Reply::Unknown) => "there is no feature with this id",
        SessionReply::Applied(Reply::NotLater) => "the point is not later than the last one",
        SessionReply::Applied(Reply::Full) => "the feature has as many points as it may",
        SessionReply::Applied(Reply::TooMany) => "there are as many features as may be",
        SessionReply::Past => "a later request of the client has counted",
        SessionReply::Gap => "the client's request before it has not counted yet",
    }
}
