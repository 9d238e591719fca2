//! The lines of a transcript, added to a part.

ghost use Rattle.std.specs.Prelude.{◌≡◌, ◌≤◌, ◌++◌, OnErr, OnOk, codes, decimal, drop, flat_map, length};
ghost use Rattle.replay.specs.Parts.{Adds};
ghost use Rattle.replay.specs.Transcripts.{answer_line, learn_line, refuse_line, reply_line, restore_line, round_line, stop_line};
ghost use Rattle.replay.specs.declared.line_texts.TheConstants.{LONGEST_LINE, LONGEST_WORD};

use super::line_texts::{
    LONGEST_LINE, SHORT_ANSWER, write_answer, write_event, write_learn, write_noop, write_question,
    write_reply, write_round,
};
use super::part::add;
use super::sink::Sink;
use node_model::NodeFault;
use sessions::Command;
use std::io;
use wire::{NodeId, Position};
use world_model::{Answered, LearntEntry, Replied, RoundEnd};

/// Adds the lines of what nodes learnt.
pub(crate) fn print_learnt<K: Sink>(
    part: &mut Vec<u8>,
    sink: &mut K,
    entries: &[LearntEntry],
) -> io::Result<()>
    ensures added { OnOk result (Adds K.takes sink.old part.old.items (flat_map learn_line entries.now)
        sink.new part.new.items) }
    ensures refused { OnErr result (K.HasFailed sink.new) }
{
    for learnt in entries {
        print_entry(part, sink, learnt)?;
    }
    Ok(())
}

/// Adds the lines of replies.
pub(crate) fn print_replies<K: Sink>(
    part: &mut Vec<u8>,
    sink: &mut K,
    replies: &[Replied],
) -> io::Result<()>
    ensures added { OnOk result (Adds K.takes sink.old part.old.items (flat_map reply_line replies.now)
        sink.new part.new.items) }
    ensures refused { OnErr result (K.HasFailed sink.new) }
{
    for replied in replies {
        print_reply(part, sink, replied)?;
    }
    Ok(())
}

/// Adds the lines of answers.
pub(crate) fn print_answers<K: Sink>(
    part: &mut Vec<u8>,
    sink: &mut K,
    answers: &[Answered],
) -> io::Result<()>
    ensures added { OnOk result (Adds K.takes sink.old part.old.items (flat_map answer_line answers.now)
        sink.new part.new.items) }
    ensures refused { OnErr result (K.HasFailed sink.new) }
{
    for answered in answers {
        print_answer(part, sink, answered)?;
    }
    Ok(())
}

/// Adds the line of what a node learnt: `learn 0 0 7:1`, or `learn 0 0 noop`.
fn print_entry<K: Sink>(part: &mut Vec<u8>, sink: &mut K, learnt: &LearntEntry) -> io::Result<()>
    ensures added { OnOk result (Adds K.takes sink.old part.old.items (learn_line learnt.now) sink.new part.new.items) }
    ensures refused { OnErr result (K.HasFailed sink.new) }
{
    let mut line = [0; LONGEST_LINE];
    let start = write_entry(learnt, &mut line);
    add(part, sink, &line[start..])
}

/// Writes the line of what a node learnt.
fn write_entry(learnt: &LearntEntry, line: &mut [u8]) -> usize
    requires { length line.old ≡ LONGEST_LINE }
    ensures in_line { result ≤ LONGEST_LINE }
    ensures written { drop result line.new ≡ learn_line learnt.now }
{
    let node = learnt.node.value();
    let slot = learnt.slot.value();
    match learnt.command.command() {
        Command::NoOp => write_noop(node, slot, line),
        Command::Request(request) => {
            let client = request.client();
            let number = request.number().value();
            write_learn(node, slot, client, number, line)
        }
    }
}

/// Adds the line of a reply: `reply 0 7:1 21`.
fn print_reply<K: Sink>(part: &mut Vec<u8>, sink: &mut K, replied: &Replied) -> io::Result<()>
    ensures added { OnOk result (Adds K.takes sink.old part.old.items (reply_line replied.now) sink.new part.new.items) }
    ensures refused { OnErr result (K.HasFailed sink.new) }
{
    let node = replied.node.value();
    let client = replied.client;
    let number = replied.number.value();
    let code = replied.reply.code();
    let mut line = [0; LONGEST_LINE];
    let start = write_reply(node, client, number, code, &mut line);
    add(part, sink, &line[start..])
}

/// Adds the line of an answer: `answer 0 1 count 0`.
fn print_answer<K: Sink>(part: &mut Vec<u8>, sink: &mut K, answered: &Answered) -> io::Result<()>
    ensures added { OnOk result (Adds K.takes sink.old part.old.items (answer_line answered.now) sink.new part.new.items) }
    ensures refused { OnErr result (K.HasFailed sink.new) }
{
    let node = answered.node.value();
    let answer = answered.text.as_bytes();
    if answer.len() > SHORT_ANSWER {
        return print_long_answer(part, sink, node, answered.position, answer);
    }
    let mut line = [0; LONGEST_LINE];
    let start = write_answer(node, answered.position, answer, &mut line);
    add(part, sink, &line[start..])
}

/// Adds the line of a long answer, whose text is moved by itself.
fn print_long_answer<K: Sink>(
    part: &mut Vec<u8>,
    sink: &mut K,
    node: u8,
    position: u32,
    answer: &[u8],
) -> io::Result<()>
    ensures added { OnOk result (Adds K.takes sink.old part.old.items
        (codes "answer " ++ decimal node ++ codes " " ++ decimal position ++ codes " " ++ answer.now ++ codes "\n")
        sink.new part.new.items) }
    ensures refused { OnErr result (K.HasFailed sink.new) }
{
    print_asked(part, sink, node, position)?;
    add(part, sink, answer)?;
    add(part, sink, b"\n")
}

/// Adds what stands before an answer.
fn print_asked<K: Sink>(part: &mut Vec<u8>, sink: &mut K, node: u8, position: u32) -> io::Result<()>
    ensures added { OnOk result (Adds K.takes sink.old part.old.items
        (codes "answer " ++ decimal node ++ codes " " ++ decimal position ++ codes " ") sink.new part.new.items) }
    ensures refused { OnErr result (K.HasFailed sink.new) }
{
    let mut line = [0; LONGEST_LINE];
    let start = write_question(node, position, &mut line);
    add(part, sink, &line[start..])
}

/// Adds the line of a text that was restored: `restore 2 1`.
pub(crate) fn print_restore<K: Sink>(
    part: &mut Vec<u8>,
    sink: &mut K,
    node: NodeId,
    position: Position,
) -> io::Result<()>
    ensures added { OnOk result (Adds K.takes sink.old part.old.items (restore_line node position) sink.new part.new.items) }
    ensures refused { OnErr result (K.HasFailed sink.new) }
{
    print_event(part, sink, b"restore ", node, u64::from(position.value()))
}

/// Adds the line of a refusal: `refuse 0 41`.
pub(crate) fn print_refusal<K: Sink>(
    part: &mut Vec<u8>,
    sink: &mut K,
    node: NodeId,
    fault: NodeFault,
) -> io::Result<()>
    ensures added { OnOk result (Adds K.takes sink.old part.old.items (refuse_line node fault) sink.new part.new.items) }
    ensures refused { OnErr result (K.HasFailed sink.new) }
{
    print_event(part, sink, b"refuse ", node, u64::from(fault.code()))
}

/// Adds the line of a node that went down: `stop 0 46`.
pub(crate) fn print_stop<K: Sink>(
    part: &mut Vec<u8>,
    sink: &mut K,
    node: NodeId,
    fault: NodeFault,
) -> io::Result<()>
    ensures added { OnOk result (Adds K.takes sink.old part.old.items (stop_line node fault) sink.new part.new.items) }
    ensures refused { OnErr result (K.HasFailed sink.new) }
{
    print_event(part, sink, b"stop ", node, u64::from(fault.code()))
}

/// Adds the line of what came to a node, as one word says, and a number.
fn print_event<K: Sink>(
    part: &mut Vec<u8>,
    sink: &mut K,
    word: &[u8],
    node: NodeId,
    number: u64,
) -> io::Result<()>
    requires short { length word.now ≤ LONGEST_WORD }
    ensures added { OnOk result (Adds K.takes sink.old part.old.items
        (word.now ++ decimal node ++ codes " " ++ decimal number ++ codes "\n") sink.new part.new.items) }
    ensures refused { OnErr result (K.HasFailed sink.new) }
{
    let mut line = [0; LONGEST_LINE];
    let start = write_event(word, node.value(), number, &mut line);
    add(part, sink, &line[start..])
}

/// Adds the line of a round by hand: `round 0 decided 0`.
pub(crate) fn print_round<K: Sink>(
    part: &mut Vec<u8>,
    sink: &mut K,
    node: NodeId,
    end: RoundEnd,
) -> io::Result<()>
    ensures added { OnOk result (Adds K.takes sink.old part.old.items (round_line node end) sink.new part.new.items) }
    ensures refused { OnErr result (K.HasFailed sink.new) }
{
    let mut line = [0; LONGEST_LINE];
    let start = write_round(node.value(), end, &mut line);
    add(part, sink, &line[start..])
}
