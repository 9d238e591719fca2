//! When each frame was sent, and when it came.

ghost use Rattle.std.specs.Prelude.{◌≡◌, ◌≤◌, ◌<◌, drop, length, not, slice_get, vec_len, IfOk, IfSome, IsTrue, OnOk, Some};
ghost use Rattle.story.specs.Answering.{Answers, IsAnswered, MessageAnswers};
ghost use Rattle.story.specs.Passing.{DeliversOneOf, HearsIn, IsLater, NotesComing, NotesSending, SameComings, StillSent, came_in};

use super::deeds::Deed;
use diagram::Passage;
use std::alloc::{AllocError, Global};
use wire::{Envelope, Frame, Message};

/// Whether the frame of this number waits no more.
pub(crate) fn is_over(waiting: &[bool], index: usize) -> bool
    requires { index < length waiting.now }
    ensures { slice_get waiting.now index ≡ Some (not result) }
{
    !waiting[index]
}

/// A frame of a round was sent when its sender had heard what it answers, or the promise that made so many.
pub(crate) fn send_late(
    frames: &[Envelope],
    passages: &mut Vec<Passage>,
    first: usize,
    quorum: usize,
)
    ensures count { length passages.new.items ≡ length passages.old.items }
    ensures came { SameComings passages.old.items passages.new.items }
    ensures sent { StillSent frames.now first passages.old.items passages.new.items }
{
    send_each_late(frames, passages.as_mut_slice(), first, quorum);
}

/// Each of the frames was sent when its sender had heard what it answers.
fn send_each_late(frames: &[Envelope], passages: &mut [Passage], first: usize, quorum: usize)
    ensures came { SameComings passages.old passages.new }
    ensures sent { StillSent frames.now first passages.old passages.new }
{
    for number in first..first.saturating_add(frames.len()) {
        match heard_before(frames, passages, first, number, quorum) {
            Some(heard) => delay(frames, passages, first, number, heard),
            None => {}
        }
    }
}

/// The frames from a number on, opened.
pub(crate) fn open_frames(
    alloc: Global,
    frames: &[Frame],
    first: usize,
) -> Result<Vec<Envelope>, AllocError>
    requires { first ≤ length frames.now }
    ensures { IfOk result (λ opened. opened.items ≡ drop first frames.now) }
{
    let mut opened = Vec::new(alloc);
    for index in first..frames.len() {
        opened.push(frames[index].open(alloc)?)?;
    }
    Ok(opened)
}

/// A frame was sent no sooner than at the step at which its sender heard what it answers.
fn delay(frames: &[Envelope], passages: &mut [Passage], first: usize, number: usize, heard: usize)
    requires { HearsIn frames.now first passages.old number heard }
    ensures came { SameComings passages.old passages.new }
    ensures sent { StillSent frames.now first passages.old passages.new }
{
    if number < passages.len() {
        passages[number].sent = later(&passages[number], heard);
    }
}

/// The step at which a frame was sent: the one that is noted, or a later one, at which its sender heard what it answers. None is sent
/// behind the step at which it came.
fn later(passage: &Passage, heard: usize) -> usize
    ensures { IsLater passage.now heard result }
{
    let is_late = match passage.came {
        Some(came) => heard <= came,
        None => true,
    };
    if is_late && passage.sent < heard {
        heard
    } else {
        passage.sent
    }
}

/// The step at which the sender of a frame of a round heard what it answers: of so many frames the last one. The frames are those from
/// the number `first` on.
fn heard_before(
    frames: &[Envelope],
    passages: &[Passage],
    first: usize,
    number: usize,
    quorum: usize,
) -> Option<usize>
    ensures { IfSome result (HearsIn frames.now first passages.now number) }
{
    let mut heard = None;
    let mut count: usize = 0;
    for before in first..number {
        let came = came_at(passages, before);
        let answered = is_answered(
            frames,
            before.saturating_sub(first),
            number.saturating_sub(first),
        );
        if came.is_some() && count < quorum && answered {
            heard = came;
            count = count.saturating_add(1);
        }
    }
    heard
}

/// Whether of the frames the one at a place is answered by another.
fn is_answered(frames: &[Envelope], place: usize, answer: usize) -> bool
    ensures { IsTrue result → IsAnswered frames.now place answer }
{
    match frames.get(place) {
        Some(heard) => match frames.get(answer) {
            Some(said) => answers(said, heard),
            None => false,
        },
        None => false,
    }
}

/// Whether a frame answers another: a promise a prepare, a proposal a promise, a vote the proposal of its slot, a refusal a prepare or a
/// proposal.
fn answers(answer: &Envelope, heard: &Envelope) -> bool
    ensures { IsTrue result → Answers answer.now heard.now }
{
    heard.to == answer.from && message_answers(&answer.message, &heard.message)
}

fn message_answers(answer: &Message, heard: &Message) -> bool
    ensures { IsTrue result → MessageAnswers answer.now heard.now }
{
    match (answer, heard) {
        (Message::Promise(_), Message::Prepare { .. }) => true,
        (Message::Accept(_), Message::Promise(_)) => true,
        (Message::Accepted(vote), Message::Accept(asked)) => vote.slot == asked.slot,
        (Message::Nack(_), Message::Prepare { .. }) => true,
        (Message::Nack(_), Message::Accept(_)) => true,
        _ => false,
    }
}

/// The step at which a frame came, if it did.
fn came_at(passages: &[Passage], index: usize) -> Option<usize>
    ensures { result ≡ came_in passages.now index }
{
    match passages.get(index) {
        Some(passage) => passage.came,
        None => None,
    }
}

/// Notes the frames that were sent at a step, up to so many in all, and the one that came. It may have come before.
pub(crate) fn note_passages(
    passages: &mut Vec<Passage>,
    step: usize,
    count: usize,
    deed: &Deed,
) -> Result<(), AllocError>
    requires before { vec_len passages.old ≤ count }
    requires sent { DeliversOneOf deed.now count }
    ensures count { OnOk result (length passages.new.items ≡ count) }
    ensures came { OnOk result (NotesComing deed.now step passages.old.items passages.new.items) }
    ensures sent { OnOk result (NotesSending step passages.old.items passages.new.items) }
{
    add_sent(passages, step, count)?;
    if let Deed::Delivered(frame) = deed {
        come(passages.as_mut_slice(), *frame as usize, step);
    }
    Ok(())
}

/// Frames were sent at a step, up to so many in all.
fn add_sent(passages: &mut Vec<Passage>, step: usize, count: usize) -> Result<(), AllocError>
    requires { vec_len passages.old ≤ count }
    ensures count { OnOk result (length passages.new.items ≡ count) }
    ensures came { OnOk result (SameComings passages.old.items passages.new.items) }
    ensures sent { OnOk result (NotesSending step passages.old.items passages.new.items) }
{
    let sent = Passage {
        sent: step,
        came: None,
    };
    passages.resize(count, sent)
}

/// A frame came at a step.
fn come(passages: &mut [Passage], index: usize, step: usize)
    requires { index < length passages.old }
    ensures came { NotesComing (Deed.Delivered index) step passages.old passages.new }
    ensures sent { NotesSending step passages.old passages.new }
{
    if passages[index].came.is_none() {
        passages[index].came = Some(step);
    }
}
