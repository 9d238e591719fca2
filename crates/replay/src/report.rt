//! What is told of a run.

ghost use Rattle.std.specs.Prelude.{◌≡◌, ◌++◌, [], drop, take, IfOk, OnErr, OnOk};
ghost use Rattle.replay.specs.Parts.{Adds, TakesInParts};
ghost use Rattle.replay.specs.Transcripts.{transcript_of, lines_of_outcome, entries_after};

use super::part::hand_on;
use super::print::{
    print_answers, print_learnt, print_refusal, print_replies, print_restore, print_round,
    print_stop,
};
use super::sink::Sink;
use std::alloc::{AllocError, Global};
use std::io;
use std::marker::Model;
use world_model::{Answered, LearntEntry, Replied, StepOutcome};

/// The transcript of a run: the lines of its outcomes, in order, each ended by a line feed.
///
/// `learnt`, `replies` and `answers` are what the outcomes brought, each in the order of the
/// steps. For an entry that is missing nothing is written; one more than the outcomes brought is
/// passed over.
pub fn transcript(
    alloc: Global,
    outcomes: &[StepOutcome],
    learnt: &[LearntEntry],
    replies: &[Replied],
    answers: &[Answered],
) -> Result<Vec<u8>, AllocError>
    ensures { IfOk result (λ text. text.items ≡ transcript_of outcomes.now
        (record { learnt = learnt.now; replies = replies.now; answers = answers.now })) }
{
    let mut text = Vec::new(alloc);
    // It has no room, so each line is handed on at once.
    let mut part = Vec::new(alloc);
    // A vector refuses bytes only where it can't grow.
    match print_run(&mut part, &mut text, outcomes, learnt, replies, answers) {
        Ok(()) => Ok(text),
        Err(_) => Err(AllocError),
    }
}

/// Hands on the transcript of a run behind what waits, in parts for which there is room. Then nothing waits.
pub(crate) fn print_run<K: Sink>(
    part: &mut Vec<u8>,
    sink: &mut K,
    outcomes: &[StepOutcome],
    learnt: &[LearntEntry],
    replies: &[Replied],
    answers: &[Answered],
) -> io::Result<()>
    ensures handed { OnOk result (TakesInParts K.takes sink.old (part.old.items ++ transcript_of outcomes.now
        (record { learnt = learnt.now; replies = replies.now; answers = answers.now })) sink.new) }
    ensures empty { OnOk result (part.new.items ≡ []) }
    ensures refused { OnErr result (K.HasFailed sink.new) }
{
    let mut unprinted = Unprinted {
        learnt,
        replies,
        answers,
    };
    for outcome in outcomes {
        unprinted.print(part, sink, *outcome)?;
    }
    hand_on(part, sink)
}

/// The entries of a run that have no line yet.
#[derive(Drop)]
struct Unprinted<'a> {
    learnt: &'a [LearntEntry],
    replies: &'a [Replied],
    answers: &'a [Answered],
}

impl<'a> Model for Unprinted<'a> {
    ghost use Rattle.replay.specs.Transcripts.{Entries};

    ghost Value = { Entries };

    ghost view = { λ u. record {
      learnt = u.learnt.now;
      replies = u.replies.now;
      answers = u.answers.now;
    } };
}

impl<'a> Unprinted<'a> {
    /// Adds the lines of the outcome, and takes the entries that it brought.
    #[inline]
    fn print<K: Sink>(
        &mut self,
        part: &mut Vec<u8>,
        sink: &mut K,
        outcome: StepOutcome,
    ) -> io::Result<()>
        ensures added { OnOk result (Adds K.takes sink.old part.old.items (lines_of_outcome outcome self.old)
            sink.new part.new.items) }
        ensures left { OnOk result (self.new ≡ entries_after outcome self.old) }
        ensures refused { OnErr result (K.HasFailed sink.new) }
    {
        match outcome {
            StepOutcome::Done { learnt, replies } => {
                // Most steps tell nothing.
                if learnt == 0 && replies == 0 {
                    return Ok(());
                }
                print_learnt(part, sink, take_first(&mut self.learnt, learnt))?;
                print_replies(part, sink, take_first(&mut self.replies, replies))
            }
            StepOutcome::Restored {
                node,
                position,
                replies,
            } => {
                print_restore(part, sink, node, position)?;
                print_replies(part, sink, take_first(&mut self.replies, replies))
            }
            StepOutcome::Answered => { print_answers(part, sink, take_first(&mut self.answers, 1)) }
            StepOutcome::Lost => Ok(()),
            StepOutcome::Refused(node, fault) => print_refusal(part, sink, node, fault),
            StepOutcome::Stopped(node, fault) => print_stop(part, sink, node, fault),
            StepOutcome::Round(node, end) => print_round(part, sink, node, end),
        }
    }
}

/// Takes the first entries that are left: so many, or all where there are fewer.
fn take_first<'a, T>(left: &mut &'a [T], count: u32) -> &'a [T]
    ensures taken { result.now ≡ take count left.old.now }
    ensures left { left.new.now ≡ drop count left.old.now }
{
    match left.split_at_checked(count as usize) {
        Some((first, rest)) => {
            *left = rest;
            first
        }
        None => {
            let all = *left;
            *left = &[];
            all
        }
    }
}
