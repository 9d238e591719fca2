//! The list of what is told.

ghost use Rattle.std.specs.Prelude.{◌≡◌, ◌≤◌, ◌+◌, length, min, slice_get, IfOk, OnOk};
ghost use Rattle.std.specs.Option.{option_map_or};
ghost use Rattle.story.specs.Counted.{AreWithin, BeginInOrder, NeverFall};
ghost use Rattle.story.specs.Ledgers.{IsComplete, TellsRun};
ghost use Rattle.story.specs.Telling.{Follow, FollowByKind, FollowStep, GoesOn, IsBegun, IsUpToDate, TellsAll, counts_by};
ghost use Rattle.world_model.specs.Tallies.{answers_told, learnt_told, replies_told};

use super::ledger::{Counts, Ledger, LineBegin, Step};
use std::alloc::{AllocError, Global};
use world_model::StepOutcome;

/// Something to be told, by its number in its own list, counted from 0.
#[derive(Clone, Copy, Debug, PartialEq, Eq)]
pub enum Entry {
    /// A line of the schedule. What came of it follows.
    Line(usize),
    /// A step. What came of it follows.
    Step(usize),
    Frame(usize),
    Outcome(usize),
    Learnt(usize),
    Replied(usize),
    Answered(usize),
}

/// How many lines, steps and entries of the world's lists are told.
#[derive(Clone, Copy)]
pub(crate) struct Told {
    pub lines: usize,
    pub steps: usize,
    pub counts: Counts,
}

/// Entries, and how much they tell.
#[derive(Drop)]
pub(crate) struct Listing {
    pub entries: Vec<Entry>,
    pub told: Told,
}

/// All that is told of a run.
pub fn list_run(alloc: Global, ledger: &Ledger) -> Result<Vec<Entry>, AllocError>
    requires { IsComplete ledger.now }
    ensures { IfOk result (λ entries. TellsRun ledger.now entries.items) }
{
    list_entries(
        alloc,
        ledger.lines.as_slice(),
        ledger.steps.as_slice(),
        ledger.world.outcomes(),
    )
}

/// What is told of lines and steps: under each line its steps, and under each step what came of it. An outcome stands before the entries that it
/// counts.
fn list_entries(
    alloc: Global,
    lines: &[LineBegin],
    steps: &[Step],
    outcomes: &[StepOutcome],
) -> Result<Vec<Entry>, AllocError>
    requires lines { BeginInOrder lines.now (length steps.now) }
    requires counts { NeverFall steps.now }
    ensures { IfOk result (λ entries. TellsAll lines.now steps.now outcomes.now entries.items) }
{
    let mut listing = begin(alloc);
    for (index, line) in lines.iter().enumerate() {
        listing.list_steps(steps, outcomes, line.step)?;
        listing.entries.push(Entry::Line(index))?;
        listing.told.lines = index + 1;
    }
    listing.list_steps(steps, outcomes, steps.len())?;
    let Listing { entries, .. } = listing;
    Ok(entries)
}

/// Nothing is told.
fn begin(alloc: Global) -> Listing
    ensures { IsBegun result }
{
    Listing {
        entries: Vec::new(alloc),
        told: Told {
            lines: 0,
            steps: 0,
            counts: NOTHING,
        },
    }
}

/// The lists before the first step.
pub(crate) const NOTHING: Counts = Counts {
    frames: 0,
    learnt: 0,
    replies: 0,
    answers: 0,
    outcomes: 0,
};

impl Listing {
    /// Lists the steps up to before this one, each with what came of it.
    fn list_steps(
        &mut self,
        steps: &[Step],
        outcomes: &[StepOutcome],
        end: usize,
    ) -> Result<(), AllocError>
        requires there { end ≤ length steps.now }
        requires behind { self.old.told.steps ≤ end }
        requires counts { NeverFall steps.now }
        requires up_to_date { IsUpToDate steps.now self.old.told }
        ensures goes_on { OnOk result (GoesOn steps.now outcomes.now self.old self.new) }
        ensures steps { OnOk result (self.new.told.steps ≡ end) }
        ensures lines { OnOk result (self.new.told.lines ≡ self.old.told.lines) }
        ensures up_to_date { OnOk result (IsUpToDate steps.now self.new.told) }
    {
        for index in self.told.steps..end {
            self.entries.push(Entry::Step(index))?;
            self.told.steps = index + 1;
            self.list_outcomes(outcomes, steps[index].ends)?;
        }
        Ok(())
    }

    /// Lists what came of a step, behind which the lists are so long.
    fn list_outcomes(&mut self, outcomes: &[StepOutcome], ends: Counts) -> Result<(), AllocError>
        requires { AreWithin self.old.told.counts ends }
        ensures entries { OnOk result
            (FollowStep outcomes.now self.old.told.counts ends self.old.entries.items self.new.entries.items) }
        ensures told { OnOk result (self.new.told ≡ record self.old.told { counts = ends }) }
    {
        self.list_frames(ends.frames)?;
        for index in self.told.counts.outcomes..ends.outcomes {
            self.entries.push(Entry::Outcome(index))?;
            self.told.counts.outcomes = index + 1;
            self.list_told_by(outcome_at(outcomes, index), ends)?;
        }
        self.list_by_kind(ends)
    }

    /// Lists what an outcome tells of.
    fn list_told_by(&mut self, outcome: Option<StepOutcome>, ends: Counts) -> Result<(), AllocError>
        requires { AreWithin self.old.told.counts ends }
        ensures entries { OnOk result
            (FollowByKind self.old.told.counts (counts_by ends outcome self.old.told.counts) self.old.entries.items self.new.entries.items) }
        ensures within { OnOk result (AreWithin self.new.told.counts ends) }
        ensures told { OnOk result (self.new.told
            ≡ record self.old.told { counts = counts_by ends outcome self.old.told.counts }) }
    {
        let (learnt, replies, answers) = count_told(outcome);
        let told = self.told.counts;
        self.list_by_kind(Counts {
            frames: told.frames,
            learnt: reach(told.learnt, learnt, ends.learnt),
            replies: reach(told.replies, replies, ends.replies),
            answers: reach(told.answers, answers, ends.answers),
            outcomes: told.outcomes,
        })
    }

    /// Lists what was learnt, then replies, then answers, up to so many.
    fn list_by_kind(&mut self, ends: Counts) -> Result<(), AllocError>
        requires learnt { self.old.told.counts.learnt ≤ ends.learnt }
        requires replies { self.old.told.counts.replies ≤ ends.replies }
        requires answers { self.old.told.counts.answers ≤ ends.answers }
        ensures entries { OnOk result (FollowByKind self.old.told.counts ends self.old.entries.items self.new.entries.items) }
        ensures told { OnOk result (self.new.told ≡ record self.old.told {
          counts = record ends {
            frames = self.old.told.counts.frames;
            outcomes = self.old.told.counts.outcomes;
          };
        }) }
    {
        self.list_learnt(ends.learnt)?;
        self.list_replies(ends.replies)?;
        self.list_answers(ends.answers)
    }

    fn list_frames(&mut self, end: usize) -> Result<(), AllocError>
        requires { self.old.told.counts.frames ≤ end }
        ensures entries { OnOk result (Follow Entry.Frame self.old.told.counts.frames end self.old.entries.items self.new.entries.items) }
        ensures told { OnOk result (self.new.told
            ≡ record self.old.told { counts = record self.old.told.counts { frames = end } }) }
    {
        for index in self.told.counts.frames..end {
            self.entries.push(Entry::Frame(index))?;
            self.told.counts.frames = index + 1;
        }
        Ok(())
    }

    fn list_learnt(&mut self, end: usize) -> Result<(), AllocError>
        requires { self.old.told.counts.learnt ≤ end }
        ensures entries { OnOk result (Follow Entry.Learnt self.old.told.counts.learnt end self.old.entries.items self.new.entries.items) }
        ensures told { OnOk result (self.new.told
            ≡ record self.old.told { counts = record self.old.told.counts { learnt = end } }) }
    {
        for index in self.told.counts.learnt..end {
            self.entries.push(Entry::Learnt(index))?;
            self.told.counts.learnt = index + 1;
        }
        Ok(())
    }

    fn list_replies(&mut self, end: usize) -> Result<(), AllocError>
        requires { self.old.told.counts.replies ≤ end }
        ensures entries { OnOk result (Follow Entry.Replied self.old.told.counts.replies end self.old.entries.items self.new.entries.items) }
        ensures told { OnOk result (self.new.told
            ≡ record self.old.told { counts = record self.old.told.counts { replies = end } }) }
    {
        for index in self.told.counts.replies..end {
            self.entries.push(Entry::Replied(index))?;
            self.told.counts.replies = index + 1;
        }
        Ok(())
    }

    fn list_answers(&mut self, end: usize) -> Result<(), AllocError>
        requires { self.old.told.counts.answers ≤ end }
        ensures entries { OnOk result (Follow Entry.Answered self.old.told.counts.answers end self.old.entries.items self.new.entries.items) }
        ensures told { OnOk result (self.new.told
            ≡ record self.old.told { counts = record self.old.told.counts { answers = end } }) }
    {
        for index in self.told.counts.answers..end {
            self.entries.push(Entry::Answered(index))?;
            self.told.counts.answers = index + 1;
        }
        Ok(())
    }
}

fn outcome_at(outcomes: &[StepOutcome], index: usize) -> Option<StepOutcome>
    ensures { result ≡ slice_get outcomes.now index }
{
    outcomes.get(index).copied()
}

/// So many more than were told, and no more than there are.
fn reach(told: usize, more: u32, end: usize) -> usize
    ensures { result ≡ min (told + more) end }
{
    told.saturating_add(more as usize).min(end)
}

/// How many learnt slots, replies and answers an outcome tells of.
fn count_told(outcome: Option<StepOutcome>) -> (u32, u32, u32)
    ensures learnt { result.0 ≡ option_map_or learnt_told outcome 0 }
    ensures replies { result.1 ≡ option_map_or replies_told outcome 0 }
    ensures answers { result.2 ≡ option_map_or answers_told outcome 0 }
{
    match outcome {
        Some(StepOutcome::Done { learnt, replies }) => (learnt, replies, 0),
        Some(StepOutcome::Restored { replies, .. }) => (0, replies, 0),
        Some(StepOutcome::Answered) => (0, 0, 1),
        _ => (0, 0, 0),
    }
}
