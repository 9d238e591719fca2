//! Schedules that are read line by line.

ghost use Rattle.std.specs.Prelude.{◌≡◌, [], ◌∷◌, ◌++◌, IfErr, IfOk, List, MatchOption, MatchResult};
ghost use Rattle.schedule.specs.Causes.{memory};
ghost use Rattle.schedule.specs.Schedules.{IsParseRefusal, SpellEach};
ghost use Rattle.schedule.specs.declared.schedule.ScheduleLine.{ScheduleLine};

use super::action::Action;
use super::fault::ScheduleFault;
use super::lines::Lines;
use super::one_line::nodes_line;
use super::parse::action_of;
use super::replay_fault::{ReplayCause, ReplayFault};
use super::schedule::ScheduleLine;
use events::{Event, WorldFault};
use mfjson::DocumentReader;
use std::alloc::Global;
use std::marker::Model;
use store::Op;
use wire::Nodes;

/// A schedule of which the first line was read, and lines are left.
#[derive(Drop)]
pub struct UnreadSchedule<'a> {
    first: u64,
    nodes: Nodes,
    lines: Lines<'a>,
    documents: DocumentReader,
}

impl<'a> Model for UnreadSchedule<'a> {
    ghost use Rattle.std.specs.Prelude.{filter};
    ghost use Rattle.schedule.specs.Lines.{is_filled};
    ghost use Rattle.schedule.specs.Reading.{Unread};

    ghost Value = { Unread };

    ghost view = { λ u. record { first = u.first; nodes = u.nodes; left = filter is_filled u.lines } };
}

impl<'a> UnreadSchedule<'a> {
    ghost use Rattle.schedule.specs.Reading.{IsBegun, IsLaterRefusal, IsNextRefusal, IsReadAs};

    /// The schedule that the bytes spell, with its first line read; else what is wrong with that line.
    pub fn open(alloc: Global, bytes: &'a [u8]) -> Result<UnreadSchedule<'a>, ReplayFault>
        ensures begun { IfOk result (IsBegun bytes.now) }
        ensures refused { IfErr result (IsParseRefusal bytes.now) }
    {
        let mut lines = Lines::of(bytes);
        let Some(first) = lines.next() else {
            return Err(ReplayFault {
                line: 1,
                cause: ReplayCause::Schedule(ScheduleFault::NodesLine),
            });
        };
        match nodes_line(first.text) {
            Ok(nodes) => Ok(UnreadSchedule {
                first: first.number,
                nodes,
                lines,
                documents: DocumentReader::new(alloc),
            }),
            Err(fault) => Err(ReplayFault {
                line: first.number,
                cause: ReplayCause::Schedule(fault),
            }),
        }
    }

    /// Which line of the file says how many nodes the run has, counted from 1.
    pub fn first(&self) -> u64
        ensures { result ≡ self.now.first }
    {
        self.first
    }

    /// How many nodes it has.
    pub fn nodes(&self) -> Nodes
        ensures { result ≡ self.now.nodes }
    {
        self.nodes
    }

    /// Reads the next line; None where none is left. One that is faulty, or that memory is wanting for, is passed as well.
    pub fn next(&mut self, alloc: Global) -> Result<Option<ScheduleLine>, ReplayFault>
        ensures { MatchResult result
            (λ next. MatchOption next ((self.old.left ≡ []) × (self.new ≡ self.old)) (λ line. IsReadAs self.old line self.new))
            (λ fault. IsNextRefusal self.old fault self.new) }
    {
        let Some(line) = self.lines.next() else {
            return Ok(None);
        };
        let action = action_of(alloc, &mut self.documents, self.nodes, line)?;
        Ok(Some(ScheduleLine {
            number: line.number,
            action,
        }))
    }

    /// What the lines that are left spell.
    pub fn into_lines(self, alloc: Global) -> Result<Vec<ScheduleLine>, ReplayFault>
        ensures { MatchResult result (λ read. SpellEach self.entry.nodes self.entry.left read.items)
            (IsLaterRefusal self.entry.nodes self.entry.left) }
    {
        let mut unread = self;
        let mut read = Vec::new(alloc);
        while let Some(line) = unread.next(alloc)? {
            keep(&mut read, line)?;
        }
        Ok(read)
    }

    /// Reads the lines that are left, and keeps none: whether they spell any.
    pub fn see_faultless(self, alloc: Global) -> Result<(), ReplayFault>
        ensures { MatchResult result
            (λ _. (read : List ScheduleLine) × SpellEach self.entry.nodes self.entry.left read)
            (IsLaterRefusal self.entry.nodes self.entry.left) }
    {
        let mut unread = self;
        while let Some(seen) = unread.next(alloc)? {
            drop(seen);
        }
        Ok(())
    }
}

/// Adds the line.
fn keep(read: &mut Vec<ScheduleLine>, line: ScheduleLine) -> Result<(), ReplayFault>
    ensures { MatchResult result (λ _. read.new.items ≡ read.old.items ++ line ∷ [])
        (λ fault. fault ≡ record { line = line.number; cause = memory }) }
{
    let number = line.number;
    // What a line holds, by name: without it `push` gets no proof at this type.
    let _within: Option<(Action, Event, Op)> = None;
    match read.push(line) {
        Ok(()) => Ok(()),
        Err(_) => Err(ReplayFault {
            line: number,
            cause: ReplayCause::World(WorldFault::Memory),
        }),
    }
}
