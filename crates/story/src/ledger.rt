//! What is noted of a run: its lines and steps, and how long the world's lists were behind each.

ghost use Rattle.std.specs.Prelude.{◌≡◌, ◌<◌, ◌≤◌, ◌++◌, ◌∷◌, [], IfErr, IfOk, MatchOption, None, OnOk, length};
ghost use Rattle.story.specs.Counted.{AreWithin};
ghost use Rattle.schedule.specs.Causes.{memory};
ghost use Rattle.story.specs.Ledgers.{IsComplete, IsKept, StandsStill, counted, counts_of};
ghost use Rattle.story.specs.Noting.{FrameIsNoted, IsNoted, NotesRound, RoundIsBegun, sending_step, step_of};
ghost use Rattle.story.specs.Passing.{DeliversOneOf, MadeFrom};
ghost use Rattle.world.specs.Seen.{world_of};
ghost use Rattle.world_model.specs.Flushing.{IsStart};
ghost use Rattle.world_model.specs.Waiting.{IsLowestWaiting, NoneWaits};

use super::deeds::Deed;
use super::entries::NOTHING;
use super::flags::first_set;
use super::passages::{is_over, note_passages, open_frames, send_late};
use diagram::Passage;
use events::WorldFault;
use schedule::{ReplayCause, ReplayFault};
use stable::{MemStable, Scripted, Stable};
use std::alloc::Global;
use wire::{NodeId, Nodes};
use world::World;

/// How long the lists of a world are.
#[derive(Clone, Copy, Debug, PartialEq, Eq)]
pub struct Counts {
    pub frames: usize,
    pub learnt: usize,
    pub replies: usize,
    pub answers: usize,
    pub outcomes: usize,
}

/// One step of a run: what was done, and how long the world's lists were then. A flush is a step for each frame that it delivers. A round by
/// hand is one for its begin, by which all its frames are there, one for each of these that comes, and one for its end, by which all else is
/// there that came of it.
#[derive(Clone, Copy, Debug)]
pub struct Step {
    pub deed: Deed,
    pub ends: Counts,
}

/// A line of the schedule that the run came to: its number in the file, counted from 1, and the step with which it begins. One of which no
/// step came begins with that of the next line.
#[derive(Clone, Copy, Debug, PartialEq, Eq)]
pub struct LineBegin {
    pub number: u64,
    pub step: usize,
}

/// A run as far as it came: its lines and steps, when each of its frames was sent and came, the world in which it ended, and the fault that
/// ended it, if one did.
#[derive(Drop)]
pub struct Ledger {
    pub lines: Vec<LineBegin>,
    pub steps: Vec<Step>,
    pub passages: Vec<Passage>,
    pub world: World<MemStable>,
    pub fault: Option<ReplayFault>,
    /// No frame below this one waits.
    lowest: usize,
}

/// A run of which nothing is done yet.
pub(super) fn begin(alloc: Global, line: u64, nodes: Nodes) -> Result<Ledger, ReplayFault>
    ensures kept { IfOk result IsKept }
    ensures starts { IfOk result (λ ledger. IsStart (⟦<Scripted<MemStable> as Stable>⟧) nodes (world_of ledger.world)) }
    ensures lines { IfOk result (λ ledger. ledger.lines.items ≡ []) }
    ensures steps { IfOk result (λ ledger. ledger.steps.items ≡ []) }
    ensures fault { IfOk result (λ ledger. ledger.fault ≡ None) }
    ensures memory { IfErr result (λ fault. fault.cause ≡ memory) }
{
    match World::new(alloc, nodes) {
        Ok(world) => Ok(Ledger {
            lines: Vec::new(alloc),
            steps: Vec::new(alloc),
            passages: Vec::new(alloc),
            world,
            fault: None,
            lowest: 0,
        }),
        Err(fault) => Err(ends_at(line, fault)),
    }
}

/// How long the world's lists are.
fn count_lists(world: &World<MemStable>) -> Counts
    ensures { result ≡ counts_of (world_of world.now) }
{
    Counts {
        frames: world.frames().len(),
        learnt: world.learnt().len(),
        replies: world.replies().len(),
        answers: world.answers().len(),
        outcomes: world.outcomes().len(),
    }
}

impl Ledger {
    /// A line begins, with the step that comes next.
    pub(super) fn begin_line(&mut self, number: u64) -> Result<(), ReplayFault>
        requires { IsKept self.old }
        ensures kept { OnOk result (IsKept self.new) }
        ensures begun { OnOk result (self.new.lines.items
            ≡ self.old.lines.items ++ record { number = number; step = length self.old.steps.items } ∷ []) }
        ensures steps { OnOk result (self.new.steps.items ≡ self.old.steps.items) }
        ensures fault { OnOk result (self.new.fault ≡ self.old.fault) }
        ensures world { OnOk result (world_of self.new.world ≡ world_of self.old.world) }
        ensures memory { IfErr result (λ fault. fault.cause ≡ memory) }
    {
        let step = self.steps.len();
        match self.lines.push(LineBegin { number, step }) {
            Ok(()) => Ok(()),
            Err(_) => Err(ends_at(number, WorldFault::Memory)),
        }
    }

    /// The lowest frame that waits. One that waits no more never waits again, so the search goes on where it ended.
    pub(super) fn next_waiting(&mut self) -> Option<u64>
        requires { IsKept self.old }
        ensures kept { IsKept self.new }
        ensures still { StandsStill self.old self.new }
        ensures steps { self.new.steps.items ≡ self.old.steps.items }
        ensures lowest { MatchOption result (NoneWaits (world_of self.old.world).waiting)
            (IsLowestWaiting (world_of self.old.world).waiting) }
    {
        let waiting = self.world.waiting();
        let count = waiting.len();
        let lowest = first_set(waiting, self.lowest);
        self.lowest = lowest;
        if lowest < count {
            Some(lowest as u64)
        } else {
            None
        }
    }

    /// Notes what was done, and how long the lists are.
    pub(super) fn note(&mut self, line: u64, deed: Deed) -> Result<(), ReplayFault>
        requires kept { IsKept self.old }
        requires sent { DeliversOneOf deed (length (world_of self.old.world).frames) }
        ensures complete { OnOk result (IsComplete self.new) }
        ensures kept { OnOk result (IsKept self.new) }
        ensures still { OnOk result (StandsStill self.old self.new) }
        ensures noted { OnOk result (self.new.steps.items
            ≡ self.old.steps.items ++ step_of deed (world_of self.old.world) ∷ []) }
        ensures memory { IfErr result (λ fault. fault.cause ≡ memory) }
    {
        let ends = count_lists(&self.world);
        self.push_step(line, deed, ends)
    }

    /// Notes what was done, and how many frames there are. What else came of it isn't counted yet.
    pub(super) fn note_frames(&mut self, line: u64, deed: Deed) -> Result<(), ReplayFault>
        requires kept { IsKept self.old }
        requires sent { DeliversOneOf deed (length (world_of self.old.world).frames) }
        ensures kept { OnOk result (IsKept self.new) }
        ensures still { OnOk result (StandsStill self.old self.new) }
        ensures noted { OnOk result (self.new.steps.items
            ≡ self.old.steps.items ++ sending_step deed self.old.steps.items (length (world_of self.old.world).frames) ∷ []) }
        ensures memory { IfErr result (λ fault. fault.cause ≡ memory) }
    {
        let mut ends = self.counted();
        ends.frames = self.world.frames().len();
        self.push_step(line, deed, ends)
    }

    /// How long the lists were behind the last step.
    fn counted(&self) -> Counts
        ensures { result ≡ counted self.now }
    {
        match self.steps.last() {
            Some(step) => step.ends,
            None => NOTHING,
        }
    }

    /// Notes a step, behind which the lists are so long.
    fn push_step(&mut self, line: u64, deed: Deed, ends: Counts) -> Result<(), ReplayFault>
        requires kept { IsKept self.old }
        requires sent { DeliversOneOf deed (length (world_of self.old.world).frames) }
        requires more { AreWithin (counted self.old) ends }
        requires within { AreWithin ends (counts_of (world_of self.old.world)) }
        requires frames { ends.frames ≡ length (world_of self.old.world).frames }
        ensures kept { OnOk result (IsKept self.new) }
        ensures still { OnOk result (StandsStill self.old self.new) }
        ensures noted { OnOk result (self.new.steps.items ≡ self.old.steps.items ++ record { deed = deed; ends = ends } ∷ []) }
        ensures memory { IfErr result (λ fault. fault.cause ≡ memory) }
    {
        let step = self.steps.len();
        if let Err(_) = note_passages(&mut self.passages, step, ends.frames, &deed) {
            return Err(ends_at(line, WorldFault::Memory));
        }
        match self.steps.push(Step { deed, ends }) {
            Ok(()) => Ok(()),
            Err(_) => Err(ends_at(line, WorldFault::Memory)),
        }
    }

    /// A round of a node begins, with all frames that are sent in it, unless it can't be done.
    pub(super) fn begin_round(&mut self, line: u64, node: NodeId) -> Result<(), ReplayFault>
        requires kept { IsKept self.old }
        ensures kept { OnOk result (IsKept self.new) }
        ensures still { OnOk result (StandsStill self.old self.new) }
        ensures begun { OnOk result (RoundIsBegun node self.old.fault (world_of self.old.world) self.old.steps.items self.new.steps.items) }
        ensures memory { IfErr result (λ fault. fault.cause ≡ memory) }
    {
        match self.fault {
            Some(_) => Ok(()),
            None => self.note_frames(line, Deed::Other(node)),
        }
    }

    /// It ends, with all else that came of it.
    pub(super) fn end_round(&mut self, line: u64, node: NodeId) -> Result<(), ReplayFault>
        requires kept { IsKept self.old }
        ensures kept { OnOk result (IsKept self.new) }
        ensures still { OnOk result (StandsStill self.old self.new) }
        ensures ended { OnOk result (IsNoted (Deed.Other node) self.old.fault (world_of self.old.world) self.old.steps.items self.new.steps.items) }
        ensures memory { IfErr result (λ fault. fault.cause ≡ memory) }
    {
        match self.fault {
            Some(_) => Ok(()),
            None => self.note(line, Deed::Other(node)),
        }
    }

    /// Parts a round by hand into a step for each frame that was sent and delivered in it, in their order, which is that of the deliveries.
    pub(super) fn part_round(
        &mut self,
        alloc: Global,
        line: u64,
        first: usize,
    ) -> Result<(), ReplayFault>
        requires kept { IsKept self.old }
        requires within { first ≤ length (world_of self.old.world).frames }
        requires made { MadeFrom self.old.steps.items first (length (world_of self.old.world).frames) }
        ensures kept { OnOk result (IsKept self.new) }
        ensures still { OnOk result (StandsStill self.old self.new) }
        ensures noted { OnOk result (NotesRound (world_of self.old.world) first (length (world_of self.old.world).frames)
            self.old.steps.items self.new.steps.items) }
        ensures memory { IfErr result (λ fault. fault.cause ≡ memory) }
    {
        let end = self.world.frames().len();
        for index in first..end {
            self.note_frame(line, index)?;
        }
        let Ok(frames) = open_frames(alloc, self.world.frames(), first) else {
            return Err(ends_at(line, WorldFault::Memory));
        };
        let quorum = usize::from(self.world.count()) / 2 + 1;
        send_late(frames.as_slice(), &mut self.passages, first, quorum);
        Ok(())
    }

    /// Notes a frame of a round as a step, if it was delivered in it.
    fn note_frame(&mut self, line: u64, index: usize) -> Result<(), ReplayFault>
        requires kept { IsKept self.old }
        requires within { index < length (world_of self.old.world).frames }
        ensures kept { OnOk result (IsKept self.new) }
        ensures still { OnOk result (StandsStill self.old self.new) }
        ensures noted { OnOk result (FrameIsNoted (world_of self.old.world) index
            self.old.steps.items self.new.steps.items) }
        ensures memory { IfErr result (λ fault. fault.cause ≡ memory) }
    {
        if is_over(self.world.waiting(), index) {
            return self.note_frames(line, Deed::Delivered(index as u64));
        }
        Ok(())
    }
}

/// The fault that ends a run at a line.
pub(super) fn ends_at(line: u64, fault: WorldFault) -> ReplayFault
    ensures { result ≡ record { line = line; cause = ReplayCause.World fault } }
{
    ReplayFault {
        line,
        cause: ReplayCause::World(fault),
    }
}
