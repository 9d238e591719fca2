//! The course of a run: its lines are done one after another, step by step, and noted.

ghost use Rattle.std.specs.Prelude.{◌≡◌, IfErr, IfOk, None, OnOk, length};
ghost use Rattle.schedule.specs.Causes.{memory};
ghost use Rattle.story.specs.Following.{AreFollowed, ComesNext, IsRunOf, IsUntold, LineEndsBy};
ghost use Rattle.story.specs.Ledgers.{IsComplete, IsKept};
ghost use Rattle.story.specs.Noting.{IsNoted, NotesLine, deed_of};
ghost use Rattle.story.specs.Passing.{DeliversOneOf};
ghost use Rattle.world.specs.Seen.{world_of};

use super::deeds::{Deed, deed_of};
use super::ledger::{Ledger, begin, ends_at};
use events::{Event, WorldFault};
use replay::{Watch, do_line};
use schedule::{Action, Members, ReplayFault, ScheduleLine, parse_schedule};
use stable::{MemStable, Scripted, Stable};
use std::alloc::Global;
use wire::NodeId;
use world::MOST_DELIVERIES;

/// The run that the bytes spell, over records in memory, to its end or to the line that ends it. The watch is told of each line that is done.
///
/// An error is the first faulty line, or out of memory before the first step.
pub fn follow<W: Watch>(alloc: Global, bytes: &[u8], watch: &mut W) -> Result<Ledger, ReplayFault>
    ensures complete { IfOk result IsComplete }
    ensures run { IfOk result (λ ledger. IsRunOf (⟦<Scripted<MemStable> as Stable>⟧)
        bytes.now ledger.lines.items ledger.steps.items ledger.fault (world_of ledger.world)) }
    ensures untold { IfErr result (IsUntold bytes.now) }
{
    let schedule = parse_schedule(alloc, bytes)?;
    let (first, last) = (schedule.first(), schedule.last());
    let mut ledger = begin(alloc, first, schedule.nodes())?;
    ledger.begin_line(first)?;
    ledger.do_lines(alloc, schedule.into_lines(), watch)?;
    ledger.note(last, Deed::Ended)?;
    Ok(ledger)
}

impl Ledger {
    /// Does the lines in order, up to the first that can't be done.
    fn do_lines<W: Watch>(
        &mut self,
        alloc: Global,
        lines: Vec<ScheduleLine>,
        watch: &mut W,
    ) -> Result<(), ReplayFault>
        requires kept { IsKept self.old }
        requires goes_on { self.old.fault ≡ None }
        ensures kept { OnOk result (IsKept self.new) }
        ensures followed { OnOk result (AreFollowed (⟦<Scripted<MemStable> as Stable>⟧) lines.items
            self.old.lines.items self.new.lines.items self.old.steps.items self.new.steps.items
            (world_of self.old.world) self.new.fault (world_of self.new.world)) }
        ensures memory { IfErr result (λ fault. fault.cause ≡ memory) }
    {
        for line in lines {
            let number = line.number;
            self.begin_line(number)?;
            self.do_line(alloc, line)?;
            match self.fault {
                Some(_) => return Ok(()),
                None => watch.line_done(number, self.world.frames().len()),
            }
        }
        Ok(())
    }

    /// Does a line, step by step.
    fn do_line(&mut self, alloc: Global, line: ScheduleLine) -> Result<(), ReplayFault>
        requires kept { IsKept self.old }
        requires goes_on { self.old.fault ≡ None }
        ensures kept { OnOk result (IsKept self.new) }
        ensures lines { OnOk result (self.new.lines.items ≡ self.old.lines.items) }
        ensures done { OnOk result (LineEndsBy (⟦<Scripted<MemStable> as Stable>⟧) line
            (world_of self.old.world) self.new.fault (world_of self.new.world)) }
        ensures noted { OnOk result (NotesLine (⟦<Scripted<MemStable> as Stable>⟧) line.action self.new.fault
            (world_of self.old.world) self.old.steps.items (world_of self.new.world) self.new.steps.items) }
        ensures memory { IfErr result (λ fault. fault.cause ≡ memory) }
    {
        let ScheduleLine { number, action } = line;
        match action {
            Action::Flush => self.flush(alloc, number),
            Action::Step(event) => self.take(alloc, number, Action::Step(event)),
            Action::Round { node, members } => self.do_round(alloc, number, node, members),
        }
    }

    /// Delivers the lowest waiting frame until none waits, as a world's own flush does.
    fn flush(&mut self, alloc: Global, line: u64) -> Result<(), ReplayFault>
        requires kept { IsKept self.old }
        requires goes_on { self.old.fault ≡ None }
        ensures kept { OnOk result (IsKept self.new) }
        ensures lines { OnOk result (self.new.lines.items ≡ self.old.lines.items) }
        ensures done { OnOk result (LineEndsBy (⟦<Scripted<MemStable> as Stable>⟧)
            (record { number = line; action = Action.Flush })
            (world_of self.old.world) self.new.fault (world_of self.new.world)) }
        ensures noted { OnOk result (NotesLine (⟦<Scripted<MemStable> as Stable>⟧) Action.Flush self.new.fault
            (world_of self.old.world) self.old.steps.items (world_of self.new.world) self.new.steps.items) }
        ensures memory { IfErr result (λ fault. fault.cause ≡ memory) }
    {
        for delivered in 0..MOST_DELIVERIES {
            let goes_on = self.deliver_lowest(alloc, line)?;
            match goes_on {
                true => {}
                false => return Ok(()),
            }
        }
        match self.next_waiting() {
            Some(_) => self.fault = Some(ends_at(line, WorldFault::FlushLimit)),
            None => {}
        }
        Ok(())
    }

    /// Delivers the lowest waiting frame, and tells whether the flush at this line goes on.
    fn deliver_lowest(&mut self, alloc: Global, line: u64) -> Result<bool, ReplayFault>
        requires kept { IsKept self.old }
        requires goes_on { self.old.fault ≡ None }
        ensures kept { OnOk result (IsKept self.new) }
        ensures lines { OnOk result (self.new.lines.items ≡ self.old.lines.items) }
        ensures comes { IfOk result (λ goes_on. ComesNext (⟦<Scripted<MemStable> as Stable>⟧) line
            (world_of self.old.world) self.old.steps.items goes_on
            self.new.fault (world_of self.new.world) self.new.steps.items) }
        ensures memory { IfErr result (λ fault. fault.cause ≡ memory) }
    {
        match self.next_waiting() {
            Some(frame) => {
                self.take(alloc, line, Action::Step(Event::Deliver(frame)))?;
                match self.fault {
                    Some(_) => Ok(false),
                    None => Ok(true),
                }
            }
            None => Ok(false),
        }
    }

    /// Does a round by hand, and notes its begin, the frames that came in it, and its end.
    fn do_round(
        &mut self,
        alloc: Global,
        line: u64,
        node: NodeId,
        members: Members,
    ) -> Result<(), ReplayFault>
        requires kept { IsKept self.old }
        requires goes_on { self.old.fault ≡ None }
        ensures kept { OnOk result (IsKept self.new) }
        ensures lines { OnOk result (self.new.lines.items ≡ self.old.lines.items) }
        ensures done { OnOk result (LineEndsBy (⟦<Scripted<MemStable> as Stable>⟧)
            (record { number = line; action = Action.Round node members })
            (world_of self.old.world) self.new.fault (world_of self.new.world)) }
        ensures noted { OnOk result (NotesLine (⟦<Scripted<MemStable> as Stable>⟧) (Action.Round node members) self.new.fault
            (world_of self.old.world) self.old.steps.items (world_of self.new.world) self.new.steps.items) }
        ensures memory { IfErr result (λ fault. fault.cause ≡ memory) }
    {
        let first = self.world.frames().len();
        self.do_action(alloc, line, Action::Round { node, members });
        self.begin_round(line, node)?;
        self.part_round(alloc, line, first)?;
        self.end_round(line, node)
    }

    /// Does one thing, and notes it; or notes the fault that ends the run.
    fn take(&mut self, alloc: Global, line: u64, action: Action) -> Result<(), ReplayFault>
        requires kept { IsKept self.old }
        requires goes_on { self.old.fault ≡ None }
        ensures kept { OnOk result (IsKept self.new) }
        ensures lines { OnOk result (self.new.lines.items ≡ self.old.lines.items) }
        ensures done { OnOk result (LineEndsBy (⟦<Scripted<MemStable> as Stable>⟧)
            (record { number = line; action = action })
            (world_of self.old.world) self.new.fault (world_of self.new.world)) }
        ensures noted { OnOk result (IsNoted (deed_of action) self.new.fault (world_of self.new.world)
            self.old.steps.items self.new.steps.items) }
        ensures memory { IfErr result (λ fault. fault.cause ≡ memory) }
    {
        let deed = deed_of(&action);
        self.do_action(alloc, line, action);
        match self.fault {
            Some(_) => Ok(()),
            None => self.note(line, deed),
        }
    }

    /// Does one thing; the fault that ends the run is noted, and nothing else.
    fn do_action(&mut self, alloc: Global, number: u64, action: Action)
        requires kept { IsKept self.old }
        requires goes_on { self.old.fault ≡ None }
        ensures kept { IsKept self.new }
        ensures lines { self.new.lines.items ≡ self.old.lines.items }
        ensures steps { self.new.steps.items ≡ self.old.steps.items }
        ensures done { LineEndsBy (⟦<Scripted<MemStable> as Stable>⟧) (record { number = number; action = action })
            (world_of self.old.world) self.new.fault (world_of self.new.world) }
        ensures sent { self.new.fault ≡ None → DeliversOneOf (deed_of action) (length (world_of self.new.world).frames) }
    {
        let line = ScheduleLine { number, action };
        match do_line(alloc, &mut self.world, line) {
            Ok(()) => {}
            Err(fault) => self.fault = Some(fault),
        }
    }
}
