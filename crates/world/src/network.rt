//! The world's network: which frames wait, and how one comes to its receiver.

ghost use Rattle.std.specs.Prelude.{◌≡◌, ◌≤◌, ◌<◌, ◌↔◌, true, false, length, vec_len};
ghost use Rattle.std.specs.Prelude.{OnOk, OnErr, IsErrOf, ◌⊎◌, Bool, IfOk, IfErr, IsTrue};
ghost use Rattle.std.specs.Prelude.{MatchOption};
ghost use Rattle.node_model.specs.declared.input.Input.TheVariants as input;
ghost use Rattle.node_model.specs.Sending.{IsBetween};
ghost use Rattle.wire.specs.FrameSpelling.{Fits};
ghost use Rattle.world_model.specs.Waiting.{NoneWaits, OneWaits, IsLowestWaiting};

use super::flags::first_set;
use super::inner::{Inner, QUIET};
use super::log::MOST_DELIVERIES;
use events::WorldFault;
use stable::{Scripted, Stable};
use std::alloc::Global;
use wire::{Envelope, LastOpened, NodeId};
use world_model::StepOutcome;

impl<S: Stable> Inner<S> {
    ghost use Rattle.world_model.specs.Worlds.{TakesAt, ReceivesAt};
    ghost use Rattle.world.specs.Inner.{inner_of};
    ghost use Rattle.world_model.specs.Worlds.{DeliversFrame, quiet, without_wait};
    ghost use Rattle.world.specs.Inner.{HasRoom};
    ghost use Rattle.world_model.specs.Flushing.{Delivers, DeliversSome};
    ghost use Rattle.world_model.specs.Rounds.{is_up};

    /// Delivers the lowest waiting frame until none waits: how many. What was delivered before a fault stays so.
    pub fn flush(&mut self, alloc: Global) -> Result<u32, WorldFault>
        ensures delivers { IfOk result (λ n. Delivers (⟦<Scripted<S> as Stable>⟧)
            (inner_of self.old) n (inner_of self.new)) }
        ensures to_the_end { OnOk result (NoneWaits (inner_of self.new).waiting) }
        ensures most { IfOk result (λ n. n ≤ MOST_DELIVERIES) }

        // What a fault leaves.
        ensures limit { IsErrOf result WorldFault.FlushLimit → Delivers (⟦<Scripted<S> as Stable>⟧)
            (inner_of self.old) MOST_DELIVERIES (inner_of self.new) }
        ensures memory { IsErrOf result WorldFault.Memory → DeliversSome (⟦<Scripted<S> as Stable>⟧)
            (inner_of self.old) MOST_DELIVERIES (inner_of self.new) }
        ensures not_to_the_end { OnErr result (OneWaits (inner_of self.new).waiting) }
        ensures faults { IfErr result (λ f. (f ≡ WorldFault.FlushLimit) ⊎ (f ≡ WorldFault.Memory)) }
    {
        let mut last = LastOpened::new();
        for delivered in 0..MOST_DELIVERIES {
            match self.next_waiting() {
                Some(frame) => self.deliver(alloc, frame, &mut last)?,
                None => return Ok(delivered),
            }
        }
        drop(last);
        match self.next_waiting() {
            Some(_) => Err(WorldFault::FlushLimit),
            None => Ok(MOST_DELIVERIES),
        }
    }

    // The lowest frame that waits. One that waits no more never waits again, so the search goes on where it ended.
    fn next_waiting(&mut self) -> Option<u64>
        ensures same { inner_of self.new ≡ inner_of self.old }
        ensures lowest { MatchOption result (NoneWaits (inner_of self.old).waiting)
            (IsLowestWaiting (inner_of self.old).waiting) }
    {
        self.lowest = first_set(self.waiting.as_slice(), self.lowest);
        if self.lowest < self.waiting.len() {
            Some(self.lowest as u64)
        } else {
            None
        }
    }

    /// A frame comes to its receiver. What was opened last serves where it is the same message to another node.
    pub fn deliver(
        &mut self,
        alloc: Global,
        frame: u64,
        last: &mut LastOpened,
    ) -> Result<(), WorldFault>
        ensures delivers { OnOk result (DeliversFrame (⟦<Scripted<S> as Stable>⟧)
            (inner_of self.old) frame (inner_of self.new)) }
        ensures err { OnErr result (inner_of self.new ≡ inner_of self.old) }
        ensures no_frame { IsErrOf result WorldFault.NoSuchFrame
            ↔ (length (inner_of self.old).frames ≤ frame) }
        ensures faults { IfErr result (λ f. (f ≡ WorldFault.NoSuchFrame) ⊎ (f ≡ WorldFault.Memory)) }
    {
        let index = self.find_frame(frame)?;
        self.reserve()?;
        if self.skip_stale_vote(index) {
            return Ok(());
        }
        // What is opened stays where it is, as most of it is only looked at.
        let Ok(envelope) = last.open(alloc, &self.frames[index]) else {
            return Err(WorldFault::Memory);
        };
        self.stop_waiting(index);
        self.deliver_to(alloc, envelope);
        Ok(())
    }

    // Whether the frame tells its receiver of a vote for a slot that is learnt there, as the third vote of three does, and the
    // last three of seven. Then it has come, and nothing comes of it.
    fn skip_stale_vote(&mut self, index: usize) -> bool
        requires there { index < vec_len self.old.frames }
        requires room { HasRoom self.old }
        ensures passes { IsTrue result → DeliversFrame (⟦<Scripted<S> as Stable>⟧) (inner_of self.old) index (inner_of self.new) }
        ensures stays { result ≡ false → self.new ≡ self.old }
    {
        let frame = &self.frames[index];
        let at = &self.nodes[usize::from(frame.receiver().value())];
        if !at.is_stale_vote(frame) {
            return false;
        }
        self.waiting[index] = false;
        let _ = self.outcomes.push(QUIET);
        true
    }

    // A frame has come: a node that is up takes it, and one that is down loses it.
    #[inline(always)]
    fn deliver_to(&mut self, alloc: Global, envelope: &Envelope)
        requires between { IsBetween (vec_len self.old.nodes) envelope.now }
        requires fits { Fits 7 envelope.now }
        requires room { HasRoom self.old }
        ensures { ReceivesAt (⟦<Scripted<S> as Stable>⟧) (inner_of self.old) envelope.now (inner_of self.new) }
    {
        let to = envelope.to;
        let at = &self.nodes[usize::from(to.value())];
        if !at.is_up() {
            let _ = self.outcomes.push(StepOutcome::Lost);
            return;
        }
        self.deliver_up(alloc, to, envelope);
    }

    // A node that is up hears a message, and what it tells joins the lists.
    #[inline(always)]
    fn deliver_up(&mut self, alloc: Global, node: NodeId, envelope: &Envelope)
        requires there { node < vec_len self.old.nodes }
        requires room { HasRoom self.old }
        ensures { (taken : Bool) × TakesAt (⟦<Scripted<S> as Stable>⟧)
            (inner_of self.old) node (input.Message envelope.now) taken (inner_of self.new) }
    {
        let at = &mut self.nodes[usize::from(node.value())];
        match at.receive(alloc, envelope) {
            Ok(said) => self.record(node, said),
            Err(fault) => self.fail(node, fault),
        }
    }

    /// A frame waits no more.
    pub fn drop_frame(&mut self, frame: u64) -> Result<(), WorldFault>
        ensures drops { OnOk result (inner_of self.new ≡ quiet (without_wait (inner_of self.old) frame)) }
        ensures err { OnErr result (inner_of self.new ≡ inner_of self.old) }
        ensures no_frame { IsErrOf result WorldFault.NoSuchFrame
            ↔ (length (inner_of self.old).frames ≤ frame) }
        ensures faults { IfErr result (λ f. (f ≡ WorldFault.NoSuchFrame) ⊎ (f ≡ WorldFault.Memory)) }
    {
        let index = self.find_frame(frame)?;
        self.reserve()?;
        self.waiting[index] = false;
        let _ = self.outcomes.push(QUIET);
        Ok(())
    }

    // A frame waits no more.
    fn stop_waiting(&mut self, index: usize)
        requires there { index < vec_len self.old.frames }
        requires room { HasRoom self.old }
        ensures stops { inner_of self.new ≡ without_wait (inner_of self.old) index }
        ensures nodes { self.new.nodes ≡ self.old.nodes }
        ensures room { HasRoom self.new }
    {
        self.waiting[index] = false;
    }

    // Where the frame of this number stands.
    fn find_frame(&self, frame: u64) -> Result<usize, WorldFault>
        ensures found { IfOk result (λ index. (index ≡ frame) × (index < vec_len self.now.frames)) }
        ensures no_frame { IfErr result (λ f.
            (f ≡ WorldFault.NoSuchFrame) × (vec_len self.now.frames ≤ frame)) }
    {
        let Ok(index) = usize::try_from(frame) else {
            return Err(WorldFault::NoSuchFrame);
        };
        if index < self.frames.len() {
            Ok(index)
        } else {
            Err(WorldFault::NoSuchFrame)
        }
    }
}
