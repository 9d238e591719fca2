//! What a node has heard of votes, and what it has learnt from them.

ghost use Rattle.std.specs.Prelude.{◌≡◌, ℕ, ◌≤◌, IfOk, OnErr};
ghost use Rattle.std.specs.Option.{option_copied};
ghost use Rattle.learner.specs.Prefixes.{IsPrefix};
ghost use Rattle.learner.specs.Known.{known_learnt};

use super::known::Known;
use super::learned::Learned;
use sessions::Command;
use std::alloc::{AllocError, Global};
use synod::{SLOTS, Slot, Vote};
use wire::{NodeId, Nodes, SharedCommand};

/// A node's learner. What it has learnt is gone after a restart.
///
/// It keeps what it was told of a slot until the slot is learnt: a node's first telling under a ballot counts, a repeat
/// does not, and different ballots are never added up. A learnt slot never changes.
///
/// A call takes a number of steps that grows with the logarithm of the slots of which it holds something.
pub struct Learner {
    nodes: Nodes,
    // The first slot that is kept: what is told of lower ones is ignored.
    first: u32,
    slots: Known,
    prefix: u32,
    ghost counted: { IsPrefix (known_learnt slots) first prefix },
}

// By hand, so that a crate that drops one proves nothing of what lies within.
impl Drop for Learner {
    fn drop(self) {
        let Learner {
            nodes: _,
            first: _,
            slots,
            prefix: _,
        } = self;
        drop(slots);
    }
}

impl Learner {
    ghost use Rattle.learner.specs.Learning.{unlearnt, unlearnt_from, learnt_at, prefix, skipped, IsOpen, NewsCounts, CommandIsUntold, HearsVote, HearsDecided};
    ghost use Rattle.learner.specs.State.{learning_of};

    /// Nothing is heard or learnt yet.
    pub fn new(alloc: Global, nodes: Nodes) -> Learner
        ensures { learning_of result ≡ unlearnt nodes }
    {
        Learner::start_at(alloc, nodes, 0)
    }

    /// Nothing is heard or learnt yet, and slots are kept from this one on.
    pub fn start_at(alloc: Global, nodes: Nodes, first: u32) -> Learner
        requires { first ≤ SLOTS }
        ensures { learning_of result ≡ unlearnt_from nodes first }
    {
        Learner {
            nodes,
            first,
            slots: Known::new(alloc, first),
            prefix: first,
        }
    }

    /// The command of a slot that is learnt.
    pub fn get(&self, slot: Slot) -> Option<&Command>
        ensures { option_copied result ≡ learnt_at (learning_of self.now) slot }
    {
        match self.held(slot) {
            Some(held) => Some(held.command()),
            None => None,
        }
    }

    /// The same, as it is held.
    pub fn held(&self, slot: Slot) -> Option<&SharedCommand>
        ensures { option_copied result ≡ learnt_at (learning_of self.now) slot }
    {
        self.slots.learnt(slot)
    }

    /// The first slot that isn't learnt, of those that are kept: `SLOTS` where all of them are.
    pub fn prefix(&self) -> u32
        ensures prefix { result ≡ prefix (learning_of self.now) }
        ensures in_log { result ≤ SLOTS }
        ensures counted { IsPrefix (learnt_at (learning_of self.now)) (learning_of self.now).first result }
    {
        self.prefix
    }

    /// Slots below this one aren't waited for any more, as a snapshot stands for them: one that isn't learnt never is, and one that is
    /// stays so. Where all slots up to there are learnt, nothing changes.
    pub fn skip_to(&mut self, position: u32)
        requires { position ≤ SLOTS }
        ensures { learning_of self.new ≡ skipped (learning_of self.old) position }
    {
        if position <= self.prefix {
            return;
        }
        self.first = position;
        self.slots.skip_to(position);
        self.prefix = self.slots.first_unlearnt(position);
    }

    /// A node tells that it voted so. The slot is learnt in the very call in which a majority of different nodes has
    /// told one command under one ballot.
    ///
    /// After `AllocError` it is as it was.
    pub fn on_accepted(
        &mut self,
        alloc: Global,
        from: NodeId,
        vote: &Vote<SharedCommand>,
    ) -> Result<Option<Learned>, AllocError>
        ensures hears { IfOk result (λ learned.
            HearsVote (learning_of self.old) from vote.now learned (learning_of self.new)) }

        // Only news that counts can be refused memory, and of it only what is the first of its command under the ballot.
        ensures counts { OnErr result (NewsCounts (learning_of self.old) from vote.now) }
        ensures first { OnErr result (CommandIsUntold (learning_of self.old) vote.now) }
        ensures unchanged { OnErr result (learning_of self.new ≡ learning_of self.old) }
    {
        let slot = vote.slot;
        // Each slot below the prefix is learnt, or is not kept.
        if from.value() >= self.nodes.count() || slot.value() < self.prefix {
            return Ok(None);
        }
        let learns = self.slots.hear(alloc, self.nodes, from, vote)?;
        if !learns {
            return Ok(None);
        }
        self.prefix = self.slots.first_unlearnt(self.prefix);
        Ok(Some(Learned { slot }))
    }

    /// A node that has learnt the slot tells its command.
    ///
    /// After `AllocError` it is as it was.
    pub fn on_decided(
        &mut self,
        alloc: Global,
        slot: Slot,
        command: SharedCommand,
    ) -> Result<Option<Learned>, AllocError>
        ensures hears { IfOk result (λ learned.
            HearsDecided (learning_of self.old) slot command learned (learning_of self.new)) }

        // Only a slot that is newly learnt can be refused memory.
        ensures unlearnt { OnErr result (IsOpen (learning_of self.old) slot) }
        ensures unchanged { OnErr result (learning_of self.new ≡ learning_of self.old) }
    {
        if slot.value() < self.prefix || self.slots.learnt(slot).is_some() {
            return Ok(None);
        }
        self.slots.learn(slot, command)?;
        self.prefix = self.slots.first_unlearnt(self.prefix);
        Ok(Some(Learned { slot }))
    }
}
