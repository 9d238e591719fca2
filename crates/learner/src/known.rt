//! What is known of all slots: what is learnt from the first one on lies in a row.

ghost use Rattle.std.specs.Prelude.{◌≡◌, ◌≢◌, ◌↔◌, ◌+◌, ℕ, Some, None, IfOk, IsTrue, OnOk, OnErr, is_some, length};
ghost use Rattle.std.specs.Option.{option_copied};
ghost use Rattle.synod.specs.Records.{put};
ghost use Rattle.learner.specs.Known.{row_from, known_learnt, known_heard};
ghost use Rattle.learner.specs.Learning.{unheard};
ghost use Rattle.learner.specs.Prefixes.{IsLearntTo, IsPrefix};
ghost use Rattle.learner.specs.Slots.{SlotHears};

use super::slots::Slots;
use sessions::Command;
use std::alloc::{AllocError, Global};
use synod::{SLOTS, Slot, Vote};
use wire::{NodeId, Nodes, SharedCommand};

/// What is known of each slot. Slots are learnt nearly in turn: what is learnt from the first one on is found by its place.
#[derive(Drop)]
pub(super) struct Known {
    // The slot at which the row begins.
    from: u32,
    // What is learnt at that slot, at the next and so on.
    settled: Vec<SharedCommand>,
    // What is known of the others.
    others: Slots,
}

impl Known {
    /// Nothing is known. The row is to begin at this slot.
    pub(super) fn new(alloc: Global, from: u32) -> Known
        ensures learnt { (s : ℕ) → known_learnt result s ≡ None }
        ensures heard { (s : ℕ) → known_heard result s ≡ unheard }
    {
        Known {
            from,
            settled: Vec::new(alloc),
            others: Slots::new(alloc),
        }
    }

    /// The command of a slot that is learnt.
    pub(super) fn learnt(&self, slot: Slot) -> Option<&SharedCommand>
        ensures { option_copied result ≡ known_learnt self.now slot }
    {
        match self.settled_at(slot) {
            Some(held) => Some(held),
            None => self.others.learnt(slot),
        }
    }

    /// The row is to begin at this slot, unless something lies in it.
    pub(super) fn skip_to(&mut self, from: u32)
        ensures learnt { known_learnt self.new ≡ known_learnt self.old }
        ensures heard { known_heard self.new ≡ known_heard self.old }
    {
        if self.settled.is_empty() {
            self.from = from;
        }
    }

    /// The command of a slot of the row.
    fn settled_at(&self, slot: Slot) -> Option<&SharedCommand>
        ensures { option_copied result ≡ row_from self.now.from self.now.settled.items slot }
    {
        if slot.value() < self.from {
            return None;
        }
        self.settled.get((slot.value() - self.from) as usize)
    }

    /// Whether the slot is the next of the row.
    fn is_next(&self, slot: Slot) -> bool
        ensures { IsTrue result ↔ (slot ≡ self.now.from + length self.now.settled.items) }
    {
        slot.value() as usize == self.from as usize + self.settled.len()
    }

    /// The first slot that isn't learnt, where none below this one, from the first on, isn't. What is learnt up to there is put
    /// in a row, as far as memory serves.
    pub(super) fn first_unlearnt(&mut self, from: u32) -> u32
        ensures learnt { known_learnt self.new ≡ known_learnt self.old }
        ensures heard { known_heard self.new ≡ known_heard self.old }
        ensures prefix { (first : ℕ) → IsLearntTo (known_learnt self.old) first from
            → IsPrefix (known_learnt self.old) first result }
    {
        for value in from..SLOTS {
            let is_learnt = self.settle(Slot::new(value).unwrap());
            if !is_learnt {
                return value;
            }
        }
        SLOTS
    }

    /// Whether the slot is learnt. Where it is the next of the row it joins it, unless memory is wanting.
    fn settle(&mut self, slot: Slot) -> bool
        ensures is { result ≡ is_some (known_learnt self.old slot) }
        ensures learnt { known_learnt self.new ≡ known_learnt self.old }
        ensures heard { known_heard self.new ≡ known_heard self.old }
    {
        if !self.is_next(slot) {
            return self.learnt(slot).is_some();
        }
        if let Err(_) = self.settled.try_reserve(1) {
            return self.learnt(slot).is_some();
        }
        match self.others.take(slot) {
            Some(command) => {
                let _ = self.settled.push(command);
                true
            }
            None => false,
        }
    }

    /// A node tells that it voted so. Whether the slot is newly learnt by it.
    pub(super) fn hear(
        &mut self,
        alloc: Global,
        nodes: Nodes,
        from: NodeId,
        vote: &Vote<SharedCommand>,
    ) -> Result<bool, AllocError>
        ensures hears { IfOk result (λ learns.
            SlotHears nodes (known_learnt self.old) (known_heard self.old) from vote.now
            learns (known_learnt self.new) (known_heard self.new)) }
        ensures unlearnt { OnErr result (known_learnt self.old vote.now.slot ≡ None) }
        ensures once { OnErr result (known_heard self.old vote.now.slot vote.now.ballot from ≡ None) }
        ensures first { OnErr result
            ((a : ℕ) → known_heard self.old vote.now.slot vote.now.ballot a ≢ Some vote.now.command) }
        ensures learnt { OnErr result (known_learnt self.new ≡ known_learnt self.old) }
        ensures heard { OnErr result (known_heard self.new ≡ known_heard self.old) }
    {
        if self.settled_at(vote.slot).is_some() {
            return Ok(false);
        }
        self.others.hear(alloc, nodes, from, vote)
    }

    /// The slot is learnt, and what was told of it goes. Where it is the next of the row it joins it, unless memory is wanting.
    pub(super) fn learn(&mut self, slot: Slot, command: SharedCommand) -> Result<(), AllocError>
        requires { known_learnt self.old slot ≡ None }
        ensures learnt { OnOk result
            (known_learnt self.new ≡ put (known_learnt self.old) slot (Some command)) }
        ensures heard { OnOk result
            (known_heard self.new ≡ put (known_heard self.old) slot unheard) }
        ensures learnt_unchanged { OnErr result (known_learnt self.new ≡ known_learnt self.old) }
        ensures heard_unchanged { OnErr result (known_heard self.new ≡ known_heard self.old) }
    {
        if !self.is_next(slot) {
            return self.others.learn(slot, command);
        }
        if let Err(_) = self.settled.try_reserve(1) {
            return self.others.learn(slot, command);
        }
        self.others.forget(slot);
        let _ = self.settled.push(command);
        Ok(())
    }
}
