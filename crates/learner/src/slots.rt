//! What is known of each slot.

ghost use Rattle.std.specs.Prelude.{◌≡◌, ◌≢◌, ℕ, ◌≤◌, Some, None, IfOk, OnOk, OnErr};
ghost use Rattle.std.specs.Option.{option_copied};
ghost use Rattle.synod.specs.Records.{put};
ghost use Rattle.learner.specs.Learning.{unheard};
ghost use Rattle.learner.specs.Slots.{learnt_of, heard_of, SlotHears};

use super::place::Place;
use super::tallies::Tallies;
use sessions::Command;
use std::alloc::{AllocError, Global};
use std::collections::BTreeMap;
use synod::{Slot, Vote};
use wire::{NodeId, Nodes, SharedCommand};

/// What is known of each slot of which something was told.
#[derive(Drop)]
pub(super) struct Slots {
    by_slot: BTreeMap<Slot, Place>,
}

impl Slots {
    /// Nothing is known.
    pub(super) fn new(alloc: Global) -> Slots
        ensures learnt { (s : ℕ) → learnt_of result s ≡ None }
        ensures heard { (s : ℕ) → heard_of result s ≡ unheard }
    {
        Slots {
            by_slot: BTreeMap::new(alloc),
        }
    }

    /// The command of a slot that is learnt.
    pub(super) fn learnt(&self, slot: Slot) -> Option<&SharedCommand>
        ensures { option_copied result ≡ learnt_of self.now slot }
    {
        match self.by_slot.get(&slot) {
            Some(place) => place.learnt(),
            None => None,
        }
    }

    /// What is learnt at a slot is handed out, and nothing is known of the slot then.
    pub(super) fn take(&mut self, slot: Slot) -> Option<SharedCommand>
        ensures is { result ≡ learnt_of self.old slot }
        ensures learnt { learnt_of self.new ≡ put (learnt_of self.old) slot None }
        ensures heard { heard_of self.new ≡ heard_of self.old }
    {
        if self.learnt(slot).is_none() {
            return None;
        }
        match self.by_slot.remove(&slot) {
            Some(Place::Learnt(command)) => Some(command),
            _ => None,
        }
    }

    /// Nothing is known of a slot any more.
    pub(super) fn forget(&mut self, slot: Slot)
        ensures learnt { learnt_of self.new ≡ put (learnt_of self.old) slot None }
        ensures heard { heard_of self.new ≡ put (heard_of self.old) slot unheard }
    {
        let _ = self.by_slot.remove(&slot);
    }

    /// A node tells that it voted so. Whether the slot is newly learnt by it.
    pub(super) fn hear(
        &mut self,
        alloc: Global,
        nodes: Nodes,
        from: NodeId,
        vote: &Vote<SharedCommand>,
    ) -> Result<bool, AllocError>
        ensures hears { IfOk result (λ learns.
            SlotHears nodes (learnt_of self.old) (heard_of self.old) from vote.now
            learns (learnt_of self.new) (heard_of self.new)) }
        ensures unlearnt { OnErr result (learnt_of self.old vote.now.slot ≡ None) }
        ensures once { OnErr result (heard_of self.old vote.now.slot vote.now.ballot from ≡ None) }
        ensures first { OnErr result
            ((a : ℕ) → heard_of self.old vote.now.slot vote.now.ballot a ≢ Some vote.now.command) }
        ensures learnt { OnErr result (learnt_of self.new ≡ learnt_of self.old) }
        ensures heard { OnErr result (heard_of self.new ≡ heard_of self.old) }
    {
        let place = self
            .by_slot
            .entry(vote.slot)?
            .or_insert(Place::Told(Tallies::new(alloc)));
        place.hear(alloc, nodes, from, vote.ballot, &vote.command)
    }

    /// The slot is learnt, and what was told of it goes.
    pub(super) fn learn(&mut self, slot: Slot, command: SharedCommand) -> Result<(), AllocError>
        ensures learnt { OnOk result
            (learnt_of self.new ≡ put (learnt_of self.old) slot (Some command)) }
        ensures heard { OnOk result
            (heard_of self.new ≡ put (heard_of self.old) slot unheard) }
        ensures learnt_unchanged { OnErr result (learnt_of self.new ≡ learnt_of self.old) }
        ensures heard_unchanged { OnErr result (heard_of self.new ≡ heard_of self.old) }
    {
        self.by_slot.insert(slot, Place::Learnt(command))?;
        Ok(())
    }
}
