//! The votes that an acceptor holds.

ghost use Rattle.std.specs.Prelude.{◌≡◌, ◌↔◌, IsTrue, IsSome, IfOk, OnOk, OnErr, IsErrOf, Some, None, ℕ, nat_lt, if◌then◌else◌};
ghost use Rattle.acceptor.specs.Accepting.{put};
ghost use Rattle.acceptor.specs.Ranges.{IsPromiseFrom, StandsFrom};
ghost use Rattle.acceptor.specs.AcceptedValues.{AreUpTo, HasAnyBelow, vote_at, cast_at, vote_held};
ghost use Rattle.acceptor.specs.Forms.{VoteFitsRecord};
ghost use Rattle.acceptor.specs.Spelling.{vote_bytes};
ghost use Rattle.stable.specs.Records.{Sets};

use super::accepted_value::AcceptedValue;
use sessions::Command;
use slot_table::SlotTable;
use stable::{Key, Stable, StableFault};
use std::alloc::{AllocError, Global};
use synod::{Ballot, Slot, Vote};
use wire::{Entries, Entry, MOST_ENTRIES, Promise, SharedCommand, vote_record};

/// What was voted for at each slot.
#[derive(Drop)]
pub(super) struct Votes {
    by_slot: SlotTable<AcceptedValue>,
}

impl Votes {
    /// No votes, with room for so many at slots in turn.
    pub(super) fn with_room(alloc: Global, count: usize) -> Result<Votes, AllocError>
        ensures { IfOk result (λ votes. (s : ℕ) → vote_held votes s ≡ None) }
    {
        let by_slot = SlotTable::with_room(alloc, count)?;
        Ok(Votes { by_slot })
    }

    /// Whether the vote at its slot is this vote already.
    pub(super) fn has(&self, vote: &Vote<SharedCommand>) -> bool
        ensures { IsTrue result ↔ (vote_held self.now vote.now.slot ≡ Some vote.now) }
    {
        match self.by_slot.get(vote.slot) {
            Some(cast) => cast.ballot == vote.ballot && cast.command == vote.command,
            None => false,
        }
    }

    /// The promise of a ballot, which tells the votes from a slot on: four at most, and none behind the fourth is passed
    /// over. It takes at most five steps from there, however many votes are held, and one for each empty place between them.
    pub(super) fn promise(
        &self,
        alloc: Global,
        ballot: Ballot,
        first: Slot,
    ) -> Result<Promise, AllocError>
        requires { AreUpTo (Some ballot) self.now }
        ensures tells { IfOk result (λ p. IsPromiseFrom (λ s. vote_held self.now s) ballot first p) }
        ensures stands { OnErr result (StandsFrom (λ s. vote_held self.now s) first) }
    {
        let mut entries = Entries::new(alloc);
        let mut from = Some(first);
        while let Some(next) = from {
            let Some((slot, cast)) = self.by_slot.first_from(next) else {
                break;
            };
            if entries.len() == MOST_ENTRIES {
                return Ok(Promise::new(ballot, first, slot.before().unwrap(), entries).unwrap());
            }
            entries.push(Entry::new(Vote {
                slot,
                ballot: cast.ballot,
                command: cast.command.share()?,
            }))?;
            from = Slot::new(slot.value() + 1);
        }
        Ok(Promise::new(ballot, first, Slot::last(), entries).unwrap())
    }

    /// Whether a vote stands at a slot below this one.
    pub(super) fn has_below(&self, below: u32) -> bool
        ensures { IsTrue result ↔ HasAnyBelow (vote_held self.now) below }
    {
        match self.by_slot.first_from(Slot::first()) {
            Some((slot, _cast)) => slot.value() < below,
            None => false,
        }
    }

    /// No vote stands at a slot below this one any more.
    pub(super) fn remove_below(&mut self, below: u32)
        ensures { (s : ℕ) → vote_held self.new s ≡ (if nat_lt s below then None else vote_held self.old s) }
    {
        self.by_slot.remove_below(below);
    }

    /// Takes in what was found at a slot.
    pub(super) fn insert(&mut self, slot: Slot, cast: AcceptedValue) -> Result<(), AllocError>
        ensures votes { OnOk result ((s : ℕ) → vote_held self.new s
            ≡ put (vote_held self.old) slot (Some (vote_at slot cast)) s) }
        ensures unchanged { OnErr result ((s : ℕ) → vote_held self.new s ≡ vote_held self.old s) }
    {
        self.by_slot.insert(slot, cast)?;
        Ok(())
    }

    /// Casts a vote: it is written, and held.
    pub(super) fn record_vote<S: Stable>(
        &mut self,
        alloc: Global,
        storage: &mut S,
        vote: &Vote<SharedCommand>,
    ) -> Result<(), StableFault>
        ensures written { OnOk result
            (S.changes storage.old (Sets (Key.Vote vote.now.slot) (vote_bytes vote.now)) storage.new) }
        ensures votes { OnOk result ((s : ℕ) → vote_held self.new s
            ≡ put (vote_held self.old) vote.now.slot (Some vote.now) s) }
        ensures fits { OnOk result (VoteFitsRecord vote.now) }

        // Each error.
        ensures device { IsErrOf result StableFault.Device
            → S.fails storage.old (Sets (Key.Vote vote.now.slot) (vote_bytes vote.now)) storage.new }
        ensures device_fits { IsErrOf result StableFault.Device → VoteFitsRecord vote.now }
        ensures memory { IsErrOf result StableFault.Memory → S.reads storage.old storage.new }
        ensures unchanged { OnErr result ((s : ℕ) → vote_held self.new s ≡ vote_held self.old s) }
        ensures not_damaged { ¬ IsErrOf result StableFault.Damaged }
    {
        let bytes = vote_record(alloc, vote.ballot, vote.command.command())?;
        let cast = AcceptedValue {
            ballot: vote.ballot,
            command: vote.command.share()?,
        };
        // It takes its place before it is written: after the write nothing may be refused.
        let before = self.by_slot.insert(vote.slot, cast)?;
        match storage.put(alloc, Key::Vote(vote.slot), bytes) {
            Ok(()) => Ok(()),
            Err(fault) => {
                self.put_back(vote.slot, before);
                Err(fault)
            }
        }
    }

    /// Makes the slot hold what it held before a vote was put there.
    fn put_back(&mut self, slot: Slot, before: Option<AcceptedValue>)
        requires { IsSome before → IsSome (cast_at self.old slot) }
        ensures { (s : ℕ) → cast_at self.new s ≡ put (cast_at self.old) slot before s }
    {
        match before {
            Some(cast) => {
                // The slot has its place, so nothing is refused.
                let _ = self.by_slot.insert(slot, cast);
            }
            None => {
                let _ = self.by_slot.remove(slot);
            }
        }
    }
}
