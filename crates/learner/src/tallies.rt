//! What was told of one slot.

ghost use Rattle.std.specs.Prelude.{◌≡◌, ◌≢◌, ℕ, ◌<◌, [], length, slice_get, IsTrue, IsSome, Some, None, IfSome, IfOk, OnErr, true, false};
ghost use Rattle.learner.specs.Learning.{told_too, IsDecided};
ghost use Rattle.learner.specs.Tallies.{TalliesAreApart, told_in, IsTallyPlace, voters_at};
ghost use Rattle.wire.specs.NodeSets.{has_node};

use super::tally::Tally;
use sessions::Command;
use std::alloc::{AllocError, Global};
use std::mem;
use synod::Ballot;
use wire::{NodeId, NodeSet, Nodes, SharedCommand};

/// What was told of a slot that isn't learnt: under each ballot, who told of a vote for which command.
#[derive(Drop)]
pub(super) struct Tallies {
    tallies: Vec<Tally>,
    // Each command stands once under a ballot, and so does each node.
    ghost apart: { TalliesAreApart tallies.items },
}

impl Tallies {
    /// Nothing was told.
    pub(super) fn new(alloc: Global) -> Tallies
        ensures { result.tallies.items ≡ [] }
    {
        Tallies {
            tallies: Vec::new(alloc),
        }
    }

    /// Whether the node has told of a vote under the ballot.
    pub(super) fn has_heard(&self, from: NodeId, ballot: Ballot) -> bool
        ensures yes { IsTrue result → IsSome (told_in self.now.tallies.items ballot from) }
        ensures no { result ≡ false → told_in self.now.tallies.items ballot from ≡ None }
    {
        self.tallies.iter().any(|tally| tally.ballot == ballot && tally.voters.contains(from))
    }

    /// Counts a node that tells of a vote, its first under the ballot.
    ///
    /// Where a majority of the nodes have told the command under the ballot by then, it is handed back and nothing is
    /// kept. After `AllocError` nothing is changed.
    pub(super) fn count(
        &mut self,
        alloc: Global,
        nodes: Nodes,
        from: NodeId,
        ballot: Ballot,
        command: &SharedCommand,
    ) -> Result<Option<SharedCommand>, AllocError>
        requires { told_in self.old.tallies.items ballot from ≡ None }
        ensures decided { IfOk result (λ decided. IfSome decided (λ c. (c ≡ command.now)
            × IsDecided nodes (told_in self.old.tallies.items) ballot from command.now)) }
        ensures heard { IfOk result (λ decided. decided ≡ None
            → (IsDecided nodes (told_in self.old.tallies.items) ballot from command.now → ⊥)
            × (told_in self.new.tallies.items
            ≡ told_too (told_in self.old.tallies.items) ballot from command.now)) }
        ensures unchanged { OnErr result
            (told_in self.new.tallies.items ≡ told_in self.old.tallies.items) }

        // Only a command that nobody has told yet under the ballot wants memory.
        ensures first { OnErr result
            ((a : ℕ) → told_in self.old.tallies.items ballot a ≢ Some command.now) }
    {
        let place = self.position(ballot, command);
        let voters = self.voters_with(place, from);
        if voters.is_majority_of(nodes) {
            return match place {
                Some(place) => Ok(Some(self.take(alloc, place))),
                None => Ok(Some(command.share()?)),
            };
        }
        match place {
            Some(place) => {
                self.tallies[place].voters = voters;
                Ok(None)
            }
            None => {
                let command = command.share()?;
                self.tallies.push(Tally {
                    ballot,
                    command,
                    voters,
                })?;
                Ok(None)
            }
        }
    }

    /// Where it stands who told of the command under the ballot.
    fn position(&self, ballot: Ballot, command: &SharedCommand) -> Option<usize>
        ensures { IsTallyPlace self.now.tallies.items ballot command.now result }
    {
        self.tallies.iter().position(|tally| tally.ballot == ballot && tally.command == *command)
    }

    /// The command of a tally is handed out, and nothing is kept.
    fn take(&mut self, alloc: Global, place: usize) -> SharedCommand
        requires { place < length self.old.tallies.items }
        ensures { IfSome (slice_get self.old.tallies.items place) (λ tally. result ≡ tally.command) }
    {
        let mut tallies = mem::replace(&mut self.tallies, Vec::new(alloc));
        let Tally { command, .. } = tallies.swap_remove(place);
        command
    }

    /// The voters of a tally, or of none, and one more.
    fn voters_with(&self, place: Option<usize>, from: NodeId) -> NodeSet
        requires { IfSome place (λ i. i < length self.now.tallies.items) }
        ensures member { has_node result from ≡ true }
        ensures others { (a : ℕ) → a ≢ from → has_node result a
            ≡ has_node (voters_at self.now.tallies.items place) a }
    {
        let mut voters = match place {
            Some(place) => self.tallies[place].voters,
            None => NodeSet::new(),
        };
        voters.insert(from);
        voters
    }
}
