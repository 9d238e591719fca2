//! What is known of one slot.

ghost use Rattle.std.specs.Prelude.{◌≡◌, ◌≢◌, ℕ, IfOk, OnErr, Some, None};
ghost use Rattle.std.specs.Option.{option_copied};
ghost use Rattle.learner.specs.Places.{place_learnt, place_heard, PlaceHears};

use super::tallies::Tallies;
use sessions::Command;
use std::alloc::{AllocError, Global};
use synod::Ballot;
use wire::{NodeId, Nodes, SharedCommand};

/// What is known of a slot.
#[derive(Drop)]
pub(super) enum Place {
    /// It isn't learnt, and this was told of it.
    Told(Tallies),
    Learnt(SharedCommand),
}

impl Place {
    /// The command, where it is learnt.
    pub(super) fn learnt(&self) -> Option<&SharedCommand>
        ensures { option_copied result ≡ place_learnt (Some self.now) }
    {
        match self {
            Place::Told(_) => None,
            Place::Learnt(held) => Some(held),
        }
    }

    /// A node tells that it voted so. Whether the slot is newly learnt by it.
    pub(super) fn hear(
        &mut self,
        alloc: Global,
        nodes: Nodes,
        from: NodeId,
        ballot: Ballot,
        command: &SharedCommand,
    ) -> Result<bool, AllocError>
        ensures hears { IfOk result (λ learns.
            PlaceHears nodes (Some self.old) from ballot command.now learns (Some self.new)) }
        ensures unlearnt { OnErr result (place_learnt (Some self.old) ≡ None) }
        ensures once { OnErr result (place_heard (Some self.old) ballot from ≡ None) }
        ensures first { OnErr result
            ((a : ℕ) → place_heard (Some self.old) ballot a ≢ Some command.now) }
        ensures learnt { OnErr result
            (place_learnt (Some self.new) ≡ place_learnt (Some self.old)) }
        ensures heard { OnErr result
            (place_heard (Some self.new) ≡ place_heard (Some self.old)) }
    {
        let Place::Told(tallies) = self else {
            return Ok(false);
        };
        if tallies.has_heard(from, ballot) {
            return Ok(false);
        }
        let Some(decided) = tallies.count(alloc, nodes, from, ballot, command)? else {
            return Ok(false);
        };
        *self = Place::Learnt(decided);
        Ok(true)
    }
}
