//! Votes as promises tell them.

ghost use Rattle.std.specs.Prelude.{◌≡◌};

use crate::SharedCommand;
use sessions::Command;
use std::alloc::AllocError;
use std::marker::Model;
use synod::Vote;

/// A vote that a promise tells.
#[derive(Drop)]
pub struct Entry {
    vote: Vote<SharedCommand>,
}

impl Model for Entry {
    ghost use Rattle.synod.specs.declared.vote.Vote.{Vote};
    ghost use Rattle.sessions.specs.declared.command.Command.{Command};

    ghost Value = { Vote Command };

    ghost view = { λ entry. entry.vote };

    ghost inverse = { λ vote. record { vote = vote } };
}

impl Entry {
    /// The entry that tells this vote.
    pub fn new(vote: Vote<SharedCommand>) -> Entry
        ensures { result ≡ vote }
    {
        Entry { vote }
    }

    /// The vote.
    pub fn vote(&self) -> &Vote<SharedCommand>
        ensures { result.now ≡ self.now }
    {
        &self.vote
    }

    /// The vote itself.
    pub fn into_vote(self) -> Vote<SharedCommand>
        ensures { result ≡ self }
    {
        self.vote
    }
}

impl Clone for Entry {
    ghost is_clone = { λ original copy. copy ≡ original };

    fn clone(&self) -> Result<Entry, AllocError> {
        Ok(Entry {
            vote: self.vote.clone()?,
        })
    }
}
