//! Promises.

ghost use Rattle.std.specs.Prelude.{◌≡◌, ◌↔◌, ◌≤◌, IsTrue, IsSome, IfSome, IfOk};
ghost use Rattle.wire.specs.Promises.{IsPromise, AreTold};

use super::entry::Entry;
use std::alloc::AllocError;
use std::marker::Model;
use synod::{Ballot, Slot};

/// A promise tells at most this many votes, so that it fits into a frame.
pub const MOST_ENTRIES: usize = 4;

/// The votes that a promise tells. They lie apart, and no vote takes no memory: a message is handed on from call to call, so it
/// has to be small.
pub type Entries = Vec<Entry>;

/// The ballot is promised, and these are the sender's votes at the slots from the first to the last.
///
/// The votes stand in ascending order of their slots, and none is of a greater ballot.
#[derive(Drop)]
pub struct Promise {
    ballot: Ballot,
    first: Slot,
    last: Slot,
    entries: Entries,
}

impl Model for Promise {
    ghost use Rattle.wire.specs.Promises.{Promised, IsPromise};

    ghost Value = { Promised };

    ghost view = { λ p. record { ballot = p.ballot; first = p.first; last = p.last; entries = p.entries.items } };

    ghost invariant = { λ p. IsPromise (record { ballot = p.ballot; first = p.first; last = p.last; entries = p.entries.items }) };
}

impl Promise {
    /// The promise that says this, or None where none may: the last slot is before the first, or the entries are too many,
    /// or an entry's slot is not after the one before it, or is outside the two, or its ballot is above the promise's.
    pub fn new(ballot: Ballot, first: Slot, last: Slot, entries: Entries) -> Option<Promise>
        ensures valid { IsSome result
            ↔ IsPromise (record { ballot = ballot; first = first; last = last; entries = entries.items }) }
        ensures value { IfSome result
            (λ p. p ≡ record { ballot = ballot; first = first; last = last; entries = entries.items }) }
    {
        let told = are_told(ballot, first.value(), last.value(), &entries);
        if last < first || entries.len() > MOST_ENTRIES || !told {
            return None;
        }
        Some(Promise {
            ballot,
            first,
            last,
            entries,
        })
    }

    /// The promise that says this.
    pub(super) fn of(ballot: Ballot, first: Slot, last: Slot, entries: Entries) -> Promise
        requires { IsPromise (record { ballot = ballot; first = first; last = last; entries = entries.items }) }
        ensures { result ≡ record { ballot = ballot; first = first; last = last; entries = entries.items } }
    {
        Promise {
            ballot,
            first,
            last,
            entries,
        }
    }

    /// What is promised.
    pub fn ballot(&self) -> Ballot
        ensures { result ≡ self.now.ballot }
    {
        self.ballot
    }

    /// The first slot whose vote is told.
    pub fn first(&self) -> Slot
        ensures { result ≡ self.now.first }
    {
        self.first
    }

    /// The last slot whose vote is told.
    pub fn last(&self) -> Slot
        ensures value { result ≡ self.now.last }
        ensures valid { IsPromise self.now }
    {
        self.last
    }

    /// The votes at these slots.
    pub fn entries(&self) -> &[Entry]
        ensures value { result.now ≡ self.now.entries }
        ensures valid { IsPromise self.now }
    {
        self.entries.as_slice()
    }

    /// The votes themselves.
    pub fn into_entries(self) -> Entries
        ensures { result.items ≡ self.entries }
    {
        let Promise { entries, .. } = self;
        entries
    }
}

impl Clone for Promise {
    ghost is_clone = { λ original copy. copy ≡ original };

    fn clone(&self) -> Result<Promise, AllocError> {
        Ok(Promise {
            ballot: self.ballot,
            first: self.first,
            last: self.last,
            entries: self.entries.clone()?,
        })
    }
}

/// Whether a promise of this ballot may tell these votes, of slots from one to another.
fn are_told(ballot: Ballot, from: u32, last: u32, entries: &[Entry]) -> bool
    ensures { IsTrue result ↔ AreTold ballot from last entries.now }
{
    match entries {
        [] => true,
        [entry, rest @ ..] => {
            let vote = entry.vote();
            let slot = vote.slot.value();
            let others = are_told(ballot, slot + 1, last, rest);
            from <= slot && slot <= last && vote.ballot <= ballot && others
        }
    }
}
