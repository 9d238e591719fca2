//! Ballots that an acceptor promises.

ghost use Rattle.std.specs.Prelude.{◌≡◌, ◌<◌, IfErr};
ghost use Rattle.synod.specs.declared.slot.TheConstants.{SLOTS};
ghost use Rattle.conformance.specs.Faults.{IsUntimed};

use super::numbers::STEP;
use super::requests::vote;
use crate::fault::Fault;
use acceptor::{Acceptor, Answer};
use stable::MemStable;
use std::alloc::Global;
use synod::{Ballot, Slot};

/// An acceptor that voted at so many slots from the first on, and wrote so to a storage without records.
pub fn acceptor_of(alloc: Global, storage: &mut MemStable, votes: u16) -> Result<Acceptor, Fault>
    ensures { IfErr result IsUntimed }
{
    let mut acceptor = Acceptor::load(alloc, storage)?;
    for slot in 0..u32::from(votes) {
        let _ = acceptor.on_accept(alloc, storage, vote(alloc, slot)?)?;
    }
    Ok(acceptor)
}

/// The acceptor promises the round's ballot, which is above all before, and tells what it answers as a number.
pub fn promise_number(
    alloc: Global,
    acceptor: &mut Acceptor,
    storage: &mut MemStable,
    votes: u16,
    round: u32,
) -> Result<u64, Fault>
    ensures { IfErr result (λ fault. fault ≡ Fault.Memory) }
{
    let ballot = Ballot::new(2 + u64::from(round), 1).unwrap();
    let first = Slot::new(first_slot(votes, round)).unwrap();
    let answer = acceptor.on_prepare(alloc, storage, ballot, first)?;
    Ok(answer_number(&answer))
}

/// The slot from which on a round asks for votes: one at which there is one.
fn first_slot(votes: u16, round: u32) -> u32
    ensures { result < SLOTS }
{
    (u64::from(round) * STEP % u64::from(votes.max(1))) as u32
}

/// Of a promise one more than the last slot of which it tells, and how many votes it tells; else 0.
fn answer_number(answer: &Answer) -> u64 {
    match answer {
        Answer::Promise(promise) => {
            1 + u64::from(promise.last().value()) + promise.entries().len() as u64
        }
        Answer::Accepted(_) | Answer::Nack(_) | Answer::Behind(_) => 0,
    }
}
