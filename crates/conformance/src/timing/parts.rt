//! The rounds of a work of a part of a node.

ghost use Rattle.std.specs.Prelude.{IfErr};
ghost use Rattle.conformance.specs.Faults.{IsUntimed};

use super::acceptors::{acceptor_of, promise_number};
use super::deliveries::{flushed_number, pumped_number};
use super::indexes::{index_of, overlap_number};
use super::leader::Leader;
use super::learners::{learned_number, learner_of};
use super::task::PartWork;
use crate::fault::Fault;
use stable::MemStable;
use std::alloc::Global;

/// The sum of what the rounds answer, each as a number, in 64 bits; Usage where the part can't hold so many things.
pub fn part_total(alloc: Global, work: PartWork, size: u16, rounds: u32) -> Result<u64, Fault>
    ensures { IfErr result IsUntimed }
{
    match work {
        PartWork::Tellings => tellings_total(alloc, size, rounds),
        PartWork::Promises => promises_total(alloc, size, rounds),
        PartWork::Proposals => proposals_total(alloc, size, rounds),
        PartWork::Overlapping => overlapping_total(alloc, size, rounds),
        PartWork::Flushed => flushed_total(alloc, size, rounds),
        PartWork::Pumped => pumped_total(alloc, size, rounds),
    }
}

fn tellings_total(alloc: Global, slots: u16, rounds: u32) -> Result<u64, Fault>
    ensures { IfErr result IsUntimed }
{
    let mut learner = learner_of(alloc, slots)?;
    let mut total = 0u64;
    for round in 0..rounds {
        let number = learned_number(alloc, &mut learner, slots, round)?;
        total = total.wrapping_add(number);
    }
    Ok(total)
}

fn promises_total(alloc: Global, votes: u16, rounds: u32) -> Result<u64, Fault>
    ensures { IfErr result IsUntimed }
{
    let mut storage = MemStable::new(alloc);
    let mut acceptor = acceptor_of(alloc, &mut storage, votes)?;
    let mut total = 0u64;
    for round in 0..rounds {
        let number = promise_number(alloc, &mut acceptor, &mut storage, votes, round)?;
        total = total.wrapping_add(number);
    }
    Ok(total)
}

fn proposals_total(alloc: Global, waiting: u16, rounds: u32) -> Result<u64, Fault>
    ensures { IfErr result IsUntimed }
{
    let mut leader = Leader::new(alloc, waiting)?;
    let mut total = 0u64;
    for round in 0..rounds {
        let number = leader.proposed_number(alloc, waiting, round)?;
        total = total.wrapping_add(number);
    }
    Ok(total)
}

fn overlapping_total(alloc: Global, entries: u16, rounds: u32) -> Result<u64, Fault>
    ensures { IfErr result IsUntimed }
{
    let index = index_of(alloc, entries)?;
    let mut total = 0u64;
    for round in 0..rounds {
        let number = overlap_number(alloc, &index, entries, round)?;
        total = total.wrapping_add(number);
    }
    Ok(total)
}

fn flushed_total(alloc: Global, requests: u16, rounds: u32) -> Result<u64, Fault>
    ensures { IfErr result IsUntimed }
{
    let mut total = 0u64;
    for _ in 0..rounds {
        let number = flushed_number(alloc, requests)?;
        total = total.wrapping_add(number);
    }
    Ok(total)
}

fn pumped_total(alloc: Global, requests: u16, rounds: u32) -> Result<u64, Fault>
    ensures { IfErr result IsUntimed }
{
    let mut total = 0u64;
    for _ in 0..rounds {
        let number = pumped_number(alloc, requests)?;
        total = total.wrapping_add(number);
    }
    Ok(total)
}
