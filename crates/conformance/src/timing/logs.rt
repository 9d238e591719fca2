//! Votes that are put into a storage in memory, and taken out of it.

ghost use Rattle.std.specs.Prelude.{◌≡◌, ◌≤◌, ◌+◌, ◌*◌, IfErr};
ghost use Rattle.synod.specs.declared.slot.TheConstants.{SLOTS};
ghost use Rattle.conformance.specs.Faults.{IsUntimed};

use super::task::LogWork;
use crate::fault::Fault;
use stable::{Key, MemStable, Stable};
use std::alloc::Global;
use std::mem;
use synod::{SLOTS, Slot};

/// The record of a vote, about as long as that of a point that is added.
const RECORD: [u8; 64] = [0x56; 64];

/// The sum of what the rounds answer, each the number of slots, in 64 bits.
pub fn log_total(alloc: Global, work: LogWork, slots: u16, rounds: u32) -> Result<u64, Fault>
    ensures { IfErr result IsUntimed }
{
    let mut storage = log_before(alloc, work, slots)?;
    let mut total = 0u64;
    for round in 0..rounds {
        let number = slots_done(alloc, work, &mut storage, slots, round)?;
        total = total.wrapping_add(number);
    }
    // Not dropped: a drop costs what the trims left to it, so that their time would tell too little.
    mem::forget(storage);
    Ok(total)
}

/// What is stored before the first round: nothing, a full log, or one whose first slots are trimmed.
fn log_before(alloc: Global, work: LogWork, slots: u16) -> Result<MemStable, Fault>
    ensures { IfErr result (λ fault. fault ≡ Fault.Memory) }
{
    let mut storage = MemStable::new(alloc);
    match work {
        LogWork::Put => {}
        LogWork::Trimmed => put_votes(alloc, &mut storage, 0, SLOTS)?,
        LogWork::TrimmedAgain => {
            put_votes(alloc, &mut storage, 0, SLOTS)?;
            trim(alloc, &mut storage, u32::from(slots))?;
        }
    }
    Ok(storage)
}

/// Does the round's work, and tells how many slots it was given. Behind the last slot it begins at the first one again.
fn slots_done(
    alloc: Global,
    work: LogWork,
    storage: &mut MemStable,
    slots: u16,
    round: u32,
) -> Result<u64, Fault>
    ensures { IfErr result (λ fault. fault ≡ Fault.Memory) }
{
    let earlier = (u64::from(slots) * u64::from(round) % u64::from(SLOTS)) as u32;
    let slots = u32::from(slots);
    match work {
        LogWork::Put => put_votes(alloc, storage, earlier, slots)?,
        LogWork::Trimmed => trim(alloc, storage, earlier + slots)?,
        LogWork::TrimmedAgain => trim(alloc, storage, slots)?,
    }
    Ok(u64::from(slots))
}

/// Puts votes at so many slots from one on.
fn put_votes(alloc: Global, storage: &mut MemStable, first: u32, count: u32) -> Result<(), Fault>
    requires { first + count ≤ 2 * SLOTS }
    ensures { IfErr result (λ fault. fault ≡ Fault.Memory) }
{
    for slot in first..first + count {
        put_vote(alloc, storage, slot)?;
    }
    Ok(())
}

/// Puts a vote at a slot; those behind the last one are the first ones again.
fn put_vote(alloc: Global, storage: &mut MemStable, slot: u32) -> Result<(), Fault>
    ensures { IfErr result (λ fault. fault ≡ Fault.Memory) }
{
    let key = Key::Vote(Slot::new(slot % SLOTS).unwrap());
    storage.put(alloc, key, RECORD.to_vec(alloc)?)?;
    Ok(())
}

/// Takes out the votes at slots below this one.
fn trim(alloc: Global, storage: &mut MemStable, below: u32) -> Result<(), Fault>
    ensures { IfErr result (λ fault. fault ≡ Fault.Memory) }
{
    storage.trim_below(alloc, below)?;
    Ok(())
}
