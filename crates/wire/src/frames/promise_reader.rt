//! Promises, read with the first fault that is met.

ghost use Rattle.std.specs.Prelude.{◌≡◌, ◌+◌, ◌≤◌, ⊤, length, IfOk, IsErrOf};
ghost use Rattle.wire.specs.Promises.{AreTold};
ghost use Rattle.wire.specs.Puts.{SomeTold};
ghost use Rattle.fields.specs.Reading.{Tells};
ghost use Rattle.wire.specs.Reading.{Gives, ReadMayWant};
ghost use Rattle.wire.specs.FrameReading.{range_at, few_at, slot_within, ballot_up_to, entry_at, entries_at};
ghost use Rattle.wire.specs.FrameReading.{told_at, promise_at};

use super::entry::Entry;
use super::fault::WireFault;
use super::promise::{Entries, MOST_ENTRIES, Promise};
use super::value_reader::{read_ballot, read_held, read_slot};
use crate::{Nodes, SharedCommand};
use fields::Input;
use sessions::Command;
use std::alloc::Global;
use synod::{Ballot, Slot, Vote};

/// The body of a promise.
#[tactic(auto, unfolding(crate::specs::FrameReading::promise_at))]
pub(super) fn read_promise(
    alloc: Global,
    input: &mut Input,
    nodes: Nodes,
) -> Result<Promise, WireFault>
    ensures read { Gives (λ x. (x, input.new)) result (promise_at nodes input.old) }
    ensures memory { IsErrOf result WireFault.Memory → ReadMayWant (λ x. SomeTold x.0.entries) (promise_at nodes input.old) }
{
    let ballot = read_ballot(input, nodes)?;
    let (first, last) = read_range(input)?;
    let entries = read_told(alloc, input, nodes, ballot, first, last)?;
    Ok(Promise::of(ballot, first, last, entries))
}

/// The first slot whose vote is told, and the last.
#[tactic(auto, unfolding(crate::specs::FrameReading::range_at))]
fn read_range(input: &mut Input) -> Result<(Slot, Slot), WireFault>
    ensures in_order { IfOk result (λ r. r.0 ≤ r.1) }
    ensures read { Tells (λ x. (x, input.new)) result (range_at input.old) }
{
    let first = read_slot(input)?;
    let last = read_slot(input)?;
    if last < first {
        return Err(WireFault::Field);
    }
    Ok((first, last))
}

/// The votes that a promise of this ballot tells of the slots from the first to the last.
#[tactic(auto, unfolding(crate::specs::FrameReading::told_at))]
fn read_told(
    alloc: Global,
    input: &mut Input,
    nodes: Nodes,
    ballot: Ballot,
    first: Slot,
    last: Slot,
) -> Result<Entries, WireFault>
    ensures few { IfOk result (λ entries. length entries.items ≤ MOST_ENTRIES) }
    ensures told { IfOk result (λ entries. AreTold ballot first last entries.items) }
    ensures read { Gives (λ x. (x.items, input.new)) result (told_at nodes ballot (first, last) input.old) }
    ensures memory { IsErrOf result WireFault.Memory
        → ReadMayWant (λ x. SomeTold x.0) (told_at nodes ballot (first, last) input.old) }
{
    let count = read_few(input)?;
    read_entries(alloc, input, nodes, ballot, first, last, count)
}

/// How many entries follow.
#[tactic(auto, unfolding(crate::specs::FrameReading::few_at))]
fn read_few(input: &mut Input) -> Result<u8, WireFault>
    ensures few { IfOk result (λ count. count ≤ MOST_ENTRIES) }
    ensures read { Tells (λ x. (x, input.new)) result (few_at input.old) }
{
    let count = input.u8()?;
    if usize::from(count) > MOST_ENTRIES {
        return Err(WireFault::Field);
    }
    Ok(count)
}

/// So many entries, slots ascending. Memory for them is asked once, and not where there are none.
fn read_entries(
    alloc: Global,
    input: &mut Input,
    nodes: Nodes,
    ballot: Ballot,
    first: Slot,
    last: Slot,
    count: u8,
) -> Result<Entries, WireFault>
    requires { count ≤ MOST_ENTRIES }
    ensures read { Gives (λ x. (x.items, input.new)) result (entries_at nodes ballot last count first input.old) }
    ensures memory { IsErrOf result WireFault.Memory
        → ReadMayWant (λ x. SomeTold x.0) (entries_at nodes ballot last count first input.old) }
{
    let mut entries = Vec::with_capacity(alloc, usize::from(count))?;
    let mut from = first.value();
    for _ in 0..count {
        let vote = read_entry(alloc, input, nodes, ballot, from, last)?;
        from = after(vote.slot);
        entries.push(Entry::new(vote))?;
    }
    Ok(entries)
}

/// The number that follows that of a slot.
fn after(slot: Slot) -> u32
    ensures { result ≡ slot + 1 }
{
    slot.value() + 1
}

/// A vote that a promise of this ballot may tell, at a slot from one to another.
#[tactic(auto, unfolding(crate::specs::FrameReading::entry_at))]
fn read_entry(
    alloc: Global,
    input: &mut Input,
    nodes: Nodes,
    limit: Ballot,
    from: u32,
    last: Slot,
) -> Result<Vote<SharedCommand>, WireFault>
    ensures read { Gives (λ x. (x, input.new)) result (entry_at nodes limit from last input.old) }
    ensures memory { IsErrOf result WireFault.Memory
        → ReadMayWant (λ _. ⊤) (entry_at nodes limit from last input.old) }
{
    let slot = read_slot_within(input, from, last)?;
    let ballot = read_ballot_up_to(input, nodes, limit)?;
    let command = read_held(alloc, input)?;
    Ok(Vote {
        slot,
        ballot,
        command,
    })
}

/// A slot from one to another.
#[tactic(auto, unfolding(crate::specs::FrameReading::slot_within))]
fn read_slot_within(input: &mut Input, from: u32, last: Slot) -> Result<Slot, WireFault>
    ensures { Tells (λ x. (x, input.new)) result (slot_within from last input.old) }
{
    let slot = read_slot(input)?;
    if slot.value() < from || last < slot {
        return Err(WireFault::Field);
    }
    Ok(slot)
}

/// A ballot that is not above another.
#[tactic(auto, unfolding(crate::specs::FrameReading::ballot_up_to))]
fn read_ballot_up_to(input: &mut Input, nodes: Nodes, limit: Ballot) -> Result<Ballot, WireFault>
    ensures { Tells (λ x. (x, input.new)) result (ballot_up_to nodes limit input.old) }
{
    let ballot = read_ballot(input, nodes)?;
    if limit < ballot {
        return Err(WireFault::Field);
    }
    Ok(ballot)
}
