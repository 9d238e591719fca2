//! Votes that are told to a learner.

ghost use Rattle.std.specs.Prelude.{◌≤◌, IfErr};
ghost use Rattle.conformance.specs.Faults.{IsUntimed};

use super::numbers::STEP;
use super::requests::vote;
use crate::fault::Fault;
use learner::Learner;
use std::alloc::Global;
use wire::{NodeId, Nodes};

/// A learner of three nodes, to which two of them told their votes at so many slots behind the first one.
pub fn learner_of(alloc: Global, slots: u16) -> Result<Learner, Fault>
    ensures { IfErr result IsUntimed }
{
    let mut learner = Learner::new(alloc, Nodes::new(3).unwrap());
    for telling in 0..2 * u32::from(slots) {
        let node = NodeId::new((telling % 2) as u8).unwrap();
        let _ = learner.on_accepted(alloc, node, &vote(alloc, 1 + telling / 2)?)?;
    }
    Ok(learner)
}

/// The third node tells its vote of the round: 1 where nothing is learnt from it, and else 2 more than the slot.
pub fn learned_number(
    alloc: Global,
    learner: &mut Learner,
    slots: u16,
    round: u32,
) -> Result<u64, Fault>
    ensures { IfErr result IsUntimed }
{
    let node = NodeId::new(2).unwrap();
    let vote = vote(alloc, told_slot(slots, round))?;
    match learner.on_accepted(alloc, node, &vote)? {
        Some(learned) => Ok(2 + u64::from(learned.slot.value())),
        None => Ok(1),
    }
}

/// The slot of a round's vote: the first one, which isn't learnt, and one of those that are, in turn.
fn told_slot(slots: u16, round: u32) -> u32
    ensures { result ≤ 65535 }
{
    if round % 2 == 0 {
        return 0;
    }
    let place = u64::from(round / 2) * STEP % u64::from(slots.max(1));
    1 + place as u32
}
