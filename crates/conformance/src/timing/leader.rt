//! A proposer that leads.

ghost use Rattle.std.specs.Prelude.{◌≡◌, ◌≤◌, ◌<◌, IfErr};
ghost use Rattle.learner.specs.Learning.{prefix};
ghost use Rattle.learner.specs.State.{learning_of};
ghost use Rattle.synod.specs.declared.slot.TheConstants.{SLOTS};
ghost use Rattle.conformance.specs.Faults.{IsUntimed};

use super::messages::first_ballot;
use super::requests::{CLIENT, request};
use crate::fault::Fault;
use learner::Learner;
use proposer::Proposer;
use sessions::{Command, Number};
use stable::MemStable;
use std::alloc::Global;
use synod::Slot;
use wire::{Entries, NodeId, Nodes, Promise, SharedCommand};

/// After so many rounds another leader begins, so that the log is never full.
pub const LAP: u32 = 1024;

/// A proposer, and the learner of its node.
#[derive(Drop)]
pub struct Leader {
    proposer: Proposer,
    learner: Learner,
}

impl Leader {
    /// One of three nodes, at which so many requests wait, and to which all nodes but one have promised.
    pub fn new(alloc: Global, waiting: u16) -> Result<Leader, Fault>
        ensures { IfErr result IsUntimed }
    {
        let mut storage = MemStable::new(alloc);
        let proposer = proposer_of(alloc, &mut storage, waiting)?;
        let learner = Learner::new(alloc, Nodes::new(3).unwrap());
        let mut leader = Leader { proposer, learner };
        campaign(alloc, &mut storage, &mut leader.proposer, &leader.learner)?;
        Ok(leader)
    }

    /// What the round proposes and executes, as a number. It begins as another leader where a lap is over.
    pub fn proposed_number(&mut self, alloc: Global, waiting: u16, round: u32) -> Result<u64, Fault>
        ensures { IfErr result IsUntimed }
    {
        self.begin(alloc, waiting, round % LAP)?;
        self.propose(alloc, waiting, round % LAP)
    }

    /// Another leader begins where a lap is over.
    fn begin(&mut self, alloc: Global, waiting: u16, place: u32) -> Result<(), Fault>
        ensures { IfErr result IsUntimed }
    {
        if place == 0 {
            *self = Leader::new(alloc, waiting)?;
        }
        Ok(())
    }

    /// It proposes; the request that has waited longest is chosen for its slot, learnt and executed, and another one
    /// comes. The number of what it sends, and one more where the request waited.
    fn propose(&mut self, alloc: Global, waiting: u16, place: u32) -> Result<u64, Fault>
        requires { place < SLOTS }
        ensures { IfErr result IsUntimed }
    {
        let sends = self.proposer.propose(alloc, &self.learner)?;
        let slot = Slot::new(place).unwrap();
        let number = 1 + u64::from(place);
        let chosen = SharedCommand::new(alloc, Command::Request(request(number)?))?;
        let _ = self.learner.on_decided(alloc, slot, chosen)?;
        self.proposer.on_learned(slot);
        let waited = self.proposer.executed(CLIENT, Number::new(number).unwrap());
        submit(&mut self.proposer, u64::from(waiting) + number)?;
        Ok(sends.len() as u64 + u64::from(waited))
    }
}

/// The proposer of the first of three nodes, at which so many requests wait.
fn proposer_of(alloc: Global, storage: &mut MemStable, waiting: u16) -> Result<Proposer, Fault>
    ensures { IfErr result IsUntimed }
{
    let nodes = Nodes::new(3).unwrap();
    let mut proposer = Proposer::load(alloc, storage, NodeId::new(0).unwrap(), nodes)?;
    for place in 0..u64::from(waiting) {
        submit(&mut proposer, place + 1)?;
    }
    Ok(proposer)
}

/// The request of this number comes.
fn submit(proposer: &mut Proposer, number: u64) -> Result<(), Fault>
    requires { 1 ≤ number }
    ensures { IfErr result IsUntimed }
{
    proposer.submit(request(number)?)?;
    Ok(())
}

/// Starts a campaign, and hands over the promises of two of three nodes, neither of which has voted.
fn campaign(
    alloc: Global,
    storage: &mut MemStable,
    proposer: &mut Proposer,
    learner: &Learner,
) -> Result<(), Fault>
    requires { prefix (learning_of learner.now) < SLOTS }
    ensures { IfErr result (λ fault. fault ≡ Fault.Memory) }
{
    let _ = proposer.timeout(alloc, storage, learner)?;
    proposer.on_promise(NodeId::new(0).unwrap(), promise(alloc))?;
    proposer.on_promise(NodeId::new(1).unwrap(), promise(alloc))?;
    Ok(())
}

/// A promise of the first ballot that tells of no votes.
fn promise(alloc: Global) -> Promise {
    Promise::new(
        first_ballot(),
        Slot::first(),
        Slot::last(),
        Entries::new(alloc),
    )
    .unwrap()
}
