//! One node: its records, and its roles while it is up.

ghost use Rattle.std.specs.Prelude.{◌≡◌, ◌⊎◌, ◌↔◌, List, Ok, IfErr, IfOk, IfSome, IsErrOf, OnOk, IsTrue, true, false, IsSome};
ghost use Rattle.std.specs.Prelude.{None, MatchOption, option_map};
ghost use Rattle.std.specs.Option.{option_copied};

use super::replica::Replica;
use node_model::{AnswerText, Input, NodeFault, Outputs};
use stable::{Failing, Put, Scripted, Stable};
use std::alloc::Global;
use store::{Db, Query};
use wire::{Envelope, Frame, NodeId, Nodes};

/// A node, which is up or down.
#[derive(Drop)]
pub struct Node<S> {
    id: NodeId,
    nodes: Nodes,
    storage: S,
    replica: Option<Replica>,
}

impl<S: Stable> Node<S> {
    ghost use Rattle.sessions.specs.Machines.{last_number};
    ghost use Rattle.sessions.specs.Sessions.{session_of};
    ghost use Rattle.sessions.specs.declared.command.Command.{Command};
    ghost use Rattle.node_model.specs.Composition.{IsMeaningOf};
    ghost use Rattle.node_model.specs.Faults.{is_stop_fault};
    ghost use Rattle.learner.specs.Prefixes.{IsPrefix};
    ghost use Rattle.acceptor.specs.Loading.{IsMachineOf};
    ghost use Rattle.node_model.specs.Loading.{IsBaseOf, IsLoaded, IsFresh, IsDamaged, IsMember, Restarts};
    ghost use Rattle.node_model.specs.Replicas.{is_stale_vote, position};
    ghost use Rattle.node_model.specs.Nodes.{NodeSteps, NodeAnswers, StaysMeaning, AnswersMeaning};
    ghost use Rattle.node.specs.Seen.{state_of};
    ghost use Rattle.node.specs.Wanting.{IsForRecords, MayWant, MayWantOn};
    ghost use Rattle.node_model.specs.Outputs.{IsFew, silence};
    ghost use Rattle.node_model.specs.declared.input.Input.TheVariants as input;

    /// A node over these records, which it loads. It begins down where they can't be loaded.
    pub fn start(alloc: Global, storage: S, id: NodeId, nodes: Nodes) -> Node<S>
        ensures member { IsMember id nodes (state_of result) }
        ensures loads { S.IsHonest (state_of result).storage → IfSome (state_of result).up
            (IsLoaded (S.contents storage) id nodes) }
        ensures fresh { IfSome (state_of result).up (IsFresh id nodes) }
        ensures sound { S.IsHonest (state_of result).storage → IsSome (state_of result).up
            → ¬ (IsDamaged S.Stable storage) }
        ensures settled { IsSome (state_of result).up → S.IsSettled (state_of result).storage }
        ensures meaning { S.IsHonest (state_of result).storage → IfSome (state_of result).up (λ m.
            (base : List Command) → IsBaseOf (S.contents storage) base → IsMeaningOf base m) }
        ensures position { IfSome (state_of result).up (λ m. position m ≡ m.learner.first) }
        ensures restored { IfSome (state_of result).up (λ m. IsMachineOf m.acceptor.text m.machine) }
        ensures up { IsSome (state_of result).up → S.looks storage (state_of result).storage }
        ensures down { (state_of result).up ≡ None → S.looks storage (state_of result).storage
            ⊎ S.read_fails storage (state_of result).storage }
    {
        let mut storage = storage;
        match Replica::load(alloc, &mut storage, id, nodes) {
            Ok(replica) => Node {
                id,
                nodes,
                storage,
                replica: Some(replica),
            },
            Err(_fault) => Node {
                id,
                nodes,
                storage,
                replica: None,
            },
        }
    }

    /// Loses what is not in the records, and loads these.
    pub fn restart(&mut self, alloc: Global) -> Result<(), NodeFault>
        ensures restarts { Restarts S.Stable (state_of self.old) result (state_of self.new) }
        ensures meaning { S.IsHonest (state_of self.new).storage → IfSome (state_of self.new).up (λ m.
            (base : List Command) → IsBaseOf (S.contents (state_of self.old).storage) base → IsMeaningOf base m) }
        ensures position { IfSome (state_of self.new).up (λ m. position m ≡ m.learner.first) }
        ensures restored { IfSome (state_of self.new).up (λ m. IsMachineOf m.acceptor.text m.machine) }
        ensures settled { OnOk result (S.IsSettled (state_of self.new).storage) }
    {
        self.stop();
        let replica = Replica::load(alloc, &mut self.storage, self.id, self.nodes)?;
        self.replica = Some(replica);
        Ok(())
    }

    /// Whether it is up.
    pub fn is_up(&self) -> bool
        ensures { IsTrue result ↔ IsSome (state_of self.now).up }
    {
        self.replica.is_some()
    }

    /// The first slot that it hasn't learnt; 0 while it is down.
    pub fn position(&self) -> u32
        ensures value { MatchOption (state_of self.now).up (result ≡ 0) (λ m. result ≡ position m) }
        ensures first { IfSome (state_of self.now).up (λ m. IsPrefix m.learner.learnt m.learner.first (position m)) }
    {
        match &self.replica {
            Some(replica) => replica.position(),
            None => 0,
        }
    }

    /// The first slot of which its acceptor may speak; 0 while it is down.
    pub fn floor(&self) -> u32
        ensures { MatchOption (state_of self.now).up (result ≡ 0) (λ m. result ≡ m.acceptor.floor) }
    {
        match &self.replica {
            Some(replica) => replica.floor(),
            None => 0,
        }
    }

    /// The database that it holds; None while it is down.
    pub fn database(&self) -> Option<&Db>
        ensures { option_copied result ≡ option_map (λ m. m.machine.features) (state_of self.now).up }
    {
        let replica = self.replica.as_ref()?;
        Some(replica.database())
    }

    /// The number of the client's last request that it has executed and that counted. 0 where none has, and while the node is down.
    pub fn last_number(&self, client: u8) -> u64
        ensures { MatchOption (state_of self.now).up (result ≡ 0)
            (λ m. result ≡ last_number (session_of m.machine.sessions client)) }
    {
        match &self.replica {
            Some(replica) => replica.last_number(client),
            None => 0,
        }
    }

    /// Takes an input, refuses it, or goes down on it.
    #[inline(always)]
    pub fn step(&mut self, alloc: Global, input: Input) -> Result<Outputs, NodeFault>
        ensures steps { NodeSteps S.Stable (state_of self.old) input result (state_of self.new) }
        ensures meaning { StaysMeaning (state_of self.old) input result (state_of self.new) }
        ensures few { IfOk result IsFew }

        // After a checkpoint's or a trim's write nothing is wanted, a trim of nothing is done, and nothing is wanted for a message that
        // is passed over.
        ensures unwritten { IsErrOf result NodeFault.Memory → IsForRecords input
            → S.reads (state_of self.old).storage (state_of self.new).storage }
        ensures wanted { IfSome (state_of self.old).up (λ m. IfErr result (λ _. MayWant m input)) }
    {
        let Some(replica) = &mut self.replica else {
            return Err(NodeFault::Down);
        };
        replica.recall_bounds();
        let result = replica.take(alloc, &mut self.storage, input);
        self.stop_after(&result);
        result
    }

    /// Takes a message as `step` does, and only looks at it: most messages tell of votes, of which little is kept.
    #[inline(always)]
    pub fn receive(&mut self, alloc: Global, envelope: &Envelope) -> Result<Outputs, NodeFault>
        ensures steps { NodeSteps S.Stable (state_of self.old) (input.Message envelope.now) result (state_of self.new) }
        ensures meaning { StaysMeaning (state_of self.old) (input.Message envelope.now) result (state_of self.new) }
        ensures few { IfOk result IsFew }

        // For what is passed over nothing is wanted.
        ensures wanted { IfSome (state_of self.old).up (λ m. IfErr result (λ _.
            MayWantOn m envelope.now.from envelope.now.message)) }
    {
        let Some(replica) = &mut self.replica else {
            return Err(NodeFault::Down);
        };
        replica.recall_bounds();
        let result = replica.receive(alloc, &mut self.storage, envelope);
        self.stop_after(&result);
        result
    }

    // A fault may stop it.
    #[inline(always)]
    fn stop_after(&mut self, outcome: &Result<Outputs, NodeFault>)
        ensures ok { OnOk outcome.now (self.new ≡ self.old) }
        ensures goes_on { IfErr outcome.now (λ fault. is_stop_fault fault ≡ false → self.new ≡ self.old) }
        ensures stops { IfErr outcome.now (λ fault. is_stop_fault fault ≡ true
            → state_of self.new ≡ record (state_of self.old) { up = None }) }
        ensures storage { (state_of self.new).storage ≡ (state_of self.old).storage }
    {
        if let Err(fault) = outcome {
            if fault.is_stop() {
                self.stop();
            }
        }
    }

    /// Whether it is up and the frame tells of a vote for a slot below its position. Nothing comes of such a frame, so it need not
    /// even be opened.
    pub fn is_stale_vote(&self, frame: &Frame) -> bool
        ensures value { MatchOption (state_of self.now).up (result ≡ false) (λ m. result ≡ is_stale_vote m frame.now.message) }
        ensures silent { IsTrue result
            → NodeSteps S.Stable (state_of self.now) (input.Message frame.now) (Ok silence) (state_of self.now) }
        ensures meaning { IsTrue result
            → StaysMeaning (state_of self.now) (input.Message frame.now) (Ok silence) (state_of self.now) }
    {
        let Some(replica) = &self.replica else {
            return false;
        };
        match frame.voted_slot() {
            Some(slot) => slot.value() < replica.position(),
            None => false,
        }
    }

    /// The room of a list of what was sent serves for what is sent next. Nothing else changes.
    pub fn recycle(&mut self, sends: Vec<Frame>)
        ensures { state_of self.new ≡ state_of self.old }
    {
        if let Some(replica) = &mut self.replica {
            replica.recycle(sends);
        }
    }

    /// Goes down: what is not in the records is gone. The records are as they were.
    pub fn stop(&mut self)
        ensures { state_of self.new ≡ record (state_of self.old) { up = None } }
    {
        self.replica = None;
    }

    /// Answers a query: its position, and the text. The node is as it was.
    pub fn query(&self, alloc: Global, query: &Query) -> Result<(u32, AnswerText), NodeFault>
        ensures answers { NodeAnswers (state_of self.now) query.now result }
        ensures meaning { AnswersMeaning (state_of self.now) query.now result }
    {
        let Some(replica) = &self.replica else {
            return Err(NodeFault::Down);
        };
        let text = replica.answer(alloc, query)?;
        Ok((replica.position(), AnswerText::new(text)))
    }
}

impl<S: Stable> Node<Scripted<S>> {
    ghost use Rattle.node.specs.Seen.{state_of};

    /// The next put, or the reading with which the next restart begins, fails so.
    pub fn arm(&mut self, failing: Failing)
        ensures { state_of self.new ≡ record (state_of self.old) {
          storage = record (state_of self.old).storage { armed = Some failing };
        } }
    {
        self.storage.arm(failing);
    }

    /// The puts that took effect, the oldest first.
    pub fn writes(&self) -> &[Put]
        ensures { result.now ≡ (state_of self.now).storage.writes }
    {
        self.storage.puts()
    }
}
