//! What a node holds while it is up.

ghost use Rattle.std.specs.Prelude.{◌≡◌, ◌≢◌, ◌≤◌, ◌⊎◌, ◌++◌, List, [], Some, IfOk, OnOk, OnErr, IfErr, IfSome, IsErrOf, IsSome, None, true, false};
ghost use Rattle.store.specs.Answers.{IsAnswer};
ghost use Rattle.sessions.specs.declared.command.Command.{Command};
ghost use Rattle.byteorder.specs.Endian.{big_bytes};
ghost use Rattle.stable.specs.declared.key.Key.TheVariants as key;
ghost use Rattle.sessions.specs.Machines.{last_number};
ghost use Rattle.sessions.specs.Sessions.{session_of};
ghost use Rattle.sessions.specs.Standing.{AnswersAll};
ghost use Rattle.learner.specs.Learning.{learnt_at};
ghost use Rattle.learner.specs.Prefixes.{IsPrefix};
ghost use Rattle.proposer.specs.Proposing.{next_round};
ghost use Rattle.wire.specs.declared.frames.message.Message.TheVariants as message;
ghost use Rattle.node_model.specs.declared.input.Input.TheVariants as input;
ghost use Rattle.node_model.specs.Composition.{IsMeaningOf, StandsForMore, RepliesToMore, AddsReplies};
ghost use Rattle.node_model.specs.Executing.{executed, with_command};

use super::fetch::Fetching;
use super::sends::{send_answer, send_ask, send_decided, send_each, send_outgoing};
use acceptor::Acceptor;
use learner::{Learned, Learner};
use node_model::{Input, LearntCommand, NodeFault, Outputs, ReplyOut, is_for_this_run};
use proposer::Proposer;
use sessions::{Command, Machine, Number, Request};
use stable::{Stable, StableFault};
use std::alloc::{AllocError, Global};
use std::mem;
use store::{Db, Op, Query};
use synod::{Ballot, SLOTS, Slot, Vote};
use wire::{Envelope, Frame, Message, Nack, NodeId, Nodes, Promise, SharedCommand};

/// A node's roles. All of it is gone after a restart.
pub struct Replica {
    pub(super) id: NodeId,
    pub(super) nodes: Nodes,
    pub(super) acceptor: Acceptor,
    pub(super) learner: Learner,
    pub(super) proposer: Proposer,
    // It has executed what is learnt, up to the learner's prefix.
    pub(super) machine: Machine,
    // The snapshot that it fetches, as it is behind others that have forgotten what it misses.
    pub(super) fetching: Option<Fetching>,
    // Nothing: room for what is sent next.
    send_buffer: Vec<Frame>,
}

// By hand, so that a crate that drops one proves nothing of what lies within.
impl Drop for Replica {
    fn drop(self) {
        let Replica {
            id: _,
            nodes: _,
            acceptor,
            learner,
            proposer,
            machine,
            fetching,
            send_buffer,
        } = self;
        drop(acceptor);
        drop(learner);
        drop(proposer);
        drop(machine);
        drop(fetching);
        drop(send_buffer);
    }
}

impl Replica {
    ghost use Rattle.node_model.specs.Loading.{IsBaseOf, IsLoaded, IsFresh, IsDamaged, IsReplicaOf};
    ghost use Rattle.acceptor.specs.Loading.{IsMachineOf};
    ghost use Rattle.node_model.specs.Replicas.{ReplicaState, ReplicaIsSmall, position, submission_of, waits, refuses_submit};
    ghost use Rattle.node.specs.Replica.{replica_of};
    ghost use Rattle.node.specs.Wanting.{IsForRecords, MayWant, MayWantOn};
    ghost use Rattle.node_model.specs.Nodes.{Made, ReplicaSteps};
    ghost use Rattle.node_model.specs.Outputs.{sent, silence};
    ghost use Rattle.node_model.specs.Sending.{to_one, ask_sends, decided_sends};
    ghost use Rattle.node_model.specs.Taking.{WritesOnMessage, Takes, TakesMessage, Learns, with_proposer, proposer_sends, proposed};
    ghost use Rattle.node_model.specs.Taking.{executing_of, with_executing, learnt_from};

    /// What the records leave of a node.
    pub fn load<S: Stable>(
        alloc: Global,
        storage: &mut S,
        id: NodeId,
        nodes: Nodes,
    ) -> Result<Replica, StableFault>
        ensures loads { S.IsHonest storage.new → IfOk result (λ replica.
            IsLoaded (S.contents storage.old) id nodes (replica_of replica)) }
        ensures own { IfOk result (λ replica. IsReplicaOf id nodes (replica_of replica)) }
        ensures fresh { IfOk result (λ replica. IsFresh id nodes (replica_of replica)) }
        ensures meaning { S.IsHonest storage.new → IfOk result (λ replica.
            (base : List Command) → IsBaseOf (S.contents storage.old) base → IsMeaningOf base (replica_of replica)) }
        ensures position { IfOk result (λ replica. position (replica_of replica) ≡ (replica_of replica).learner.first) }
        ensures restored { IfOk result (λ replica. IsMachineOf (replica_of replica).acceptor.text (replica_of replica).machine) }
        ensures sound { S.IsHonest storage.new → OnOk result (¬ (IsDamaged S.Stable storage.old)) }
        ensures looks { OnOk result (S.looks storage.old storage.new) }
        ensures settled { OnOk result (S.IsSettled storage.new) }

        // Each error.
        ensures device { IsErrOf result StableFault.Device → S.read_fails storage.old storage.new }
        ensures memory { IsErrOf result StableFault.Memory → S.looks storage.old storage.new }
        ensures damaged { IsErrOf result StableFault.Damaged → S.looks storage.old storage.new }
        ensures damaged_record { S.IsHonest storage.new → IsErrOf result StableFault.Damaged
            → IsDamaged S.Stable storage.old }
    {
        let (acceptor, machine) = Acceptor::load_with_machine(alloc, storage)?;
        let proposer = Proposer::load(alloc, storage, id, nodes)?;
        let learner = Learner::start_at(alloc, nodes, acceptor.floor());
        Ok(Replica {
            id,
            nodes,
            acceptor,
            learner,
            proposer,
            machine,
            fetching: None,
            send_buffer: Vec::new(alloc),
        })
    }

    /// The first slot that isn't learnt.
    pub fn position(&self) -> u32
        ensures value { result ≡ position (replica_of self.now) }
        ensures counted { IsPrefix (replica_of self.now).learner.learnt (replica_of self.now).learner.first (position (replica_of self.now)) }
    {
        self.learner.prefix()
    }

    /// The first slot of which its acceptor may speak.
    pub fn floor(&self) -> u32
        ensures { result ≡ (replica_of self.now).acceptor.floor }
    {
        self.acceptor.floor()
    }

    /// The room of a list of what was sent serves for what is sent next, where it has more of it.
    pub fn recycle(&mut self, sends: Vec<Frame>)
        ensures { replica_of self.new ≡ replica_of self.old }
    {
        if sends.capacity() > self.send_buffer.capacity() {
            self.send_buffer = sends;
        }
    }

    // An empty list, with the room that there is.
    pub(super) fn take_send_buffer(&mut self, alloc: Global) -> Vec<Frame>
        ensures empty { result.items ≡ [] }
        ensures same { replica_of self.new ≡ replica_of self.old }
    {
        let mut send_buffer = mem::replace(&mut self.send_buffer, Vec::new(alloc));
        send_buffer.clear();
        send_buffer
    }

    // What is known of its parts: nodes and their names, the requests that wait, and the open proposals.
    pub fn recall_bounds(&self)
        ensures { ReplicaIsSmall (replica_of self.now) }
    {
        let _count = self.nodes.count();
        let _number = self.id.value();
        let _waiting = self.proposer.waiting();
        let _open = self.proposer.open();
    }

    /// The database that its machine holds.
    pub fn database(&self) -> &Db
        ensures { result.now ≡ (replica_of self.now).machine.features }
    {
        self.machine.database()
    }

    /// The number of the client's last request that counted; 0 where none of its requests has.
    pub fn last_number(&self, client: u8) -> u64
        ensures { result ≡ last_number (session_of (replica_of self.now).machine.sessions client) }
    {
        self.machine.last_number(client)
    }

    /// The answer to a query, over what its machine holds.
    pub fn answer(&self, alloc: Global, query: &Query) -> Result<Vec<u8>, AllocError>
        ensures says { IfOk result (λ text. IsAnswer (replica_of self.now).machine.features query.now text.items) }
        ensures answers { IfOk result (λ text. AnswersAll (replica_of self.now).machine query.now text.items) }
    {
        self.machine.answer(alloc, query)
    }

    /// Takes an input.
    ///
    /// After `Device` or `Memory` it must be dropped: the write that the input makes was made or not. Any other fault leaves it
    /// and the storage as they were.
    // What comes is large: put in place, the calls on its way hand it on without a copy for each.
    #[inline(always)]
    pub fn take<S: Stable>(
        &mut self,
        alloc: Global,
        storage: &mut S,
        input: Input,
    ) -> Result<Outputs, NodeFault>
        ensures steps { ReplicaSteps S.Stable storage.old (replica_of self.old) input result (replica_of self.new) storage.new }

        // When memory may be wanting.
        ensures unwritten { IsErrOf result NodeFault.Memory → IsForRecords input → S.reads storage.old storage.new }
        ensures wanted { IfErr result (λ _. MayWant (replica_of self.old) input) }
    {
        match input {
            Input::Submit { client, number, op } => self.submit(alloc, client, number, op),
            Input::Message(envelope) => self.receive(alloc, storage, &envelope),
            Input::Timeout => self.timeout(alloc, storage),
            Input::Tick => self.tick(alloc),
            Input::Checkpoint => self.checkpoint(alloc, storage),
            Input::Trim => self.trim(alloc, storage),
        }
    }

    /// A client's request. One that waits already is taken, and nothing changes.
    fn submit(
        &mut self,
        alloc: Global,
        client: u8,
        number: Number,
        op: Op,
    ) -> Result<Outputs, NodeFault>
        ensures takes { IfOk result (λ said.
            Takes (replica_of self.old) (input.Submit client number op) (replica_of self.new) said) }
        ensures refuses { IfSome (refuses_submit (replica_of self.old) (submission_of client number op)) (λ fault.
            (result ≡ Err fault) × (replica_of self.new ≡ replica_of self.old)) }
        ensures repeats { refuses_submit (replica_of self.old) (submission_of client number op) ≡ None
            → waits (replica_of self.old) client number ≡ true
            → (result ≡ Ok silence) × (replica_of self.new ≡ replica_of self.old) }
        ensures err { IfErr result (λ fault. (fault ≡ NodeFault.Memory)
            ⊎ (refuses_submit (replica_of self.old) (submission_of client number op) ≡ Some fault)) }
    {
        if self.position() >= SLOTS {
            return Err(NodeFault::LogFull);
        }
        let request = Request::new(client, number, op)?;
        if self.proposer.waits(client, number) {
            return Ok(Outputs::none(alloc));
        }
        self.proposer.submit(request)?;
        Ok(Outputs::of_frames(alloc, self.propose(alloc)?))
    }

    /// Its patience ends.
    fn timeout<S: Stable>(&mut self, alloc: Global, storage: &mut S) -> Result<Outputs, NodeFault>
        ensures { ReplicaSteps S.Stable storage.old (replica_of self.old) input.Timeout result (replica_of self.new) storage.new }
    {
        if self.position() >= SLOTS {
            return Err(NodeFault::LogFull);
        }
        let prepare = self.proposer.timeout(alloc, storage, &self.learner)?;
        let mut sends = self.take_send_buffer(alloc);
        send_outgoing(alloc, &mut sends, self.id, self.nodes, prepare)?;
        Ok(Outputs::of_frames(alloc, sends))
    }

    /// What may have been lost is sent again, and the others are asked for what is missing.
    fn tick(&mut self, alloc: Global) -> Result<Outputs, NodeFault>
        ensures takes { IfOk result (λ said.
            Takes (replica_of self.old) input.Tick (replica_of self.new) said) }
        ensures err { IfErr result (λ fault. fault ≡ NodeFault.Memory) }
    {
        let again = self.proposer.tick(alloc)?;
        let mut sends = self.take_send_buffer(alloc);
        send_each(alloc, &mut sends, self.id, self.nodes, again)?;
        self.ask_again(alloc, &mut sends)?;
        Ok(Outputs::of_frames(alloc, sends))
    }

    /// What it has executed is written as a checkpoint of its position. That is refused where the last is of no lower position.
    // The text is made before it is written: after the write nothing may be refused.
    fn checkpoint<S: Stable>(
        &mut self,
        alloc: Global,
        storage: &mut S,
    ) -> Result<Outputs, NodeFault>
        ensures steps { ReplicaSteps S.Stable storage.old (replica_of self.old) input.Checkpoint result (replica_of self.new)
            storage.new }
        ensures memory { IsErrOf result NodeFault.Memory → S.reads storage.old storage.new }
    {
        let position = self.position();
        if position <= self.floor() {
            return Err(NodeFault::NothingNew);
        }
        let text = self.machine.snapshot(alloc)?;
        self.acceptor.checkpoint(alloc, storage, position, &text)?;
        Ok(Outputs::none(alloc))
    }

    /// The votes below the floor are taken out.
    fn trim<S: Stable>(&mut self, alloc: Global, storage: &mut S) -> Result<Outputs, NodeFault>
        ensures steps { ReplicaSteps S.Stable storage.old (replica_of self.old) input.Trim result (replica_of self.new) storage.new }
        ensures memory { IsErrOf result NodeFault.Memory → S.reads storage.old storage.new }
        ensures wanted { IfErr result (λ _. MayWant (replica_of self.old) input.Trim) }
    {
        self.acceptor.trim(alloc, storage)?;
        Ok(Outputs::none(alloc))
    }

    /// An envelope has come. One that doesn't concern the node is ignored.
    #[inline(always)]
    pub fn receive<S: Stable>(
        &mut self,
        alloc: Global,
        storage: &mut S,
        envelope: &Envelope,
    ) -> Result<Outputs, NodeFault>
        ensures steps { ReplicaSteps S.Stable storage.old (replica_of self.old) (input.Message envelope.now) result
            (replica_of self.new) storage.new }
        ensures wanted { IfErr result (λ _. MayWantOn (replica_of self.old) envelope.now.from envelope.now.message) }
    {
        if !is_for_this_run(self.id, self.nodes, envelope) {
            return Ok(Outputs::none(alloc));
        }
        self.dispatch(alloc, storage, envelope.from, &envelope.message)
    }

    /// A message has come that concerns the node.
    #[inline(always)]
    fn dispatch<S: Stable>(
        &mut self,
        alloc: Global,
        storage: &mut S,
        from: NodeId,
        message: &Message,
    ) -> Result<Outputs, NodeFault>
        ensures takes { IfOk result (λ said.
            TakesMessage (replica_of self.old) from message.now (replica_of self.new) said) }
        ensures made { Made S.Stable storage.old result storage.new (WritesOnMessage (replica_of self.old) message.now) }
        ensures err { IfErr result (λ fault. (fault ≡ NodeFault.Device) ⊎ (fault ≡ NodeFault.Memory)) }
        ensures wanted { IfErr result (λ _. MayWantOn (replica_of self.old) from message.now) }
    {
        match message {
            Message::Prepare { ballot, first } => {
                self.on_prepare(alloc, storage, from, *ballot, *first)
            }
            Message::Promise(promise) => self.on_promise(alloc, from, promise.clone()?),
            Message::Nack(nack) => Ok(self.on_nack(alloc, from, *nack)),
            Message::Accept(vote) => self.on_accept(alloc, storage, from, vote.clone()?),
            Message::Accepted(vote) => self.on_accepted(alloc, from, vote),
            Message::Ask { slot } => self.on_ask(alloc, from, *slot),
            Message::Decided { slot, command } => {
                self.on_decided(alloc, from, *slot, command.share()?)
            }
            Message::SnapAsk { position, number } => {
                self.on_snap_ask(alloc, from, *position, *number)
            }
            Message::SnapPart(part) => self.on_part(alloc, from, part),
            Message::Behind { floor } => self.on_behind(alloc, *floor),
        }
    }

    /// A prepare has come.
    fn on_prepare<S: Stable>(
        &mut self,
        alloc: Global,
        storage: &mut S,
        from: NodeId,
        ballot: Ballot,
        first: Slot,
    ) -> Result<Outputs, NodeFault>
        ensures takes { IfOk result (λ said.
            TakesMessage (replica_of self.old) from (message.Prepare ballot first) (replica_of self.new) said) }
        ensures made { Made S.Stable storage.old result storage.new
            (WritesOnMessage (replica_of self.old) (message.Prepare ballot first)) }
        ensures err { IfErr result (λ fault. (fault ≡ NodeFault.Device) ⊎ (fault ≡ NodeFault.Memory)) }
    {
        let answer = self.acceptor.on_prepare(alloc, storage, ballot, first)?;
        let mut sends = self.take_send_buffer(alloc);
        send_answer(alloc, &mut sends, self.id, self.nodes, from, answer)?;
        Ok(Outputs::of_frames(alloc, sends))
    }

    /// An accept has come.
    fn on_accept<S: Stable>(
        &mut self,
        alloc: Global,
        storage: &mut S,
        from: NodeId,
        vote: Vote<SharedCommand>,
    ) -> Result<Outputs, NodeFault>
        ensures takes { IfOk result (λ said.
            TakesMessage (replica_of self.old) from (message.Accept vote) (replica_of self.new) said) }
        ensures made { Made S.Stable storage.old result storage.new
            (WritesOnMessage (replica_of self.old) (message.Accept vote)) }
        ensures err { IfErr result (λ fault. (fault ≡ NodeFault.Device) ⊎ (fault ≡ NodeFault.Memory)) }
    {
        let answer = self.acceptor.on_accept(alloc, storage, vote)?;
        let mut sends = self.take_send_buffer(alloc);
        send_answer(alloc, &mut sends, self.id, self.nodes, from, answer)?;
        Ok(Outputs::of_frames(alloc, sends))
    }

    /// A promise has come.
    fn on_promise(
        &mut self,
        alloc: Global,
        from: NodeId,
        promise: Promise,
    ) -> Result<Outputs, NodeFault>
        ensures takes { IfOk result (λ said.
            TakesMessage (replica_of self.old) from (message.Promise promise) (replica_of self.new) said) }
        ensures err { IfErr result (λ fault. fault ≡ NodeFault.Memory) }
    {
        let led = self.proposer.is_leading();
        self.proposer.on_promise(from, promise)?;
        let leads = self.proposer.is_leading();
        if led || !leads {
            return Ok(Outputs::none(alloc));
        }
        Ok(Outputs::of_frames(alloc, self.propose(alloc)?))
    }

    /// A refusal has come.
    fn on_nack(&mut self, alloc: Global, from: NodeId, nack: Nack) -> Outputs
        ensures { TakesMessage (replica_of self.old) from (message.Nack nack) (replica_of self.new) result }
    {
        self.proposer.on_nack(nack);
        Outputs::none(alloc)
    }

    /// A vote has come.
    fn on_accepted(
        &mut self,
        alloc: Global,
        from: NodeId,
        vote: &Vote<SharedCommand>,
    ) -> Result<Outputs, NodeFault>
        ensures takes { IfOk result (λ said.
            TakesMessage (replica_of self.old) from (message.Accepted vote.now) (replica_of self.new) said) }
        ensures err { IfErr result (λ fault. fault ≡ NodeFault.Memory) }
    {
        let position = self.position();
        match self.learner.on_accepted(alloc, from, vote)? {
            Some(learned) => Ok(self.execute_and_propose(alloc, position, learned)?),
            None => Ok(Outputs::none(alloc)),
        }
    }

    /// A node tells what is learnt at a slot. Where that is news, it is asked for the next.
    fn on_decided(
        &mut self,
        alloc: Global,
        from: NodeId,
        slot: Slot,
        command: SharedCommand,
    ) -> Result<Outputs, NodeFault>
        ensures takes { IfOk result (λ said.
            TakesMessage (replica_of self.old) from (message.Decided slot command) (replica_of self.new) said) }
        ensures err { IfErr result (λ fault. fault ≡ NodeFault.Memory) }
    {
        let position = self.position();
        let Some(learned) = self.learner.on_decided(alloc, slot, command)? else {
            return Ok(Outputs::none(alloc));
        };
        let mut outputs = self.execute_and_propose(alloc, position, learned)?;
        send_ask(alloc, &mut outputs.sends, self.id, from, self.position())?;
        Ok(outputs)
    }

    /// A node asks what is learnt at a slot.
    fn on_ask(&mut self, alloc: Global, from: NodeId, slot: Slot) -> Result<Outputs, NodeFault>
        ensures takes { IfOk result (λ said.
            TakesMessage (replica_of self.old) from (message.Ask slot) (replica_of self.new) said) }
        ensures err { IfErr result (λ fault. fault ≡ NodeFault.Memory) }
        ensures wanted { OnErr result (decided_sends (replica_of self.old).id from slot (replica_of self.old).acceptor.floor
            (learnt_at (replica_of self.old).learner slot) ≢ []) }
    {
        let mut sends = self.take_send_buffer(alloc);
        self.answer_ask(alloc, &mut sends, from, slot)?;
        Ok(Outputs::of_frames(alloc, sends))
    }

    /// What is learnt at a slot, to the node that asks, or else, where a checkpoint stands for the slot, where that ends.
    fn answer_ask(
        &self,
        alloc: Global,
        sends: &mut Vec<Frame>,
        to: NodeId,
        slot: Slot,
    ) -> Result<(), AllocError>
        ensures told { OnOk result (sends.new.items ≡ sends.old.items
            ++ decided_sends (replica_of self.now).id to slot (replica_of self.now).acceptor.floor
            (learnt_at (replica_of self.now).learner slot)) }
        ensures wanted { OnErr result (decided_sends (replica_of self.now).id to slot (replica_of self.now).acceptor.floor
            (learnt_at (replica_of self.now).learner slot) ≢ []) }
    {
        if let Some(command) = self.learner.get(slot) {
            return send_decided(alloc, sends, self.id, to, slot, command);
        }
        if slot.value() < self.floor() {
            return self.tell_floor(alloc, sends, to);
        }
        Ok(())
    }

    /// A slot is newly learnt: what is learnt by now is executed, from the position before on, and the proposer proposes.
    fn execute_and_propose(
        &mut self,
        alloc: Global,
        from: u32,
        learned: Learned,
    ) -> Result<Outputs, AllocError>
        requires learnt { IsSome (learnt_at (replica_of self.old).learner learned.slot) }
        requires kept { (replica_of self.old).learner.first ≤ from }
        ensures { IfOk result (λ said. (before : ReplicaState) (command : Command)
            → replica_of self.old ≡ record before { learner = (replica_of self.old).learner }
            → from ≡ position before
            → learnt_at (replica_of self.old).learner learned.slot ≡ Some command
            → Learns before learned.slot command (replica_of self.old).learner [] (replica_of self.new) said) }
    {
        let slot = learned.slot;
        let Some(held) = self.learner.held(slot) else {
            unreachable!();
        };
        let command = held.share()?;
        self.proposer.on_learned(slot);
        let replies = self.execute(alloc, from)?;
        let sends = self.propose(alloc)?;
        self.give_up_reached();
        Ok(Outputs {
            restored: None,
            learnt: Some(LearntCommand { slot, command }),
            replies,
            sends,
        })
    }

    /// Executes what is learnt, from a slot to the position: the replies to requests that waited.
    pub(super) fn execute(&mut self, alloc: Global, from: u32) -> Result<Vec<ReplyOut>, AllocError>
        requires kept { (replica_of self.old).learner.first ≤ from }
        ensures executes { IfOk result (λ replies. executing_of (replica_of self.new) replies.items
            ≡ executed (executing_of (replica_of self.old) []) from (learnt_from (replica_of self.old) from)) }
        ensures only { OnOk result (replica_of self.new ≡ with_executing (replica_of self.old) (executing_of (replica_of self.new) [])) }
        ensures stands { OnOk result (StandsForMore (replica_of self.old).machine (replica_of self.new).machine
            (learnt_from (replica_of self.old) from)) }
        ensures replies { IfOk result (λ replies. RepliesToMore (replica_of self.old).machine from
            (learnt_from (replica_of self.old) from) replies.items) }
    {
        let mut replies = Vec::new(alloc);
        for number in from..self.position() {
            let slot = Slot::new(number).unwrap();
            self.execute_at(slot, &mut replies)?;
        }
        Ok(replies)
    }

    /// Executes what is learnt at a slot. A request that waited has its reply.
    fn execute_at(&mut self, slot: Slot, replies: &mut Vec<ReplyOut>) -> Result<(), AllocError>
        ensures executes { OnOk result (executing_of (replica_of self.new) replies.new.items
            ≡ executed (executing_of (replica_of self.old) replies.old.items) slot
            (with_command (learnt_at (replica_of self.old).learner slot) [])) }
        ensures only { OnOk result (replica_of self.new ≡ with_executing (replica_of self.old) (executing_of (replica_of self.new) [])) }
        ensures stands { OnOk result (StandsForMore (replica_of self.old).machine (replica_of self.new).machine
            (with_command (learnt_at (replica_of self.old).learner slot) [])) }
        ensures replies { OnOk result (AddsReplies (replica_of self.old).machine slot
            (with_command (learnt_at (replica_of self.old).learner slot) []) replies.old.items replies.new.items) }
    {
        let Some(command) = self.learner.get(slot) else {
            return Ok(());
        };
        let reply = self.machine.execute(command)?;
        let Command::Request(request) = command else {
            return Ok(());
        };
        let (client, number) = (request.client(), request.number());
        if self.proposer.executed(client, number) {
            replies.push(ReplyOut {
                client,
                number,
                reply,
                position: slot.value() + 1,
            })?;
        }
        Ok(())
    }

    /// The proposer proposes what it may: what is sent.
    pub(super) fn propose(&mut self, alloc: Global) -> Result<Vec<Frame>, AllocError>
        ensures state { OnOk result (replica_of self.new ≡ with_proposer (replica_of self.old)
            (proposed (replica_of self.old).proposer (replica_of self.old).learner)) }
        ensures sends { IfOk result (λ sends. sends.items ≡ proposer_sends (replica_of self.old)
            (proposed (replica_of self.old).proposer (replica_of self.old).learner)) }
    {
        let messages = self.proposer.propose(alloc, &self.learner)?;
        let mut sends = self.take_send_buffer(alloc);
        send_each(alloc, &mut sends, self.id, self.nodes, messages)?;
        Ok(sends)
    }
}
