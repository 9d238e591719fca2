//! A node that fetches the text of a checkpoint from others, and one that serves its own.

ghost use Rattle.std.specs.Prelude.{◌≡◌, ◌≢◌, ◌<◌, ◌++◌, [], ℕ, not, true, Some, None, IfOk, OnOk, OnErr, IfErr};
ghost use Rattle.node_model.specs.Fetching.{still_fetched, is_above_target, wants};
ghost use Rattle.node_model.specs.Replicas.{ReplicaState, position};
ghost use Rattle.node_model.specs.Sending.{to_one, part_sends, snapshot_sends};
ghost use Rattle.node_model.specs.Taking.{TakesMessage, Restores, RestoresText, asks_again, is_ahead};
ghost use Rattle.node_model.specs.Outputs.{sent};
ghost use Rattle.node.specs.Fetching.{fetching_of};
ghost use Rattle.node.specs.Replica.{replica_of};
ghost use Rattle.wire.specs.Parts.{piece_of};
ghost use Rattle.wire.specs.declared.frames.message.Message.TheVariants as message;

use super::fetch::Fetching;
use super::replica::Replica;
use super::sends::{send, send_ask, send_asks, send_to_the_others};
use node_model::{NodeFault, Outputs};
use sessions::{Machine, SnapFault};
use std::alloc::{AllocError, Global};
use wire::{Frame, Message, NodeId, Part, PartNumber, Position};

impl Replica {
    /// A node tells that it may not speak of slots below its floor any more. Where that is further than this node has come, it
    /// fetches the text of a checkpoint there.
    pub(super) fn on_behind(&mut self, alloc: Global, floor: Position) -> Result<Outputs, NodeFault>
        ensures takes { (from : ℕ) → IfOk result (λ said.
            TakesMessage (replica_of self.old) from (message.Behind floor) (replica_of self.new) said) }
        ensures err { IfErr result (λ fault. fault ≡ NodeFault.Memory) }
        ensures wanted { OnErr result (is_ahead (replica_of self.old) floor ≡ true) }
    {
        if floor.value() <= self.position() || self.fetches_to(floor) {
            return Ok(Outputs::none(alloc));
        }
        let first = Message::SnapAsk {
            position: floor,
            number: PartNumber::first(),
        };
        let mut sends = self.take_send_buffer(alloc);
        send_to_the_others(alloc, &mut sends, self.id, self.nodes, &first)?;
        self.fetch(Fetching::new(alloc, floor));
        Ok(Outputs::of_frames(alloc, sends))
    }

    // Whether it fetches the text of a checkpoint there, or further on.
    fn fetches_to(&self, floor: Position) -> bool
        ensures { result ≡ not (is_above_target (replica_of self.now).fetching floor) }
    {
        match &self.fetching {
            Some(fetching) => floor.value() <= fetching.target().value(),
            None => false,
        }
    }

    /// A node asks for a part of the text of a checkpoint.
    pub(super) fn on_snap_ask(
        &mut self,
        alloc: Global,
        from: NodeId,
        position: Position,
        number: PartNumber,
    ) -> Result<Outputs, NodeFault>
        ensures takes { IfOk result (λ said.
            TakesMessage (replica_of self.old) from (message.SnapAsk position number) (replica_of self.new) said) }
        ensures err { IfErr result (λ fault. fault ≡ NodeFault.Memory) }
        ensures wanted { OnErr result (snapshot_sends (replica_of self.old).acceptor (replica_of self.old).id from position number ≢ []) }
    {
        let mut sends = self.take_send_buffer(alloc);
        self.tell_snapshot(alloc, &mut sends, from, position, number)?;
        Ok(Outputs::of_frames(alloc, sends))
    }

    // A part of the checkpoint at the position, to the node that asks, or else, where this node's is further on, where that ends.
    fn tell_snapshot(
        &self,
        alloc: Global,
        sends: &mut Vec<Frame>,
        to: NodeId,
        position: Position,
        number: PartNumber,
    ) -> Result<(), AllocError>
        ensures told { OnOk result (sends.new.items ≡ sends.old.items
            ++ snapshot_sends (replica_of self.now).acceptor (replica_of self.now).id to position number) }
        ensures wanted { OnErr result (snapshot_sends (replica_of self.now).acceptor (replica_of self.now).id to position number ≢ []) }
    {
        let floor = self.floor();
        if floor == position.value() {
            return self.serve(alloc, sends, to, position, number);
        }
        if position.value() < floor {
            return self.tell_floor(alloc, sends, to);
        }
        Ok(())
    }

    // A part of the text of its checkpoint, where that has it.
    fn serve(
        &self,
        alloc: Global,
        sends: &mut Vec<Frame>,
        to: NodeId,
        position: Position,
        number: PartNumber,
    ) -> Result<(), AllocError>
        ensures told { OnOk result (sends.new.items ≡ sends.old.items
            ++ part_sends (replica_of self.now).id to (piece_of position (replica_of self.now).acceptor.text number)) }
        ensures wanted { OnErr result (part_sends (replica_of self.now).id to
            (piece_of position (replica_of self.now).acceptor.text number) ≢ []) }
    {
        match Part::of(alloc, position, self.acceptor.text(), number)? {
            Some(part) => send(alloc, sends, self.id, to, &Message::SnapPart(part)),
            None => Ok(()),
        }
    }

    /// A node is told from which slot on this one may speak.
    pub(super) fn tell_floor(
        &self,
        alloc: Global,
        sends: &mut Vec<Frame>,
        to: NodeId,
    ) -> Result<(), AllocError>
        requires { 0 < (replica_of self.now).acceptor.floor }
        ensures { OnOk result (sends.new.items ≡ sends.old.items
            ++ to_one (replica_of self.now).id to (message.Behind (replica_of self.now).acceptor.floor)) }
    {
        let floor = Position::new(self.floor()).unwrap();
        send(alloc, sends, self.id, to, &Message::Behind { floor })
    }

    /// A part of the text of a checkpoint has come. With the last one the text is restored.
    pub(super) fn on_part(
        &mut self,
        alloc: Global,
        from: NodeId,
        part: &Part,
    ) -> Result<Outputs, NodeFault>
        ensures takes { IfOk result (λ said.
            TakesMessage (replica_of self.old) from (message.SnapPart part.now) (replica_of self.new) said) }
        ensures err { IfErr result (λ fault. fault ≡ NodeFault.Memory) }
        ensures wanted { OnErr result (wants (replica_of self.old).fetching (position (replica_of self.old)) part.now ≡ true) }
    {
        if !self.wants(part) {
            return Ok(Outputs::none(alloc));
        }
        let Some(mut fetching) = self.fetching.take() else {
            return Ok(Outputs::none(alloc));
        };
        fetching.hold(alloc, part)?;
        match fetching.missing() {
            Some(number) => Ok(self.ask_next(alloc, from, fetching, number)?),
            None => {
                let text = fetching.text(alloc)?;
                Ok(self.restore(alloc, from, fetching.target(), &text)?)
            }
        }
    }

    // Whether the part is of the text that is fetched, and isn't held yet.
    fn wants(&self, part: &Part) -> bool
        ensures { result ≡ wants (replica_of self.now).fetching (position (replica_of self.now)) part.now }
    {
        match &self.fetching {
            Some(fetching) => {
                let is_ahead = self.position() < fetching.target().value();
                is_ahead && fetching.is_wanted(part)
            }
            None => false,
        }
    }

    // What is fetched goes on, and a node is asked for the lowest part of it that is missing.
    fn ask_next(
        &mut self,
        alloc: Global,
        to: NodeId,
        fetching: Fetching,
        number: PartNumber,
    ) -> Result<Outputs, AllocError>
        ensures goes_on { OnOk result (replica_of self.new
            ≡ record (replica_of self.old) { fetching = Some (fetching_of fetching) }) }
        ensures asks { IfOk result (λ said. said ≡ sent (to_one (replica_of self.old).id to
            (message.SnapAsk (fetching_of fetching).target number))) }
    {
        let mut sends = self.take_send_buffer(alloc);
        let next = Message::SnapAsk {
            position: fetching.target(),
            number,
        };
        send(alloc, &mut sends, self.id, to, &next)?;
        self.fetch(fetching);
        Ok(Outputs::of_frames(alloc, sends))
    }

    // It fetches this from now on.
    fn fetch(&mut self, fetching: Fetching)
        ensures { replica_of self.new ≡ record (replica_of self.old) { fetching = Some (fetching_of fetching) } }
    {
        self.fetching = Some(fetching);
    }

    // The text of a checkpoint is there. One that no database has changes nothing.
    fn restore(
        &mut self,
        alloc: Global,
        from: NodeId,
        target: Position,
        text: &[u8],
    ) -> Result<Outputs, NodeFault>
        requires { position (replica_of self.old) < target }
        ensures restores { IfOk result (λ said. (before : ReplicaState) → replica_of self.old ≡ record before { fetching = None }
            → RestoresText before from target text.now (replica_of self.new) said) }
        ensures err { IfErr result (λ fault. fault ≡ NodeFault.Memory) }
    {
        match Machine::restore(alloc, text) {
            Ok(machine) => Ok(self.go_on_from(alloc, from, target, machine)?),
            Err(SnapFault::Damaged) => Ok(Outputs::none(alloc)),
            Err(SnapFault::Memory) => Err(NodeFault::Memory),
        }
    }

    // The machine of a checkpoint takes the place of the node's: what is learnt from there on is executed, the proposer proposes, and the
    // node that sent the last part is asked for what comes next.
    fn go_on_from(
        &mut self,
        alloc: Global,
        from: NodeId,
        target: Position,
        machine: Machine,
    ) -> Result<Outputs, AllocError>
        requires { position (replica_of self.old) < target }
        ensures { IfOk result (λ said. (before : ReplicaState) → replica_of self.old ≡ record before { fetching = None }
            → Restores before from target machine (replica_of self.new) said) }
    {
        self.learner.skip_to(target.value());
        self.proposer.skip_to(target.value());
        self.machine = machine;
        let replies = self.execute(alloc, target.value())?;
        let mut sends = self.propose(alloc)?;
        send_ask(alloc, &mut sends, self.id, from, self.position())?;
        Ok(Outputs {
            restored: Some(target),
            learnt: None,
            replies,
            sends,
        })
    }

    /// What is fetched is given up where the node has come as far.
    pub(super) fn give_up_reached(&mut self)
        ensures { replica_of self.new ≡ record (replica_of self.old) {
          fetching = still_fetched (position (replica_of self.old)) (replica_of self.old).fetching;
        } }
    {
        let position = self.position();
        if let Some(fetching) = &self.fetching {
            if fetching.target().value() <= position {
                self.fetching = None;
            }
        }
    }

    /// The others are asked for what is learnt at the position, or for the lowest part that is missing of what is fetched.
    pub(super) fn ask_again(&self, alloc: Global, sends: &mut Vec<Frame>) -> Result<(), AllocError>
        ensures { OnOk result (sends.new.items ≡ sends.old.items ++ asks_again (replica_of self.now)) }
    {
        let Some(fetching) = &self.fetching else {
            return send_asks(alloc, sends, self.id, self.nodes, self.position());
        };
        let next = Message::SnapAsk {
            position: fetching.target(),
            number: fetching.missing().unwrap_or(PartNumber::first()),
        };
        send_to_the_others(alloc, sends, self.id, self.nodes, &next)
    }
}
