//! A process that runs a node.

ghost use Rattle.std.specs.Prelude.{◌≡◌, ◌+◌, ◌≤◌, ◌++◌, vec_len, vec_capacity, OnOk, IfErr};
ghost use Rattle.std.specs.VecDeque.{deque_len, deque_capacity};
ghost use Rattle.node_model.specs.Outputs.{IsFew};
ghost use Rattle.node_model.specs.declared.input.Input.TheVariants as input;
ghost use Rattle.world_model.specs.Lives.{Asked, Took};
ghost use Rattle.world_model.specs.Outputs.{replied_at, replied_by};
ghost use Rattle.world_model.specs.Worlds.{learnt_by};
ghost use Rattle.life.specs.Telling.{nothing, to_itself, to_others};

use super::fault::LifeFault;
use super::told::Told;
use node::Node;
use node_model::{AnswerText, Input, LearntCommand, MOST_SENDS, Outputs, ReplyOut};
use proposer::MOST_WAITING;
use stable::Stable;
use std::alloc::Global;
use std::collections::VecDeque;
use std::mem;
use store::Query;
use wire::{Envelope, Frame, NodeId, Nodes};
use world_model::{Answered, LearntEntry, Replied};

/// A process that runs a node.
///
/// What its node tells is held until it is handed out. A frame of the node to itself is handed out to nobody: it waits until it
/// is taken back. Whatever a fault leaves, what was told before it is held.
#[derive(Drop)]
pub struct Life<S> {
    id: NodeId,
    node: Node<S>,
    // Its frames to itself, the oldest first.
    own: VecDeque<Frame>,
    held: Told,
}

impl<S: Stable> Life<S> {
    ghost use Rattle.node.specs.Seen.{state_of};
    ghost use Rattle.life.specs.Lives.{Does, IsBorn, TakesBack, with_said};
    ghost use Rattle.life.specs.Seen.{HasRoom, life_of, lists_of};

    /// A process over these records, which its node loads. The node begins down where they can't be loaded.
    pub fn start(alloc: Global, storage: S, id: NodeId, nodes: Nodes) -> Life<S>
        ensures { IsBorn S.Stable id nodes storage (life_of result) }
    {
        Life {
            id,
            node: Node::start(alloc, storage, id, nodes),
            own: VecDeque::new(alloc),
            held: Told::nothing(alloc),
        }
    }

    /// Its node.
    pub fn node(&self) -> &Node<S>
        ensures { state_of result.now ≡ (life_of self.now).node }
    {
        &self.node
    }

    /// The node takes an input.
    pub fn take(&mut self, alloc: Global, input: Input) -> Result<(), LifeFault>
        ensures { Does S.Stable (life_of self.old) (Took input) result (life_of self.new) }
    {
        self.reserve()?;
        let outputs = self.node.step(alloc, input)?;
        self.hold(outputs);
        Ok(())
    }

    /// The node takes a message, as `take` does, and only looks at it.
    pub fn receive(&mut self, alloc: Global, envelope: &Envelope) -> Result<(), LifeFault>
        ensures { Does S.Stable (life_of self.old) (Took (input.Message envelope.now)) result (life_of self.new) }
    {
        self.reserve()?;
        let outputs = self.node.receive(alloc, envelope)?;
        self.hold(outputs);
        Ok(())
    }

    /// The node takes the frame to itself that has waited longest: whether there is one.
    pub fn take_back(&mut self, alloc: Global) -> Result<bool, LifeFault>
        ensures { TakesBack S.Stable (life_of self.old) result (life_of self.new) }
    {
        let Some(frame) = self.own.front() else {
            return Ok(false);
        };
        // Opened before it leaves the queue, so that it is not lost where memory is refused.
        let envelope = frame.open(alloc)?;
        self.reserve()?;
        let _ = self.own.pop_front();
        let outputs = self.node.receive(alloc, &envelope)?;
        self.hold(outputs);
        Ok(true)
    }

    /// The node is asked, and its answer is held.
    pub fn ask(&mut self, alloc: Global, query: &Query) -> Result<(), LifeFault>
        ensures { Does S.Stable (life_of self.old) (Asked query.now) result (life_of self.new) }
    {
        self.reserve()?;
        let (position, text) = self.node.query(alloc, query)?;
        let _ = self.held.answers.push(Answered {
            node: self.id,
            position,
            query: *query,
            text,
        });
        Ok(())
    }

    /// What is held goes out, and nothing of it is held any more.
    pub fn hand_out(&mut self, alloc: Global) -> Told
        ensures told { lists_of result ≡ (life_of self.old).held }
        ensures left { life_of self.new ≡ record (life_of self.old) { held = nothing } }
    {
        mem::replace(&mut self.held, Told::nothing(alloc))
    }

    // Room for all that a step may tell, so that nothing is refused once the node has made it.
    fn reserve(&mut self) -> Result<(), LifeFault>
        ensures same { life_of self.new ≡ life_of self.old }
        ensures room { OnOk result (HasRoom self.new) }
        ensures memory { IfErr result (λ fault. fault ≡ LifeFault.Memory) }
    {
        self.own.try_reserve(MOST_SENDS)?;
        self.held.frames.try_reserve(MOST_SENDS)?;
        self.held.learnt.try_reserve(1)?;
        self.held.replies.try_reserve(MOST_WAITING)?;
        self.held.answers.try_reserve(1)?;
        Ok(())
    }

    // What the node says is held, and its frames to itself wait.
    fn hold(&mut self, outputs: Outputs)
        requires room { HasRoom self.old }
        requires few { IsFew outputs }
        ensures { life_of self.new ≡ with_said (life_of self.old) outputs }
    {
        let Outputs {
            restored: _,
            learnt,
            replies,
            sends,
        } = outputs;
        add_learnt(&mut self.held.learnt, self.id, learnt);
        add_replies(&mut self.held.replies, self.id, replies);
        sort_out(&mut self.own, &mut self.held.frames, self.id, sends);
    }
}

// What a node learnt joins the list, which has room for it.
fn add_learnt(entries: &mut Vec<LearntEntry>, node: NodeId, learnt: Option<LearntCommand>)
    requires room { vec_len entries.old + 1 ≤ vec_capacity entries.old }
    ensures { entries.new.items ≡ entries.old.items ++ learnt_by node learnt }
{
    if let Some(LearntCommand { slot, command }) = learnt {
        let _ = entries.push(LearntEntry {
            node,
            slot,
            command,
        });
    }
}

// The replies of a node join the list, which has room for them.
fn add_replies(replies: &mut Vec<Replied>, node: NodeId, executed: Vec<ReplyOut>)
    requires room { vec_len replies.old + vec_len executed ≤ vec_capacity replies.old }
    ensures { replies.new.items ≡ replies.old.items ++ replied_by node executed.items }
{
    for executed in executed {
        let _ = replies.push(replied(node, executed));
    }
}

// A reply of a node.
fn replied(node: NodeId, executed: ReplyOut) -> Replied
    ensures { result ≡ replied_at node executed }
{
    Replied {
        node,
        client: executed.client,
        number: executed.number,
        reply: executed.reply,
        position: executed.position,
    }
}

// The frames of a node to itself wait behind its others, and those to other nodes join the list. There is room for all of them.
fn sort_out(own: &mut VecDeque<Frame>, frames: &mut Vec<Frame>, node: NodeId, sends: Vec<Frame>)
    requires own_room { deque_len own.old + vec_len sends ≤ deque_capacity own.old }
    requires room { vec_len frames.old + vec_len sends ≤ vec_capacity frames.old }
    ensures own { own.new.items ≡ own.old.items ++ to_itself node sends.items }
    ensures others { frames.new.items ≡ frames.old.items ++ to_others node sends.items }
{
    for frame in sends {
        if frame.receiver() == node {
            own.push_back_reserved(frame);
        } else {
            let _ = frames.push(frame);
        }
    }
}
