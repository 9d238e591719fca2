//! Nodes over records in memory, and each frame that they sent.
//!
//! A step begins with its word, and the number of a node comes next, where there is one:
//!
//! - `submit 0 7 1`: the client and the number of a request that removes `bus-7`; `put 0 7 1 512`: of one that puts it at so many instants.
//! - `timeout 0`, `tick 0`, `checkpoint 0`, `trim 0`, `restart 0`.
//! - `hear 0 1, ask 0`: it hears from another node, which comes next; `overhear 0 1, ask 0`: what is addressed to that node.
//! - `deliver 3`: the frame of this number comes to whom it is addressed, again or for the first time; `lose 3`: it waits no more.
//! - `flush`: frames are delivered, the lowest that waits first, until none waits. What is sent then isn't told.
//! - `arm 0 old`, `arm 0 new`: the next put or trim fails, and leaves the old or the new records.
//! - `count 0`: how many features there are; `look 0`: whether it is up, its position, and the keys of the puts that took effect.

use super::letters::{envelope, node_id, number, numbers, removal, small};
use super::node_text::{
    tell_fault, tell_learnt, tell_replies, tell_restored, tell_sends, tell_writes,
};
use node::Node;
use node_model::{Input, NodeFault, Outputs};
use stable::{Failing, MemStable, Scripted};
use std::alloc::{AllocError, Global};
use std::fmt::Write;
use std::test::Fail;
use store::{Op, Query};
use wire::{Envelope, Frame, Id, Instant, Interp, Message, Nodes, Point, Seq};

// No table sends more frames.
const MOST_FLUSHED: usize = 300;

/// A node whose puts are listed, and can be made to fail.
pub type Member = Node<Scripted<MemStable>>;

/// A frame that was sent, and whether it waits to be delivered.
#[derive(Drop)]
struct Sent {
    frame: Frame,
    waits: bool,
}

/// Nodes, and what they sent, in order.
#[derive(Drop)]
pub struct TestNodes {
    members: Vec<Member>,
    sent: Vec<Sent>,
}

impl TestNodes {
    /// So many nodes, none of which has a record.
    pub fn new(alloc: Global, count: u8) -> Result<TestNodes, Fail> {
        let nodes = Nodes::new(count).ok_or("nodes")?;
        let mut nodes_under_test = TestNodes::empty(alloc);
        for value in 0..count {
            nodes_under_test.start(alloc, MemStable::new(alloc), value, nodes)?;
        }
        Ok(nodes_under_test)
    }

    /// No node.
    pub fn empty(alloc: Global) -> TestNodes {
        TestNodes {
            members: Vec::new(alloc),
            sent: Vec::new(alloc),
        }
    }

    /// Starts one more node, over these records.
    pub fn start(
        &mut self,
        alloc: Global,
        records: MemStable,
        value: u8,
        nodes: Nodes,
    ) -> Result<(), Fail> {
        let id = node_id(value)?;
        let storage = Scripted::new(alloc, records);
        self.members.push(Node::start(alloc, storage, id, nodes))?;
        Ok(())
    }

    /// Takes a step: what is told of it.
    pub fn take(&mut self, alloc: Global, step: &str) -> Result<String, Fail> {
        let mut text = String::new(alloc);
        self.tell(alloc, &mut text, step)?;
        Ok(text)
    }

    /// Takes a step, and tells it.
    fn tell(&mut self, alloc: Global, text: &mut String, step: &str) -> Result<(), Fail> {
        if let Some((who, said)) = step.split_once(", ") {
            return self.listen(alloc, text, who, said);
        }
        let numbers = numbers(alloc, step)?;
        self.follow(alloc, text, step, numbers.as_slice())
    }

    /// Takes a step of these numbers.
    fn follow(
        &mut self,
        alloc: Global,
        text: &mut String,
        step: &str,
        numbers: &[u64],
    ) -> Result<(), Fail> {
        match (step.split_once(' '), numbers) {
            (Some((word, _)), &[at]) => self.act(alloc, text, word, step, at),
            (Some(_), &[to, client, value]) => {
                self.submit(alloc, text, small(to), small(client), value, removal()?)
            }
            (Some(_), &[to, client, value, instants]) => {
                let ride = ride(alloc, b"bus-7", instants)?;
                self.submit(alloc, text, small(to), small(client), value, ride)
            }
            _ => self.flush(alloc, text),
        }
    }

    /// A node hears what is said: by whom, and whether it is addressed to it.
    fn listen(
        &mut self,
        alloc: Global,
        text: &mut String,
        who: &str,
        said: &str,
    ) -> Result<(), Fail> {
        let numbers = numbers(alloc, who)?;
        let &[hearer, from] = numbers.as_slice() else {
            return Err("two nodes".into());
        };
        let (hearer, from) = (small(hearer), small(from));
        let to = if who.starts_with('h') { hearer } else { from };
        let message = Input::Message(envelope(alloc, from, to, said)?);
        self.give(alloc, text, hearer, message)
    }

    fn submit(
        &mut self,
        alloc: Global,
        text: &mut String,
        to: u8,
        client: u8,
        value: u64,
        op: Op,
    ) -> Result<(), Fail> {
        let number = number(value)?;
        self.give(alloc, text, to, Input::Submit { client, number, op })
    }

    /// Gives an input to a node: what it tells, and then what it sends.
    fn give(&mut self, alloc: Global, text: &mut String, to: u8, input: Input) -> Result<(), Fail> {
        let sends = self.hear(alloc, text, to, input)?;
        tell_sends(alloc, text, sends.as_slice())?;
        self.keep(sends)
    }

    /// Gives an input to a node, which tells what it does: what it sends.
    fn hear(
        &mut self,
        alloc: Global,
        text: &mut String,
        to: u8,
        input: Input,
    ) -> Result<Vec<Frame>, Fail> {
        let Some(member) = self.members.get_mut(usize::from(to)) else {
            return Err("member".into());
        };
        Ok(tell_outcome(alloc, text, to, member.step(alloc, input))?)
    }

    /// What is sent waits to be delivered.
    fn keep(&mut self, sends: Vec<Frame>) -> Result<(), Fail> {
        for frame in sends {
            self.sent.push(Sent { frame, waits: true })?;
        }
        Ok(())
    }

    /// The frame of this number, which waits no more, where there is one: its envelope.
    fn open(&mut self, alloc: Global, at: usize) -> Result<Option<Envelope>, Fail> {
        let Some(sent) = self.sent.get_mut(at) else {
            return Ok(None);
        };
        sent.waits = false;
        Ok(Some(sent.frame.open(alloc)?))
    }

    fn deliver(&mut self, alloc: Global, text: &mut String, at: usize) -> Result<(), Fail> {
        let envelope = self.open(alloc, at)?.ok_or("frame")?;
        let to = envelope.to.value();
        self.give(alloc, text, to, Input::Message(envelope))
    }

    fn waits(&self, at: usize) -> bool {
        match self.sent.get(at) {
            Some(sent) => sent.waits,
            None => false,
        }
    }

    fn flush(&mut self, alloc: Global, text: &mut String) -> Result<(), Fail> {
        for at in 0..MOST_FLUSHED {
            if self.waits(at) {
                self.pass_on(alloc, text, at)?;
            }
        }
        if self.sent.len() > MOST_FLUSHED {
            return Err("more frames".into());
        }
        Ok(())
    }

    /// Delivers a frame, and doesn't tell what is sent then.
    fn pass_on(&mut self, alloc: Global, text: &mut String, at: usize) -> Result<(), Fail> {
        let envelope = self.open(alloc, at)?.ok_or("frame")?;
        let to = envelope.to.value();
        let sends = self.hear(alloc, text, to, Input::Message(envelope))?;
        self.keep(sends)
    }

    /// A step of one number.
    fn act(
        &mut self,
        alloc: Global,
        text: &mut String,
        word: &str,
        step: &str,
        at: u64,
    ) -> Result<(), Fail> {
        match word {
            "timeout" => self.give(alloc, text, small(at), Input::Timeout),
            "tick" => self.give(alloc, text, small(at), Input::Tick),
            "checkpoint" => self.give(alloc, text, small(at), Input::Checkpoint),
            "trim" => self.give(alloc, text, small(at), Input::Trim),
            "deliver" => self.deliver(alloc, text, at as usize),
            "lose" => self.lose(at as usize),
            _ => handle(alloc, text, small(at), self.member(small(at))?, word, step),
        }
    }

    fn lose(&mut self, at: usize) -> Result<(), Fail> {
        self.sent.get_mut(at).ok_or("frame")?.waits = false;
        Ok(())
    }

    /// A node is handed a message: what it tells.
    pub fn hand(
        &mut self,
        alloc: Global,
        from: u8,
        to: u8,
        message: Message,
    ) -> Result<String, Fail> {
        let (from, receiver) = (node_id(from)?, node_id(to)?);
        let envelope = Envelope {
            from,
            to: receiver,
            message,
        };
        let mut text = String::new(alloc);
        self.give(alloc, &mut text, to, Input::Message(envelope))?;
        Ok(text)
    }

    /// The node of this number.
    pub fn member(&mut self, to: u8) -> Result<&mut Member, Fail> {
        let member = self.members.get_mut(usize::from(to)).ok_or("member")?;
        Ok(member)
    }
}

/// Tells what a node does on an input: what it sends.
fn tell_outcome(
    alloc: Global,
    text: &mut String,
    node: u8,
    outcome: Result<Outputs, NodeFault>,
) -> Result<Vec<Frame>, AllocError> {
    match outcome {
        Ok(outputs) => tell_outputs(text, node, outputs),
        Err(fault) => {
            tell_fault(text, node, fault)?;
            Ok(Vec::new(alloc))
        }
    }
}

fn tell_outputs(text: &mut String, node: u8, outputs: Outputs) -> Result<Vec<Frame>, AllocError> {
    tell_done(text, node, &outputs)?;
    let Outputs { sends, .. } = outputs;
    Ok(sends)
}

/// Tells at which position a node is restored, what it learns, and what it replies.
fn tell_done(text: &mut String, node: u8, outputs: &Outputs) -> Result<(), AllocError> {
    if let Some(position) = outputs.restored {
        tell_restored(text, node, position)?;
    }
    if let Some(entry) = &outputs.learnt {
        tell_learnt(text, node, entry)?;
    }
    tell_replies(text, node, outputs.replies.as_slice())
}

/// Arms, restarts or asks a node, and tells it.
fn handle(
    alloc: Global,
    text: &mut String,
    of: u8,
    member: &mut Member,
    word: &str,
    step: &str,
) -> Result<(), Fail> {
    match word {
        "arm" => {
            member.arm(if step.ends_with("old") {
                Failing::Old
            } else {
                Failing::New
            });
            Ok(())
        }
        "restart" => {
            let result = member.restart(alloc);
            Ok(tell_restart(text, of, result)?)
        }
        "count" => tell_count(alloc, text, of, member),
        "look" => Ok(tell_seen(text, of, member)?),
        _ => Err("a step".into()),
    }
}

/// What is told of a restart: nothing where it succeeds.
fn tell_restart(
    text: &mut String,
    of: u8,
    outcome: Result<(), NodeFault>,
) -> Result<(), AllocError> {
    match outcome {
        Ok(()) => Ok(()),
        Err(fault) => tell_fault(text, of, fault),
    }
}

/// How many features a node has.
fn tell_count(alloc: Global, text: &mut String, of: u8, member: &Member) -> Result<(), Fail> {
    match member.query(alloc, &Query::Count) {
        Ok((position, answer)) => {
            let answer = str::from_utf8(answer.as_bytes())?;
            write!(text, "answer {of} {position} {answer}")?;
            Ok(())
        }
        Err(fault) => Ok(tell_fault(text, of, fault)?),
    }
}

/// What is seen of a node from outside.
fn tell_seen(text: &mut String, of: u8, member: &Member) -> Result<(), AllocError> {
    let stands = if member.is_up() { "up" } else { "down" };
    let position = member.position();
    write!(text, "{of} {stands} {position}")?;
    tell_writes(text, member.writes())
}

/// The operation that puts a feature at so many instants, a millisecond apart.
pub fn ride(alloc: Global, name: &[u8], instants: u64) -> Result<Op, Fail> {
    let id = Id::new(name).ok_or("id")?;
    let mut points = Vec::new(alloc);
    for ms in 0..instants.min(1000) as u16 {
        let t = Instant::new(i64::from(ms)).ok_or("instant")?;
        points.push(Point { t, x: 0, y: 0 })?;
    }
    Ok(Op::Put(id, Seq::new(Interp::Step, points)?))
}
