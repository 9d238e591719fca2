//! A transport in memory.

ghost use Rattle.std.specs.Prelude.{◌≡◌, ◌++◌, ◌∷◌, [], true, IsTrue, IsOk, IfOk, option_map};
ghost use Rattle.cluster.specs.Passages.{Passage, Sent, Polled, handed_over};
ghost use Rattle.cluster.specs.Queues.{passage_of, passages};

use super::transport::{Transport, TransportFault};
use std::alloc::{AllocError, Global};
use std::collections::VecDeque;
use synod::MOST_NODES;
use wire::NodeId;

/// What passed through queues.
#[derive(Drop)]
pub enum Passed {
    /// These bytes were sent from one node to another.
    Sent {
        from: NodeId,
        to: NodeId,
        bytes: Vec<u8>,
    },
    /// The node was polled, and this was handed over.
    Polled {
        node: NodeId,
        datagram: Option<Vec<u8>>,
    },
}

/// A queue for each node, in memory. What its tape tells is promised, as long as it tells, which it does until a growth of the tape is
/// refused. That what is sent comes once, in order, is tested.
pub struct Queues {
    // What is on its way to each node.
    waiting: Vec<VecDeque<Vec<u8>>>,
    tape: Vec<Passed>,
    tells: bool,
}

// By hand, so that a crate that drops one proves nothing of what lies within.
impl Drop for Queues {
    fn drop(self) {
        let Queues {
            waiting,
            tape,
            tells: _,
        } = self;
        drop(waiting);
        drop(tape);
    }
}

impl Queues {
    /// Nothing was sent or polled yet.
    pub fn new(alloc: Global) -> Result<Queues, AllocError>
        ensures empty { IfOk result (λ q. passages q.tape.items ≡ []) }
        ensures tells { IfOk result (λ q. q.tells ≡ true) }
    {
        let mut waiting = Vec::with_capacity(alloc, usize::from(MOST_NODES))?;
        for _ in 0..MOST_NODES {
            waiting.push(VecDeque::new(alloc))?;
        }
        Ok(Queues {
            waiting,
            tape: Vec::new(alloc),
            tells: true,
        })
    }

    /// What was sent and polled, the oldest first; what is missing is missing at the end, where a growth was refused.
    pub fn tape(&self) -> &[Passed]
        ensures { result.now ≡ self.now.tape.items }
    {
        self.tape.as_slice()
    }

    /// Whether nothing is missing on the tape.
    pub fn tells(&self) -> bool
        ensures { result ≡ self.now.tells }
    {
        self.tells
    }

    // What passed goes on the tape, or it tells no more.
    fn tell(&mut self, passed: Result<Passed, AllocError>)
        ensures tape { IsTrue self.new.tells → IfOk passed (λ p. self.new.tape.items ≡ self.old.tape.items ++ p ∷ []) }
        ensures ok { IsTrue self.new.tells → IsOk passed }
        ensures told { IsTrue self.new.tells → IsTrue self.old.tells }
        ensures kept { ¬ IsTrue self.new.tells → self.new.tape.items ≡ self.old.tape.items }
    {
        if !self.tells {
            return;
        }
        match passed {
            Ok(told) => self.tells = self.tape.push(told).is_ok(),
            Err(_) => self.tells = false,
        }
    }

    // What is handed over next.
    fn next(&mut self, node: NodeId) -> Option<Vec<u8>>
        ensures same_tape { self.new.tape.items ≡ self.old.tape.items }
        ensures same { self.new.tells ≡ self.old.tells }
    {
        self.waiting.get_mut(usize::from(node.value()))?.pop_front()
    }
}

impl Transport for Queues {
    ghost tape = { λ q. passages q.tape.items };

    ghost Tells = { λ q. q.tells ≡ true };

    fn send(
        &mut self,
        alloc: Global,
        from: NodeId,
        to: NodeId,
        bytes: &[u8],
    ) -> Result<(), TransportFault> {
        self.tell(sent(alloc, from, to, bytes));
        let Some(queue) = self.waiting.get_mut(usize::from(to.value())) else {
            return Err(TransportFault);
        };
        let datagram = bytes.to_vec(alloc)?;
        queue.push_back(datagram)?;
        Ok(())
    }

    fn poll(&mut self, alloc: Global, node: NodeId) -> Result<Option<Vec<u8>>, TransportFault> {
        let datagram = self.next(node);
        self.tell(polled(alloc, node, &datagram));
        Ok(datagram)
    }
}

/// That the bytes were sent.
fn sent(alloc: Global, from: NodeId, to: NodeId, bytes: &[u8]) -> Result<Passed, AllocError>
    ensures { IfOk result (λ p. passage_of p ≡ Sent from to bytes.now) }
{
    let bytes = bytes.to_vec(alloc)?;
    Ok(Passed::Sent { from, to, bytes })
}

/// That the node was polled.
fn polled(alloc: Global, node: NodeId, datagram: &Option<Vec<u8>>) -> Result<Passed, AllocError>
    ensures { IfOk result (λ p. passage_of p ≡ Polled node (option_map (λ v. v.items) datagram.now)) }
{
    let datagram = match datagram {
        Some(bytes) => Some(bytes.to_vec(alloc)?),
        None => None,
    };
    Ok(Passed::Polled { node, datagram })
}
