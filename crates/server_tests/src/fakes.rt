//! A network and a desk in memory. They record all that passes, and their tapes are these records: over them the theorem of a turn says
//! what a process let out.

ghost use Rattle.std.specs.Prelude.{◌≡◌, IfOk, IsTrue};
ghost use Rattle.serving.specs.Owing.{HasRoom};
ghost use Rattle.serving.specs.Tapes.{heard};
ghost use Rattle.server_tests.specs.Recorded.{talked_by};

use serving::{Came, Desk, Network, Waiting};
use std::alloc::{AllocError, Global};
use std::collections::VecDeque;
use wire::NodeId;

/// A packet that passed.
#[derive(Drop)]
pub enum Packet {
    /// It was sent to a node.
    Sent { to: NodeId, bytes: Vec<u8> },
    /// It came.
    Came { bytes: Vec<u8> },
    /// None had come.
    Nothing,
}

/// What passed between a process and a client.
#[derive(Drop)]
pub enum Said {
    /// The client wrote a line.
    Heard { connection: u64, text: Vec<u8> },
    /// It went.
    Went { connection: u64 },
    /// It was told a text.
    Told { connection: u64, text: Vec<u8> },
    /// No client had done anything that may be read, where lines of these connections waited.
    Nothing { lines: Vec<u64> },
}

/// What came to a node, and what it sent.
#[derive(Drop)]
pub struct Post {
    /// What it has not taken yet.
    pub came: VecDeque<Vec<u8>>,
    /// What is not delivered yet, by receiver.
    pub sent: Vec<(u8, Vec<u8>)>,
    // All that passed, the oldest first, unless memory was once wanting.
    passed: Vec<Packet>,
    is_whole: bool,
}

impl Post {
    /// Nothing passed yet.
    pub fn new(alloc: Global) -> Post {
        Post {
            came: VecDeque::new(alloc),
            sent: Vec::new(alloc),
            passed: Vec::new(alloc),
            is_whole: true,
        }
    }
}

impl Network for Post {
    ghost use Rattle.std.specs.Prelude.{IsTrue, map};
    ghost use Rattle.server_tests.specs.Recorded.{carried_by};

    ghost tape = { λ post. map carried_by post.passed.items };

    ghost Tells = { λ post. IsTrue post.is_whole };

    fn send(&mut self, alloc: Global, to: NodeId, bytes: &[u8]) -> Result<(), AllocError> {
        if !self.is_whole {
            return Err(AllocError);
        }
        // It is whole again once all of it is there.
        self.is_whole = false;
        let packet = Vec::from_slice(alloc, bytes)?;
        self.sent.push((to.value(), packet))?;
        let bytes = Vec::from_slice(alloc, bytes)?;
        self.passed.push(Packet::Sent { to, bytes })?;
        self.is_whole = true;
        Ok(())
    }

    fn poll(&mut self, alloc: Global) -> Result<Option<Vec<u8>>, AllocError> {
        if !self.is_whole {
            return Err(AllocError);
        }
        self.is_whole = false;
        let Some(packet) = self.came.pop_front() else {
            self.passed.push(Packet::Nothing)?;
            self.is_whole = true;
            return Ok(None);
        };
        let bytes = Vec::from_slice(alloc, packet.as_slice())?;
        self.passed.push(Packet::Came { bytes })?;
        self.is_whole = true;
        Ok(Some(packet))
    }
}

/// What clients did, and what they were told.
#[derive(Drop)]
pub struct Counter {
    /// What the process has not heard yet.
    pub came: VecDeque<Came>,
    // All that was heard and told, the oldest first, unless memory was once wanting.
    said: Vec<Said>,
    is_whole: bool,
}

impl Counter {
    /// Nobody came yet.
    pub fn new(alloc: Global) -> Counter {
        Counter {
            came: VecDeque::new(alloc),
            said: Vec::new(alloc),
            is_whole: true,
        }
    }

    /// What the connection was told, one line behind the other.
    pub fn told(&self, alloc: Global, connection: u64) -> Result<Vec<u8>, AllocError> {
        let mut all = Vec::new(alloc);
        for said in self.said.iter() {
            if let Said::Told {
                connection: receiver,
                text,
            } = said
            {
                if *receiver == connection {
                    all.extend_from_slice(text.as_slice())?;
                }
            }
        }
        Ok(all)
    }
}

impl Desk for Counter {
    ghost use Rattle.std.specs.Prelude.{IsTrue, map};
    ghost use Rattle.server_tests.specs.Recorded.{talked_by};

    ghost tape = { λ counter. map talked_by counter.said.items };

    ghost Tells = { λ counter. IsTrue counter.is_whole };

    fn next(&mut self, alloc: Global, waiting: &Waiting) -> Result<Option<Came>, AllocError> {
        if !self.is_whole {
            return Err(AllocError);
        }
        self.is_whole = false;
        let Some(came) = self.came.pop_front() else {
            let lines = waiting.lines(alloc)?;
            self.said.push(Said::Nothing { lines })?;
            self.is_whole = true;
            return Ok(None);
        };
        if has_no_room(&came, waiting) {
            self.came.push_front(came)?;
            let lines = waiting.lines(alloc)?;
            self.said.push(Said::Nothing { lines })?;
            self.is_whole = true;
            return Ok(None);
        }
        let said = said_of(alloc, &came)?;
        self.said.push(said)?;
        self.is_whole = true;
        Ok(Some(came))
    }

    fn tell(&mut self, alloc: Global, connection: u64, text: &[u8]) -> Result<(), AllocError> {
        if !self.is_whole {
            return Err(AllocError);
        }
        self.is_whole = false;
        let text = Vec::from_slice(alloc, text)?;
        self.said.push(Said::Told { connection, text })?;
        self.is_whole = true;
        Ok(())
    }
}

/// Whether it is a line of a connection of which as many wait as may.
fn has_no_room(came: &Came, waiting: &Waiting) -> bool
    ensures { ¬ IsTrue result → HasRoom waiting.now (heard came.now) }
{
    match came {
        Came::Line { connection, .. } => waiting.is_full(*connection),
        Came::Gone { .. } => false,
    }
}

/// What the client did, as it is recorded.
fn said_of(alloc: Global, came: &Came) -> Result<Said, AllocError>
    ensures { IfOk result (λ said. talked_by said ≡ heard came.now) }
{
    match came {
        Came::Line { connection, text } => {
            let text = Vec::from_slice(alloc, text.as_slice())?;
            Ok(Said::Heard {
                connection: *connection,
                text,
            })
        }
        Came::Gone { connection } => Ok(Said::Went {
            connection: *connection,
        }),
    }
}
