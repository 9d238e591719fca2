//! Answers to a client.

ghost use Rattle.std.specs.Prelude.{◌≡◌, ◌++◌, IfOk, OnOk};
ghost use Rattle.clients.specs.AnswerLines.{answer_line, status_line, text_line};

use std::alloc::Global;
use std::fmt;
use std::io::{self, Write};

/// How far a node is.
#[derive(Clone, Copy, Debug, PartialEq, Eq)]
pub struct Status {
    pub node: u8,
    /// It has executed the slots below this one.
    pub position: u32,
    /// The slots from this one on are those that no node told it of.
    pub horizon: u32,
    /// The node that leads, as far as this one knows.
    pub leader: Option<u8>,
    /// How many requests wait at it.
    pub waiting: u8,
}

/// What a client is told at once, or once its request was executed. `docs/FORMATS.md` has the codes.
#[derive(Clone, Copy, Debug, PartialEq, Eq)]
pub enum ClientAnswer<'a> {
    /// Its request was executed at the slot before this position, and this is the code of the reply.
    Reply {
        client: u8,
        number: u64,
        code: u8,
        position: u32,
    },
    /// Its request was turned away, with this code.
    Refused {
        client: u8,
        number: u64,
        code: u8,
    },
    /// What its query has for an answer at this position.
    Text {
        position: u32,
        text: &'a [u8],
    },
    /// The number of the client's last request that counted, or 0 where none did.
    Last {
        client: u8,
        number: u64,
    },
    /// How far the node is.
    Status(Status),
    /// Its line is none, with this code.
    Fault {
        code: u8,
    },
}

impl<'a> ClientAnswer<'a> {
    /// The line of the answer, with its line feed. An error means that memory ran out.
    pub fn spell(&self, alloc: Global) -> io::Result<Vec<u8>>
        ensures { IfOk result (λ line. line.items ≡ answer_line self.now) }
    {
        let mut line = Vec::new(alloc);
        add_answer(&mut line, self)?;
        Ok(line)
    }
}

fn add_answer(line: &mut Vec<u8>, answer: &ClientAnswer) -> io::Result<()>
    ensures { OnOk result (line.new.items ≡ line.old.items ++ answer_line answer.now) }
{
    match *answer {
        ClientAnswer::Reply {
            client,
            number,
            code,
            position,
        } => writeln!(line, "reply {client}:{number} {code} {position}"),
        ClientAnswer::Refused {
            client,
            number,
            code,
        } => writeln!(line, "refuse {client}:{number} {code}"),
        ClientAnswer::Text { position, text } => add_text(line, position, text),
        ClientAnswer::Last { client, number } => writeln!(line, "last {client} {number}"),
        ClientAnswer::Status(status) => add_status(line, status),
        ClientAnswer::Fault { code } => writeln!(line, "fault {code}"),
    }
}

fn add_text(line: &mut Vec<u8>, position: u32, text: &[u8]) -> io::Result<()>
    ensures { OnOk result (line.new.items ≡ line.old.items ++ text_line position text.now) }
{
    write!(line, "answer {position} ")?;
    line.extend_from_slice(text)?;
    line.push(b'\n')?;
    Ok(())
}

fn add_status(line: &mut Vec<u8>, status: Status) -> io::Result<()>
    ensures { OnOk result (line.new.items ≡ line.old.items ++ status_line status) }
{
    let Status {
        node,
        position,
        horizon,
        leader,
        waiting,
    } = status;
    let leader = Leader { node: leader };
    writeln!(
        line,
        "status node {node} position {position} horizon {horizon} leader {leader} waiting {waiting}"
    )
}

/// The node that leads, or none, as a word of a line.
#[derive(Clone, Copy)]
struct Leader {
    node: Option<u8>,
}

impl fmt::Display for Leader {
    ghost use Rattle.std.specs.Prelude.{Some};
    ghost use Rattle.clients.specs.AnswerLines.{leader_text};

    ghost output = { λ leader. Some (leader_text leader.node) };

    fn fmt<W: fmt::Write>(&self, f: &mut fmt::Formatter<W>) -> fmt::Result {
        match self.node {
            Some(node) => write!(f, "{node}"),
            None => write!(f, "none"),
        }
    }
}
