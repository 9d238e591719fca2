//! What the lines of transcripts tell.

use store::Query;

/// A query that was asked, and the number of the node to which it goes.
#[derive(Clone, Copy)]
pub struct Question {
    pub node: u8,
    pub query: Query,
}

/// Where a line stands.
#[derive(Clone, Copy, Debug, PartialEq, Eq)]
pub struct Place {
    /// In which of the transcripts, counted from 0.
    pub file: usize,
    /// Which of its lines it is, counted from 1.
    pub line: usize,
}

/// What a command is called: its operation isn't told.
#[derive(Clone, Copy, Debug, PartialEq, Eq)]
pub enum Name {
    NoOp,
    Request { client: u8, number: u64 },
}

/// A line `learn`.
#[derive(Clone, Copy)]
pub struct LearnLine {
    pub place: Place,
    pub slot: u32,
    pub name: Name,
}

/// What another line tells.
#[derive(Drop)]
pub enum Told {
    /// `reply`: a request has this reply.
    Reply {
        client: u8,
        number: u64,
        code: u8,
    },
    /// `answer`: the node has answered so at this position.
    Answer {
        node: u8,
        position: u32,
        text: Vec<u8>,
    },
    /// `restore`: a node has gone on at this position.
    Restore {
        position: u32,
    },
    /// One of the lines that say nothing of commands.
    Other,
    /// No line of a transcript.
    Foreign,
}

/// A line that isn't `learn`.
#[derive(Drop)]
pub struct ToldLine {
    pub place: Place,
    pub told: Told,
}
