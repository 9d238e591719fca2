//! A work, and where the bytes stand that it is done on.

/// What is done with the bytes of a source.
#[derive(Clone, Copy, Debug, PartialEq, Eq)]
pub enum Work {
    /// The schedule is run, and its transcript printed.
    Replay,
    /// The schedule is run over UDP sockets of 127.0.0.1, and its transcript printed, and how many datagrams were strangers.
    Loopback,
    /// The document is read, and its canonical form printed.
    Check,
}

/// Where the bytes stand.
#[derive(Drop)]
pub enum Source<'a> {
    /// On standard input.
    Input,
    /// In the file of this name.
    File(&'a str),
}

/// What the words ask for.
#[derive(Drop)]
pub struct Job<'a> {
    pub work: Work,
    pub source: Source<'a>,
    /// The folder in which a replay keeps its nodes' records, each node's in a file; None where they are kept in memory.
    pub folder: Option<&'a str>,
}
