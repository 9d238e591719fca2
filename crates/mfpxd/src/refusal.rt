//! Why the program doesn't begin.

use thiserror::Error;

/// What it was given is refused.
#[derive(Clone, Copy, Debug, Drop, PartialEq, Eq, Error)]
pub enum Refusal {
    #[error("the words can't be read as text")]
    Words,
    #[error("--peers: a run has 3, 5 or 7 nodes")]
    Count,
    #[error("--id: the run has no such node")]
    Id,
    #[error("an address is none: HOST:PORT is wanted")]
    Address,
    #[error("an address names no machine")]
    Machine,
    #[error("the key: there is no such file")]
    NoKey,
    #[error("the key: others than its owner may use the file")]
    SharedKey,
    #[error("the key: a name of 16 bytes and a key of 32 or more are wanted")]
    ShortKey,
    #[error("--new: there is a database already; it is second-hand")]
    SecondHand,
    #[error("--new: there is an identity already; its database is missing")]
    SecondStart,
    #[error("a first start was cut off before it made a database: start with --new once more")]
    CutOff,
    #[error("--new: a first start was cut off, but its database is there: start without --new")]
    Made,
    #[error("the identity beside the database is missing; --new is for a first start alone")]
    NoIdentity,
    #[error("the database is missing: without it this node must not start again")]
    NoDatabase,
    #[error("the database is foreign: it is of another run, node or number of nodes")]
    Foreign,
    #[error("the records can't be loaded: the database is damaged")]
    Damaged,
}
