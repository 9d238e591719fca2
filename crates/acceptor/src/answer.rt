//! What an acceptor answers.

use sessions::Command;
use synod::Vote;
use wire::{Nack, Position, Promise, SharedCommand};

/// An acceptor's answer to a prepare or an accept.
#[derive(Drop)]
pub enum Answer {
    /// The ballot is promised.
    Promise(Promise),
    /// The vote is cast.
    Accepted(Vote<SharedCommand>),
    /// A greater ballot is promised.
    Nack(Nack),
    /// The slot is below this floor, from which on the acceptor speaks.
    Behind(Position),
}
