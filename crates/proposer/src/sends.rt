//! What a proposer sends.

use wire::{Message, NodeSet};

/// To whom a message goes, in order of their numbers.
#[derive(Clone, Copy)]
pub enum Recipients {
    /// To every node of the run, the sender included.
    All,
    /// To every node of the run but these.
    Others(NodeSet),
}

/// A message and its recipients.
#[derive(Drop)]
pub struct Outgoing {
    pub to: Recipients,
    pub message: Message,
}
