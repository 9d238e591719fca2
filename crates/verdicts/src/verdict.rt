//! What is found.

use crate::lines::Place;

/// Why a line contradicts those before it.
#[derive(Clone, Copy, Debug, PartialEq, Eq)]
pub enum Why {
    /// It tells another command for a slot.
    TwoCommands,
    /// No `submit` line spells its request.
    NotSubmitted,
    /// The request has no such reply at any slot.
    OtherReply,
    /// No query of this node is answered so at this position.
    OtherAnswer,
    /// It is no line of a transcript.
    Foreign,
}

/// Whether a list of commands explains the lines of transcripts.
#[derive(Clone, Copy, Debug, PartialEq, Eq)]
pub enum Verdict {
    /// Some list explains all lines.
    Explained,
    /// No list explains the lines up to this one, and one explains those before.
    Contradicted { place: Place, why: Why },
    /// A line needs this slot, the first of which no line tells what was learnt there. Some list explains the lines `learn`, and no more
    /// is claimed.
    UnlearntSlot(usize),
    /// This request was learnt, and is submitted with two operations. More than 65,536 choices among such operations were tried, and
    /// some are left. No more is claimed.
    TwoOperations { client: u8, number: u64 },
}
