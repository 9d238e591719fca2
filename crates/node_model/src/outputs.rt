//! What comes of an input.

ghost use Rattle.std.specs.Prelude.{◌≡◌};
ghost use Rattle.node_model.specs.Outputs.{sent, silence};

use sessions::Number;
use std::alloc::Global;
use std::marker::Model;
use synod::Slot;
use wire::{Frame, Position, SharedCommand};

/// At most this many messages are sent on an input: eight proposals to each of seven nodes, and a question to six of them.
pub const MOST_SENDS: usize = 62;

/// A slot that the node newly learnt, and what it holds.
#[derive(Drop)]
pub struct LearntCommand {
    pub slot: Slot,
    pub command: SharedCommand,
}

/// A request that waited at the node was executed, and has this reply. Its position is one more than its slot.
#[derive(Clone, Copy)]
pub struct ReplyOut {
    pub client: u8,
    pub number: Number,
    pub reply: sessions::SessionReply,
    pub position: u32,
}

/// The text of an answer.
#[derive(Drop)]
pub struct AnswerText {
    bytes: Vec<u8>,
}

impl Model for AnswerText {
    ghost use Rattle.std.specs.Prelude.{List, ℕ};

    ghost Value = { List ℕ };

    ghost view = { λ t. t.bytes.items };
}

impl AnswerText {
    /// The text of these bytes.
    pub fn new(bytes: Vec<u8>) -> AnswerText
        ensures { result ≡ bytes.items }
    {
        AnswerText { bytes }
    }

    /// Its bytes.
    pub fn as_bytes(&self) -> &[u8]
        ensures { result.now ≡ self.now }
    {
        self.bytes.as_slice()
    }
}

/// What comes of an input, to be told in this order.
#[derive(Drop)]
pub struct Outputs {
    /// The position of the checkpoint whose text was restored. Then nothing was learnt.
    pub restored: Option<Position>,
    /// What was newly learnt.
    pub learnt: Option<LearntCommand>,
    /// The replies to requests that waited, in the order of their positions.
    pub replies: Vec<ReplyOut>,
    /// What is sent.
    pub sends: Vec<Frame>,
}

impl Model for Outputs {
    ghost use Rattle.node_model.specs.Outputs.{Response};

    ghost Value = { Response };

    ghost view = { λ o. record {
      restored = o.restored;
      learnt = o.learnt;
      replies = o.replies.items;
      sends = o.sends.items;
    } };
}

impl Outputs {
    /// Messages alone.
    pub fn of_frames(alloc: Global, sends: Vec<Frame>) -> Outputs
        ensures { result ≡ sent sends.items }
    {
        Outputs {
            restored: None,
            learnt: None,
            replies: Vec::new(alloc),
            sends,
        }
    }

    /// Nothing comes of it.
    pub fn none(alloc: Global) -> Outputs
        ensures { result ≡ silence }
    {
        Outputs::of_frames(alloc, Vec::new(alloc))
    }
}
