//! What a world remembers of its run.

use super::round_end::RoundEnd;
use node_model::{AnswerText, NodeFault};
use sessions::{Number, SessionReply, Submission};
use store::Query;
use synod::Slot;
use wire::{NodeId, Position, SharedCommand};

/// A request that a node took.
#[derive(Drop)]
pub struct Submitted {
    pub node: NodeId,
    pub submission: Submission,
}

/// What a node learnt.
#[derive(Drop)]
pub struct LearntEntry {
    pub node: NodeId,
    pub slot: Slot,
    pub command: SharedCommand,
}

/// A reply to a request that waited at a node. Its position is one more than the slot at which it was executed.
#[derive(Clone, Copy)]
pub struct Replied {
    pub node: NodeId,
    pub client: u8,
    pub number: Number,
    pub reply: SessionReply,
    pub position: u32,
}

/// A node's answer to a query: the text, and the position of which it speaks.
#[derive(Drop)]
pub struct Answered {
    pub node: NodeId,
    pub position: u32,
    pub query: Query,
    pub text: AnswerText,
}

/// What came of a step. What was learnt, replied and answered stands in the world's lists, in the order of the steps.
#[derive(Clone, Copy)]
pub enum StepOutcome {
    /// The step was made: how many slots a node learnt by it, and how many requests that waited there have their reply.
    Done {
        learnt: u32,
        replies: u32,
    },
    /// The text of the checkpoint at this position was restored at the node, and so many requests that waited there have their reply.
    Restored {
        node: NodeId,
        position: Position,
        replies: u32,
    },
    /// A query was answered.
    Answered,
    /// A frame came to a node that is down, and was lost.
    Lost,
    /// The node refused, and is as it was.
    Refused(NodeId, NodeFault),
    /// The node went down.
    Stopped(NodeId, NodeFault),
    /// A round of the node by hand is over. Its steps have their outcomes before it.
    Round(NodeId, RoundEnd),
}
