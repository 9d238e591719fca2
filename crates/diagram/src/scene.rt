//! What is drawn.

use super::arrows::Passage;
use wire::{Frame, NodeId};

/// A sign on the lane of a node.
#[derive(Clone, Copy, Debug, PartialEq, Eq)]
pub enum Sign {
    Submitted,
    TimedOut,
    Learnt,
    Replied,
    Answered,
    /// A frame came while the node was down.
    Lost,
    Refused,
    Stopped,
    Restarted,
    Restored,
    /// Anything else that is done to a node.
    Other,
}

/// Something that happened at a node at a step: a short note stands beside its sign, and its title tells it.
#[derive(Drop)]
pub struct Mark {
    pub step: usize,
    pub node: NodeId,
    pub sign: Sign,
    pub note: Vec<u8>,
    pub title: Vec<u8>,
}

/// A line of the schedule, and the step at which it begins.
#[derive(Drop)]
pub struct Label {
    pub step: usize,
    pub text: Vec<u8>,
}

/// A run to be drawn. `waiting` and `passages` have an entry for each frame; `marks` and `labels` are in the order of the steps.
#[derive(Clone, Copy)]
pub struct Scene<'a> {
    pub nodes: u8,
    /// How many steps the run has.
    pub steps: usize,
    pub frames: &'a [Frame],
    pub waiting: &'a [bool],
    pub passages: &'a [Passage],
    pub marks: &'a [Mark],
    pub labels: &'a [Label],
}
