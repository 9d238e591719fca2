//! What a node has told.

ghost use Rattle.std.specs.Prelude.{◌≡◌};

use std::alloc::Global;
use wire::Frame;
use world_model::{Answered, LearntEntry, Replied};

/// What a node has told, of each kind the oldest first.
#[derive(Drop)]
pub struct Told {
    /// Frames to other nodes.
    pub frames: Vec<Frame>,
    /// What it learnt.
    pub learnt: Vec<LearntEntry>,
    /// The replies to requests that waited there.
    pub replies: Vec<Replied>,
    /// Its answers to queries.
    pub answers: Vec<Answered>,
}

impl Told {
    ghost use Rattle.life.specs.Seen.{lists_of};
    ghost use Rattle.life.specs.Telling.{nothing};

    /// Nothing.
    pub fn nothing(alloc: Global) -> Told
        ensures { lists_of result ≡ nothing }
    {
        Told {
            frames: Vec::new(alloc),
            learnt: Vec::new(alloc),
            replies: Vec::new(alloc),
            answers: Vec::new(alloc),
        }
    }
}
