//! What a line of a schedule asks for.

use super::members::Members;
use events::Event;
use wire::NodeId;

/// What is done at one line.
#[derive(Drop)]
pub enum Action {
    /// This event happens.
    Step(Event),
    /// Frames are delivered until none waits.
    Flush,
    /// This node leads a round of these members by hand.
    Round { node: NodeId, members: Members },
}
