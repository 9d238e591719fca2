//! What is done at a step.

ghost use Rattle.std.specs.Prelude.{◌≡◌};
ghost use Rattle.story.specs.Noting.{deed_of, deed_of_event};

use events::Event;
use schedule::Action;
use wire::NodeId;

/// What is done at a step.
#[derive(Clone, Copy, Debug, PartialEq, Eq)]
pub enum Deed {
    /// A client asks the node for something.
    Submitted(NodeId),
    /// The frame of this number comes.
    Delivered(u64),
    /// The frame of this number waits no more.
    Dropped(u64),
    TimedOut(NodeId),
    Restarted(NodeId),
    /// Anything else that is done to the node: a tick, a checkpoint, a trim, an armed fault, a query, a round by hand.
    Other(NodeId),
    /// Frames are delivered until none waits.
    Flushed,
    /// The run is over, be it by a fault.
    Ended,
}

/// What a line asks for.
pub(crate) fn deed_of(action: &Action) -> Deed
    ensures { result ≡ deed_of action.now }
{
    match action {
        Action::Step(event) => deed_of_event(event),
        Action::Flush => Deed::Flushed,
        Action::Round { node, members: _ } => Deed::Other(*node),
    }
}

/// What is done by an event.
fn deed_of_event(event: &Event) -> Deed
    ensures { result ≡ deed_of_event event.now }
{
    match event {
        Event::Submit { node, .. } => Deed::Submitted(*node),
        Event::Deliver(frame) => Deed::Delivered(*frame),
        Event::Drop(frame) => Deed::Dropped(*frame),
        Event::Timeout(node) => Deed::TimedOut(*node),
        Event::Restart(node) => Deed::Restarted(*node),
        Event::Tick(node) | Event::Checkpoint(node) | Event::Trim(node) => Deed::Other(*node),
        Event::Fault(node, _) => Deed::Other(*node),
        Event::Query(node, _) => Deed::Other(*node),
    }
}
