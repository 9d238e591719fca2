//! What may happen in a world.

use sessions::Submission;
use stable::Failing;
use store::Query;
use wire::NodeId;

/// One atomic step of a world: one thing comes to one node, or to the network between them.
#[derive(Drop)]
pub enum Event {
    /// A client asks a node for something.
    Submit {
        node: NodeId,
        submission: Submission,
    },
    /// The frame of this number comes to its receiver. It may have come before.
    Deliver(u64),
    /// The frame of this number waits no more. It may still come.
    Drop(u64),
    /// A node's patience ends: it starts a campaign.
    Timeout(NodeId),
    /// A node sends again what may have been lost.
    Tick(NodeId),
    /// A node writes what it has executed as a checkpoint.
    Checkpoint(NodeId),
    /// A node takes out the votes that its checkpoint stands for.
    Trim(NodeId),
    /// A node loses what is not in its records, and starts from these.
    Restart(NodeId),
    /// A node's next put, or the reading with which its next restart begins, fails so.
    Fault(NodeId, Failing),
    /// A node is asked for what its database holds.
    Query(NodeId, Query),
}
