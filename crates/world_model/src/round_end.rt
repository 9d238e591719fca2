//! How a round by hand ends.

use super::packed_ballot::PackedBallot;
use node_model::NodeFault;
use synod::Slot;
use wire::NodeId;

/// How a round by hand ended.
#[derive(Clone, Copy, Debug, PartialEq, Eq)]
pub enum RoundEnd {
    /// The members have a repeat, or the node isn't one of them, or they are no majority. Nothing was done.
    NotAQuorum,
    /// The lowest member that is down. Nothing was done.
    Down(NodeId),
    /// The lowest member whose acceptor may not speak of the node's position any more, as its floor is above it. All are up, and
    /// nothing was done.
    Behind(NodeId),
    /// The node refused to begin a campaign, as its log is full or its rounds are used up. Nothing was done.
    Refused(NodeFault),
    /// A member went down on the way, which ended the round at once.
    Stopped(NodeId),
    /// Some members had promised more. This is the greatest promise that they told.
    TooLow(PackedBallot),
    /// All that was sent has come. The slot is the position at which the node began.
    Decided(Slot),
}
