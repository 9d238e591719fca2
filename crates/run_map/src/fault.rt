//! Why there is no map.

use schedule::ReplayFault;
use thiserror::Error;

/// Why there is no map.
#[derive(Clone, Copy, Debug, Drop, PartialEq, Eq, Error)]
pub enum MapFault {
    /// The bytes are no schedule, or memory ran out at a line.
    #[error("{0}")]
    Schedule(ReplayFault),
    /// The run has no node of this number.
    #[error("the run has no node {0}")]
    NoSuchNode(u8),
    /// The node of this number is down where the run ends.
    #[error("node {0} is down where the run ends")]
    Down(u8),
    /// Memory ran out as the map was drawn.
    #[error("out of memory")]
    Memory,
}
