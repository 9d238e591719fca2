//! Messages on their way.

use super::message::Message;
use crate::NodeId;

/// The first two bytes of each frame.
pub const MAGIC: u16 = 0x4D50;

/// A frame has at most this many bytes.
pub const LONGEST_FRAME: usize = 60_000;

/// A message on its way from one node to another.
#[derive(Drop)]
pub struct Envelope {
    pub from: NodeId,
    pub to: NodeId,
    pub message: Message,
}
