//! What a process is joined to the other nodes by.

ghost use Rattle.std.specs.Prelude.{◌≡◌, ◌++◌, List};
ghost use Rattle.serving.specs.Tapes.{Carried, came_in, sent_in};

use std::alloc::{AllocError, Global};
use wire::NodeId;

/// What carries packets between this node and the others. It may lose, repeat, reorder and delay them. What comes was sealed under
/// the run's key.
///
/// Its meaning is a tape, and whether it tells. One that tells lists whatever is sent and comes, in the order of the calls. One that
/// tells no more never tells again, and its tape stays as it is: what is missing is missing at the end.
pub trait Network {
    /// What was sent and what came, the oldest first.
    ghost tape: { Self → List Carried };

    /// The tape is true.
    ghost Tells: { Self → Type 0 };

    /// Sends the bytes to a node. Where they can't be sent they are lost. After an error none of them is sent.
    fn send(&mut self, alloc: Global, to: NodeId, bytes: &[u8]) -> Result<(), AllocError>
        ensures tape { Tells self.new → tape self.new ≡ tape self.old ++ sent_in to bytes.now result }
        ensures told { Tells self.new → Tells self.old }
        ensures kept { ¬ Tells self.new → tape self.new ≡ tape self.old };

    /// What has come, or None where nothing has.
    fn poll(&mut self, alloc: Global) -> Result<Option<Vec<u8>>, AllocError>
        ensures tape { Tells self.new → tape self.new ≡ tape self.old ++ came_in result }
        ensures told { Tells self.new → Tells self.old }
        ensures kept { ¬ Tells self.new → tape self.new ≡ tape self.old };
}
