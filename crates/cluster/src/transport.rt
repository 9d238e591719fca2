//! What carries frames from node to node.

ghost use Rattle.std.specs.Prelude.{◌≡◌, ◌++◌, ◌∷◌, [], List};
ghost use Rattle.cluster.specs.Passages.{Passage, Sent, Polled, handed_over};

use std::alloc::{AllocError, AllocFailed, Global};
use std::error::Error;
use std::fmt;
use wire::NodeId;

/// A transport could not do what it was asked. What was to be sent is lost; what was polled is nothing.
#[derive(Clone, Copy, Debug, PartialEq, Eq)]
pub struct TransportFault;

impl fmt::Display for TransportFault {
    ghost use Rattle.std.specs.Prelude.{Some, codes};

    ghost output = { λ _. Some (codes "the transport failed") };

    fn fmt<W: fmt::Write>(&self, f: &mut fmt::Formatter<W>) -> fmt::Result {
        f.write_str("the transport failed")
    }
}

impl Error for TransportFault {}

impl From<AllocError> for TransportFault {
    fn from(_fault: AllocError) -> TransportFault {
        TransportFault
    }
}

impl<T: Drop> From<AllocFailed<T>> for TransportFault {
    fn from(_fault: AllocFailed<T>) -> TransportFault {
        TransportFault
    }
}

/// What carries datagrams between the nodes of a run. It may lose, repeat, reorder, cut, delay and invent them: nothing is
/// assumed of what a poll hands over.
///
/// Its meaning is a tape, and whether it tells. A transport that tells lists on its tape whatever is sent and polled, in the
/// order of the calls, and also where these fail. One that tells no more never tells again, and its tape stays as it is: what
/// is missing is missing at the end.
pub trait Transport {
    /// What was sent and polled, the oldest first.
    ghost tape: { Self → List Passage };

    /// The tape is true.
    ghost Tells: { Self → Type 0 };

    /// Sends the bytes from one node to another.
    fn send(
        &mut self,
        alloc: Global,
        from: NodeId,
        to: NodeId,
        bytes: &[u8],
    ) -> Result<(), TransportFault>
        ensures tape { Tells self.new → tape self.new ≡ tape self.old ++ Sent from to bytes.now ∷ [] }
        ensures told { Tells self.new → Tells self.old }
        ensures kept { ¬ Tells self.new → tape self.new ≡ tape self.old };

    /// A datagram that has come to the node, or None where none has.
    fn poll(&mut self, alloc: Global, node: NodeId) -> Result<Option<Vec<u8>>, TransportFault>
        ensures tape { Tells self.new → tape self.new ≡ tape self.old ++ Polled node (handed_over result) ∷ [] }
        ensures told { Tells self.new → Tells self.old }
        ensures kept { ¬ Tells self.new → tape self.new ≡ tape self.old };
}
