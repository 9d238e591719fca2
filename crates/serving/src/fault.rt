//! Why a process can't go on.

ghost use Rattle.std.specs.Prelude.{◌≡◌};
ghost use Rattle.serving.specs.declared.fault.TurnFault.TheVariants.{Memory};
ghost use Rattle.serving.specs.Refusals.{IsRefusal};

use life::LifeFault;
use node_model::NodeFault;
use std::alloc::{AllocError, AllocFailed};
use std::io;
use thiserror::Error;

/// Why a process can't go on: it ends, and what it had not handed out is lost.
#[derive(Clone, Copy, Debug, Drop, PartialEq, Eq, Error)]
pub enum TurnFault {
    /// A growth was refused, in the process or in its node.
    #[error("out of memory")]
    Memory,
    /// The node is down.
    #[error("{0}")]
    Node(NodeFault),
}

impl From<AllocError> for TurnFault {
    ghost from_gives = { λ _ fault. fault ≡ Memory };

    fn from(_: AllocError) -> TurnFault {
        TurnFault::Memory
    }
}

impl<T: Drop> From<AllocFailed<T>> for TurnFault {
    ghost from_gives = { λ _ fault. fault ≡ Memory };

    fn from(_: AllocFailed<T>) -> TurnFault {
        TurnFault::Memory
    }
}

// Only the spelling of an answer can fail so, and only for memory.
impl From<io::Error> for TurnFault {
    ghost from_gives = { λ _ fault. fault ≡ Memory };

    fn from(_: io::Error) -> TurnFault {
        TurnFault::Memory
    }
}

/// Whether the node did it: what it refused it with, where it is still up. Where it is down, or out of memory, the process can't go on.
pub(crate) fn refusal(outcome: Result<(), LifeFault>) -> Result<Option<NodeFault>, TurnFault>
    ensures { IsRefusal outcome result }
{
    match outcome {
        Ok(()) => Ok(None),
        Err(LifeFault::Memory) | Err(LifeFault::Node(NodeFault::Memory)) => Err(TurnFault::Memory),
        Err(LifeFault::Node(fault)) => {
            if fault.is_stop() || fault == NodeFault::Down {
                Err(TurnFault::Node(fault))
            } else {
                Ok(Some(fault))
            }
        }
    }
}
