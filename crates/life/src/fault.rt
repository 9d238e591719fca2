//! Why a life doesn't do what it is asked.

ghost use Rattle.std.specs.Prelude.{◌≡◌};
ghost use Rattle.life.specs.declared.fault.LifeFault.TheVariants as life_fault;

use node_model::NodeFault;
use std::alloc::AllocError;
use thiserror::Error;

/// Why a life doesn't do what it is asked.
#[derive(Clone, Copy, Debug, Drop, PartialEq, Eq, Error)]
pub enum LifeFault {
    /// Memory for what the node might tell, or for opening a frame, was refused. Nothing happened.
    #[error("out of memory")]
    Memory,
    /// The node refused, or went down.
    #[error("{0}")]
    Node(NodeFault),
}

impl From<AllocError> for LifeFault {
    ghost from_gives = { λ _ fault. fault ≡ life_fault.Memory };

    fn from(_: AllocError) -> LifeFault {
        LifeFault::Memory
    }
}

impl From<NodeFault> for LifeFault {
    ghost from_gives = { λ given fault. fault ≡ life_fault.Node given };

    fn from(fault: NodeFault) -> LifeFault {
        LifeFault::Node(fault)
    }
}
