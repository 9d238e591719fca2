//! Why a node does not do what it is asked.

ghost use Rattle.std.specs.Prelude.{◌≡◌};
ghost use Rattle.node_model.specs.Faults.{node_code, is_stop_fault, of_storage, of_submit, of_timeout};
ghost use Rattle.node_model.specs.declared.fault.NodeFault.TheVariants as node_fault;

use proposer::{SubmitFault, TimeoutFault};
use sessions::TooLong;
use stable::StableFault;
use std::alloc::AllocError;
use std::error::Error;
use std::fmt;

/// Why a node refuses an input, or goes down on it.
#[derive(Clone, Copy, Debug, PartialEq, Eq)]
pub enum NodeFault {
    /// The node is down.
    Down,
    /// The whole log is executed.
    LogFull,
    /// No round is left for a campaign.
    RoundsUsedUp,
    /// As many requests wait as may.
    QueueFull,
    /// A sequence to be put has more instants than a request may have.
    TooLong,
    /// Nothing was executed since the last checkpoint.
    NothingNew,
    /// The storage failed. The node is down from then on.
    Device,
    /// A growth was refused. The node is down from then on, but for a query, which leaves it as it was.
    Memory,
    /// A record isn't of its form. The node is down from then on.
    Damaged,
}

impl NodeFault {
    /// The number under which it is told.
    pub fn code(self) -> u8
        ensures { result ≡ node_code self }
    {
        match self {
            NodeFault::Down => 41,
            NodeFault::LogFull => 42,
            NodeFault::RoundsUsedUp => 43,
            NodeFault::QueueFull => 44,
            NodeFault::TooLong => 45,
            NodeFault::Device => 46,
            NodeFault::Memory => 47,
            NodeFault::Damaged => 48,
            NodeFault::NothingNew => 49,
        }
    }

    /// Whether the node goes down with it.
    pub fn is_stop(self) -> bool
        ensures { result ≡ is_stop_fault self }
    {
        match self {
            NodeFault::Device | NodeFault::Memory | NodeFault::Damaged => true,
            _ => false,
        }
    }
}

impl fmt::Display for NodeFault {
    ghost use Rattle.std.specs.Prelude.{Some};
    ghost use Rattle.node_model.specs.Faults.{fault_text};

    ghost output = { λ fault. Some (fault_text fault) };

    fn fmt<W: fmt::Write>(&self, f: &mut fmt::Formatter<W>) -> fmt::Result {
        f.write_str(match self {
            NodeFault::Down => "the node is down",
            NodeFault::LogFull => "the whole log is executed",
            NodeFault::RoundsUsedUp => "no round is left",
            NodeFault::QueueFull => "as many requests wait as may",
            NodeFault::TooLong => "the sequence is too long for a request",
            NodeFault::NothingNew => "nothing was executed since the last checkpoint",
            NodeFault::Device => "the storage failed",
            NodeFault::Memory => "out of memory",
            NodeFault::Damaged => "a record is damaged",
        })
    }
}

impl Error for NodeFault {}

impl From<StableFault> for NodeFault {
    ghost from_gives = { λ given fault. fault ≡ of_storage given };

    fn from(fault: StableFault) -> NodeFault {
        match fault {
            StableFault::Device => NodeFault::Device,
            StableFault::Memory => NodeFault::Memory,
            StableFault::Damaged => NodeFault::Damaged,
        }
    }
}

impl From<SubmitFault> for NodeFault {
    ghost from_gives = { λ given fault. fault ≡ of_submit given };

    fn from(fault: SubmitFault) -> NodeFault {
        match fault {
            SubmitFault::QueueFull => NodeFault::QueueFull,
            SubmitFault::Memory => NodeFault::Memory,
        }
    }
}

impl From<TimeoutFault> for NodeFault {
    ghost from_gives = { λ given fault. fault ≡ of_timeout given };

    fn from(fault: TimeoutFault) -> NodeFault {
        match fault {
            TimeoutFault::RoundsUsedUp => NodeFault::RoundsUsedUp,
            TimeoutFault::Device => NodeFault::Device,
            TimeoutFault::Memory => NodeFault::Memory,
        }
    }
}

impl From<TooLong> for NodeFault {
    ghost from_gives = { λ _ fault. fault ≡ node_fault.TooLong };

    fn from(_: TooLong) -> NodeFault {
        NodeFault::TooLong
    }
}

impl From<AllocError> for NodeFault {
    ghost from_gives = { λ _ fault. fault ≡ node_fault.Memory };

    fn from(_: AllocError) -> NodeFault {
        NodeFault::Memory
    }
}
