//! Why a world does not do what it is asked.

ghost use Rattle.std.specs.Prelude.{◌≡◌};
ghost use Rattle.events.specs.Faults.{world_code};
ghost use Rattle.events.specs.declared.fault.WorldFault.TheVariants as world_fault;

use std::alloc::{AllocError, AllocFailed};
use std::error::Error;
use std::fmt;

/// Why a world does not do what it is asked. A step leaves it as it was; what a flush has delivered stays delivered.
#[derive(Clone, Copy, Debug, PartialEq, Eq)]
pub enum WorldFault {
    /// No frame of this number was sent.
    NoSuchFrame,
    /// The run has no such node.
    NoSuchNode,
    /// As many frames were delivered as one flush may, and one still waits. They stay delivered.
    FlushLimit,
    /// A growth was refused.
    Memory,
    /// A storage over which the run was to begin holds a record, or can't tell that it holds none.
    NotEmpty,
}

impl WorldFault {
    /// The number under which it is told.
    pub fn code(self) -> u8
        ensures { result ≡ world_code self }
    {
        match self {
            WorldFault::NoSuchFrame => 51,
            WorldFault::NoSuchNode => 52,
            WorldFault::FlushLimit => 53,
            WorldFault::Memory => 54,
            WorldFault::NotEmpty => 55,
        }
    }
}

impl fmt::Display for WorldFault {
    ghost use Rattle.std.specs.Prelude.{Some};
    ghost use Rattle.events.specs.Faults.{fault_text};

    ghost output = { λ fault. Some (fault_text fault) };

    fn fmt<W: fmt::Write>(&self, f: &mut fmt::Formatter<W>) -> fmt::Result {
        f.write_str(match self {
            WorldFault::NoSuchFrame => "no frame of this number was sent",
            WorldFault::NoSuchNode => "the run has no such node",
            WorldFault::FlushLimit => "a frame still waits after the most that a flush delivers",
            WorldFault::Memory => "out of memory",
            WorldFault::NotEmpty => "a storage holds a record already",
        })
    }
}

impl Error for WorldFault {}

impl From<AllocError> for WorldFault {
    ghost from_gives = { λ _ fault. fault ≡ world_fault.Memory };

    fn from(_fault: AllocError) -> WorldFault {
        WorldFault::Memory
    }
}

impl<T: Drop> From<AllocFailed<T>> for WorldFault {
    ghost from_gives = { λ _ fault. fault ≡ world_fault.Memory };

    fn from(_fault: AllocFailed<T>) -> WorldFault {
        WorldFault::Memory
    }
}
