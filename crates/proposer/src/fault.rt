//! Why a proposer did not do what it was asked.

use stable::StableFault;
use std::alloc::{AllocError, AllocFailed};
use std::error::Error;
use std::fmt;

/// Why a request was turned away. Nothing changed.
#[derive(Clone, Copy, Debug, PartialEq, Eq)]
pub enum SubmitFault {
    /// `MOST_WAITING` requests wait, and this is none of them.
    QueueFull,
    /// A growth was refused.
    Memory,
}

impl fmt::Display for SubmitFault {
    ghost use Rattle.std.specs.Prelude.{Some};
    ghost use Rattle.proposer.specs.Faults.{submit_text};

    ghost output = { λ fault. Some (submit_text fault) };

    fn fmt<W: fmt::Write>(&self, f: &mut fmt::Formatter<W>) -> fmt::Result {
        f.write_str(match self {
            SubmitFault::QueueFull => "as many requests wait as may",
            SubmitFault::Memory => "out of memory",
        })
    }
}

impl Error for SubmitFault {}

impl<T: Drop> From<AllocFailed<T>> for SubmitFault {
    ghost use Rattle.std.specs.Prelude.{◌≡◌};
    ghost use Rattle.proposer.specs.declared.fault.SubmitFault.TheVariants.{Memory};

    ghost from_gives = { λ _ fault. fault ≡ Memory };

    fn from(_: AllocFailed<T>) -> SubmitFault {
        SubmitFault::Memory
    }
}

/// Why no campaign was started.
#[derive(Clone, Copy, Debug, PartialEq, Eq)]
pub enum TimeoutFault {
    /// No round is left that was never used. Nothing changed.
    RoundsUsedUp,
    /// The device failed: only another load tells which round is the last.
    Device,
    /// A growth was refused. Nothing was written or changed.
    Memory,
}

impl fmt::Display for TimeoutFault {
    ghost use Rattle.std.specs.Prelude.{Some};
    ghost use Rattle.proposer.specs.Faults.{timeout_text};

    ghost output = { λ fault. Some (timeout_text fault) };

    fn fmt<W: fmt::Write>(&self, f: &mut fmt::Formatter<W>) -> fmt::Result {
        f.write_str(match self {
            TimeoutFault::RoundsUsedUp => "no round is left",
            TimeoutFault::Device => "the device failed",
            TimeoutFault::Memory => "out of memory",
        })
    }
}

impl Error for TimeoutFault {}

impl From<AllocError> for TimeoutFault {
    ghost use Rattle.std.specs.Prelude.{◌≡◌};
    ghost use Rattle.proposer.specs.declared.fault.TimeoutFault.TheVariants.{Memory};

    ghost from_gives = { λ _ fault. fault ≡ Memory };

    fn from(_: AllocError) -> TimeoutFault {
        TimeoutFault::Memory
    }
}
