//! Why the program stops.

ghost use Rattle.std.specs.Prelude.{◌≡◌};
ghost use Rattle.mfpxd.specs.Stops.{status_of};
ghost use Rattle.mfpxd.specs.declared.stop.Stop.TheVariants as stop;
ghost use Rattle.serving.specs.declared.fault.TurnFault.TheVariants as turn_fault;

use crate::refusal::Refusal;
use serving::TurnFault;
use stable::StableFault;
use std::alloc::{AllocError, AllocFailed};
use std::{fmt, io};

/// Why the program stops.
#[derive(Drop)]
pub enum Stop {
    /// What it was given is refused.
    Refused(Refusal),
    /// A file, a socket or the clock failed.
    Device(io::Error),
    /// The records can't be opened.
    Records(StableFault),
    /// The node went down, or memory ran out.
    Turn(TurnFault),
}

impl Stop {
    /// The exit status.
    pub fn status(&self) -> u8
        ensures { result ≡ status_of self.now }
    {
        match self {
            Stop::Refused(_) => 2,
            _ => 3,
        }
    }
}

impl fmt::Display for Stop {
    fn fmt<W: fmt::Write>(&self, f: &mut fmt::Formatter<W>) -> fmt::Result {
        match self {
            Stop::Refused(refusal) => write!(f, "{refusal}"),
            Stop::Device(error) => write!(f, "{error}"),
            Stop::Records(fault) => write!(f, "the records: {fault}"),
            Stop::Turn(fault) => write!(f, "{fault}"),
        }
    }
}

impl From<Refusal> for Stop {
    ghost from_gives = { λ given why. why ≡ stop.Refused given };

    fn from(refusal: Refusal) -> Stop {
        Stop::Refused(refusal)
    }
}

impl From<io::Error> for Stop {
    ghost from_gives = { λ given why. why ≡ stop.Device given };

    fn from(error: io::Error) -> Stop {
        Stop::Device(error)
    }
}

impl From<StableFault> for Stop {
    ghost from_gives = { λ given why. why ≡ stop.Records given };

    fn from(fault: StableFault) -> Stop {
        Stop::Records(fault)
    }
}

impl From<TurnFault> for Stop {
    ghost from_gives = { λ given why. why ≡ stop.Turn given };

    fn from(fault: TurnFault) -> Stop {
        Stop::Turn(fault)
    }
}

impl From<AllocError> for Stop {
    ghost from_gives = { λ _ why. why ≡ stop.Turn turn_fault.Memory };

    fn from(_: AllocError) -> Stop {
        Stop::Turn(TurnFault::Memory)
    }
}

impl<T: Drop> From<AllocFailed<T>> for Stop {
    ghost from_gives = { λ _ why. why ≡ stop.Turn turn_fault.Memory };

    fn from(_: AllocFailed<T>) -> Stop {
        Stop::Turn(TurnFault::Memory)
    }
}
