//! Why nothing is done.

ghost use Rattle.std.specs.Prelude.{◌≡◌};
ghost use Rattle.conformance.specs.Faults.{status_of, of_document, of_submit, of_wire, of_digits};
ghost use Rattle.conformance.specs.declared.fault.Fault.TheVariants.{Usage, Memory};

use commands::Failure;
use events::WorldFault;
use hex::FromHexError;
use mfjson::MfFault;
use proposer::{SubmitFault, TimeoutFault};
use sessions::TooLong;
use stable::StableFault;
use std::alloc::{AllocError, AllocFailed};
use thiserror::Error;
use tpoint::SeqFault;
use wire::WireFault;

/// Why a task is not done.
#[derive(Clone, Copy, Debug, Drop, Error)]
pub enum Fault {
    /// The words ask for no work, or for one of no points, or of too many things.
    #[error("usage: conformance WORK SIZE ROUNDS, or conformance WORK ROUNDS for a size of 1")]
    Usage,
    /// A growth was refused.
    #[error("out of memory")]
    Memory,
    /// A stream failed.
    #[error("device")]
    Device,
    /// The bytes are no frame, for the fault of this number.
    #[error("fault {0}")]
    Frame(u8),
    /// The bytes are no record of a vote.
    #[error("no vote")]
    Vote,
    /// The text is no document, for this fault and its number.
    #[error("fault {0}: {1}")]
    Document(u8, MfFault),
    /// An example comes to something else than the file beside it.
    #[error("an example")]
    Example,
    /// A file of the examples belongs to none.
    #[error("a file belongs to no example")]
    StrayFile,
}

impl Fault {
    /// The exit status that tells it.
    pub fn status(self) -> u8
        ensures { result ≡ status_of self }
    {
        match self {
            Fault::Frame(_)
            | Fault::Vote
            | Fault::Document(..)
            | Fault::Example
            | Fault::StrayFile => 1,
            Fault::Usage => 2,
            Fault::Memory | Fault::Device => 3,
        }
    }
}

impl From<AllocError> for Fault {
    ghost from_gives = { λ _ fault. fault ≡ Memory };

    fn from(_refused: AllocError) -> Fault {
        Fault::Memory
    }
}

impl<T: Drop> From<AllocFailed<T>> for Fault {
    ghost from_gives = { λ _ fault. fault ≡ Memory };

    fn from(_refused: AllocFailed<T>) -> Fault {
        Fault::Memory
    }
}

// What comes of an example is unknown for want of memory alone.
impl From<Failure> for Fault {
    ghost from_gives = { λ _ fault. fault ≡ Memory };

    fn from(_refused: Failure) -> Fault {
        Fault::Memory
    }
}

impl From<SeqFault> for Fault {
    ghost from_gives = { λ _ fault. fault ≡ Usage };

    fn from(_refused: SeqFault) -> Fault {
        Fault::Usage
    }
}

impl From<TooLong> for Fault {
    ghost from_gives = { λ _ fault. fault ≡ Usage };

    fn from(_refused: TooLong) -> Fault {
        Fault::Usage
    }
}

// A storage in memory fails for want of memory alone.
impl From<StableFault> for Fault {
    ghost from_gives = { λ _ fault. fault ≡ Memory };

    fn from(_refused: StableFault) -> Fault {
        Fault::Memory
    }
}

// So does a campaign over it, as rounds are left.
impl From<TimeoutFault> for Fault {
    ghost from_gives = { λ _ fault. fault ≡ Memory };

    fn from(_refused: TimeoutFault) -> Fault {
        Fault::Memory
    }
}

// A world whose nodes and frames are all there, and whose flushes are short, is refused memory alone.
impl From<WorldFault> for Fault {
    ghost from_gives = { λ _ fault. fault ≡ Memory };

    fn from(_refused: WorldFault) -> Fault {
        Fault::Memory
    }
}

impl From<SubmitFault> for Fault {
    ghost from_gives = { λ refused fault. fault ≡ of_submit refused };

    fn from(refused: SubmitFault) -> Fault {
        match refused {
            SubmitFault::QueueFull => Fault::Usage,
            SubmitFault::Memory => Fault::Memory,
        }
    }
}

impl From<FromHexError> for Fault {
    ghost from_gives = { λ refused fault. fault ≡ of_digits refused };

    fn from(refused: FromHexError) -> Fault {
        match refused {
            FromHexError::OutOfMemory => Fault::Memory,
            _ => Fault::Usage,
        }
    }
}

impl From<WireFault> for Fault {
    ghost from_gives = { λ refused fault. fault ≡ of_wire refused };

    fn from(refused: WireFault) -> Fault {
        match refused {
            WireFault::Memory => Fault::Memory,
            _ => Fault::Frame(refused.code()),
        }
    }
}

impl From<MfFault> for Fault {
    ghost from_gives = { λ refused fault. fault ≡ of_document refused };

    fn from(refused: MfFault) -> Fault {
        match refused {
            MfFault::Memory => Fault::Memory,
            _ => Fault::Document(refused.code(), refused),
        }
    }
}
