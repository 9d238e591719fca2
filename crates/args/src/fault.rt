//! Why words have no job.

ghost use Rattle.std.specs.Prelude.{◌≡◌};
ghost use Rattle.args.specs.declared.fault.WordsFault.TheVariants.{Memory};

use std::alloc::AllocError;
use thiserror::Error;

/// Why words have no job.
#[derive(Clone, Copy, Debug, Drop, PartialEq, Eq, Error)]
pub enum WordsFault {
    /// They are none of the forms. A call for help or for the version is none either.
    #[error("the words are none of the forms")]
    NoForm,
    /// A growth was refused.
    #[error("memory ran out")]
    Memory,
}

impl From<AllocError> for WordsFault {
    ghost from_gives = { λ _ fault. fault ≡ Memory };

    fn from(_refused: AllocError) -> WordsFault {
        WordsFault::Memory
    }
}
