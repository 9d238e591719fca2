//! Why nothing more is shown.

ghost use Rattle.std.specs.Prelude.{◌≡◌};
ghost use Rattle.mfpxview.specs.declared.failure.Failure.TheVariants.{Memory};

use std::alloc::{AllocError, AllocFailed};
use thiserror::Error;

/// Why nothing more is shown: what the program's surroundings don't give.
#[derive(Clone, Copy, Debug, Drop, PartialEq, Eq, Error)]
pub(crate) enum Failure {
    /// The file or the input can't be read.
    #[error("the file can't be read")]
    Unread,
    /// The file or the output can't be written.
    #[error("the output can't be written")]
    Unwritten,
    /// A frame's number is none.
    #[error("a frame's number is wanted after --from and --to")]
    NoNumber,
    /// A datetime is none.
    #[error("a datetime such as 2020-01-01T08:00:00Z is wanted after --at")]
    NoDatetime,
    /// A node's number is none.
    #[error("a node's number is wanted after --node")]
    NoNode,
    /// More than one of the files is standard input.
    #[error("standard input can be read once")]
    InputTwice,
    /// A growth was refused.
    #[error("out of memory")]
    Memory,
}

/// The file at which it ends, and why.
#[derive(Clone, Copy)]
pub(crate) struct FileFailure<'a> {
    pub file: &'a str,
    pub failure: Failure,
}

impl From<AllocError> for Failure {
    ghost from_gives = { λ _ failure. failure ≡ Memory };

    fn from(_refused: AllocError) -> Failure {
        Failure::Memory
    }
}

impl<T: Drop> From<AllocFailed<T>> for Failure {
    ghost from_gives = { λ _ failure. failure ≡ Memory };

    fn from(_refused: AllocFailed<T>) -> Failure {
        Failure::Memory
    }
}
