//! What the faults of words are to the program.

ghost use Rattle.std.specs.Prelude.{◌≡◌, ◌≢◌, ◌⊎◌};
ghost use Rattle.std.specs.IoError.{error_kind};
ghost use Rattle.cli.specs.Words.{failure_of};

use args::WordsFault;
use commands::Failure;
use std::io::{self, ErrorKind};

/// What words that have no job are to the program.
pub(crate) fn words_failure(fault: WordsFault) -> Failure
    ensures { result ≡ failure_of fault }
{
    match fault {
        WordsFault::NoForm => Failure::Usage,
        WordsFault::Memory => Failure::Memory,
    }
}

/// What words that can't be had are to the program: those that are no text are none of its forms.
pub(crate) fn args_failure(error: &io::Error) -> Failure
    ensures memory { error_kind error.now ≡ ErrorKind.OutOfMemory → result ≡ Failure.Memory }
    ensures usage { error_kind error.now ≢ ErrorKind.OutOfMemory → result ≡ Failure.Usage }
    ensures either { (result ≡ Failure.Usage) ⊎ (result ≡ Failure.Memory) }
{
    match error.kind() {
        ErrorKind::OutOfMemory => Failure::Memory,
        _ => Failure::Usage,
    }
}
