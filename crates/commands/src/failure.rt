//! Why a run ends with nothing printed, and what the program says and answers then.

ghost use Rattle.std.specs.Prelude.{◌≡◌, ◌≢◌, OnOk};
ghost use Rattle.std.specs.Io.KnownBytes.{Appends};
ghost use Rattle.std.specs.IoError.{error_kind};
ghost use Rattle.commands.specs.Failures.{line_text, status_of};
ghost use Rattle.commands.specs.declared.failure.Failure.TheVariants.{Memory};

use mfjson::MfFault;
use schedule::ReplayFault;
use std::alloc::{AllocError, AllocFailed};
use std::io::{self, ErrorKind, Write};
use thiserror::Error;

/// Why a run ends with nothing printed.
#[derive(Clone, Copy, Debug, Drop, PartialEq, Eq, Error)]
pub enum Failure {
    /// The schedule is none, or can't be run to its end.
    #[error("{0}")]
    Schedule(ReplayFault),
    /// The document is none.
    #[error("{0}")]
    Document(MfFault),
    /// A storage over which the schedule was to run holds a record already.
    #[error("records are there already")]
    NotEmpty,
    /// The words after the program's name ask for nothing that it does.
    #[error("unknown words")]
    Usage,
    /// A file or a stream failed.
    #[error("a device failed")]
    Device,
    /// A growth was refused.
    #[error("memory ran out")]
    Memory,
}

impl Failure {
    /// The exit status of a run that ends so.
    pub fn status(self) -> u8
        ensures { result ≡ status_of self }
    {
        match self {
            Failure::Schedule(_) | Failure::Document(_) | Failure::NotEmpty => 1,
            Failure::Usage => 2,
            Failure::Device | Failure::Memory => 3,
        }
    }

    /// Writes the line of standard error that tells it. It takes no memory of its own, so that
    /// the want of memory can be told too.
    pub fn tell<E: Write>(self, err: &mut E) -> io::Result<()>
        ensures { OnOk result (Appends (E.contents err.old) (E.contents err.new)
            (line_text self)) }
    {
        match self {
            Failure::Schedule(fault) => {
                write!(
                    err,
                    "mfpx: line {} fault {}\n",
                    fault.line,
                    fault.cause.code()
                )
            }
            Failure::Document(fault) => tell_document(fault, err),
            Failure::NotEmpty => err.write_all(b"mfpx: fault 55\n"),
            Failure::Usage => err.write_all(b"mfpx: usage\n"),
            Failure::Device => err.write_all(b"mfpx: device\n"),
            Failure::Memory => err.write_all(b"mfpx: out of memory\n"),
        }
    }
}

/// Writes the line of standard error that tells what is wrong with a document.
fn tell_document<E: Write>(fault: MfFault, err: &mut E) -> io::Result<()>
    ensures { OnOk result (Appends (E.contents err.old) (E.contents err.new)
        (line_text (Failure.Document fault))) }
{
    match fault.index() {
        Some(index) => write!(err, "mfpx: document fault {} at {}\n", fault.code(), index),
        None => write!(err, "mfpx: document fault {}\n", fault.code()),
    }
}

impl From<AllocError> for Failure {
    ghost from_gives = { λ _ failure. failure ≡ Memory };

    fn from(_refused: AllocError) -> Failure {
        Failure::Memory
    }
}

impl<T: Drop> From<AllocFailed<T>> for Failure {
    ghost from_gives = { λ _ failure. failure ≡ Memory };

    fn from(_refused: AllocFailed<T>) -> Failure {
        Failure::Memory
    }
}

/// What a stream's or a file's error is to the program.
pub fn device_failure(error: &io::Error) -> Failure
    ensures memory { error_kind error.now ≡ ErrorKind.OutOfMemory → result ≡ Failure.Memory }
    ensures device { error_kind error.now ≢ ErrorKind.OutOfMemory → result ≡ Failure.Device }
{
    match error.kind() {
        ErrorKind::OutOfMemory => Failure::Memory,
        _ => Failure::Device,
    }
}
