//! The process: its words, its streams and its exit status.

ghost use Rattle.std.specs.Prelude.{◌≡◌};
ghost use Rattle.std.specs.Process.{exit_status};

use crate::run::command;
use crate::words::own_words;
use commands::{Archive, CheckedStream};
use std::process::ExitCode;

/// Runs the program on the process's own words and streams, with this archive for its files.
pub fn program<A: Archive>(rt: &HostRuntime, archive: &mut A) -> ExitCode {
    let mut input = CheckedStream::new(rt.stdin());
    let mut out = CheckedStream::new(rt.stdout());
    let mut err = CheckedStream::new(rt.stderr());
    let status = match own_words(rt) {
        Ok(words) => command(rt, words, &mut input, &mut out, &mut err, archive),
        Err(failure) => {
            err.tell(failure);
            failure.status()
        }
    };
    exit(status)
}

/// The process ends with this status.
fn exit(status: u8) -> ExitCode
    ensures { exit_status result ≡ status }
{
    ExitCode::from(status)
}
