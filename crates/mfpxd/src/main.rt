//! The program `mfpxd`: one node of a run, as a process. Its records lie in a database. It talks to the other nodes over TCP, in packets
//! under the run's key, and to clients over TCP, in lines.
//!
//! `mfpxd --help` prints its words. It ends with 2 where they are none, where the key or the identity is refused, and with 3 where its
//! storage or a socket fails or memory runs out. Whoever wants it to stop kills it.
#![tactic(auto)]

mod addresses;
mod client;
mod comer;
mod daemon;
mod identity;
mod inbox;
mod key;
mod lines;
mod link;
mod links;
mod options;
mod outbox;
mod place;
mod reading;
mod refusal;
mod stop;
mod tokens;
mod words;

use crate::daemon::serve;
use crate::options::options_of;
use crate::stop::Stop;
use crate::words::own_words;
use clap::Error;
use clap::error::ErrorKind;
use std::process::ExitCode;

fn main(rt: HostRuntime) -> ExitCode {
    match own_words(&rt) {
        Ok(words) => ExitCode::from(run(&rt, words.as_slice())),
        Err(stop) => ExitCode::from(tell(&rt, &stop)),
    }
}

/// Does what the words ask for, and answers the exit status.
fn run(rt: &HostRuntime, words: &[String]) -> u8 {
    match options_of(rt.alloc(), words) {
        Ok(options) => match serve(rt, &options) {
            Ok(()) => 0,
            Err(stop) => tell(rt, &stop),
        },
        Err(error) => print_error(rt, &error),
    }
}

/// Prints help, the version, or why the words ask for nothing.
fn print_error(rt: &HostRuntime, error: &Error) -> u8 {
    if let Err(_) = error.print(rt) {
        return 3;
    }
    match error.kind() {
        ErrorKind::DisplayHelp | ErrorKind::DisplayVersion => 0,
        ErrorKind::OutOfMemory => 3,
        _ => 2,
    }
}

/// Tells why it stops, and answers the exit status.
fn tell(rt: &HostRuntime, stop: &Stop) -> u8 {
    let _ = eprintln!(rt; "mfpxd: stop: {stop}");
    stop.status()
}
