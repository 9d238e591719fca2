//! The program `mfpx`: a schedule is replayed, and its transcript is printed; or a document is
//! checked, and its canonical form is printed.
//!
//! | Call | What it does |
//! |---|---|
//! | `mfpx replay FILE` | runs the schedule, and prints its transcript |
//! | `mfpx replay FILE --db DIR` | the same, with the records of node i in `DIR/nodei.db` |
//! | `mfpx loopback FILE` | runs the schedule with a socket of 127.0.0.1 for each node |
//! | `mfpx check FILE` | reads a document, and prints its canonical form |
//! | `mfpx` | as `mfpx replay -`; `-` in the place of FILE is standard input |
//!
//! All of it is `cli::program`, whose `command` lists the exit statuses, over the files of the system.
#![tactic(auto)]

use cli::program;
use record_files::{RecordFolder, System};
use std::process::ExitCode;

fn main(rt: HostRuntime) -> ExitCode {
    program(&rt, &mut RecordFolder::new(System))
}
