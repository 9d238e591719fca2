//! The program `mfpxview`: what people want to see of the schedules, the runs and the documents of `mfpx`.
//!
//! | Call | What it shows |
//! |---|---|
//! | `mfpxview why FILE` | where a schedule or a document is wrong, and what was wanted there |
//! | `mfpxview run FILE [--frames] [--json]` | what came of each line of a schedule |
//! | `mfpxview draw FILE -o OUT [--from K] [--to K]` | the frames of its run, as a picture |
//! | `mfpxview map FILE -o OUT [--at DATETIME] [--node N]` | the fleet that it leaves at a node, on a map |
//! | `mfpxview audit SCHEDULE TRANSCRIPT..` | whether one list of commands explains what transcripts tell of its runs |
//! | `mfpxview --help`, `--version` | how it is called |
//!
//! `-` in the place of a file that is read is standard input, and in the place of OUT standard output. With `--progress`, which all but
//! `why` take, it is told on standard error what is read, done and written. The exit status is 0 where nothing is wrong, 1 where faults or a
//! contradiction are told or the run ends with a fault, 2 where the words are none of the forms, and 3 where an audit is undecided, a file
//! or a stream fails, or memory runs out.
#![tactic(auto)]

mod audits;
mod failure;
mod faults;
mod files;
mod maps;
mod progress;
mod runs;
mod show;

use crate::show::show;
use std::env;
use std::process::ExitCode;

fn main(rt: HostRuntime) -> ExitCode {
    let status = match env::args(&rt) {
        Ok(words) => show(&rt, words),
        Err(_) => {
            let _ = eprintln!(rt; "mfpxview: the words can't be read as text");
            2
        }
    };
    ExitCode::from(status)
}
