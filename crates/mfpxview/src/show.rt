//! What the words ask for, shown.

use crate::audits::show_audit;
use crate::failure::Failure;
use crate::faults::show_faults;
use crate::maps::show_map;
use crate::progress::Progress;
use crate::runs::{show_drawing, show_run};
use clap::Error;
use clap::error::ErrorKind;
use std::alloc::{AllocError, Global};
use std::env::Args;
use view_args::{View, view_of};

/// Shows what the words ask for, of which the first is the program's name, and answers the exit status.
pub(crate) fn show(rt: &HostRuntime, words: Args) -> u8 {
    match words_after_name(rt.alloc(), words) {
        Ok(words) => show_words(rt, words.as_slice()),
        Err(_) => tell(rt, "", Failure::Memory),
    }
}

/// All words but the first.
fn words_after_name(alloc: Global, all: Args) -> Result<Vec<String>, AllocError> {
    let mut all = all;
    let _name = all.next();
    let mut words = Vec::new(alloc);
    for word in all {
        words.push(word)?;
    }
    Ok(words)
}

/// Shows what the words ask for, and answers the exit status.
fn show_words(rt: &HostRuntime, words: &[String]) -> u8 {
    match view_of(rt.alloc(), words) {
        Ok(view) => show_view(rt, view),
        Err(error) => print_error(rt, &error),
    }
}

/// Prints help, the version, or why the words ask for nothing.
fn print_error(rt: &HostRuntime, error: &Error) -> u8 {
    if let Err(_) = error.print(rt) {
        return 3;
    }
    match error.kind() {
        ErrorKind::DisplayHelp | ErrorKind::DisplayVersion => 0,
        ErrorKind::OutOfMemory => 3,
        _ => 2,
    }
}

/// Shows the view, and answers the exit status.
fn show_view(rt: &HostRuntime, view: View<'_>) -> u8 {
    match view {
        View::Why { file } => ended(rt, file, show_faults(rt, file)),
        View::Run {
            file,
            frames,
            json,
            progress,
        } => {
            let progress = Progress { is_told: progress };
            ended(rt, file, show_run(rt, file, frames, json, progress))
        }
        View::Draw {
            file,
            output,
            from,
            to,
            progress,
        } => {
            let progress = Progress { is_told: progress };
            ended(rt, file, show_drawing(rt, file, output, from, to, progress))
        }
        View::Map {
            file,
            output,
            at,
            node,
            progress,
        } => {
            let progress = Progress { is_told: progress };
            ended(rt, file, show_map(rt, file, output, at, node, progress))
        }
        View::Audit {
            schedule,
            transcripts,
            progress,
        } => {
            let progress = Progress { is_told: progress };
            match show_audit(rt, schedule, transcripts.as_slice(), progress) {
                Ok(status) => status,
                Err(stop) => tell(rt, stop.file, stop.failure),
            }
        }
    }
}

/// The exit status of a view of this file that ended so.
fn ended(rt: &HostRuntime, file: &str, shown: Result<u8, Failure>) -> u8 {
    match shown {
        Ok(status) => status,
        Err(failure) => tell(rt, file, failure),
    }
}

/// Tells why nothing more is shown of the file.
fn tell(rt: &HostRuntime, file: &str, failure: Failure) -> u8 {
    let _ = eprintln!(rt; "mfpxview: {file}: {failure}");
    match failure {
        Failure::NoNumber | Failure::NoDatetime | Failure::NoNode | Failure::InputTwice => 2,
        _ => 3,
    }
}
