//! The commands replay, loopback and check on bytes: a transcript, or a canonical document as a line; and how a run of the program ends.
//!
//! `replay`, `replay_in_memory`, `loopback` and `check` do one command each, or return how the run ends. A replay's records may be those
//! that an `Archive` opens, and a loopback's frames go through what a `Binder` binds; both are handed in, and asked once the schedule is
//! parsed. `print_replay` prints the transcript of a replay in memory part by part. `specs/Works.antt` and `specs/Archives.antt` define
//! what they produce.
//!
//! A `Failure` says why nothing is printed, and has one status and one line. A `CheckedStream` remembers whether it failed, so that a
//! contract can tell a line that was not written from one that couldn't be, and a file that can't be read from a body that doesn't read
//! it. An `Archive` is what files are to a run: `record_files` has the one of the system's files.
#![tactic(auto)]

mod archive;
mod binder;
mod checked_stream;
mod documents;
mod failure;
mod failures;
mod loopbacks;
mod replays;

pub use archive::Archive;
pub use binder::Binder;
pub use checked_stream::CheckedStream;
pub use documents::check;
pub use failure::{Failure, device_failure};
pub use loopbacks::loopback;
pub use replays::{print_replay, replay, replay_in_memory};
