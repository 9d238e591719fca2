//! Command-line arguments: which work they ask for, and on which source.
//!
//! The forms are `replay FILE`, `loopback FILE` and `check FILE`, where a FILE of `-` is standard input; no argument at all is
//! `replay -`. `clap` parses them. Its first check is expensive, so this is a crate of its own.
#![tactic(auto)]

mod fault;
mod job;
mod words;

pub use fault::WordsFault;
pub use job::{Job, Source, Work};
pub use words::job_of;
