//! Runs of schedules: each line is done in a world, or in one behind a transport, and the transcript reports the result.
//!
//! `replay_text` runs a schedule over records in memory and does each line once it is read, `run` takes a parsed one and any storages,
//! and `run_lines` continues in a world that has begun. `start_world`, `do_lines` and `do_line` are their parts, for who wants the world
//! also where a run ends with a fault. `run_through` does the lines over a cluster. `specs/Runs.antt` defines a run in a world,
//! `specs/ClusterRuns.antt` one over a cluster, `specs/Transcripts.antt` the bytes of a transcript.
//!
//! `world_transcript` makes the transcript of a world as one text, and `print_transcript` hands it to a `Sink` in parts, with no more
//! memory than the first part has room for. Who does a run's lines itself may tell a `Watch` how far it is.
#![tactic(auto)]

mod cluster_run;
mod line_texts;
mod part;
mod print;
mod replayed;
mod report;
mod sink;
mod watch;
mod world_run;

pub use cluster_run::run_through;
pub use replayed::Replayed;
pub use report::transcript;
pub use sink::Sink;
pub use watch::{Unwatched, Watch};
pub use world_run::{
    do_line, do_lines, print_transcript, replay_text, run, run_lines, start_world, world_transcript,
};
