//! The auditor: whether one list of commands explains what transcripts tell of runs of a schedule.
//!
//! `audit` takes bytes. `specs/Audits.antt` defines its verdict: over `schedule`'s own definition of a schedule, over the table of
//! transcripts' lines in `specs/Rows.antt`, and over `verdicts`, which decides on what the lines tell. `report` is the verdict
//! as it is printed, and `status` the exit status that goes with it. No node runs.
#![tactic(auto)]

mod answer_line;
mod code_lines;
mod codes;
mod demands;
mod fault;
mod judgement;
mod kind;
mod learn_line;
mod line;
mod numbers;
mod reply_line;
mod round_line;
mod rows;
mod transcripts;
mod verdict_text;

pub use fault::AuditFault;
pub use judgement::audit;
pub use verdict_text::{report, status};
