//! Schedules as text: how many nodes a run has, and what is done, line by line.
//!
//! `parse_schedule` returns the schedule that the bytes spell, or the first faulty line and the lowest of its faults.
//! `specs/Schedules.antt` defines which bytes spell which schedule, over `specs/Spelling.antt` and `specs/Table.antt`; no bytes
//! spell two. Nothing runs here: the crate `replay` does the lines. A `ReplayFault` says at which line there is no replay, and why.
//! An `UnreadSchedule` hands out line after line, for who does each once it is read and keeps none.
//!
//! `nodes_line` and `read_action` read one line by itself, for whoever tells what is wrong with it. `Lines`, `Words`, `cut` and
//! `forms` read the lines, the words and the numbers of any text of this kind.
#![tactic(auto)]

mod action;
mod fault;
mod first_mark;
pub mod forms;
mod keyword;
mod laws;
mod lines;
mod members;
mod one_line;
mod parse;
mod pending_line;
mod queries;
mod replay_fault;
mod rows;
mod schedule;
mod submits;
mod unread;
mod words;

pub use action::Action;
pub use fault::ScheduleFault;
pub use first_mark::cut;
pub use laws::{faulty_is_no_schedule, first_faults_are_one, schedules_are_one};
pub use lines::{Line, Lines};
pub use members::Members;
pub use one_line::nodes_line;
pub use parse::{parse_schedule, read_action};
pub use replay_fault::{ReplayCause, ReplayFault};
pub use schedule::{Schedule, ScheduleLine};
pub use unread::UnreadSchedule;
pub use words::Words;
