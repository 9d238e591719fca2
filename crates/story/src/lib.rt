//! A run for people: what came of each line of a schedule, as text, as JSON, and as a space-time diagram, also where it ends with a fault.
//!
//! `follow` does the lines, and notes of each with which step it begins and what was done at its steps, as `specs/Following.antt` defines,
//! and how long the world's lists were then. `list_run` lists what is told of that: each line, each step and each entry of the world's
//! lists, once and in order, as `specs/Telling.antt` defines. `tell` and `draw` walk that list; of each thing `tell` writes one line, as
//! `specs/Accounts.antt` defines. What it says stands in `specs/Saying.antt`, with the words of each happening in `specs/Wordings.antt`
//! and its JSON in `specs/Members.antt`; which marks a picture has of it, in `specs/Marking.antt`.
#![tactic(auto)]

mod account;
mod course;
mod deeds;
mod entries;
mod flags;
mod items;
mod ledger;
mod line_texts;
mod lines;
mod marks;
mod objects;
mod passages;
mod ranges;
mod sketch;
mod words;
mod writer;

pub use account::{Account, tell};
pub use course::follow;
pub use deeds::Deed;
pub use entries::{Entry, list_run};
pub use ledger::{Counts, Ledger, LineBegin, Step};
pub use sketch::draw;
pub use writer::Form;
