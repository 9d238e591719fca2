//! Verdicts on what transcripts tell: whether one list of commands explains it, where its requests are those that clients
//! submitted.
//!
//! `specs/Explaining.antt` defines which lists explain which lines, over what `sessions` and `store` define of a list of
//! commands, and `specs/Verdicts.antt` what a verdict claims. No node and no world is in either, and none runs here.
#![tactic(auto)]

mod decision;
mod examination;
mod execution;
mod lines;
mod placement;
mod request_index;
mod search;
mod verdict;

pub use decision::verdict_on;
pub use lines::{LearnLine, Name, Place, Question, Told, ToldLine};
pub use verdict::{Verdict, Why};
