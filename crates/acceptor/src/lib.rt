//! One node's acceptor: what it has promised and what it has voted for.
//!
//! Each promise and each vote is written before it is answered. A checkpoint raises the floor, below which the acceptor no longer
//! speaks; a trim takes out the votes below it, and no promise goes with them. `specs/Accepting.antt` has the rules.
#![tactic(auto)]

mod accepted_value;
mod acceptor;
mod allowed;
mod answer;
mod kept;
mod records;
mod votes;

pub use acceptor::Acceptor;
pub use allowed::{accept_is_allowed, checkpoint_is_allowed, prepare_is_allowed, records_say_one};
pub use answer::Answer;
pub use kept::{
    accept_keeps_records, calls_keep_votes_covered, checkpoint_keeps_records,
    prepare_keeps_records, promises_outlive_trims, trim_keeps_records,
};
