//! One node's learner: the votes that it has heard of at each slot, and the commands that it has learnt from them.
//!
//! `specs/Learning.antt` defines the effect of each message.
#![tactic(auto)]

mod allowed;
mod known;
mod learned;
mod learner;
mod place;
mod prefixes;
mod slots;
mod tallies;
mod tally;

pub use allowed::{decided_is_allowed, prefix_never_falls, skipping_is_allowed, vote_is_allowed};
pub use learned::Learned;
pub use learner::Learner;
pub use prefixes::prefix_is_first_unlearnt;
