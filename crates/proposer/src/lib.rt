//! One node's proposer: the requests that wait, and the campaigns to have them chosen.
//!
//! A campaign runs phase 1 for the slots from its first on. With a majority's promises it leads, and keeps a window of proposals
//! open (phase 2). `specs/Proposing.antt` defines the state after each call and what is sent.
#![tactic(auto)]

mod allowed;
mod campaign;
mod choice;
mod fault;
mod name;
mod proposer;
mod queue;
mod sends;
mod sizes;
mod window;

pub use allowed::{
    advance_is_allowed, execution_is_allowed, learning_is_allowed, nack_is_allowed,
    promise_is_allowed, proposing_is_allowed, skipping_is_allowed, stop_is_allowed,
    submission_is_allowed, tick_is_allowed, timeout_is_allowed,
};
pub use fault::{SubmitFault, TimeoutFault};
pub use proposer::Proposer;
pub use queue::MOST_WAITING;
pub use sends::{Outgoing, Recipients};
pub use sizes::limits;
pub use window::MOST_OPEN;
