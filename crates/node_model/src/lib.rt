//! A node as a state machine: its inputs, its state while it is up, and the effect of each input.
//!
//! `specs/Taking.antt` puts the rules of acceptor, learner and proposer together; `specs/Nodes.antt` adds the storage. Laws show
//! that each transition is allowed by the protocol. No code runs here: the crate `node` has the code, and its step keeps what is
//! defined here.
#![tactic(auto)]

mod allowed;
mod fault;
mod input;
mod laws;
mod outputs;

pub use allowed::{loading_is_allowed, records_go_on, refusals_go_on, steps_are_allowed};
pub use fault::NodeFault;
pub use input::{Input, is_for_this_run};
pub use laws::{learnt_is_told, meanings_are_of_learnt_slots, members_stay};
pub use outputs::{AnswerText, LearntCommand, MOST_SENDS, Outputs, ReplyOut};
