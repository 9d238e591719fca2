//! What a process that runs a node does: when it ticks, how long it is patient, who leads, to whom a request is handed on, how a run
//! that was down as a whole comes back, and which connection waits for which reply; and the turn in which it does all of it.
//!
//! No promise of a run rests on the first of these: a node is right whenever a tick or a time-out comes. Whether it gets on does. Nothing
//! there reads a clock or sends anything: times are given, in milliseconds.
//!
//! `Server::turn` lets something out, over a `Network` and a `Desk`. `specs/Turns.antt` says what may leave a process and what its node
//! may take, and `specs/Serving.antt` that each part of a turn leads from one process that kept to it to another.
#![tactic(auto)]

mod campaign;
mod checkpoints;
mod claims;
mod desk;
mod fault;
mod hand_on;
mod horizon;
mod laws;
mod leader;
mod network;
mod patience;
mod requests;
mod server;
mod ticks;
mod timing;
mod waiting;

pub use campaign::Campaign;
pub use checkpoints::{SLOTS_BETWEEN_CHECKPOINTS, is_checkpoint_due};
pub use claims::{Claim, Claims, MOST_CLAIMS};
pub use desk::{Came, Desk};
pub use fault::TurnFault;
pub use hand_on::{HAND_ON_PERIOD, is_due_again, is_handed_to};
pub use horizon::Horizon;
pub use laws::{clients_are_told_the_same, limits_are_in_order, one_list_explains_clients};
pub use leader::Leader;
pub use network::Network;
pub use patience::{LEAST_PATIENCE, NODE_STEP, Patience, SPREADS};
pub use requests::{HANDED_ON, Requests};
pub use server::{MOST_IN_A_TURN, Server};
pub use ticks::{BUSY_PERIOD, IDLE_PERIOD, Ticks};
pub use timing::Timing;
pub use waiting::{Due, Question, Waiting};
