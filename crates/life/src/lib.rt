//! A process that runs a node: the frames of the node to itself, and what it has told and is not handed out yet.
//!
//! Nothing leaves it but by `Life::hand_out`, and that gives what the steps of its node told, in order, and nothing else. A step
//! tells only after the put that it rests on has returned Ok. `world_model` defines what a life is, and promises what the lives
//! of all nodes tell together.
#![tactic(auto)]

mod fault;
mod laws;
mod life;
mod told;

pub use fault::LifeFault;
pub use laws::{handed_out_was_told, lives_are_told, lives_hand_out_the_same};
pub use life::Life;
pub use told::Told;
