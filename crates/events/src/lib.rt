//! What may happen in a world, and why a world refuses it.
//!
//! These are types alone: a parser of schedules needs nothing else. The crate `world_model` defines what an event does.
#![tactic(auto)]

mod event;
mod fault;

pub use event::Event;
pub use fault::WorldFault;
