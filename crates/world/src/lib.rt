//! All nodes of a run in one process, and everything that happened in it: the crate that carries the headline.
//!
//! `World::step` takes one event as one atomic step: a submission, a delivery of any frame that was ever sent, a loss, a timeout,
//! a restart, a write that is to fail, a query. While the storages inside are honest, the world is safe, whatever the events are
//! and in whatever order they come. One list of submitted commands and no-ops has whatever any node learnt for a slot. Every
//! reply and every answer at a position is that of one plain database that executed so many of its entries, each request once.
//! This is an invariant of the type `World`, and the clause `safe` of its calls states it.
//!
//! The crate `world_model` defines worlds and events. Here `inner` has the nodes and the lists, `steps` a function for
//! each event, `network` the frames that wait, `rounds` the manual round.
#![tactic(auto)]

mod flags;
mod inner;
mod log;
mod network;
mod rounds;
mod start;
mod steps;
mod world;

pub use log::{MOST_DELIVERIES, limits};
pub use start::fresh_stores;
pub use world::World;
