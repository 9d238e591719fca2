//! A world behind a transport: its frames leave through it, and what comes back is delivered.
//!
//! `Transport` carries datagrams; it may lose, repeat, reorder, cut, delay and invent them. `Queues` is one in memory. A
//! `Cluster` hands each frame that its world sends to its transport. `pump` delivers what polls return, if the world has sent it
//! to that node. Whatever a transport does, a cluster changes its world by the world's own steps alone, so it is as safe as any.
#![tactic(auto)]

mod cluster;
mod indexed_world;
mod queues;
mod transport;

pub use cluster::{Cluster, MOST_IDLE_PASSES, MOST_PUMPED};
pub use queues::{Passed, Queues};
pub use transport::{Transport, TransportFault};
