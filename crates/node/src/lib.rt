//! One node: its records, and its roles while it is up.
//!
//! One input is one step. A node that is up takes it, refuses it without a change, or stops on it. At most one write is made,
//! before anything is sent that rests on it. The crate `node_model` defines the effect of each input.
#![tactic(auto)]

mod fetch;
mod node;
mod replica;
mod sends;
mod snapshots;

pub use node::Node;
