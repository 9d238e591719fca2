//! Tests of processes that serve nodes, over fakes of the network, the clients and the clock, and over records in files.
#![tactic(auto)]

mod fakes;
#[cfg(test)]
mod processes;
#[cfg(test)]
mod servers;

pub use fakes::{Counter, Packet, Post, Said};
