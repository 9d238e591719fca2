//! Tests of libraries, over what these make public. Those of whole runs are in `run_tests`.
//!
//! A crate with tests is proved twice, and each test program is linked by itself, so all tests are in these two crates.
#![tactic(auto)]

#[cfg(test)]
mod data;
#[cfg(test)]
mod memory;
#[cfg(test)]
mod nodes;
#[cfg(test)]
mod storages;
