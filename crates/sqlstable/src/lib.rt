//! Stable records in a database table, in memory or in a file that other tools can read.
//!
//! `SqlStable` implements `stable::Stable` over the kit's `sqlite`. The table `record` has a row for each key: the key's bytes in
//! `k`, the record in `v`. Each put is one statement and one transaction, which is on disk before the call returns.
#![tactic(auto)]

mod constructors;
mod fault;
mod file_storage;
mod key_bytes;
mod left_files;
mod listed_keys;
mod schema;
mod statements;
mod storage;
mod survey;

pub use storage::SqlStable;
