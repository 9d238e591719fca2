//! A time index: from when to when each entry is there, by its id.
//!
//! `TimeIndex::overlapping` returns the ids of the entries that have an instant in a period. `specs/Entries.antt` defines it as
//! the filter of a set.
#![tactic(auto)]

mod entry;
mod index;

pub use index::TimeIndex;
