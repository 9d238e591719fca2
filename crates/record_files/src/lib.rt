//! Files: FILEs that are read whole, and a database of SQLite for each node's records, in one folder.
//!
//! `RecordFolder` is an archive over a `FileAccess`, which reads one file or opens the records in one; `System` asks the system, one call
//! each. This stands apart from the program that hands it over, so that its tests are none of that: a program of tests is checked with
//! all that it is linked with.
#![tactic(auto)]

mod access;
mod asked;
mod record_file;
mod record_folder;

pub use access::{FileAccess, System};
pub use record_file::RecordFile;
pub use record_folder::RecordFolder;
