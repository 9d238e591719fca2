//! Tests of storages: of `stable`, of `sqlstable` over memory and over files, and of the archive in `record_files`.

pub mod calls;
mod scripts;
mod tables;
