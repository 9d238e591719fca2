//! Tests of the data's crates: of `textbuf`, `tpoint` and `mfjson`; of what `fault_report` says in words; and of the bytes in which nodes
//! have them, the frames and records of `wire`.
//!
//! Values, cuts, rectangles, periods and replies that were worked out by hand are schedules of `examples`; documents, frames and votes are
//! lines of `conformance`' input. These cost no proof.

mod blocks;
mod client_lines;
mod documents;
mod frames;
mod lines;
mod packets;
mod pictures;
mod plain_scan;
mod records;
mod rectangles;
mod reports;
mod snapshots;
mod tour;
mod values;
