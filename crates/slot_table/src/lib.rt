//! A map by slot.
//!
//! Slots of a log are used nearly in turn. So the values from the first slot that is put are in a row, by place, and those below
//! it, or far behind the row's end, are in a tree.
#![tactic(auto)]

mod slot_table;

pub use slot_table::SlotTable;
