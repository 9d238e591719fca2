//! What is newly learnt.

use synod::Slot;

/// The slot that was newly learnt.
#[derive(Clone, Copy, Debug, PartialEq, Eq)]
pub struct Learned {
    pub slot: Slot,
}
