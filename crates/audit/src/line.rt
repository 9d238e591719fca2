//! What one line tells.

use verdicts::{Name, Told};

/// What a line of a transcript tells.
#[derive(Drop)]
pub(crate) enum Line {
    /// `learn`: at the slot is a command of this name.
    Learn { slot: u32, name: Name },
    Told(Told),
}
