//! A place in a text.

/// Where a fault is in a text.
#[derive(Drop)]
pub(crate) struct Place {
    /// How many bytes of the text come before it.
    pub at: usize,
    /// What was wanted there, in words.
    pub wanted: String,
}
