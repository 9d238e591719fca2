//! Who is told how far a run is.

/// Who is told how far a run is.
pub trait Watch {
    /// The line of this number is done, and the run has had so many frames by then.
    fn line_done(&mut self, line: u64, frames: usize);
}

/// Nobody is told.
#[derive(Clone, Copy)]
pub struct Unwatched;

impl Watch for Unwatched {
    fn line_done(&mut self, _line: u64, _frames: usize) {}
}
