//! What a cut is made of.

use tpoint::{Frac, Instant, Interp};

/// What a moving point does in a period. `cut` makes it.
#[derive(Drop)]
pub struct Cut {
    /// Where the point is between the listed instants.
    pub interp: Interp,
    /// The listed instants, ascending, each with its x and y in millimetres.
    pub points: Vec<(Instant, Frac, Frac)>,
    /// Whether the cut has a position at its first instant, too. Where it hasn't, that is where it comes from.
    pub begin_in: bool,
    /// Whether the cut has a position at its last instant, too. Where it hasn't, that is where it gets to.
    pub end_in: bool,
}
