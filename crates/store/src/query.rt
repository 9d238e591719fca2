//! Queries.

use tpoint::{Id, Instant, Period, Rect};

/// A question about the features.
#[derive(Clone, Copy)]
pub enum Query {
    /// Where the feature is at an instant.
    At(Id, Instant),
    /// What it does in a period.
    Cut(Id, Period),
    /// Whether it is in a rectangle at some instant of a period.
    Ever(Id, Period, Rect),
    /// Whether it is in a rectangle at every instant of a period at which it has a value.
    Always(Id, Period, Rect),
    /// Which features are ever in a rectangle during a period.
    Within(Period, Rect),
    /// The feature's canonical document.
    Get(Id),
    /// How many features there are.
    Count,
}
