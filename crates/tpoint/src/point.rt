//! Points.

ghost use Rattle.std.specs.Prelude.{◌↔◌, IsTrue};
ghost use Rattle.tpoint.specs.Moving.{InBounds};

use crate::{Instant, is_coordinate};

/// A position at an instant.
#[derive(Clone, Copy, Debug, PartialEq, Eq)]
pub struct Point {
    pub t: Instant,
    /// In millimetres.
    pub x: i64,
    /// In millimetres.
    pub y: i64,
}

impl Point {
    /// Whether both coordinates are in range.
    pub fn is_in_range(&self) -> bool
        ensures { IsTrue result ↔ InBounds self.now }
    {
        is_coordinate(self.x) && is_coordinate(self.y)
    }
}
