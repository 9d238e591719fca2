//! Rectangles.

ghost use Rattle.std.specs.Prelude.{◌≡◌, ◌↔◌, IsSome, IfSome};
ghost use Rattle.tpoint.specs.Extents.{Area, IsArea};

use crate::is_coordinate;
use std::marker::Model;

/// A rectangle with its bounds, in millimetres. A point is a rectangle, and so is a line along an
/// axis.
#[derive(Clone, Copy, Debug, PartialEq, Eq)]
pub struct Rect {
    x0: i64,
    y0: i64,
    x1: i64,
    y1: i64,
}

impl Model for Rect {
    ghost use Rattle.tpoint.specs.Extents.{Area, IsArea};

    ghost Value = { Area };

    ghost view = { λ r. record { x0 = r.x0; y0 = r.y0; x1 = r.x1; y1 = r.y1 } };

    ghost invariant = { λ r. IsArea (record { x0 = r.x0; y0 = r.y0; x1 = r.x1; y1 = r.y1 }) };

    ghost inverse = { λ a. record { x0 = a.x0; y0 = a.y0; x1 = a.x1; y1 = a.y1 } };
}

impl Rect {
    /// The rectangle between two corners, or None where a bound is out of range or two are
    /// reversed.
    pub fn new(x0: i64, y0: i64, x1: i64, y1: i64) -> Option<Rect>
        ensures valid { IsSome result ↔ IsArea (record { x0 = x0; y0 = y0; x1 = x1; y1 = y1 }) }
        ensures value { IfSome result (λ r. r ≡ record { x0 = x0; y0 = y0; x1 = x1; y1 = y1 }) }
    {
        if !is_coordinate(x0) || !is_coordinate(y0) || !is_coordinate(x1) || !is_coordinate(y1) {
            return None;
        }
        if x1 < x0 || y1 < y0 {
            return None;
        }
        Some(Rect { x0, y0, x1, y1 })
    }

    /// The lower bound of its x.
    pub fn x0(&self) -> i64
        ensures value { result ≡ self.now.x0 }
        ensures valid { IsArea self.now }
    {
        self.x0
    }

    /// The lower bound of its y.
    pub fn y0(&self) -> i64
        ensures value { result ≡ self.now.y0 }
        ensures valid { IsArea self.now }
    {
        self.y0
    }

    /// The upper bound of its x.
    pub fn x1(&self) -> i64
        ensures value { result ≡ self.now.x1 }
        ensures valid { IsArea self.now }
    {
        self.x1
    }

    /// The upper bound of its y.
    pub fn y1(&self) -> i64
        ensures value { result ≡ self.now.y1 }
        ensures valid { IsArea self.now }
    {
        self.y1
    }
}
