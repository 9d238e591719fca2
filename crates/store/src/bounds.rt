//! The rectangle round listed positions.

ghost use Rattle.std.specs.Prelude.{◌≡◌, ◌≤◌, ◌≤ℤ◌, ◌⊎◌, ◌↔◌, length, IsTrue};
ghost use Rattle.store.specs.Bounds.{Holds, HoldsAll, IsWithin, AreApart, AreBetween, IsApart, IsInside};

use tpoint::{Point, Rect};

/// A rectangle that has positions in it, bounds included: as the code makes it, the least one.
#[derive(Clone, Copy)]
pub(crate) struct Bounds {
    x0: i64,
    y0: i64,
    x1: i64,
    y1: i64,
}

impl Bounds {
    /// The rectangle round all of some points.
    pub fn of(points: &[Point]) -> Bounds
        requires { 1 ≤ length points.now }
        ensures { HoldsAll result points.now }
    {
        let first = points[0];
        let mut bounds = Bounds {
            x0: first.x,
            y0: first.y,
            x1: first.x,
            y1: first.y,
        };
        for k in 0..points.len() {
            bounds = bounds.with(&points[k]);
        }
        bounds
    }

    /// The rectangle widened to one point more.
    pub fn with(self, point: &Point) -> Bounds
        ensures had { IsWithin self result }
        ensures added { Holds result point.now }
    {
        Bounds {
            x0: lesser(self.x0, point.x),
            y0: lesser(self.y0, point.y),
            x1: greater(self.x1, point.x),
            y1: greater(self.y1, point.y),
        }
    }

    /// Whether it has nothing in common with a rectangle.
    pub fn is_apart(self, area: &Rect) -> bool
        ensures { IsTrue result ↔ IsApart self area.now }
    {
        let across = are_apart(self.x0, self.x1, area.x0(), area.x1());
        let along = are_apart(self.y0, self.y1, area.y0(), area.y1());
        across || along
    }

    /// Whether other bounds are more than twice as wide, or more than twice as high.
    pub fn is_small_beside(self, other: Bounds) -> bool {
        let width = self.x1.wrapping_sub(self.x0);
        let height = self.y1.wrapping_sub(self.y0);
        let other_width = other.x1.wrapping_sub(other.x0);
        let other_height = other.y1.wrapping_sub(other.y0);
        width < other_width / 2 || height < other_height / 2
    }

    /// Whether a rectangle has all of it.
    pub fn is_inside(self, area: &Rect) -> bool
        ensures { IsTrue result ↔ IsInside self area.now }
    {
        let across = are_between(self.x0, self.x1, area.x0(), area.x1());
        let along = are_between(self.y0, self.y1, area.y0(), area.y1());
        across && along
    }
}

fn lesser(a: i64, b: i64) -> i64
    ensures first { result ≤ℤ a }
    ensures second { result ≤ℤ b }
    ensures one { (result ≡ a) ⊎ (result ≡ b) }
{
    if b < a { b } else { a }
}

fn greater(a: i64, b: i64) -> i64
    ensures first { a ≤ℤ result }
    ensures second { b ≤ℤ result }
    ensures one { (result ≡ a) ⊎ (result ≡ b) }
{
    if a < b { b } else { a }
}

/// Whether no number is between two bounds and between two others.
fn are_apart(low: i64, high: i64, from: i64, to: i64) -> bool
    ensures { IsTrue result ↔ AreApart low high from to }
{
    high < from || to < low
}

/// Whether two bounds are between two others, which count.
fn are_between(low: i64, high: i64, from: i64, to: i64) -> bool
    ensures { IsTrue result ↔ AreBetween low high from to }
{
    from <= low && high <= to
}
