//! Whether a leg passes through the rectangle, by products and no window.

ghost use Rattle.std.specs.Prelude.{◌≡◌, ◌^◌, ◌<◌, ◌↔◌, ◌*ℤ◌, ◌≤ℤ◌, unsigned_abs, IsTrue};
ghost use Rattle.tpoint.specs.Coordinates.{InRange};
ghost use Rattle.tpoint.specs.Moving.{InBounds};
ghost use Rattle.predicates.specs.Ends.{AreBeyond, Miss};
ghost use Rattle.predicates.specs.Courses.{IsCourse, CourseIsSmall, Crosses};

use tpoint::{Point, Rect};

/// A coordinate's way, as the distance that it has gone: it rises evenly from 0 to `length`, and the
/// coordinate is between its two bounds from `enter` to `leave`.
#[derive(Clone, Copy)]
pub struct Course {
    length: i64,
    enter: i64,
    leave: i64,
}

/// Whether the leg is in the rectangle at some parameter, where its ends don't tell that it isn't.
#[inline(never)]
pub fn crosses(a: &Point, b: &Point, area: &Rect) -> bool
    requires a_fits { InBounds a.now }
    requires b_fits { InBounds b.now }
    requires near { ¬ Miss a.now b.now area.now }
    ensures { IsTrue result ↔ Crosses a.now b.now area.now }
{
    let across = course_of(a.x, b.x, area.x0(), area.x1());
    let along = course_of(a.y, b.y, area.y0(), area.y1());
    // Both are found before either is looked at: which one fails is no more to be foreseen than the way.
    let across_first = enters_before(across, along);
    let along_first = enters_before(along, across);
    across_first && along_first
}

/// The course of a coordinate between two bounds, where its ends aren't both beyond one of them.
#[inline(always)]
fn course_of(from: i64, to: i64, low: i64, high: i64) -> Course
    requires from_fits { InRange from }
    requires to_fits { InRange to }
    requires low_fits { InRange low }
    requires high_fits { InRange high }
    requires order { low ≤ℤ high }
    requires near { ¬ AreBeyond from to low high }
    ensures course { IsCourse from to low high result }
    ensures small { CourseIsSmall result }
{
    if from <= to {
        Course {
            length: to - from,
            enter: low - from,
            leave: high - from,
        }
    } else {
        Course {
            length: from - to,
            enter: from - high,
            leave: from - low,
        }
    }
}

/// Whether one coordinate comes between its bounds no later than the other leaves its own:
/// `enter / length <= leave / length`.
#[inline(always)]
fn enters_before(one: Course, other: Course) -> bool
    requires one_small { CourseIsSmall one }
    requires other_small { CourseIsSmall other }
    ensures { IsTrue result ↔ (one.enter *ℤ other.length) ≤ℤ (other.leave *ℤ one.length) }
{
    product(one.enter, other.length) <= product(other.leave, one.length)
}

/// The product of two small numbers, in 128 bits.
#[inline(always)]
fn product(a: i64, b: i64) -> i128
    requires a_small { unsigned_abs a < 2 ^ 48 }
    requires b_small { unsigned_abs b < 2 ^ 48 }
    ensures { result ≡ a *ℤ b }
{
    a as i128 * b as i128
}
