//! What the two ends of a leg tell of the whole of it.

ghost use Rattle.std.specs.Prelude.{◌≡◌, ◌≤◌, ◌↔◌, IsTrue, MatchOption};
ghost use Rattle.tpoint.specs.Extents.{HasInstant, first_whole, last_whole};
ghost use Rattle.predicates.specs.Ends.{AreBeyond, IsOn, Miss, Settle, settled};

use crate::questions::{Question, Tri};
use crate::stays::contains;
use tpoint::{Period, Point, Rect};

/// Whether the period has an instant of a leg, which may be one of its ends.
#[inline(always)]
pub fn shares_time(period: &Period, a: &Point, b: &Point) -> bool
    ensures shares { IsTrue result ↔
        ((first_whole period.now ≤ b.now.t) × (a.now.t ≤ last_whole period.now)) }
    ensures has_instant { HasInstant period.now }
{
    period.first_whole() <= b.t && a.t <= period.last_whole()
}

/// Whether a leg lies in the period, with both of its ends.
#[inline(always)]
pub fn is_within(period: &Period, a: &Point, b: &Point) -> bool
    ensures { IsTrue result ↔
        ((first_whole period.now ≤ a.now.t) × (b.now.t ≤ last_whole period.now)) }
{
    period.first_whole() <= a.t && b.t <= period.last_whole()
}

/// Whether the ends alone tell that the leg never meets the rectangle, or that it never leaves it.
#[inline(always)]
pub fn settle(question: Question, a: &Point, b: &Point, area: &Rect) -> bool
    ensures { IsTrue result ↔ Settle question a.now b.now area.now }
{
    match question {
        Question::Ever => miss(a, b, area),
        Question::Always => {
            let begins_inside = contains(area, a);
            begins_inside && contains(area, b)
        }
    }
}

/// What the leg answers then.
#[inline(always)]
pub fn settled(question: Question) -> Tri
    ensures { result ≡ settled question }
{
    match question {
        Question::Ever => Tri::No,
        Question::Always => Tri::Yes,
    }
}

/// A side of a rectangle, beyond one of its bounds.
#[derive(Clone, Copy)]
pub enum Side {
    Left,
    Right,
    Below,
    Above,
}

/// Whether the point is on this side of the rectangle.
#[inline(always)]
pub fn is_on(side: Side, point: &Point, area: &Rect) -> bool
    ensures { IsTrue result ↔ IsOn side point.now area.now }
{
    match side {
        Side::Left => point.x < area.x0(),
        Side::Right => area.x1() < point.x,
        Side::Below => point.y < area.y0(),
        Side::Above => area.y1() < point.y,
    }
}

/// A side on which both ends of the leg are.
#[inline(always)]
pub fn one_side(a: &Point, b: &Point, area: &Rect) -> Option<Side>
    ensures { MatchOption result (¬ Miss a.now b.now area.now) (λ side. IsOn side a.now area.now × IsOn side b.now area.now) }
{
    if are_on(Side::Left, a, b, area) {
        return Some(Side::Left);
    }
    if are_on(Side::Right, a, b, area) {
        return Some(Side::Right);
    }
    if are_on(Side::Below, a, b, area) {
        return Some(Side::Below);
    }
    if are_on(Side::Above, a, b, area) {
        return Some(Side::Above);
    }
    None
}

#[inline(always)]
fn are_on(side: Side, a: &Point, b: &Point, area: &Rect) -> bool
    ensures { IsTrue result ↔ (IsOn side a.now area.now × IsOn side b.now area.now) }
{
    is_on(side, a, area) && is_on(side, b, area)
}

/// Whether the ends are beyond one and the same bound of the rectangle.
#[inline(always)]
pub fn miss(a: &Point, b: &Point, area: &Rect) -> bool
    ensures { IsTrue result ↔ Miss a.now b.now area.now }
{
    are_beyond(a.x, b.x, area.x0(), area.x1()) || are_beyond(a.y, b.y, area.y0(), area.y1())
}

/// Whether both numbers are below the lower of two bounds, or both are above the upper.
#[inline(always)]
fn are_beyond(from: i64, to: i64, low: i64, high: i64) -> bool
    ensures { IsTrue result ↔ AreBeyond from to low high }
{
    (from < low && to < low) || (high < from && high < to)
}
