//! A position that stays as it is listed.

ghost use Rattle.std.specs.Prelude.{◌<◌, ◌≤◌, ◌↔◌, IsTrue, ◌≤ℤ◌};
ghost use Rattle.tpoint.specs.Extents.{HasInstant, Inside, first_whole, last_whole};
ghost use Rattle.tpoint.specs.Pieces.{place, AtPoint, HeldUntil};
ghost use Rattle.predicates.specs.Questions.{AnswersQuestion};
ghost use Rattle.predicates.specs.declared.questions.Question.{Question};
ghost use Rattle.predicates.specs.Stays.{IsStayAnswer};

use crate::questions::Tri;
use tpoint::{Instant, Period, Point, Rect};

/// What a position answers, to either question, that is there at its own instant alone.
pub fn at_point(point: &Point, period: &Period, area: &Rect) -> Tri
    ensures { (question : Question) →
        AnswersQuestion question (AtPoint point.now) period.now area.now result }
{
    answer(in_period(period, point.t), point, area)
}

/// What a position answers, to either question, that is there until the instant of the next.
pub fn held(point: &Point, next: &Point, period: &Period, area: &Rect) -> Tri
    requires { point.now.t < next.now.t }
    ensures { (question : Question) →
        AnswersQuestion question (HeldUntil point.now next.now) period.now area.now result }
{
    answer(meets_stay(period, point.t, next.t), point, area)
}

/// The answer of a position that is there in the period, or is not.
fn answer(there: bool, point: &Point, area: &Rect) -> Tri
    ensures { IsStayAnswer there (Inside (place point.now) area.now) result }
{
    if !there {
        Tri::None
    } else if contains(area, point) {
        Tri::Yes
    } else {
        Tri::No
    }
}

/// Whether an instant is in the period.
fn in_period(period: &Period, t: Instant) -> bool
    ensures in_period { IsTrue result ↔ ((first_whole period.now ≤ t) × (t ≤ last_whole period.now)) }
    ensures has_instant { HasInstant period.now }
{
    period.first_whole() <= t && t <= period.last_whole()
}

/// Whether the period has an instant from one on and before another, which is later.
fn meets_stay(period: &Period, from: Instant, until: Instant) -> bool
    requires { from < until }
    ensures shares { IsTrue result ↔ ((from ≤ last_whole period.now) × (period.now.begin < until)) }
    ensures has_instant { HasInstant period.now }
{
    from <= period.last_whole() && period.begin() < until
}

/// Whether the rectangle has the position, its bounds included.
pub fn contains(area: &Rect, point: &Point) -> bool
    ensures { IsTrue result ↔ Inside (place point.now) area.now }
{
    let across = is_between(area.x0(), point.x, area.x1());
    let along = is_between(area.y0(), point.y, area.y1());
    across && along
}

/// Whether a number lies between two others, or is one of them.
fn is_between(low: i64, z: i64, high: i64) -> bool
    ensures { IsTrue result ↔ ((low ≤ℤ z) × (z ≤ℤ high)) }
{
    low <= z && z <= high
}
