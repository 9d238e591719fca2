//! The way from one listed position to the next.

ghost use Rattle.std.specs.Prelude.{◌<◌, ◌↔◌, IsTrue, MatchBool};
ghost use Rattle.tpoint.specs.Fraction.{Fraction};
ghost use Rattle.tpoint.specs.Ways.{way};
ghost use Rattle.tpoint.specs.Coordinates.{InRange};
ghost use Rattle.tpoint.specs.Moving.{OnLeg, moment, vertex, InBounds};
ghost use Rattle.tpoint.specs.Extents.{Span, LiesIn, Between, Inside};
ghost use Rattle.predicates.specs.Windows.{InWindow, IsWindowOf, InTime, place_at, SomeIn, EveryIn};
ghost use Rattle.predicates.specs.Ends.{Settle};
ghost use Rattle.predicates.specs.Questions.{AnswersQuestion};

use crate::courses::crosses;
use crate::ends::{is_within, settle, settled, shares_time};
use crate::inner_part::{at_least, at_most};
use crate::questions::{Question, Tri};
use crate::windows::Window;
use tpoint::{Period, Point, Rect};

/// What the leg from `a` to `b` answers.
#[inline(always)]
pub fn leg(question: Question, a: &Point, b: &Point, period: &Period, area: &Rect) -> Tri
    requires later { a.now.t < b.now.t }
    requires a_fits { InBounds a.now }
    requires b_fits { InBounds b.now }
    ensures { AnswersQuestion question (OnLeg (vertex a.now) (vertex b.now)) period.now area.now result }
{
    if !shares_time(period, a, b) {
        return Tri::None;
    }
    // Most legs are well away from the bounds, or well between them: they need no product.
    if settle(question, a, b, area) {
        return settled(question);
    }
    if is_within(period, a, b) {
        return unsettled(question, a, b, area);
    }
    clipped(question, a, b, period, area)
}

/// What a leg answers in each period in which it lies, where its ends don't settle it.
fn unsettled(question: Question, a: &Point, b: &Point, area: &Rect) -> Tri
    requires later { a.now.t < b.now.t }
    requires a_fits { InBounds a.now }
    requires b_fits { InBounds b.now }
    requires not_settled { ¬ Settle question a.now b.now area.now }
    ensures { (p : Span) → LiesIn (moment a.now.t) p → LiesIn (moment b.now.t) p →
        AnswersQuestion question (OnLeg (vertex a.now) (vertex b.now)) p area.now result }
{
    match question {
        Question::Ever => {
            if crosses(a, b, area) {
                Tri::Yes
            } else {
                Tri::No
            }
        }
        // One of its ends is outside.
        Question::Always => Tri::No,
    }
}

/// What a leg answers by windows: the part of the leg that is in the period, and then in the rectangle.
fn clipped(question: Question, a: &Point, b: &Point, period: &Period, area: &Rect) -> Tri
    requires later { a.now.t < b.now.t }
    requires a_fits { InBounds a.now }
    requires b_fits { InBounds b.now }
    ensures { AnswersQuestion question (OnLeg (vertex a.now) (vertex b.now)) period.now area.now result }
{
    let Some(time) = time_window(a, b, period) else {
        return Tri::None;
    };
    let inside = match question {
        Question::Ever => meets(time, a, b, area),
        Question::Always => !leaves(time, a, b, area),
    };
    if inside { Tri::Yes } else { Tri::No }
}

/// The parameters at which the leg is in the period.
#[inline(always)]
fn time_window(a: &Point, b: &Point, period: &Period) -> Option<Window>
    ensures { IsWindowOf result (InTime a.now b.now period.now) }
{
    let from = a.t.ms();
    let to = b.t.ms();
    let begun = at_least(
        Window::whole(),
        from,
        to,
        period.begin().ms(),
        period.begin_in(),
    )?;
    at_most(begun, from, to, period.end().ms(), period.end_in())
}

/// Whether the leg is in the rectangle at some parameter of the window.
#[inline(always)]
fn meets(time: Window, a: &Point, b: &Point, area: &Rect) -> bool
    requires a_fits { InBounds a.now }
    requires b_fits { InBounds b.now }
    ensures { IsTrue result ↔ SomeIn time (λ u. Inside (place_at a.now b.now u) area.now) }
{
    match between(time, a.x, b.x, area.x0(), area.x1()) {
        Some(across) => between(across, a.y, b.y, area.y0(), area.y1()).is_some(),
        None => false,
    }
}

/// The window's part at which a coordinate on its way is between two bounds.
#[inline(always)]
fn between(window: Window, from: i64, to: i64, low: i64, high: i64) -> Option<Window>
    requires from_fits { InRange from }
    requires to_fits { InRange to }
    requires low_fits { InRange low }
    requires high_fits { InRange high }
    ensures { IsWindowOf result (λ u. InWindow u window × Between low high (way from to u)) }
{
    let above = at_least(window, from, to, low, true)?;
    at_most(above, from, to, high, true)
}

/// Whether the leg is outside the rectangle at some parameter of the window.
#[inline(always)]
fn leaves(time: Window, a: &Point, b: &Point, area: &Rect) -> bool
    requires a_fits { InBounds a.now }
    requires b_fits { InBounds b.now }
    ensures { MatchBool result (SomeIn time (λ u. ¬ Inside (place_at a.now b.now u) area.now))
        (EveryIn time (λ u. Inside (place_at a.now b.now u) area.now)) }
{
    if strays(time, a.x, b.x, area.x0(), area.x1()) {
        return true;
    }
    strays(time, a.y, b.y, area.y0(), area.y1())
}

/// Whether a coordinate on its way is beyond one of two bounds at some parameter of the window.
#[inline(always)]
fn strays(window: Window, from: i64, to: i64, low: i64, high: i64) -> bool
    requires from_fits { InRange from }
    requires to_fits { InRange to }
    requires low_fits { InRange low }
    requires high_fits { InRange high }
    ensures { MatchBool result (SomeIn window (λ u. ¬ Between low high (way from to u)))
        (EveryIn window (λ u. Between low high (way from to u))) }
{
    // The bounds are of the rectangle, so only what is beyond them is outside.
    if at_most(window, from, to, low, false).is_some() {
        return true;
    }
    at_least(window, from, to, high, false).is_some()
}
