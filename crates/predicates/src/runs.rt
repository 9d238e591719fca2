//! Pieces in succession that answer the same.

ghost use Rattle.std.specs.Prelude.{◌≡◌, ℕ, ◌<◌, ◌≤◌, length};
ghost use Rattle.tpoint.specs.Places.{EachAt};
ghost use Rattle.tpoint.specs.Moving.{Rises, InBounds};
ghost use Rattle.tpoint.specs.Extents.{first_whole};
ghost use Rattle.tpoint.specs.Pieces.{OnPiece};
ghost use Rattle.predicates.specs.Ends.{IsOn, settled};
ghost use Rattle.predicates.specs.Questions.{AnswersQuestion};

use crate::courses::crosses;
use crate::ends::{Side, is_on, one_side, settled};
use crate::pieces::piece;
use crate::questions::{Question, Tri};
use crate::stays::contains;
use tpoint::{Instant, Interp, Period, Point, Rect};

/// Some pieces in succession, and what each of them answers.
#[derive(Clone, Copy)]
pub struct Run {
    /// The place after the last of them.
    pub next: usize,
    pub answer: Tri,
}

/// The run of pieces from a place on, of which there is at least one.
///
/// Legs within the period that don't decide are passed at a stride, and so are positions that stay, where `ever` is asked. Any
/// other piece is a run by itself.
#[inline(always)]
pub fn run_from(
    question: Question,
    interp: Interp,
    points: &[Point],
    i: usize,
    period: &Period,
    area: &Rect,
) -> Run
    requires in_list { i < length points.now }
    requires increasing { (k : ℕ) → Rises points.now k }
    requires in_range { (k : ℕ) → EachAt points.now InBounds k }
    ensures on { i < result.next }
    ensures within { result.next ≤ length points.now }
    ensures each { (j : ℕ) → i ≤ j → j < result.next →
        AnswersQuestion question (OnPiece interp points.now j) period.now area.now result.answer }
{
    let next = passed(question, interp, points, i, period, area);
    if i < next {
        Run {
            next,
            answer: settled(question),
        }
    } else {
        Run {
            next: i + 1,
            answer: piece(question, interp, points, i, period, area),
        }
    }
}

/// The first piece from a place on that may decide, or go on outside the period. Those before it answer as legs do that their
/// ends settle.
#[inline(always)]
fn passed(
    question: Question,
    interp: Interp,
    points: &[Point],
    from: usize,
    period: &Period,
    area: &Rect,
) -> usize
    requires in_list { from < length points.now }
    requires increasing { (k : ℕ) → Rises points.now k }
    requires in_range { (k : ℕ) → EachAt points.now InBounds k }
    ensures within { result ≤ length points.now }
    ensures each { (j : ℕ) → from ≤ j → j < result →
        AnswersQuestion question (OnPiece interp points.now j) period.now area.now (settled question) }
{
    if points[from].t < period.first_whole() {
        return from;
    }
    match question {
        Question::Ever => {
            if interp == Interp::Linear {
                first_met(points, from, period, area)
            } else {
                first_inside(interp, points, from, period, area)
            }
        }
        Question::Always => {
            if interp != Interp::Linear {
                return from;
            }
            first_left(points, from, period, area)
        }
    }
}

/// The first position from a place on that is listed after the period or in the rectangle. Each of them stays as it is listed.
#[inline(always)]
fn first_inside(
    interp: Interp,
    points: &[Point],
    from: usize,
    period: &Period,
    area: &Rect,
) -> usize
    requires stays { ¬ (interp ≡ Interp.Linear) }
    requires increasing { (k : ℕ) → Rises points.now k }
    requires begun { EachAt points.now (λ point. first_whole period.now ≤ point.t) from }
    ensures within { result ≤ length points.now }
    ensures each { (j : ℕ) → from ≤ j → j < result →
        AnswersQuestion Question.Ever (OnPiece interp points.now j) period.now area.now Tri.No }
{
    for k in from..points.len() {
        let point = &points[k];
        if period.last_whole() < point.t {
            return k;
        }
        if contains(area, point) {
            return k;
        }
    }
    points.len()
}

/// The first leg that goes on after the period or comes into the rectangle, of those from a place on.
#[inline(always)]
fn first_met(points: &[Point], from: usize, period: &Period, area: &Rect) -> usize
    requires in_list { from < length points.now }
    requires increasing { (k : ℕ) → Rises points.now k }
    requires in_range { (k : ℕ) → EachAt points.now InBounds k }
    requires begun { EachAt points.now (λ point. first_whole period.now ≤ point.t) from }
    ensures within { result ≤ length points.now }
    ensures each { (j : ℕ) → from ≤ j → j < result →
        AnswersQuestion Question.Ever (OnPiece Interp.Linear points.now j) period.now area.now Tri.No }
{
    let end = period.last_whole();
    let mut k = from;
    while k + 1 < points.len() {
        let a = &points[k];
        let b = &points[k + 1];
        if end < b.t {
            return k;
        }
        match one_side(a, b, area) {
            // The legs after it mostly stay there too, which takes fewer comparisons.
            Some(side) => k = last_on(points, k + 1, end, side, area),
            None => {
                if crosses(a, b, area) {
                    return k;
                }
                k += 1;
            }
        }
    }
    k
}

/// The last of the points from a place on, in a row, that are all on this side and, after the first, no later than an instant.
#[inline(always)]
fn last_on(points: &[Point], from: usize, end: Instant, side: Side, area: &Rect) -> usize
    requires in_list { from < length points.now }
    requires on { EachAt points.now (λ point. IsOn side point area.now) from }
    ensures up { from ≤ result }
    ensures within { result < length points.now }
    ensures on { (j : ℕ) → from ≤ j → j ≤ result → EachAt points.now (λ point. IsOn side point area.now) j }
    ensures in_time { (j : ℕ) → from < j → j ≤ result → EachAt points.now (λ point. point.t ≤ end) j }
{
    for k in from + 1..points.len() {
        let next = &points[k];
        if end < next.t {
            return k - 1;
        }
        if !is_on(side, next, area) {
            return k - 1;
        }
    }
    points.len() - 1
}

/// The first leg that goes on after the period or has an end outside of the rectangle, of those from a
/// place on.
#[inline(always)]
fn first_left(points: &[Point], from: usize, period: &Period, area: &Rect) -> usize
    requires in_list { from < length points.now }
    requires increasing { (k : ℕ) → Rises points.now k }
    requires begun { EachAt points.now (λ point. first_whole period.now ≤ point.t) from }
    ensures within { result ≤ length points.now }
    ensures each { (j : ℕ) → from ≤ j → j < result →
        AnswersQuestion Question.Always (OnPiece Interp.Linear points.now j) period.now area.now Tri.Yes }
{
    if !contains(area, &points[from]) {
        return from;
    }
    // The leg's begin is inside, as the end of the one before it.
    for k in from..points.len() - 1 {
        let next = &points[k + 1];
        if period.last_whole() < next.t {
            return k;
        }
        if !contains(area, next) {
            return k;
        }
    }
    points.len() - 1
}
