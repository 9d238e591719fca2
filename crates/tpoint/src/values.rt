//! The value of a sequence at an instant.

ghost use Rattle.std.specs.Prelude.{◌≡◌, ℕ, ◌^◌, ◌<◌, ◌≤◌, length};
ghost use Rattle.std.specs.Prelude.{pos, ◌+ℤ◌, ◌-ℤ◌, ◌*ℤ◌, ◌≤ℤ◌, unsigned_abs};
ghost use Rattle.tpoint.specs.Places.{EachAt};
ghost use Rattle.tpoint.specs.Moving.{IsPositionOf, OnLeg, Rises, InBounds, moment, vertex};
ghost use Rattle.tpoint.specs.Moving.{At, HasOneValue};
ghost use Rattle.tpoint.specs.Coordinates.{InRange};
ghost use Rattle.tpoint.specs.Pieces.{place, AtPoint, HeldUntil, OnPiece};
ghost use Rattle.tpoint.specs.Reduced.{position, Finds};

use crate::lowest_terms::reduce;
use crate::probed::Probed;
use crate::{Frac, Instant, Interp, MOST_POINTS, MOST_PROBES, Point, Seq, search};

/// What was found at an instant.
#[derive(Clone, Copy)]
pub struct Found {
    /// The position in millimetres, x and then y, or None where the sequence has no value.
    pub value: Option<(Frac, Frac)>,
    /// How many places of the list were looked at, at most `MOST_PROBES`.
    pub probes: u32,
}

impl Seq {
    /// The value at an instant. It is exact: on the way between two points a coordinate is a
    /// fraction, and never rounded.
    pub fn value_at(&self, t: Instant) -> Found
        ensures value { Finds (At self.now (moment t)) result.value }
        ensures few { result.probes ≤ MOST_PROBES }
    {
        let interp = self.interp();
        let points = self.points();
        let passed = passed_at(points, t);
        // A piece from before the last two of these has ended when the last one begins.
        for i in passed.count.saturating_sub(2)..passed.count {
            let value = piece_value(interp, points, i, t);
            if value.is_some() {
                return Found {
                    value,
                    probes: passed.probes,
                };
            }
        }
        Found {
            value: None,
            probes: passed.probes,
        }
    }

    /// A law: at an instant, whole or fractional, a sequence has at most one value.
    ///
    /// It does nothing, and is called for its contract.
    pub fn value_is_unique(&self)
        ensures { HasOneValue self.now }
    {
        let _ = self.points();
    }
}

/// How many points are not after an instant, and how many of them were looked at to find out.
#[derive(Clone, Copy)]
struct Passed {
    count: usize,
    probes: u32,
}

/// How many of the points are not after the instant.
fn passed_at(points: &[Point], t: Instant) -> Passed
    requires increasing { (k : ℕ) → Rises points.now k }
    requires not_too_many { length points.now ≤ MOST_POINTS }
    ensures within { result.count ≤ length points.now }
    ensures passed { (k : ℕ) → k < result.count → EachAt points.now (λ p. p.t ≤ t) k }
    ensures to_come { (k : ℕ) → result.count ≤ k → EachAt points.now (λ p. t < p.t) k }
    ensures few { result.probes ≤ MOST_PROBES }
{
    let mut probed = Probed::new(points);
    let count = search(&mut probed, t) as usize;
    Passed {
        count,
        probes: probed.probes(),
    }
}

/// The value of the piece at one of the points.
fn piece_value(interp: Interp, points: &[Point], i: usize, t: Instant) -> Option<(Frac, Frac)>
    requires in_list { i < length points.now }
    requires increasing { (k : ℕ) → Rises points.now k }
    requires in_range { (k : ℕ) → EachAt points.now InBounds k }
    ensures { Finds (OnPiece interp points.now i (moment t)) result }
{
    let last = i + 1 == points.len();
    match interp {
        Interp::Discrete => at_point(&points[i], t),
        Interp::Step => {
            if last {
                at_point(&points[i], t)
            } else {
                until_next(&points[i], &points[i + 1], t)
            }
        }
        Interp::Linear => {
            if points.len() == 1 {
                at_point(&points[i], t)
            } else if last {
                None
            } else {
                on_leg(&points[i], &points[i + 1], t)
            }
        }
    }
}

/// A point's value at an instant.
fn at_point(point: &Point, t: Instant) -> Option<(Frac, Frac)>
    ensures { Finds (AtPoint point.now (moment t)) result }
{
    if point.t == t {
        Some(place_of(point))
    } else {
        None
    }
}

/// The value of a point that stays until the next.
fn until_next(from: &Point, next: &Point, t: Instant) -> Option<(Frac, Frac)>
    ensures { Finds (HeldUntil from.now next.now (moment t)) result }
{
    if t < from.t || next.t <= t {
        return None;
    }
    Some(place_of(from))
}

/// The value on the way from one point to the next.
fn on_leg(a: &Point, b: &Point, t: Instant) -> Option<(Frac, Frac)>
    requires later { a.now.t < b.now.t }
    requires a_fits { InBounds a.now }
    requires b_fits { InBounds b.now }
    ensures { Finds (OnLeg (vertex a.now) (vertex b.now) (moment t)) result }
{
    if t < a.t || b.t < t {
        return None;
    }
    let gone = t.ms() - a.t.ms();
    let all = b.t.ms() - a.t.ms();
    let x = on_way(a.x, b.x, gone, all);
    let y = on_way(a.y, b.y, gone, all);
    Some((x, y))
}

/// The position of a point.
fn place_of(point: &Point) -> (Frac, Frac)
    ensures { IsPositionOf (position result) (place point.now) }
{
    (Frac::from(point.x), Frac::from(point.y))
}

/// The coordinate after `gone` of `all` milliseconds on the way from one to another.
fn on_way(from: i64, to: i64, gone: i64, all: i64) -> Frac
    requires from_fits { InRange from }
    requires to_fits { InRange to }
    requires gone_small { unsigned_abs gone < 2 ^ 48 }
    requires all_small { unsigned_abs all < 2 ^ 48 }
    requires positive { pos 1 ≤ℤ all }
    ensures { result.num *ℤ all ≡ (from *ℤ all +ℤ (to -ℤ from) *ℤ gone) *ℤ result.den }
{
    reduce(product(from, all) + product(to - from, gone), all)
}

/// The product of two small numbers, in 128 bits.
fn product(a: i64, b: i64) -> i128
    requires a_small { unsigned_abs a < 2 ^ 48 }
    requires b_small { unsigned_abs b < 2 ^ 48 }
    ensures value { result ≡ a *ℤ b }
    ensures small { unsigned_abs result < 2 ^ 96 }
{
    a as i128 * b as i128
}
