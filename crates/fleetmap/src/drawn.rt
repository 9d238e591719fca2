//! Where a coordinate is drawn.

ghost use Rattle.std.specs.Prelude.{◌≡◌, ◌+◌, ◌*◌, ◌<◌, ◌≤◌, ◌^◌, pos, neg_ℤ, ◌*ℤ◌, ◌<ℤ◌, ◌≤ℤ◌, IfSome, MatchOption};
ghost use Rattle.tpoint.specs.Reduced.{fraction};
ghost use Rattle.fleetmap.specs.Charts.{IsWithin, IsNearest, parts_from};

use crate::chart::{FURTHEST_EDGE, LONGEST_SPAN, SIDE};
use tpoint::Frac;

/// Where a coordinate is drawn that is at most a span beyond an edge; None for any other.
pub(crate) fn drawn(edge: i64, span: u64, v: &Frac) -> Option<u32>
    requires edge_from { neg_ℤ FURTHEST_EDGE ≤ℤ edge }
    requires edge_to { edge ≤ℤ FURTHEST_EDGE }
    requires not_empty { 1 ≤ span }
    requires not_too_long { span ≤ LONGEST_SPAN }
    ensures drawn { MatchOption result (¬ IsWithin edge span (fraction v.now))
        (λ z. IsWithin edge span (fraction v.now) × IsNearest edge span (fraction v.now) z) }
    ensures on_chart { IfSome result (λ z. z ≤ SIDE) }
{
    let far = parts_from(edge, v)?;
    let unit = parts_of(span, v);
    if far > unit {
        return None;
    }
    Some(nearest(far, unit))
}

/// How far a coordinate is beyond an edge, in parts of its lower number; None where it is before it.
fn parts_from(edge: i64, v: &Frac) -> Option<u128>
    requires from { neg_ℤ FURTHEST_EDGE ≤ℤ edge }
    requires to { edge ≤ℤ FURTHEST_EDGE }
    ensures { MatchOption result (parts_from edge (fraction v.now) <ℤ pos 0)
        (λ far. parts_from edge (fraction v.now) ≡ pos far) }
{
    let low = product(edge, v.den);
    let num = v.num;
    if num < low {
        return None;
    }
    Some(num.abs_diff(low))
}

/// The product of an edge and a lower number, in 128 bits.
fn product(edge: i64, den: i64) -> i128
    requires from { neg_ℤ FURTHEST_EDGE ≤ℤ edge }
    requires to { edge ≤ℤ FURTHEST_EDGE }
    ensures { result ≡ edge *ℤ den }
{
    edge as i128 * den as i128
}

/// A span in parts of a coordinate's lower number.
fn parts_of(span: u64, v: &Frac) -> u128
    requires not_empty { 1 ≤ span }
    requires not_too_long { span ≤ LONGEST_SPAN }
    ensures value { result ≡ span * (fraction v.now).den }
    ensures not_empty { 1 ≤ result }
    ensures small { result < 2 ^ 101 }
{
    u128::from(span) * u128::from(v.den.unsigned_abs())
}

/// The whole number nearest to `far` times `SIDE`, by `unit`; of two the greater.
fn nearest(far: u128, unit: u128) -> u32
    requires within { far ≤ unit }
    requires not_empty { 1 ≤ unit }
    requires small { unit < 2 ^ 101 }
    ensures reached { 2 * result * unit ≤ 2 * SIDE * far + unit }
    ensures not_passed { 2 * SIDE * far + unit < (2 * result + 2) * unit }
    ensures on_chart { result ≤ SIDE }
{
    ((2 * SIDE as u128 * far + unit) / (2 * unit)) as u32
}
