//! The cut.

ghost use Rattle.std.specs.Prelude.{◌≡◌, ℕ, ◌+◌, ◌⊎◌, length, IfOk, OnOk, MatchOption, option_to_list};
ghost use Rattle.tpoint.specs.Moving.{Rises};
ghost use Rattle.tpoint.specs.Extents.{HasInstant, last_whole};
ghost use Rattle.restrict.specs.Cuts.{IsCut, HasNoCut, HasValueAt, part_of};
ghost use Rattle.restrict.specs.Inside.{IsInside, IsAddedFirst, IsAddedLast, IsUpToEnd, IsValueAt, AddsPoints, AreJoined};
ghost use Rattle.restrict.specs.Inside.{tells_shared};

use crate::part::Cut;
use std::alloc::{AllocError, Global};
use tpoint::{Frac, Instant, Interp, Period, Point, Seq};

/// A position fix: an instant with its x and y.
type Fix = (Instant, Frac, Frac);

/// What the moving point does in the period, or None where they share no instant.
///
/// The cut has the sequence's values in the period and no other. It lists the sequence's instants inside and, where the
/// sequence has values between its instants, the ends of the period at which it has a value, ascending, each once. It begins
/// or ends without its end where that is an end of the period that isn't in. An error comes only where a growth was refused,
/// and None needs no growth.
pub fn cut(alloc: Global, seq: &Seq, period: &Period) -> Result<Option<Cut>, AllocError>
    ensures cut { IfOk result (λ found. MatchOption found (HasNoCut seq.now period.now)
        (λ c. IsCut seq.now period.now (part_of c))) }
    ensures none { HasNoCut seq.now period.now → result ≡ Ok None }
{
    let inside = inside(seq.points(), period);
    let begin = at_begin(seq, period, inside);
    let end = at_end(seq, period, inside);
    if !is_shared(period, &begin, inside, &end) {
        return Ok(None);
    }
    let count = count(&begin, inside, &end);
    let begin_in = period.begin_in() || begin.is_none();
    let end_in = period.end_in() || end.is_none();
    let points = join(alloc, count, begin, inside, end)?;
    Ok(Some(Cut {
        interp: seq.interp(),
        points,
        begin_in,
        end_in,
    }))
}

/// The points in the period, by two binary searches.
fn inside<'a>(points: &'a [Point], period: &Period) -> &'a [Point]
    requires { (k : ℕ) → Rises points.now k }
    ensures points { IsInside points.now period.now result.now }
    ensures has_instant { HasInstant period.now }
{
    let begin = period.first_whole();
    let end = period.last_whole();
    let first = points.partition_point(|point| point.t < begin);
    let rest = &points[first..];
    let count = rest.partition_point(|point| point.t <= end);
    &rest[..count]
}

/// The value at the period's begin, unless the first point inside is there, or there is none but at points.
fn at_begin(seq: &Seq, period: &Period, inside: &[Point]) -> Option<Fix>
    requires { IsInside seq.now.points period.now inside.now }
    ensures { IsAddedFirst seq.now period.now inside.now result }
{
    let begin = period.begin();
    match inside {
        [first, ..] if first.t == begin => None,
        _ if seq.interp() == Interp::Discrete => None,
        _ => value_at(seq, begin),
    }
}

/// The value up to the period's end, unless the last point inside is there, or the begin, or there is none but at points.
fn at_end(seq: &Seq, period: &Period, inside: &[Point]) -> Option<Fix>
    requires { IsInside seq.now.points period.now inside.now }
    ensures { IsAddedLast seq.now period.now inside.now result }
{
    let end = period.end();
    match inside {
        [.., last] if last.t == end => None,
        _ if period.begin() == end => None,
        _ if seq.interp() == Interp::Discrete => None,
        _ => value_up_to_end(seq, period),
    }
}

/// The value at the period's end, with that instant; where the end isn't in the period and the position may change there at
/// once, the value just before.
fn value_up_to_end(seq: &Seq, period: &Period) -> Option<Fix>
    ensures { MatchOption result
        ((¬ HasValueAt seq.now period.now.end) ⊎ (¬ HasValueAt seq.now (last_whole period.now)))
        (IsUpToEnd seq.now period.now) }
{
    let end = period.end();
    let (_, x, y) = value_at(seq, end)?;
    if period.end_in() || seq.interp() != Interp::Step {
        return Some((end, x, y));
    }
    let (_, x, y) = value_at(seq, period.last_whole())?;
    Some((end, x, y))
}

/// Whether period and sequence share an instant: a point inside, an end that is in, or what lies between the two ends.
fn is_shared(period: &Period, begin: &Option<Fix>, inside: &[Point], end: &Option<Fix>) -> bool
    ensures { result ≡ tells_shared period.now begin.now inside.now end.now }
{
    let from_begin = begin.is_some() && (end.is_some() || period.begin_in());
    let to_end = end.is_some() && period.end_in();
    !inside.is_empty() || from_begin || to_end
}

/// The value at an instant, with the instant.
fn value_at(seq: &Seq, t: Instant) -> Option<Fix>
    ensures { MatchOption result (¬ HasValueAt seq.now t) (IsValueAt seq.now t) }
{
    match seq.value_at(t).value {
        Some((x, y)) => Some((t, x, y)),
        None => None,
    }
}

/// How many points the cut lists.
fn count(begin: &Option<Fix>, inside: &[Point], end: &Option<Fix>) -> usize
    ensures { result ≡ length (option_to_list begin.now) + length inside.now
        + length (option_to_list end.now) }
{
    usize::from(begin.is_some()) + inside.len() + usize::from(end.is_some())
}

/// The value at the begin, the points inside and the value at the end, by one growth to `count`.
fn join(
    alloc: Global,
    count: usize,
    begin: Option<Fix>,
    inside: &[Point],
    end: Option<Fix>,
) -> Result<Vec<Fix>, AllocError>
    ensures { IfOk result (λ points. AreJoined begin inside.now end points.items) }
{
    let mut points = Vec::with_capacity(alloc, count)?;
    if let Some(fix) = begin {
        points.push(fix)?;
    }
    push_points(&mut points, inside)?;
    if let Some(fix) = end {
        points.push(fix)?;
    }
    Ok(points)
}

/// Adds the points, with their positions as fractions.
fn push_points(points: &mut Vec<Fix>, inside: &[Point]) -> Result<(), AllocError>
    ensures { OnOk result (AddsPoints inside.now points.old.items points.new.items) }
{
    for point in inside {
        let x = Frac::from(point.x);
        let y = Frac::from(point.y);
        points.push((point.t, x, y))?;
    }
    Ok(())
}
