//! The fields, read with the first fault that is met.

ghost use Rattle.std.specs.Prelude.{◌≡◌, ◌<◌, ◌≤◌, ◌+◌, ◌↔◌, IsTrue, IfOk, length};
ghost use Rattle.tpoint.specs.Coordinates.{InRange};
ghost use Rattle.tpoint.specs.Moving.{InBounds};
ghost use Rattle.fields.specs.Reading.{FieldGives, Tells, id_at, instant_at, is_coordinate};
ghost use Rattle.fields.specs.Reading.{coordinate_at, triple_at, triple_from, triples_at, interp_at, count_at, sequence_at};

use crate::fault::FieldFault;
use crate::input::Input;
use std::alloc::Global;
use tpoint::{FURTHEST, Id, Instant, Interp, LAST_MS, LONGEST_ID, MOST_POINTS, Point, Seq};

/// An id: its length, and its text.
#[tactic(auto, unfolding(crate::specs::Reading::id_at))]
#[inline(always)]
pub fn read_id(input: &mut Input) -> Result<Id, FieldFault>
    ensures { Tells (λ x. (x, input.new)) result (id_at input.old) }
{
    let len = usize::from(input.u8()?);
    if len == 0 || len > LONGEST_ID {
        return Err(FieldFault::Field);
    }
    input.text(len)
}

/// A sequence of so many points at most.
#[tactic(auto, unfolding(crate::specs::Reading::sequence_at))]
pub fn read_sequence(alloc: Global, most: u16, input: &mut Input) -> Result<Seq, FieldFault>
    requires { most ≤ MOST_POINTS }
    ensures short { IfOk result (λ s. length s.points ≤ most) }
    ensures read { FieldGives (λ x. (x, input.new)) result (sequence_at most input.old) }
{
    let interp = read_interp(input)?;
    let count = read_count(most, input)?;
    let points = read_triples(alloc, count, input)?;
    // What was read is a sequence, so there is no fault.
    Ok(Seq::new(interp, points).unwrap())
}

/// Where a moving point is between its listed instants.
#[tactic(auto, unfolding(crate::specs::Reading::interp_at))]
fn read_interp(input: &mut Input) -> Result<Interp, FieldFault>
    ensures { Tells (λ x. (x, input.new)) result (interp_at input.old) }
{
    match input.u8()? {
        1 => Ok(Interp::Discrete),
        2 => Ok(Interp::Step),
        3 => Ok(Interp::Linear),
        _ => Err(FieldFault::Field),
    }
}

/// How many triples follow.
#[tactic(auto, unfolding(crate::specs::Reading::count_at))]
fn read_count(most: u16, input: &mut Input) -> Result<u16, FieldFault>
    ensures some { IfOk result (λ n. 1 ≤ n) }
    ensures few { IfOk result (λ n. n ≤ most) }
    ensures read { Tells (λ x. (x, input.new)) result (count_at most input.old) }
{
    let count = input.u16()?;
    if count == 0 || count > most {
        return Err(FieldFault::Field);
    }
    Ok(count)
}

/// So many triples, each later than the one before it.
fn read_triples(alloc: Global, count: u16, input: &mut Input) -> Result<Vec<Point>, FieldFault>
    ensures counted { IfOk result (λ ps. length ps.items ≡ count) }
    ensures read { FieldGives (λ x. (x.items, input.new)) result (triples_at count 0 input.old) }
{
    let mut points = Vec::with_capacity(alloc, usize::from(count))?;
    let mut from = 0;
    for _ in 0..count {
        let point = read_triple_from(from, input)?;
        from = after(point.t);
        points.push(point)?;
    }
    Ok(points)
}

/// The first millisecond after an instant.
fn after(t: Instant) -> u64
    ensures { result ≡ t + 1 }
{
    t.ms() as u64 + 1
}

/// A triple that is not before an instant.
#[tactic(auto, unfolding(crate::specs::Reading::triple_from))]
fn read_triple_from(from: u64, input: &mut Input) -> Result<Point, FieldFault>
    ensures { Tells (λ x. (x, input.new)) result (triple_from from input.old) }
{
    let point = read_triple(input)?;
    if (point.t.ms() as u64) < from {
        return Err(FieldFault::Field);
    }
    Ok(point)
}

/// An instant and two coordinates.
#[tactic(auto, unfolding(crate::specs::Reading::triple_at))]
pub fn read_triple(input: &mut Input) -> Result<Point, FieldFault>
    ensures in_bounds { IfOk result InBounds }
    ensures read { Tells (λ x. (x, input.new)) result (triple_at input.old) }
{
    let t = read_instant(input)?;
    let x = read_coordinate(input)?;
    let y = read_coordinate(input)?;
    Ok(Point { t, x, y })
}

/// An instant, in milliseconds.
#[tactic(auto, unfolding(crate::specs::Reading::instant_at))]
fn read_instant(input: &mut Input) -> Result<Instant, FieldFault>
    ensures { Tells (λ x. (x, input.new)) result (instant_at input.old) }
{
    let ms = input.u64()?;
    if ms > LAST_MS as u64 {
        return Err(FieldFault::Field);
    }
    let Some(instant) = Instant::new(ms as i64) else {
        return Err(FieldFault::Field);
    };
    Ok(instant)
}

/// A coordinate, in two's complement.
#[tactic(auto, unfolding(crate::specs::Reading::coordinate_at))]
fn read_coordinate(input: &mut Input) -> Result<i64, FieldFault>
    ensures in_range { IfOk result InRange }
    ensures read { Tells (λ x. (x, input.new)) result (coordinate_at input.old) }
{
    let z = input.u64()?.cast_signed();
    if !is_coordinate(z) {
        return Err(FieldFault::Field);
    }
    Ok(z)
}

/// Whether a point may lie there, along one axis.
fn is_coordinate(z: i64) -> bool
    ensures value { result ≡ is_coordinate z }
    ensures in_range { IsTrue result ↔ InRange z }
{
    -FURTHEST <= z && z <= FURTHEST
}
