//! Sequences of points.

ghost use Rattle.std.specs.Prelude.{◌≡◌, ℕ, ◌+◌, ◌<◌, ◌≤◌, ◌↔◌, ◌++◌, ◌∷◌, [], length};
ghost use Rattle.std.specs.Prelude.{IsTrue, MatchOption, IsOk, IfOk, IfErr, OnOk, OnErr};
ghost use Rattle.tpoint.specs.Moving.{IsValid, Rises, InBounds};
ghost use Rattle.tpoint.specs.Same.{same_sequence, same_sequence_equiv};
ghost use Rattle.std.specs.Cmp.{partial_equiv_from_equiv};
ghost use Rattle.tpoint.specs.Places.{EachAt};
ghost use Rattle.tpoint.specs.Faults.{FirstFailure, IsFault, IsAppendFault, IsLater, MayFollow};

use crate::{AppendFault, Interp, Point, SeqFault};
use std::alloc::AllocError;
use std::marker::Model;

/// A sequence has at most this many points.
pub const MOST_POINTS: usize = 1024;

/// A moving point: 1 to `MOST_POINTS` points, each later than the one before.
#[derive(Drop)]
pub struct Seq {
    interp: Interp,
    points: Vec<Point>,
}

impl Model for Seq {
    ghost use Rattle.tpoint.specs.Moving.{Sequence, IsValid};

    ghost Value = { Sequence };

    ghost view = { λ s. record { interp = s.interp; points = s.points.items } };

    ghost invariant = { λ s. IsValid (record { interp = s.interp; points = s.points.items }) };
}

impl Seq {
    /// The sequence of these points, or the first fault of the list.
    pub fn new(interp: Interp, points: Vec<Point>) -> Result<Seq, SeqFault>
        ensures valid { IsOk result ↔ IsValid (record { interp = interp; points = points.items }) }
        ensures value { IfOk result (λ s. s ≡ record { interp = interp; points = points.items }) }
        ensures fault { IfErr result (λ fault. IsFault points.items fault) }
    {
        if points.is_empty() {
            return Err(SeqFault::Empty);
        }
        if points.len() > MOST_POINTS {
            return Err(SeqFault::TooMany);
        }
        if let Some(k) = first_fall(&points) {
            return Err(SeqFault::NotIncreasing(k + 1));
        }
        if let Some(k) = first_out_of_range(&points) {
            return Err(SeqFault::Range(k));
        }
        Ok(Seq { interp, points })
    }

    /// Where the point is between its listed instants.
    pub fn interp(&self) -> Interp
        ensures value { result ≡ self.now.interp }
        ensures valid { IsValid self.now }
    {
        self.interp
    }

    /// Its points, in order of time; there is at least one.
    pub fn points(&self) -> &[Point]
        ensures value { result.now ≡ self.now.points }
        ensures valid { IsValid self.now }
    {
        &self.points
    }

    /// Adds a point at the end. After a fault the sequence is as it was.
    pub fn append(&mut self, point: Point) -> Result<(), AppendFault>
        ensures ok { OnOk result (MayFollow self.old.points point) }
        ensures value { OnOk result
            (self.new ≡ record self.old { points = self.old.points ++ point ∷ [] }) }
        ensures fault { IfErr result (λ fault. IsAppendFault self.old.points point fault) }
        ensures unchanged { OnErr result (self.new ≡ self.old) }
    {
        if !is_later(&self.points, &point) {
            return Err(AppendFault::NotLater);
        }
        if self.points.len() == MOST_POINTS {
            return Err(AppendFault::Full);
        }
        if !point.is_in_range() {
            return Err(AppendFault::Range);
        }
        self.points.push(point)?;
        Ok(())
    }
}

/// Whether the point is later than the last one.
fn is_later(points: &[Point], point: &Point) -> bool
    requires { 1 ≤ length points.now }
    ensures { IsTrue result ↔ IsLater points.now point.now }
{
    points[points.len() - 1].t < point.t
}

/// The first place whose next point is not later.
fn first_fall(points: &[Point]) -> Option<usize>
    requires { 1 ≤ length points.now }
    ensures { MatchOption result ((k : ℕ) → Rises points.now k)
        (λ k. (k + 1 < length points.now) × FirstFailure (Rises points.now) (length points.now) k) }
{
    for k in 0..points.len() - 1 {
        let point = points[k];
        let next = points[k + 1];
        if next.t <= point.t {
            return Some(k);
        }
    }
    None
}

/// The first point with a coordinate out of range.
fn first_out_of_range(points: &[Point]) -> Option<usize>
    ensures { MatchOption result ((k : ℕ) → EachAt points.now InBounds k)
        (λ k. FirstFailure (EachAt points.now InBounds) (length points.now) k) }
{
    for k in 0..points.len() {
        if !points[k].is_in_range() {
            return Some(k);
        }
    }
    None
}

impl Clone for Seq {
    ghost is_clone = { λ s copy. copy ≡ s };

    fn clone(&self) -> Result<Seq, AllocError> {
        let points = self.points.clone()?;
        Ok(Seq {
            interp: self.interp,
            points,
        })
    }
}

impl PartialEq for Seq {
    ghost eq = { same_sequence };

    ghost laws = { partial_equiv_from_equiv same_sequence_equiv };

    fn eq(&self, other: &Seq) -> bool
        ensures value { result ≡ same_sequence self.now other.now }
        ensures same { IsTrue result ↔ (self.now ≡ other.now) }
    {
        self.points == other.points && self.interp == other.interp
    }
}

impl Eq for Seq {
    ghost laws = { same_sequence_equiv };
}
