//! The rectangles round runs of legs.

ghost use Rattle.std.specs.Prelude.{◌≡◌, ℕ, ◌+◌, ◌*◌, ◌<◌, ◌≤◌, ◌↔◌, List, ◌∷◌, ◌++◌, [], length, vec_len, IsTrue};
ghost use Rattle.tpoint.specs.Fraction.{◌≤ᶠ◌};
ghost use Rattle.tpoint.specs.Moving.{At, moment};
ghost use Rattle.tpoint.specs.Extents.{LiesIn};
ghost use Rattle.tpoint.specs.Pieces.{OnPiece};
ghost use Rattle.tpoint.specs.declared.point.Point.{Point};
ghost use Rattle.predicates.specs.Predicates.{SomeInside};
ghost use Rattle.store.specs.Blocks.{BlocksHold, Cover, IsPeriodOf};

use crate::bounds::Bounds;
use predicates::{Tri, ever};
use std::alloc::Global;
use tpoint::{Instant, Interp, MOST_POINTS, Period, Point, Rect, Seq};

/// The legs of a block. Its points are one more, the last of which is the first of the next block.
pub const BLOCK_LEGS: usize = 32;

/// Bounds for each block of the legs of a sequence, from its first leg on, as far as there was room for them. A sequence
/// of one block has none: the bounds of the whole are those of the block.
#[derive(Drop)]
pub(crate) struct Blocks {
    bounds: Vec<Bounds>,
}

impl Blocks {
    /// The blocks of a sequence.
    pub fn of(alloc: Global, seq: &Seq) -> Blocks
        ensures { BlocksHold result.bounds.items seq.now.points }
    {
        let mut blocks = Blocks {
            bounds: Vec::new(alloc),
        };
        blocks.renew(seq);
        blocks
    }

    /// Another sequence takes the place of theirs.
    pub fn renew(&mut self, seq: &Seq)
        ensures { BlocksHold self.new.bounds.items seq.now.points }
    {
        self.bounds.clear();
        self.fill(seq);
    }

    /// Their sequence has a point more, its last.
    pub fn append(&mut self, seq: &Seq, point: &Point)
        ensures { (ps : List Point) → seq.now.points ≡ ps ++ point.now ∷ [] → BlocksHold self.old.bounds.items ps
            → BlocksHold self.new.bounds.items seq.now.points }
    {
        self.widen(seq.points().len() - 1, point);
        self.fill(seq);
    }

    /// Widens the block whose leg ends at a point, which is new and has this place.
    fn widen(&mut self, place: usize, point: &Point)
        ensures { (ps : List Point) → length ps ≡ place → BlocksHold self.old.bounds.items ps
            → BlocksHold self.new.bounds.items (ps ++ point.now ∷ []) }
    {
        let leg = place.saturating_sub(1);
        let block = leg / BLOCK_LEGS;
        if block < self.bounds.len() {
            self.bounds[block] = self.bounds[block].with(point);
        }
    }

    /// Adds bounds for the blocks that have none.
    fn fill(&mut self, seq: &Seq)
        ensures { BlocksHold self.old.bounds.items seq.now.points → BlocksHold self.new.bounds.items seq.now.points }
    {
        let points = seq.points();
        if seq.interp() == Interp::Linear && BLOCK_LEGS + 1 < points.len() {
            self.push_missing(points);
        }
    }

    fn push_missing(&mut self, points: &[Point])
        requires few { length points.now ≤ MOST_POINTS }
        ensures { BlocksHold self.old.bounds.items points.now → BlocksHold self.new.bounds.items points.now }
    {
        for block in self.bounds.len()..blocks_of(points) {
            let from = BLOCK_LEGS * block;
            let end = points.len().min(from + BLOCK_LEGS + 1);
            // Where a growth is refused, the legs are looked at one by one, as those of a short sequence are.
            if let Err(_) = self.bounds.push(Bounds::of(&points[from..end])) {
                return;
            }
        }
    }

    /// Whether each leg of the sequence is in a block with bounds.
    pub fn cover(&self, seq: &Seq) -> bool
        ensures { IsTrue result → Cover self.now.bounds.items seq.now.points }
    {
        let points = seq.points();
        !self.bounds.is_empty() && blocks_of(points) <= self.bounds.len()
    }

    /// Whether they are likely to be apart from what the whole isn't apart from, as their first one tells.
    pub fn are_small_beside(&self, whole: Bounds) -> bool {
        match self.bounds.first() {
            Some(first) => first.is_small_beside(whole),
            None => false,
        }
    }

    /// Whether the sequence, one of legs, is ever in a rectangle. Blocks apart from it are passed.
    pub fn enter(&self, seq: &Seq, period: &Period, area: &Rect) -> bool
        requires linear { seq.now.interp ≡ Interp.Linear }
        requires hold { BlocksHold self.now.bounds.items seq.now.points }
        requires cover { Cover self.now.bounds.items seq.now.points }
        ensures { IsTrue result ↔ SomeInside (At seq.now) period.now area.now }
    {
        // Read, so that the sequence is known to be valid.
        let _points = seq.points();
        let mut block = 0;
        while block < self.bounds.len() {
            if self.bounds[block].is_apart(area) {
                block += 1;
                continue;
            }
            let next = self.first_apart(block + 1, area);
            if enters_between(seq, BLOCK_LEGS * block, BLOCK_LEGS * next, period, area) {
                return true;
            }
            block = next;
        }
        false
    }

    /// The first block from one on that is apart from a rectangle.
    fn first_apart(&self, from: usize, area: &Rect) -> usize
        requires { from ≤ vec_len self.now.bounds }
        ensures on { from ≤ result }
        ensures within { result ≤ vec_len self.now.bounds }
    {
        for block in from..self.bounds.len() {
            if self.bounds[block].is_apart(area) {
                return block;
            }
        }
        self.bounds.len()
    }
}

/// How many blocks the legs between some points make.
fn blocks_of(points: &[Point]) -> usize
    requires few { length points.now ≤ MOST_POINTS }
    ensures all { length points.now ≤ BLOCK_LEGS * result + 1 }
    ensures each { (block : ℕ) → block < result → BLOCK_LEGS * block + 1 < length points.now }
{
    (points.len() + BLOCK_LEGS - 2) / BLOCK_LEGS
}

/// Whether legs of a sequence, from one up to another, are in a rectangle during a period. It may say so of others as well.
fn enters_between(seq: &Seq, from: usize, to: usize, period: &Period, area: &Rect) -> bool
    requires linear { seq.now.interp ≡ Interp.Linear }
    requires a_leg { from + 1 < length seq.now.points }
    requires order { from < to }
    ensures some { IsTrue result → SomeInside (At seq.now) period.now area.now }
    ensures every { (leg : ℕ) → from ≤ leg → leg < to → SomeInside (OnPiece Interp.Linear seq.now.points leg) period.now area.now → IsTrue result }
{
    let points = seq.points();
    let last = to.min(points.len() - 1);
    let Some(part) = between(period, points[from].t, points[last].t) else {
        return false;
    };
    match ever(seq, &part, area) {
        Tri::Yes => true,
        Tri::No | Tri::None => false,
    }
}

/// The part of a period from an instant to another, or None where it has no instant.
fn between(period: &Period, from: Instant, to: Instant) -> Option<Period>
    ensures { IsPeriodOf result (λ t. LiesIn t period.now × (moment from ≤ᶠ t) × (t ≤ᶠ moment to)) }
{
    let rest = from_on(period, from)?;
    up_to(&rest, to)
}

/// The part of a period from an instant on.
fn from_on(period: &Period, from: Instant) -> Option<Period>
    ensures { IsPeriodOf result (λ t. LiesIn t period.now × (moment from ≤ᶠ t)) }
{
    if from <= period.begin() {
        return Some(*period);
    }
    Period::with(from, period.end(), true, period.end_in())
}

/// The part of a period up to an instant.
fn up_to(period: &Period, to: Instant) -> Option<Period>
    ensures { IsPeriodOf result (λ t. LiesIn t period.now × (t ≤ᶠ moment to)) }
{
    if period.end() <= to {
        return Some(*period);
    }
    Period::with(period.begin(), to, period.begin_in(), true)
}
