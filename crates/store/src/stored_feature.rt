//! A feature as a database holds it.

ghost use Rattle.std.specs.Prelude.{◌≡◌, ◌≤◌, ◌↔◌, false, nat_lt, IsTrue, IsOk, IfOk, OnOk, OnErr};
ghost use Rattle.tpoint.specs.Moving.{At, InBounds};
ghost use Rattle.tpoint.specs.Extents.{HasInstant, Shares, first_whole, last_whole};
ghost use Rattle.predicates.specs.Predicates.{IsEver, IsAlways};
ghost use Rattle.store.specs.Operations.{append_reply, append_effect, is_done};
ghost use Rattle.store.specs.Bounds.{StaysIn, StaysOutOf};

use crate::blocks::Blocks;
use crate::bounds::Bounds;
use crate::reply::Reply;
use mfjson::Feature;
use predicates::{Tri, always, ever};
use std::alloc::{AllocError, Global};
use std::marker::Model;
use tpoint::{AppendFault, Id, Interp, Period, Point, Rect, Seq};

/// A feature. It lies apart, so that little is moved where one makes room for another.
#[derive(Drop)]
pub(crate) struct StoredFeature {
    feature: Box<Feature>,
    /// The least rectangle that has its listed positions. It may tell with no look at them.
    bounds: Bounds,
    /// The same of each block of its legs.
    blocks: Blocks,
}

impl Model for StoredFeature {
    ghost use Rattle.mfjson.specs.declared.feature.Feature.{Feature};
    ghost use Rattle.store.specs.Bounds.{HoldsAll};
    ghost use Rattle.store.specs.Blocks.{BlocksHold};

    ghost Value = { Feature };

    ghost view = { λ held. held.feature.value };

    ghost invariant = { λ held. HoldsAll held.bounds held.feature.value.seq.points
        × BlocksHold held.blocks.bounds.items held.feature.value.seq.points };
}

impl StoredFeature {
    /// The feature with this id and a copy of the sequence.
    pub fn new(alloc: Global, id: Id, seq: &Seq) -> Result<StoredFeature, AllocError>
        ensures { IfOk result (λ held. held ≡ record { id = id; seq = seq.now }) }
    {
        StoredFeature::holding(alloc, id, seq.clone()?)
    }

    /// The feature with this id and this sequence.
    pub fn holding(alloc: Global, id: Id, seq: Seq) -> Result<StoredFeature, AllocError>
        ensures { IfOk result (λ held. held ≡ record { id = id; seq = seq }) }
    {
        let bounds = Bounds::of(seq.points());
        let blocks = Blocks::of(alloc, &seq);
        let feature = Box::new(alloc, Feature { id, seq })?;
        Ok(StoredFeature {
            feature,
            bounds,
            blocks,
        })
    }

    /// What is held.
    pub fn feature(&self) -> &Feature
        ensures { result.now ≡ self.now }
    {
        &self.feature
    }

    /// Whether it is ever in a rectangle.
    pub fn ever(&self, period: &Period, area: &Rect) -> Tri
        ensures { IsEver self.now.seq period.now area.now result }
    {
        let seq = &self.feature().seq;
        let is_out = self.stays_out_of(area);
        let is_in = self.stays_in(area);
        if !is_out && !is_in {
            return self.search(period, area);
        }
        if !is_there(seq, period) {
            return Tri::None;
        }
        if is_out { Tri::No } else { Tri::Yes }
    }

    /// Whether it is ever in a rectangle, as its legs tell. Those of blocks that are apart from it are passed.
    fn search(&self, period: &Period, area: &Rect) -> Tri
        ensures { IsEver self.now.seq period.now area.now result }
    {
        let seq = &self.feature.seq;
        let covered = self.blocks.cover(seq);
        if !covered || seq.interp() != Interp::Linear || !self.passes_many(period) {
            return ever(seq, period, area);
        }
        if self.blocks.enter(seq, period, area) {
            return Tri::Yes;
        }
        if is_there(seq, period) {
            Tri::No
        } else {
            Tri::None
        }
    }

    /// Whether it is likely that blocks are passed, and that it takes less to ask them than to find the legs in a period.
    fn passes_many(&self, period: &Period) -> bool {
        self.blocks.are_small_beside(self.bounds) && is_long(period, &self.feature.seq.span())
    }

    /// Whether it is always in a rectangle.
    pub fn always(&self, period: &Period, area: &Rect) -> Tri
        ensures { IsAlways self.now.seq period.now area.now result }
    {
        let seq = &self.feature().seq;
        if !self.stays_in(area) {
            return always(seq, period, area);
        }
        if is_there(seq, period) {
            Tri::Yes
        } else {
            Tri::None
        }
    }

    /// Whether its bounds tell that it is never in a rectangle.
    pub fn stays_out_of(&self, area: &Rect) -> bool
        ensures { IsTrue result → StaysOutOf self.now.seq area.now }
    {
        // Read, so that its sequence is known to be valid.
        let _points = self.feature.seq.points();
        self.bounds.is_apart(area)
    }

    /// Whether its bounds tell that it never leaves a rectangle.
    fn stays_in(&self, area: &Rect) -> bool
        ensures { IsTrue result → StaysIn self.now.seq area.now }
    {
        // Read, so that its sequence is known to be valid.
        let _points = self.feature.seq.points();
        self.bounds.is_inside(area)
    }

    /// The feature has another sequence.
    pub fn set_seq(&mut self, seq: Seq)
        ensures { self.new ≡ record self.old { seq = seq } }
    {
        self.bounds = Bounds::of(seq.points());
        self.blocks.renew(&seq);
        self.feature.seq = seq;
    }

    /// Adds a point to the points of the feature.
    pub fn append(&mut self, point: Point) -> Result<Reply, AllocError>
        requires { InBounds point }
        ensures reply { IfOk result (λ told. told ≡ append_reply self.old.seq.points point) }
        ensures effect { OnOk result (self.new ≡ record self.old { seq = append_effect self.old.seq point }) }
        ensures err { OnErr result (self.new ≡ self.old) }
        ensures in_place { is_done (append_reply self.old.seq.points point) ≡ false → IsOk result }
    {
        match self.feature.seq.append(point) {
            Ok(()) => {
                self.bounds = self.bounds.with(&point);
                self.blocks.append(&self.feature.seq, &point);
                Ok(Reply::Done)
            }
            Err(AppendFault::NotLater) => Ok(Reply::NotLater),
            Err(AppendFault::Full) => Ok(Reply::Full),
            Err(AppendFault::Memory) => Err(AllocError),
            Err(AppendFault::Range) => unreachable!(),
        }
    }
}

/// Whether a period is no shorter than a quarter of a span.
fn is_long(period: &Period, span: &Period) -> bool {
    let length = period.end().ms() - period.begin().ms();
    let whole = span.end().ms() - span.begin().ms();
    whole / 4 <= length
}

/// Whether a sequence has a value in the period.
fn is_there(seq: &Seq, period: &Period) -> bool
    ensures { IsTrue result ↔ Shares (At seq.now) period.now }
{
    if seq.interp() == Interp::Discrete {
        is_listed_in(seq, period)
    } else {
        is_between_ends_in(seq, period)
    }
}

/// Whether a sequence that has values at its listed instants alone has one in the period.
fn is_listed_in(seq: &Seq, period: &Period) -> bool
    requires { seq.now.interp ≡ Interp.Discrete }
    ensures { IsTrue result ↔ Shares (At seq.now) period.now }
{
    let points = seq.points();
    let from = period.first_whole();
    let earlier = points.partition_point(
        |point: &Point| -> bool
            ensures { result ≡ nat_lt point.now.t from }
        { point.t < from },
    );
    match points.get(earlier) {
        Some(first) => first.t <= period.last_whole(),
        None => false,
    }
}

/// Whether a sequence that has a value at each instant of its span has one in the period.
fn is_between_ends_in(seq: &Seq, period: &Period) -> bool
    requires { ¬ (seq.now.interp ≡ Interp.Discrete) }
    ensures { IsTrue result ↔ Shares (At seq.now) period.now }
{
    // Read, so that the sequence is known to be valid.
    let _points = seq.points();
    seq.values_lie_in_its_span();
    overlap(period, &seq.span())
}

/// Whether a period has an instant of a span.
fn overlap(period: &Period, span: &Period) -> bool
    ensures overlap { IsTrue result
        ↔ ((first_whole period.now ≤ span.now.end) × (span.now.begin ≤ last_whole period.now)) }
    ensures has_instant { HasInstant period.now }
{
    period.first_whole() <= span.end() && span.begin() <= period.last_whole()
}
