//! Periods of time.

ghost use Rattle.std.specs.Prelude.{◌≡◌, ◌≤◌, ◌↔◌, true, IsSome, IfSome};
ghost use Rattle.tpoint.specs.Extents.{HasInstant, closed, first_whole, last_whole};

use crate::Instant;
use std::marker::Model;

/// A period of time from its begin to its end. Each of the two is in it or isn't; every fraction between them is.
#[derive(Clone, Copy, Debug, PartialEq, Eq)]
pub struct Period {
    begin: Instant,
    end: Instant,
    begin_in: bool,
    end_in: bool,
}

impl Model for Period {
    ghost use Rattle.tpoint.specs.Extents.{Span, HasInstant};

    ghost Value = { Span };

    ghost view = { λ p. record { begin = p.begin; end = p.end; begin_in = p.begin_in; end_in = p.end_in } };

    ghost invariant = { λ p. HasInstant
        (record { begin = p.begin; end = p.end; begin_in = p.begin_in; end_in = p.end_in }) };

    ghost inverse = { λ s. record { begin = s.begin; end = s.end; begin_in = s.begin_in; end_in = s.end_in } };
}

impl Period {
    /// The period between two instants, both in it, or None where it would end before it begins.
    pub fn new(begin: Instant, end: Instant) -> Option<Period>
        ensures valid { IsSome result ↔ (begin ≤ end) }
        ensures value { IfSome result (λ p. p ≡ closed begin end) }
    {
        Period::with(begin, end, true, true)
    }

    /// The period between two instants, each of which is in it or isn't, or None where no instant would be in it: where it
    /// would end before it begins, or would be one instant that isn't in it.
    pub fn with(begin: Instant, end: Instant, begin_in: bool, end_in: bool) -> Option<Period>
        ensures valid { IsSome result ↔ HasInstant
            (record { begin = begin; end = end; begin_in = begin_in; end_in = end_in }) }
        ensures value { IfSome result
            (λ p. p ≡ record { begin = begin; end = end; begin_in = begin_in; end_in = end_in }) }
    {
        if begin < end || (begin == end && begin_in && end_in) {
            Some(Period {
                begin,
                end,
                begin_in,
                end_in,
            })
        } else {
            None
        }
    }

    /// The instant at which it begins.
    pub fn begin(&self) -> Instant
        ensures value { result ≡ self.now.begin }
        ensures ordered { self.now.begin ≤ self.now.end }
    {
        self.begin
    }

    /// The instant at which it ends.
    pub fn end(&self) -> Instant
        ensures value { result ≡ self.now.end }
        ensures ordered { self.now.begin ≤ self.now.end }
    {
        self.end
    }

    /// Whether its begin is in it.
    pub fn begin_in(&self) -> bool
        ensures value { result ≡ self.now.begin_in }
        ensures has_instant { HasInstant self.now }
    {
        self.begin_in
    }

    /// Whether its end is in it.
    pub fn end_in(&self) -> bool
        ensures value { result ≡ self.now.end_in }
        ensures has_instant { HasInstant self.now }
    {
        self.end_in
    }

    /// The first whole millisecond of those that are not before it. Its whole milliseconds are those from here to the last;
    /// there are none where that is earlier.
    #[inline(always)]
    pub fn first_whole(&self) -> Instant
        ensures value { result ≡ first_whole self.now }
        ensures has_instant { HasInstant self.now }
    {
        let begin = self.begin;
        // Where its begin isn't in it, its end is later, so that there is another millisecond.
        let _end = self.end.ms();
        if self.begin_in { begin } else { begin.next() }
    }

    /// The last whole millisecond of those that are not after it.
    #[inline(always)]
    pub fn last_whole(&self) -> Instant
        ensures value { result ≡ last_whole self.now }
        ensures has_instant { HasInstant self.now }
    {
        let end = self.end;
        if self.end_in { end } else { end.previous() }
    }
}
