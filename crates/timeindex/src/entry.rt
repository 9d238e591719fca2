//! Entries as they are kept.

ghost use Rattle.std.specs.Prelude.{◌≡◌, ◌&&◌, pos, int_le, nat_le, IfOk};
ghost use Rattle.timeindex.specs.Entries.{overlaps};

use std::alloc::{AllocError, Global};
use std::marker::Model;
use tpoint::{Id, Instant, Period};

/// From when to when something is, both included.
///
/// What it is lies apart: so little is moved where one entry makes room for another, and the filter reads nothing else.
#[derive(Drop)]
pub(crate) struct Entry {
    id: Box<Id>,
    first: Instant,
    last: Instant,
}

impl Model for Entry {
    ghost use Rattle.timeindex.specs.Entries.{Entry};

    ghost Value = { Entry };

    ghost view = { λ e. record { id = e.id.value; first = e.first; last = e.last } };
}

impl Entry {
    pub fn new(alloc: Global, id: Id, first: Instant, last: Instant) -> Result<Entry, AllocError>
        ensures { IfOk result (λ e. e ≡ record { id = id; first = first; last = last }) }
    {
        let id = Box::new(alloc, id)?;
        Ok(Entry { id, first, last })
    }

    /// What is.
    pub fn id(&self) -> Id
        ensures { result ≡ self.now.id }
    {
        *self.id
    }

    /// It is from another instant on, and up to another.
    pub fn replace(&mut self, first: Instant, last: Instant)
        ensures { self.new ≡ record self.old { first = first; last = last } }
    {
        self.first = first;
        self.last = last;
    }

    /// Whether it has an instant in the period.
    pub fn overlaps(&self, period: &Period) -> bool
        ensures { result ≡ overlaps period.now self.now }
    {
        touch(
            self.first,
            self.last,
            period.first_whole(),
            period.last_whole(),
        )
    }
}

/// Whether what is from the first instant to the last has begun at the end, and lasts to the begin. One comparison tells: neither
/// does the end come before the first instant, nor the last instant before the begin.
#[inline(always)]
fn touch(first: Instant, last: Instant, begin: Instant, end: Instant) -> bool
    ensures { result ≡ (nat_le first end && nat_le begin last) }
{
    let until_end = end.ms() - first.ms();
    let from_begin = last.ms() - begin.ms();
    none_negative(until_end, from_begin)
}

/// Whether neither number is negative: one comparison tells, since `a | b` is negative where either is.
#[tactic(auto, using(crate::proofs::SignLemmas::sign_or))]
fn none_negative(a: i64, b: i64) -> bool
    ensures { result ≡ (int_le (pos 0) a && int_le (pos 0) b) }
{
    a | b >= 0
}
