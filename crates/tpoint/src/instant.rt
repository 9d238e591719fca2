//! Instants.

ghost use Rattle.std.specs.Prelude.{◌≡◌, ◌+◌, ◌-◌, ◌≤◌, ℤ, pos, ◌≤ℤ◌, ◌↔◌, IsSome, IfSome};
ghost use Rattle.tpoint.specs.Instants.{IsInstant};

use std::marker::Model;

/// The latest instant, 9999-12-31T23:59:59.999Z, in milliseconds since 1970-01-01T00:00:00.000Z.
pub const LAST_MS: i64 = 253_402_300_799_999;

/// An instant: whole milliseconds since 1970-01-01T00:00:00.000Z, from 0 to `LAST_MS`.
#[derive(Clone, Copy, Debug, PartialEq, Eq, PartialOrd, Ord, Hash)]
pub struct Instant {
    ms: u64,
}

impl Model for Instant {
    ghost use Rattle.std.specs.Prelude.{ℕ, pos};

    ghost Value = { ℕ };

    ghost use Rattle.tpoint.specs.Instants.{IsInstant};

    ghost view = { λ t. t.ms };

    ghost invariant = { λ t. IsInstant (pos t.ms) };

    ghost inverse = { λ ms. record { ms = ms } };
}

impl Instant {
    /// The instant of this many milliseconds, or None where there is none.
    pub fn new(ms: i64) -> Option<Instant>
        ensures valid { IsSome result ↔ IsInstant ms }
        ensures value { IfSome result (λ t. ms ≡ pos t) }
    {
        if 0 <= ms && ms <= LAST_MS {
            Some(Instant { ms: ms as u64 })
        } else {
            None
        }
    }

    /// Its milliseconds.
    pub fn ms(self) -> i64
        ensures value { result ≡ pos self }
        ensures in_range { IsInstant result }
    {
        self.ms as i64
    }

    /// The instant a millisecond later.
    pub(crate) fn next(self) -> Instant
        requires { IsInstant (pos (self + 1)) }
        ensures { result ≡ self + 1 }
    {
        Instant { ms: self.ms + 1 }
    }

    /// The instant a millisecond earlier.
    pub(crate) fn previous(self) -> Instant
        requires { 1 ≤ self }
        ensures { result ≡ self - 1 }
    {
        Instant { ms: self.ms - 1 }
    }
}
