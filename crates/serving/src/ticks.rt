//! When a node ticks.

ghost use Rattle.std.specs.Prelude.{◌≡◌, ◌≤◌, ◌-◌, ◌↔◌, IsTrue};
ghost use Rattle.serving.specs.Ticking.{period_of};

use std::marker::Model;

/// So many milliseconds pass between two ticks while something is wanted.
pub const BUSY_PERIOD: u64 = 60;

/// So many pass while nothing is.
pub const IDLE_PERIOD: u64 = 1_000;

/// When a node ticks: what may have been lost is sent again, and what is missing is asked for.
///
/// It ticks seldom even where it wants nothing: a node that was cut off knows of nothing that it could want.
#[derive(Debug, Drop)]
pub struct Ticks {
    last: u64,
}

impl Model for Ticks {
    ghost use Rattle.std.specs.Prelude.{ℕ};

    ghost Value = { ℕ };

    ghost view = { λ ticks. ticks.last };
}

impl Ticks {
    /// As if the last tick were now.
    pub fn from(now: u64) -> Ticks
        ensures { result ≡ now }
    {
        Ticks { last: now }
    }

    /// Whether one is due.
    pub fn is_due(&self, now: u64, is_wanting: bool) -> bool
        ensures { IsTrue result ↔ (period_of is_wanting ≤ now - self.now) }
    {
        period(is_wanting) <= now.saturating_sub(self.last)
    }

    /// In how many milliseconds the next one is due.
    pub fn left(&self, now: u64, is_wanting: bool) -> u64
        ensures { result ≡ period_of is_wanting - (now - self.now) }
    {
        period(is_wanting).saturating_sub(now.saturating_sub(self.last))
    }

    /// It ticks now.
    pub fn tick(&mut self, now: u64)
        ensures { self.new ≡ now }
    {
        self.last = now;
    }
}

/// How long it is from one tick to the next.
fn period(is_wanting: bool) -> u64
    ensures { result ≡ period_of is_wanting }
{
    if is_wanting { BUSY_PERIOD } else { IDLE_PERIOD }
}
