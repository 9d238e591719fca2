//! Charts.

ghost use Rattle.std.specs.Prelude.{◌≡◌, ◌↔◌, ◌≤ℤ◌, neg_ℤ, IsTrue, IsSome, IfSome};
ghost use Rattle.fleetmap.specs.Charts.{Square, IsSquare};

use std::marker::Model;
use tpoint::FURTHEST;

/// So many hundredths of the picture's unit are a chart's side.
pub const SIDE: u32 = 104_000;

/// An edge of a chart is at most so many millimetres from 0.
pub const FURTHEST_EDGE: i64 = 100_000_000_000;

/// A chart's side is at most so many millimetres long.
pub const LONGEST_SPAN: u64 = 100_000_000_000;

/// A square of the ground, and how it is drawn: `SIDE` hundredths of the picture's unit stand for its side.
#[derive(Clone, Copy)]
pub struct Chart {
    west: i64,
    south: i64,
    span: u64,
}

impl Model for Chart {
    ghost use Rattle.fleetmap.specs.Charts.{Square, IsSquare};

    ghost Value = { Square };

    ghost view = { λ c. record { west = c.west; south = c.south; span = c.span } };

    ghost invariant = { λ c. IsSquare (record { west = c.west; south = c.south; span = c.span }) };

    ghost inverse = { λ s. record { west = s.west; south = s.south; span = s.span } };
}

impl Chart {
    /// The chart of the square with this lower left corner and this side, in millimetres; None where it has no extent, or goes
    /// beyond what a chart may have.
    pub fn new(west: i64, south: i64, span: u64) -> Option<Chart>
        ensures valid { IsSome result ↔ IsSquare (record { west = west; south = south; span = span }) }
        ensures value { IfSome result (λ c. c ≡ record { west = west; south = south; span = span }) }
    {
        if !is_edge(west) || !is_edge(south) || span == 0 || span > LONGEST_SPAN {
            return None;
        }
        Some(Chart { west, south, span })
    }

    /// The chart of all coordinates.
    pub(crate) fn of_all() -> Chart
        ensures { IsSquare result }
    {
        Chart {
            west: -FURTHEST,
            south: -FURTHEST,
            span: 2 * FURTHEST as u64,
        }
    }

    /// The least x, in millimetres.
    pub fn west(&self) -> i64
        ensures value { result ≡ self.now.west }
        ensures valid { IsSquare self.now }
    {
        self.west
    }

    /// The least y, in millimetres.
    pub fn south(&self) -> i64
        ensures value { result ≡ self.now.south }
        ensures valid { IsSquare self.now }
    {
        self.south
    }

    /// How long its side is, in millimetres.
    pub fn span(&self) -> u64
        ensures value { result ≡ self.now.span }
        ensures valid { IsSquare self.now }
    {
        self.span
    }
}

/// Whether an edge may lie there.
fn is_edge(z: i64) -> bool
    ensures { IsTrue result ↔ (neg_ℤ FURTHEST_EDGE ≤ℤ z) × (z ≤ℤ FURTHEST_EDGE) }
{
    -FURTHEST_EDGE <= z && z <= FURTHEST_EDGE
}
