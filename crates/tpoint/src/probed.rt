//! Points whose instants are looked at.

ghost use Rattle.std.specs.Prelude.{◌≡◌, ◌+◌, ◌^◌, ◌<◌};
ghost use Rattle.tpoint.specs.Listing.{IsListed, instants_of};

use crate::{Instant, Listed, Point};
use std::cmp::Ordering;

/// Points in order of time, and how many of their instants were looked at.
#[derive(Drop)]
pub(crate) struct Probed<'a> {
    points: &'a [Point],
    probes: u32,
    ghost listed: { IsListed (instants_of points.now) },
}

impl<'a> Probed<'a> {
    /// Points of which none was looked at.
    pub(crate) fn new(points: &'a [Point]) -> Probed<'a>
        requires { IsListed (instants_of points.now) }
        ensures points { result.points.now ≡ points.now }
        ensures probes { result.probes ≡ 0 }
    {
        Probed { points, probes: 0 }
    }

    /// How many were looked at.
    pub(crate) fn probes(&self) -> u32
        ensures { result ≡ self.now.probes }
    {
        self.probes
    }
}

impl Listed for Probed<'_> {
    ghost instants = { λ probed. instants_of probed.points.now };

    ghost probes = { λ probed. probed.probes };

    fn len(&self) -> u32 {
        self.points.len() as u32
    }

    fn compare(&mut self, i: u32, t: Instant) -> Ordering {
        self.probes += 1;
        self.points[i as usize].t.cmp(&t)
    }
}
