//! The ends of a window of parameters.

ghost use Rattle.std.specs.Prelude.{◌≡◌, ◌*◌, ◌^◌, ◌<◌, ◌≤◌, ◌↔◌, IsTrue};

/// A parameter of a leg, the fraction `num / den` from 0 to 1, as an end of a window.
#[derive(Clone, Copy)]
pub struct Bound {
    pub num: u64,
    pub den: u64,
    /// Whether the parameter itself is in the window.
    pub counts: bool,
    ghost positive: { 1 ≤ den },
    ghost at_most_one: { num ≤ den },
    ghost small: { den < 2 ^ 48 },
}

impl Bound {
    ghost use Rattle.tpoint.specs.Fraction.{Fraction};
    ghost use Rattle.tpoint.specs.Extents.{Before};
    ghost use Rattle.predicates.specs.Bounds.{parameter};

    /// Whether it is before another parameter, or is that one where this counts.
    pub fn is_before(self, other: Bound, counts: bool) -> bool
        ensures { IsTrue result ↔ Before counts (parameter self) (parameter other) }
    {
        let here = product(self.num, other.den);
        let there = product(other.num, self.den);
        if counts { here <= there } else { here < there }
    }

    /// The later of two ends at which windows begin: what is from it on is from both on.
    pub fn later(self, other: Bound) -> Bound
        ensures { (u : Fraction) → Before result.counts (parameter result) u ↔
            (Before self.counts (parameter self) u × Before other.counts (parameter other) u) }
    {
        // Of two at one parameter the one that does not count leaves less.
        if self.is_before(other, !other.counts) {
            other
        } else {
            self
        }
    }

    /// The earlier of two ends at which windows end: what is up to it is up to both.
    pub fn earlier(self, other: Bound) -> Bound
        ensures { (u : Fraction) → Before result.counts u (parameter result) ↔
            (Before self.counts u (parameter self) × Before other.counts u (parameter other)) }
    {
        if other.is_before(self, !other.counts) {
            other
        } else {
            self
        }
    }
}

/// The product of two numbers of a fraction, in 128 bits.
fn product(a: u64, b: u64) -> u128
    requires a_small { a < 2 ^ 48 }
    requires b_small { b < 2 ^ 48 }
    ensures value { result ≡ a * b }
    ensures small { result < 2 ^ 100 }
{
    u128::from(a) * u128::from(b)
}
