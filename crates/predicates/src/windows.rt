//! Windows of a leg's parameter, which is 0 at the leg's begin and 1 at its end.

ghost use Rattle.std.specs.Prelude.{◌≡◌, ◌≤◌, ◌&&◌, ◌↔◌, MatchOption};
ghost use Rattle.tpoint.specs.Fraction.{Fraction, ◌≤ᶠ◌};
ghost use Rattle.tpoint.specs.Extents.{Before};
ghost use Rattle.predicates.specs.Bounds.{parameter};

use crate::bounds::Bound;

/// The parameters from `low` to `high`, of which there is at least one.
#[derive(Clone, Copy)]
pub struct Window {
    low: Bound,
    high: Bound,
    ghost inhabited: { Before (low.counts && high.counts) (parameter low) (parameter high) },
}

impl Window {
    ghost use Rattle.predicates.specs.Windows.{InWindow, InLeg, IsWindowOf};

    /// The whole of a leg.
    #[inline(always)]
    pub fn whole() -> Window
        ensures { (u : Fraction) → InWindow u result ↔ InLeg u }
    {
        Window {
            low: Bound {
                num: 0,
                den: 1,
                counts: true,
            },
            high: Bound {
                num: 1,
                den: 1,
                counts: true,
            },
        }
    }

    /// The window from one end to another, or None where no parameter is.
    fn new(low: Bound, high: Bound) -> Option<Window>
        ensures { IsWindowOf result
            (λ u. Before low.counts (parameter low) u × Before high.counts u (parameter high)) }
    {
        if low.is_before(high, low.counts && high.counts) {
            Some(Window { low, high })
        } else {
            None
        }
    }

    /// Its part from an end on.
    pub fn from(self, bound: Bound) -> Option<Window>
        ensures { IsWindowOf result
            (λ u. InWindow u self × Before bound.counts (parameter bound) u) }
    {
        Window::new(self.low.later(bound), self.high)
    }

    /// Its part up to an end.
    pub fn until(self, bound: Bound) -> Option<Window>
        ensures { IsWindowOf result
            (λ u. InWindow u self × Before bound.counts u (parameter bound)) }
    {
        Window::new(self.low, self.high.earlier(bound))
    }
}
