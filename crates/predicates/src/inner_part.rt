//! The part of a leg on the inner side of a bound.

ghost use Rattle.std.specs.Prelude.{◌≡◌, ◌≢◌, ◌^◌, ◌<◌, ◌≤◌, ◌-ℤ◌, ◌↔◌, unsigned_abs, IsTrue};
ghost use Rattle.tpoint.specs.Fraction.{Fraction, whole};
ghost use Rattle.tpoint.specs.Ways.{way};
ghost use Rattle.tpoint.specs.Extents.{Before};
ghost use Rattle.predicates.specs.Windows.{InWindow, IsWindowOf, IsInner, AreNear};

use crate::bounds::Bound;
use crate::windows::Window;

/// The window's part at which a number on its way is at least `low`, or above it where `low` does
/// not count.
///
/// The number goes evenly from `from`, at the parameter 0, to `to`, at 1.
#[inline(always)]
pub fn at_least(window: Window, from: i64, to: i64, low: i64, counts: bool) -> Option<Window>
    requires { AreNear from to low }
    ensures { IsWindowOf result
        (λ u. InWindow u window × Before counts (whole low) (way from to u)) }
{
    clip(window, from - low, to - low, counts)
}

/// The window's part at which a number on its way is at most `high`, or below it where `high` does
/// not count.
#[inline(always)]
pub fn at_most(window: Window, from: i64, to: i64, high: i64, counts: bool) -> Option<Window>
    requires { AreNear from to high }
    ensures { IsWindowOf result
        (λ u. InWindow u window × Before counts (way from to u) (whole high)) }
{
    clip(window, high - from, high - to, counts)
}

/// The window's part at which a margin is on the inner side.
///
/// The margin, which tells how far within a bound a number is, goes evenly from `begin` to `end`.
#[inline(always)]
fn clip(window: Window, begin: i64, end: i64, counts: bool) -> Option<Window>
    requires { unsigned_abs (end -ℤ begin) < 2 ^ 48 }
    ensures { IsWindowOf result (λ u. InWindow u window × IsInner counts (way begin end u)) }
{
    let begins_inside = is_inner(begin, counts);
    let ends_inside = is_inner(end, counts);
    match (begins_inside, ends_inside) {
        (true, true) => Some(window),
        (false, true) => window.from(crossing(begin, end, counts)),
        (true, false) => window.until(crossing(begin, end, counts)),
        (false, false) => None,
    }
}

/// Whether a margin is on the inner side: positive, or 0 where the bound counts.
#[inline(always)]
fn is_inner(margin: i64, counts: bool) -> bool
    ensures { IsTrue result ↔ IsInner counts (whole margin) }
{
    if counts { 0 <= margin } else { 0 < margin }
}

/// The parameter at which a margin that changes its side is 0: `begin / (begin - end)`.
fn crossing(begin: i64, end: i64, counts: bool) -> Bound
    requires apart { begin ≢ end }
    requires opposite { unsigned_abs begin ≤ unsigned_abs (end -ℤ begin) }
    requires small { unsigned_abs (end -ℤ begin) < 2 ^ 48 }
    ensures num { result.num ≡ unsigned_abs begin }
    ensures den { result.den ≡ unsigned_abs (end -ℤ begin) }
    ensures counts { result.counts ≡ counts }
{
    Bound {
        num: begin.unsigned_abs(),
        den: (end - begin).unsigned_abs(),
        counts,
    }
}
