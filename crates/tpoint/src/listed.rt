//! A search among instants in order.

ghost use Rattle.std.specs.Prelude.{◌≡◌, ℕ, ◌+◌, ◌^◌, ◌<◌, ◌≤◌, List, length, count_by, nat_le, slice_index};
ghost use Rattle.std.specs.List.{AllWithin};
ghost use Rattle.std.specs.Ordering.{nat_cmp};
ghost use Rattle.tpoint.specs.Listing.{IsListed};

use crate::Instant;
use std::cmp::Ordering;

/// A search looks at most this often.
pub const MOST_PROBES: u32 = 11;

/// Instants in a list, 0 to `MOST_POINTS`, each later than the one before.
///
/// Nothing tells of them but `compare`, which counts how often it is asked.
pub trait Listed {
    ghost instants: { Self → List ℕ };

    ghost probes: { Self → ℕ };

    /// How many there are.
    fn len(&self) -> u32
        ensures value { result ≡ length (instants self.now) }
        ensures listed { IsListed (instants self.now) };

    /// The order of the instant at `i` to another. It counts as a probe.
    fn compare(&mut self, i: u32, t: Instant) -> Ordering
        requires in_list { i < length (instants self.old) }
        requires room { probes self.old + 1 < 2 ^ 32 }
        ensures order { result ≡ nat_cmp (slice_index (instants self.old) i) t }
        ensures same { instants self.new ≡ instants self.old }
        ensures counted { probes self.new ≡ probes self.old + 1 };
}

/// How many of the listed instants are not after an instant, by a binary search. It makes at most
/// `MOST_PROBES` probes.
pub fn search<L: Listed>(list: &mut L, t: Instant) -> u32
    requires room { L.probes list.old + MOST_PROBES < 2 ^ 32 }
    ensures number { result ≡ count_by (λ s. nat_le s t) (L.instants list.old) }
    ensures passed { AllWithin (λ s. s ≤ t) (L.instants list.old) 0 result }
    ensures to_come { AllWithin (λ s. t < s) (L.instants list.old) result (length (L.instants list.old)) }
    ensures same { L.instants list.new ≡ L.instants list.old }
    ensures few { L.probes list.new ≤ L.probes list.old + MOST_PROBES }
{
    let mut low = 0;
    let mut high = list.len();
    while low < high {
        let middle = low + (high - low) / 2;
        if list.compare(middle, t).is_gt() {
            high = middle;
        } else {
            low = middle + 1;
        }
    }
    low
}
