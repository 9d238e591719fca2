//! How far a node has seen votes.

ghost use Rattle.std.specs.Prelude.{◌≡◌, ◌+◌, ◌<◌, ◌≤◌, ◌↔◌, max, IsTrue};
ghost use Rattle.serving.specs.Timings.{above_votes};

use std::marker::Model;
use synod::{SLOTS, Slot};
use wire::Entry;

/// The least number above every slot for which a node has seen a vote: what lies below it may be chosen, and is worth asking for.
#[derive(Debug, Drop)]
pub struct Horizon {
    end: u32,
}

impl Model for Horizon {
    ghost use Rattle.std.specs.Prelude.{ℕ, ◌≤◌};
    ghost use Rattle.synod.specs.declared.slot.TheConstants.{SLOTS};

    ghost Value = { ℕ };

    ghost view = { λ horizon. horizon.end };

    ghost invariant = { λ horizon. horizon.end ≤ SLOTS };
}

impl Horizon {
    /// No vote was seen.
    pub fn none() -> Horizon
        ensures { result ≡ 0 }
    {
        Horizon { end: 0 }
    }

    /// A vote for the slot was seen.
    pub fn see(&mut self, slot: Slot)
        ensures { self.new ≡ max self.old (slot + 1) }
    {
        let end = slot.value() + 1;
        if self.end < end {
            self.end = end;
        }
    }

    /// Votes that a promise tells were seen.
    #[tactic(auto, using(std::proofs::lemmas::List::Sums::fold_more))]
    pub fn see_entries(&mut self, entries: &[Entry])
        ensures { self.new ≡ above_votes self.old entries.now }
    {
        for entry in entries.iter() {
            self.see(entry.vote().slot);
        }
    }

    /// The number.
    pub fn end(&self) -> u32
        ensures value { result ≡ self.now }
        ensures in_log { result ≤ SLOTS }
    {
        self.end
    }

    /// Whether slots from this position on lie below it.
    pub fn is_beyond(&self, position: u32) -> bool
        ensures { IsTrue result ↔ (position < self.now) }
    {
        position < self.end
    }
}
