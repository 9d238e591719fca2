//! Packets that are dropped, and how many.

ghost use Rattle.std.specs.Prelude.{◌≡◌};
ghost use Rattle.peers.specs.Dropping.{nothing_dropped, with_dropped};

/// Why a packet is dropped: the first of these that holds of it.
#[derive(Clone, Copy, Debug, PartialEq, Eq)]
pub enum Dropped {
    /// It has fewer bytes than a head.
    Short,
    /// It names another run.
    AnotherRun,
    /// Its digest is none of its bytes under the run's key.
    Digest,
}

/// How many packets were dropped, by cause. A count stays at its greatest value.
#[derive(Clone, Copy, Debug, PartialEq, Eq)]
pub struct Drops {
    pub short: u64,
    pub another_run: u64,
    pub digest: u64,
}

impl Drops {
    /// Nothing was dropped.
    pub fn none() -> Drops
        ensures { result ≡ nothing_dropped }
    {
        Drops {
            short: 0,
            another_run: 0,
            digest: 0,
        }
    }

    /// Counts a packet that was dropped.
    pub fn count(&mut self, dropped: Dropped)
        ensures { self.new ≡ with_dropped self.old dropped }
    {
        match dropped {
            Dropped::Short => self.short = self.short.saturating_add(1),
            Dropped::AnotherRun => self.another_run = self.another_run.saturating_add(1),
            Dropped::Digest => self.digest = self.digest.saturating_add(1),
        }
    }
}
