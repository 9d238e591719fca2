//! How long a node waits for progress.

ghost use Rattle.std.specs.Prelude.{◌≡◌, ◌≤◌, ◌-◌, ◌+◌, ◌*◌, ◌<◌, ◌%◌, ◌↔◌, IsTrue};
ghost use Rattle.serving.specs.Patiences.{fresh_patience, next_spread, patience_of};

use std::marker::Model;

/// Every node waits at least so many milliseconds.
pub const LEAST_PATIENCE: u64 = 300;

/// A node waits so many milliseconds longer than the one before it.
pub const NODE_STEP: u64 = 150;

/// The spread that is added is below this.
pub const SPREADS: u64 = 101;

/// A node's patience. Each progress renews it, and where it ends the node starts a campaign.
///
/// Each campaign changes it by a spread, so that two nodes which campaign at once don't go on doing so.
#[derive(Debug, Drop)]
pub struct Patience {
    node: u8,
    spread: u64,
    // When it was renewed last.
    since: u64,
}

impl Model for Patience {
    ghost use Rattle.std.specs.Prelude.{◌<◌, ◌^◌};
    ghost use Rattle.serving.specs.Patiences.{PatienceState};
    ghost use Rattle.serving.specs.declared.patience.TheConstants.{SPREADS};

    ghost Value = { PatienceState };

    ghost view = { λ p. record { node = p.node; spread = p.spread; since = p.since } };

    ghost invariant = { λ p. (p.node < 2 ^ 8) × (p.spread < SPREADS) };
}

impl Patience {
    /// The patience of a node that begins at this time.
    pub fn new(node: u8, now: u64) -> Patience
        ensures { result ≡ fresh_patience node now }
    {
        Patience {
            node,
            spread: u64::from(node) * 53 % SPREADS,
            since: now,
        }
    }

    /// How long it is, in milliseconds.
    pub fn length(&self) -> u64
        ensures value { result ≡ patience_of self.now }
        ensures least { LEAST_PATIENCE + NODE_STEP * self.now.node ≤ result }
        ensures most { result < LEAST_PATIENCE + NODE_STEP * self.now.node + SPREADS }
    {
        LEAST_PATIENCE + NODE_STEP * u64::from(self.node) + self.spread
    }

    /// How many milliseconds of it are left.
    pub fn left(&self, now: u64) -> u64
        ensures { result ≡ patience_of self.now - (now - self.now.since) }
    {
        self.length().saturating_sub(now.saturating_sub(self.since))
    }

    /// Whether it has ended.
    pub fn is_over(&self, now: u64) -> bool
        ensures { IsTrue result ↔ (patience_of self.now ≤ now - self.now.since) }
    {
        self.length() <= now.saturating_sub(self.since)
    }

    /// There was progress.
    pub fn renew(&mut self, now: u64)
        ensures { self.new ≡ record self.old { since = now } }
    {
        self.since = now;
    }

    /// It has ended, and a campaign starts: from now on it has another spread.
    pub fn end(&mut self, now: u64)
        ensures { self.new ≡ record self.old { spread = next_spread self.old.spread; since = now } }
    {
        self.spread = (self.spread + 37) % SPREADS;
        self.since = now;
    }
}
