//! How far a campaign of this node reaches.

ghost use Rattle.std.specs.Prelude.{◌≡◌, ◌↔◌, Some, None, IsTrue};
ghost use Rattle.serving.specs.Recovery.{GoesOn, reach_with};

use std::marker::Model;
use synod::Slot;

/// How far the promises to a node's own campaign reach: the least of their last slots. None came yet where there is none.
///
/// A promise tells of a few votes alone. So a run that was down as a whole, in which nobody knows what is chosen, comes back by one
/// campaign after another, each at once where the one before it ended.
#[derive(Debug, Drop)]
pub struct Campaign {
    reach: Option<Slot>,
}

impl Model for Campaign {
    ghost use Rattle.std.specs.Prelude.{ℕ, Option};

    ghost Value = { Option ℕ };

    ghost view = { λ campaign. campaign.reach };
}

impl Campaign {
    /// A campaign to which no promise came.
    pub fn new() -> Campaign
        ensures { result ≡ None }
    {
        Campaign { reach: None }
    }

    /// A promise to it came, whose last slot is this.
    pub fn see(&mut self, last: Slot)
        ensures { self.new ≡ Some (reach_with self.old last) }
    {
        match self.reach {
            Some(reach) if reach.value() <= last.value() => {}
            _ => self.reach = Some(last),
        }
    }

    /// Whether the next one is to start at once: this node leads and is beyond what it was promised, but not beyond what was voted.
    pub fn goes_on(&self, is_leader: bool, position: u32, horizon: u32) -> bool
        ensures { IsTrue result ↔ GoesOn is_leader self.now position horizon }
    {
        match self.reach {
            Some(reach) => is_leader && reach.value() < position && position < horizon,
            None => false,
        }
    }
}
