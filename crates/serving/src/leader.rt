//! Who leads.

ghost use Rattle.std.specs.Prelude.{◌≡◌, ◌<◌, ◌↔◌, Some, None, IsTrue, option_map};
ghost use Rattle.synod.specs.Ballots.{rank, rank_of};
ghost use Rattle.serving.specs.Timings.{is_highest, is_led_by};

use std::marker::Model;
use synod::Ballot;

/// The node of the highest ballot of which a node has seen that it was asked for. It may have lost the lead since, or be down.
#[derive(Debug, Drop)]
pub struct Leader {
    highest: Option<Ballot>,
}

impl Model for Leader {
    ghost use Rattle.std.specs.Prelude.{Option};
    ghost use Rattle.synod.specs.declared.ballot.Ballot.{Ballot};

    ghost Value = { Option Ballot };

    ghost view = { λ leader. leader.highest };
}

impl Leader {
    /// No ballot was seen.
    pub fn unknown() -> Leader
        ensures { result ≡ None }
    {
        Leader { highest: None }
    }

    /// A ballot was seen: whether it is higher than all before it.
    pub fn see(&mut self, ballot: Ballot) -> bool
        ensures higher { IsTrue result ↔ (rank_of self.old < rank ballot) }
        ensures raised { IsTrue result → self.new ≡ Some ballot }
        ensures kept { ¬ IsTrue result → self.new ≡ self.old }
    {
        let is_higher = match self.highest {
            Some(highest) => highest < ballot,
            None => true,
        };
        if is_higher {
            self.highest = Some(ballot);
        }
        is_higher
    }

    /// Whether this is its ballot.
    pub fn is_of(&self, ballot: Ballot) -> bool
        ensures { result ≡ is_highest self.now ballot }
    {
        match self.highest {
            Some(highest) => highest == ballot,
            None => false,
        }
    }

    /// Whether it has this number.
    pub fn is_node(&self, node: u8) -> bool
        ensures { result ≡ is_led_by node self.now }
    {
        match self.highest {
            Some(highest) => highest.node == node,
            None => false,
        }
    }

    /// Its number, or None where no ballot was seen.
    pub fn node(&self) -> Option<u8>
        ensures { result ≡ option_map (λ ballot. ballot.node) self.now }
    {
        match self.highest {
            Some(ballot) => Some(ballot.node),
            None => None,
        }
    }
}
