//! The members of a round by hand.

ghost use Rattle.std.specs.Prelude.{◌≡◌};

use std::marker::Model;
use wire::NodeId;

/// The members of a round, in the order in which they were given. A node may stand there twice: the world refuses it.
#[derive(Drop)]
pub struct Members {
    nodes: Vec<NodeId>,
}

impl Model for Members {
    ghost use Rattle.std.specs.Prelude.{List, ℕ};

    ghost Value = { List ℕ };

    ghost view = { λ m. m.nodes.items };
}

impl Members {
    /// These nodes, as members.
    pub fn new(nodes: Vec<NodeId>) -> Members
        ensures { result ≡ nodes.items }
    {
        Members { nodes }
    }

    /// The nodes, in the order in which they were given.
    pub fn as_slice(&self) -> &[NodeId]
        ensures { result.now ≡ self.now }
    {
        self.nodes.as_slice()
    }
}
