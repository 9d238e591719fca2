//! The nodes of a run, and the name of one of them.

ghost use Rattle.std.specs.Prelude.{◌≡◌, ◌⊎◌, ◌<◌, ◌↔◌, IfSome, IsSome};

use std::marker::Model;
use synod::MOST_NODES;

/// How many nodes a run has: 3, 5 or 7.
#[derive(Clone, Copy, Debug, PartialEq, Eq)]
pub struct Nodes {
    count: u8,
}

impl Model for Nodes {
    ghost use Rattle.std.specs.Prelude.{ℕ, ◌≡◌, ◌⊎◌};

    ghost Value = { ℕ };

    ghost view = { λ nodes. nodes.count };

    ghost invariant = { λ nodes. (nodes.count ≡ 3) ⊎ (nodes.count ≡ 5) ⊎ (nodes.count ≡ 7) };

    ghost inverse = { λ n. record { count = n } };
}

impl Nodes {
    /// This many nodes, or None where a run can't have as many.
    pub fn new(count: u8) -> Option<Nodes>
        ensures valid { IsSome result ↔ (count ≡ 3) ⊎ (count ≡ 5) ⊎ (count ≡ 7) }
        ensures value { IfSome result (λ nodes. nodes ≡ count) }
    {
        match count {
            3 | 5 | 7 => Some(Nodes { count }),
            _ => None,
        }
    }

    /// How many there are.
    pub fn count(self) -> u8
        ensures value { result ≡ self }
        ensures odd { (result ≡ 3) ⊎ (result ≡ 5) ⊎ (result ≡ 7) }
    {
        self.count
    }

    /// The node of this number, which the run has.
    pub fn node(self, number: u8) -> NodeId
        requires { number < self }
        ensures { result ≡ number }
    {
        // Read, so that it is known how many nodes there are at most.
        let _count = self.count;
        NodeId { value: number }
    }
}

/// The name of a node: its number, from 0, below that of the nodes in the largest run.
#[derive(Clone, Copy, Debug, PartialEq, Eq, PartialOrd, Ord)]
pub struct NodeId {
    value: u8,
}

impl Model for NodeId {
    ghost use Rattle.std.specs.Prelude.{ℕ, ◌<◌};

    ghost Value = { ℕ };

    ghost view = { λ node. node.value };

    ghost invariant = { λ node. node.value < 7 };

    ghost inverse = { λ n. record { value = n } };
}

impl NodeId {
    /// The node of this number, or None where no run has it.
    pub fn new(value: u8) -> Option<NodeId>
        ensures valid { IsSome result ↔ (value < MOST_NODES) }
        ensures value { IfSome result (λ node. node ≡ value) }
    {
        if value < MOST_NODES {
            Some(NodeId { value })
        } else {
            None
        }
    }

    /// Its number.
    pub fn value(self) -> u8
        ensures value { result ≡ self }
        ensures of_a_node { result < MOST_NODES }
    {
        self.value
    }
}
