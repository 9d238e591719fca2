//! Sets of nodes.

ghost use Rattle.std.specs.Prelude.{◌≡◌, ◌≢◌, ℕ, ◌↔◌, IsTrue, true, false};
ghost use Rattle.synod.specs.Majorities.{counted, IsMajority};

use super::nodes::{NodeId, Nodes};
use std::marker::Model;
use synod::{MOST_NODES, is_majority};

/// Some of the nodes that the largest run has.
#[derive(Clone, Copy, Debug, PartialEq, Eq)]
pub struct NodeSet {
    members: [bool; MOST_NODES as usize],
}

impl Model for NodeSet {
    ghost use Rattle.std.specs.Prelude.{List, Bool, ◌≡◌, length};

    ghost Value = { List Bool };

    ghost view = { λ s. s.members };

    ghost inverse = { λ members. record { members = members } };
}

impl NodeSet {
    ghost use Rattle.wire.specs.NodeSets.{no_nodes, has_node, with_node};

    /// No node.
    pub fn new() -> NodeSet
        ensures set { result ≡ no_nodes }
        ensures none { (a : ℕ) → has_node result a ≡ false }
    {
        NodeSet {
            members: [false; MOST_NODES as usize],
        }
    }

    /// Whether the node is one of them.
    pub fn contains(&self, node: NodeId) -> bool
        ensures { result ≡ has_node self.now node }
    {
        self.members[usize::from(node.value())]
    }

    /// The node is one of them from now on.
    pub fn insert(&mut self, node: NodeId)
        ensures set { self.new ≡ with_node self.old node }
        ensures member { has_node self.new node ≡ true }
        ensures others { (a : ℕ) → a ≢ node → has_node self.new a ≡ has_node self.old a }
    {
        self.members[usize::from(node.value())] = true;
    }

    /// Whether those of them that are in the run are more than half of its nodes.
    pub fn is_majority_of(&self, nodes: Nodes) -> bool
        ensures { IsTrue result ↔ IsMajority nodes (counted (has_node self.now) nodes) }
    {
        let mut count = 0;
        for node in 0..nodes.count() {
            if self.members[usize::from(node)] {
                count += 1;
            }
        }
        is_majority(nodes.count(), count)
    }
}
