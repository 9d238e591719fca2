//! Schedules that were read.

ghost use Rattle.std.specs.Prelude.{◌≡◌};

use super::action::Action;
use std::marker::Model;
use wire::Nodes;

/// One line of a schedule after its first.
#[derive(Drop)]
pub struct ScheduleLine {
    /// Which line of the file it is, counted from 1.
    pub number: u64,
    pub action: Action,
}

/// A run that was written down: how many nodes it has, and what is done, line by line.
pub struct Schedule {
    first: u64,
    nodes: Nodes,
    lines: Vec<ScheduleLine>,
}

// By hand, so that a crate that drops one proves nothing of what lies within.
impl Drop for Schedule {
    fn drop(self) {
        let Schedule {
            first: _,
            nodes: _,
            lines,
        } = self;
        drop(lines);
    }
}

impl Model for Schedule {
    ghost use Rattle.schedule.specs.Schedules.{Plan};

    ghost Value = { Plan };

    ghost view = { λ s. record { first = s.first; nodes = s.nodes; lines = s.lines.items } };
}

impl Schedule {
    ghost use Rattle.schedule.specs.Schedules.{last_number};

    /// The run of these nodes, as the line of the number `first` says, in which these lines are
    /// done in order.
    pub(crate) fn new(first: u64, nodes: Nodes, lines: Vec<ScheduleLine>) -> Schedule
        ensures { result ≡ record { first = first; nodes = nodes; lines = lines.items } }
    {
        Schedule {
            first,
            nodes,
            lines,
        }
    }

    /// Which line of the file says how many nodes it has, counted from 1.
    pub fn first(&self) -> u64
        ensures { result ≡ self.now.first }
    {
        self.first
    }

    /// How many nodes it has.
    pub fn nodes(&self) -> Nodes
        ensures { result ≡ self.now.nodes }
    {
        self.nodes
    }

    /// Which line of the file is its last, counted from 1.
    pub fn last(&self) -> u64
        ensures { result ≡ last_number self.now }
    {
        match self.lines.last() {
            Some(line) => line.number,
            None => self.first,
        }
    }

    /// What is done, in order.
    pub fn into_lines(self) -> Vec<ScheduleLine>
        ensures { result.items ≡ self.lines }
    {
        let Schedule {
            first: _,
            nodes: _,
            lines: all,
        } = self;
        all
    }
}
