//! Open proposals.

ghost use Rattle.std.specs.Prelude.{◌≡◌, ◌<◌, [], ◌∷◌, length, not, filter, nat_le, nat_lt, take_while, ◌≤◌};
ghost use Rattle.std.specs.List.{list_any};
ghost use Rattle.proposer.specs.Campaigning.{is_at, is_for, placed};

use arrayvec::ArrayVec;
use sessions::{Command, Number};
use std::marker::Model;
use synod::Slot;

/// At most this many proposals are open at a time.
pub const MOST_OPEN: usize = 8;

/// A command that is proposed for a slot, and not learnt there yet.
#[derive(Drop)]
pub struct Proposal {
    pub slot: Slot,
    pub command: Command,
}

/// What fills the places in which no proposal stands: a no-op for the first slot.
impl Default for Proposal {
    fn default() -> Proposal {
        Proposal {
            slot: Slot::first(),
            command: Command::NoOp,
        }
    }
}

/// The open proposals, slots ascending. They lie in place.
#[derive(Drop)]
pub struct Window {
    places: ArrayVec<Proposal, MOST_OPEN>,
}

impl Model for Window {
    ghost use Rattle.std.specs.Prelude.{List};
    ghost use Rattle.proposer.specs.declared.window.Proposal.{Proposal};

    ghost Value = { List Proposal };

    ghost view = { λ w. w.places.items };
}

impl Window {
    /// None is open.
    pub fn new() -> Window
        ensures { result ≡ [] }
    {
        Window {
            places: ArrayVec::new(),
        }
    }

    /// The open proposals.
    pub fn proposals(&self) -> &[Proposal]
        ensures { result.now ≡ self.now }
    {
        self.places.as_slice()
    }

    /// How many proposals are open.
    pub fn count(&self) -> usize
        ensures count { result ≡ length self.now }
        ensures few { result ≤ MOST_OPEN }
    {
        self.places.len()
    }

    /// Whether a proposal for the slot is open.
    pub fn has(&self, slot: Slot) -> bool
        ensures { result ≡ list_any (is_at slot) self.now }
    {
        self.places.iter().any(|proposal| proposal.slot == slot)
    }

    /// Whether the request of this client and number is in an open proposal.
    pub fn asks_for(&self, client: u8, number: Number) -> bool
        ensures { result ≡ list_any (is_for client number) self.now }
    {
        self.places
            .iter()
            .any(|proposal| proposal.is_for(client, number))
    }

    /// Whether as many are open as may be.
    pub fn is_full(&self) -> bool
        ensures { result ≡ nat_le MOST_OPEN (length self.now) }
    {
        self.places.len() >= MOST_OPEN
    }

    /// A proposal of the command for the slot is open from now on.
    pub fn place(&mut self, slot: Slot, command: Command)
        requires { length self.old < MOST_OPEN }
        ensures { self.new ≡ placed (record { slot = slot; command = command }) self.old }
    {
        let before = self.count_below(slot);
        self.places.insert(before, Proposal { slot, command });
    }

    /// How many proposals stand before the first whose slot isn't below this one.
    fn count_below(&self, slot: Slot) -> usize
        ensures count { result ≡ length (take_while (λ p. nat_lt p.slot slot) self.now) }
        ensures within { result ≤ length self.now }
    {
        self.places
            .iter()
            .take_while(|proposal| proposal.slot < slot)
            .count()
    }

    /// No proposal for the slot is open any more.
    pub fn close(&mut self, slot: Slot)
        ensures { self.new ≡ filter (λ p. not (is_at slot p)) self.old }
    {
        self.places.retain(|proposal| proposal.slot != slot);
    }

    /// No proposal for a slot below this number is open any more.
    pub fn close_below(&mut self, position: u32)
        ensures { self.new ≡ filter (λ p. nat_le position p.slot) self.old }
    {
        self.places
            .retain(|proposal| position <= proposal.slot.value());
    }
}

impl Proposal {
    /// Whether it is of the request of this client and number.
    fn is_for(&self, client: u8, number: Number) -> bool
        ensures { result ≡ is_for client number self.now }
    {
        match &self.command {
            Command::NoOp => false,
            Command::Request(request) => client == request.client() && number == request.number(),
        }
    }
}
