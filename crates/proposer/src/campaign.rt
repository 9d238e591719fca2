//! A proposer's attempt to lead under one ballot.

ghost use Rattle.std.specs.Prelude.{◌≡◌, ◌≤◌, ◌++◌, ◌∷◌, [], ◌||◌, min, true, false, IsTrue, ◌↔◌, Some, None, IsSome, IsSomeAnd, ◌≢◌};
ghost use Rattle.std.specs.Prelude.{IfOk, OnOk, OnErr, MatchOption, filter, length, nat_le, map, ◌+◌, is_some};
ghost use Rattle.std.specs.List.{list_any};
ghost use Rattle.proposer.specs.Campaigning.{is_at, begun, counts, after_promise, BringsVotes, up_to, is_most, closed, closed_below};
ghost use Rattle.proposer.specs.Campaigning.{choice, window_limit, window_filled, stepped, IsStep, sends_again, accept, prepare};
ghost use Rattle.learner.specs.Learning.{learnt_at};
ghost use Rattle.learner.specs.State.{learning_of};

use super::choice::{free_choice, highest, is_told_after};
use super::queue::Waiting;
use super::sends::{Outgoing, Recipients};
use super::window::{MOST_OPEN, Window};
use learner::Learner;
use sessions::Command;
use std::alloc::{AllocError, Global};
use std::marker::Model;
use synod::{Ballot, SLOTS, Slot, Vote};
use wire::{Entries, Message, NodeId, NodeSet, Nodes, Promise, SharedCommand};

/// A campaign gathers promises for the slots from its first on, and leads once a majority has promised.
#[derive(Drop)]
pub struct Campaign {
    ballot: Ballot,
    first: Slot,
    // Whose promise was counted.
    promised: NodeSet,
    // The promises that were counted tell of the slots up to here.
    end: Slot,
    // The votes that they tell of these slots: at most four of each promise.
    told: Vec<Vote<SharedCommand>>,
    leading: bool,
    window: Window,
}

impl Model for Campaign {
    ghost use Rattle.proposer.specs.Campaigning.{Campaigning};

    ghost Value = { Campaigning };

    ghost view = { λ c. record {
      ballot = c.ballot;
      first = c.first;
      promised = c.promised;
      end = c.end;
      told = c.told.items;
      leading = c.leading;
      proposals = c.window;
    } };
}

impl Campaign {
    /// Nothing is gathered yet.
    pub fn new(alloc: Global, ballot: Ballot, first: Slot) -> Campaign
        ensures { result ≡ begun ballot first }
    {
        Campaign {
            ballot,
            first,
            promised: NodeSet::new(),
            end: Slot::new(SLOTS - 1).unwrap(),
            told: Vec::new(alloc),
            leading: false,
            window: Window::new(),
        }
    }

    /// The ballot under which it leads.
    pub fn ballot(&self) -> Ballot
        ensures { result ≡ self.now.ballot }
    {
        self.ballot
    }

    /// The last slot for which it may propose.
    pub fn end(&self) -> Slot
        ensures { result ≡ self.now.end }
    {
        self.end
    }

    /// Whether a majority has promised.
    pub fn is_leading(&self) -> bool
        ensures { result ≡ self.now.leading }
    {
        self.leading
    }

    /// How many proposals are open.
    pub fn open(&self) -> usize
        ensures count { result ≡ length self.now.proposals }
        ensures few { result ≤ MOST_OPEN }
    {
        self.window.count()
    }

    /// Counts a promise for the ballot and the first slot, once a node, while it gathers. With a majority it leads.
    ///
    /// After `AllocError` it must be dropped.
    pub fn count(&mut self, nodes: Nodes, from: NodeId, promise: Promise) -> Result<(), AllocError>
        ensures counted { OnOk result (self.new ≡ after_promise nodes self.old from promise) }
        ensures brings { OnErr result (BringsVotes self.old from promise) }
    {
        if !self.counts(from, &promise) {
            return Ok(());
        }
        let end = self.end.min(promise.last());
        self.told.retain(|vote| vote.slot <= end);
        hear(&mut self.told, end, promise.into_entries())?;
        self.end = end;
        self.promised.insert(from);
        self.leading = is_most(&self.promised, nodes);
        Ok(())
    }

    /// Whether a promise of the node counts.
    fn counts(&self, from: NodeId, promise: &Promise) -> bool
        ensures { result ≡ counts self.now from promise.now }
    {
        let under_it = self.ballot == promise.ballot();
        let from_its_first = promise.first() == self.first;
        let again = self.promised.contains(from);
        !self.leading && under_it && from_its_first && !again
    }

    /// No proposal for the slot is open any more.
    pub fn close(&mut self, slot: Slot)
        ensures { self.new ≡ closed slot self.old }
    {
        self.window.close(slot);
    }

    /// No proposal for a slot below this number is open any more.
    pub fn close_below(&mut self, position: u32)
        ensures { self.new ≡ closed_below position self.old }
    {
        self.window.close_below(position);
    }

    /// The number after the last slot of the window that begins at a position.
    pub fn window_limit(&self, position: u32) -> u32
        requires { position ≤ 65536 }
        ensures limit { result ≡ window_limit position self.now.end }
        ensures in_log { result ≤ 65536 }
    {
        (position + 8).min(self.end.value() + 1)
    }

    /// The command to propose for a slot, or None where there is none yet. `learnt_to` is one more than the greatest slot that is
    /// learnt.
    pub fn choice(
        &self,
        alloc: Global,
        waiting: &Waiting,
        learnt_to: u32,
        slot: Slot,
    ) -> Result<Option<SharedCommand>, AllocError>
        ensures chosen { IfOk result (λ c. c ≡ choice self.now waiting.now learnt_to slot self.now.proposals) }
        ensures there { OnErr result (IsSome (choice self.now waiting.now learnt_to slot self.now.proposals)) }
    {
        if let Some(vote) = highest(self.told.as_slice(), slot) {
            return Ok(Some(vote.command.clone()?));
        }
        let is_gap = is_told_after(self.told.as_slice(), slot) || slot.value() + 1 < learnt_to;
        free_choice(alloc, is_gap, waiting, &self.window, slot == self.first)
    }

    /// Fills the window that begins where the learner's prefix ends: which proposals are opened, slots ascending.
    ///
    /// After `AllocError` it must be dropped.
    pub fn fill(
        &mut self,
        alloc: Global,
        waiting: &Waiting,
        learnt_to: u32,
        learner: &Learner,
    ) -> Result<Vec<Outgoing>, AllocError>
        ensures filled { IfOk result (λ sends. record { proposals = self.new.proposals; sent = sends.items }
            ≡ window_filled self.old waiting.now learnt_to (learning_of learner.now)) }
        ensures sending { OnErr result ((window_filled self.old waiting.now learnt_to (learning_of learner.now)).sent ≢ []) }
        ensures only { OnOk result (self.new ≡ record self.old { proposals = self.new.proposals }) }
    {
        let position = learner.prefix();
        let limit = self.window_limit(position);
        let mut sends = Vec::new(alloc);
        // Where all places are taken nothing is opened, whatever is learnt.
        if self.window.is_full() {
            return Ok(sends);
        }
        for number in position..limit {
            let slot = Slot::new(number).unwrap();
            let settled = self.is_settled(learner, slot);
            let goes_on = self.step(alloc, waiting, learnt_to, settled, slot, &mut sends)?;
            if !goes_on {
                return Ok(sends);
            }
        }
        Ok(sends)
    }

    /// Whether a proposal for the slot is open, or the slot is learnt. The open proposals are few, so they are looked at first.
    fn is_settled(&self, learner: &Learner, slot: Slot) -> bool
        ensures { result ≡ list_any (is_at slot) self.now.proposals || is_some (learnt_at (learning_of learner.now) slot) }
    {
        if self.window.has(slot) {
            return true;
        }
        is_learnt(learner, slot)
    }

    /// Opens a proposal for a slot, unless it is learnt or has one, where there is a command to propose and a place for it.
    /// Whether the next slot is to follow.
    fn step(
        &mut self,
        alloc: Global,
        waiting: &Waiting,
        learnt_to: u32,
        learnt: bool,
        slot: Slot,
        sends: &mut Vec<Outgoing>,
    ) -> Result<bool, AllocError>
        ensures steps { IfOk result (λ goes_on. IsStep
            (stepped self.old waiting.now learnt_to learnt slot (record { proposals = self.old.proposals; sent = sends.old.items }))
            goes_on
            (record { proposals = self.old.proposals; sent = sends.old.items })
            (record { proposals = self.new.proposals; sent = sends.new.items })) }
        ensures opens { OnErr result (IsSomeAnd
            (stepped self.old waiting.now learnt_to learnt slot (record { proposals = self.old.proposals; sent = sends.old.items }))
            (λ f. f.sent ≢ [])) }
        ensures only { OnOk result (self.new ≡ record self.old { proposals = self.new.proposals }) }
    {
        if learnt || self.window.has(slot) {
            return Ok(true);
        }
        if self.window.is_full() {
            return Ok(false);
        }
        let Some(command) = self.choice(alloc, waiting, learnt_to, slot)? else {
            return Ok(false);
        };
        self.window.place(slot, command.command().clone()?);
        sends.push(accept(self.ballot, slot, command))?;
        Ok(true)
    }

    /// What asks for promises.
    pub fn prepare(&self) -> Message
        ensures { result ≡ (prepare self.now.ballot self.now.first).message }
    {
        Message::Prepare {
            ballot: self.ballot,
            first: self.first,
        }
    }

    /// Sends again what may have been lost: while it gathers, the prepare to the nodes whose promise wasn't counted; while it
    /// leads, every open proposal, slots ascending.
    pub fn send_again(&self, alloc: Global) -> Result<Vec<Outgoing>, AllocError>
        ensures sends { IfOk result (λ sends. sends.items ≡ sends_again self.now) }
        ensures sending { OnErr result (sends_again self.now ≢ []) }
    {
        let mut sends = Vec::new(alloc);
        if !self.leading {
            sends.push(Outgoing {
                to: Recipients::Others(self.promised),
                message: self.prepare(),
            })?;
            return Ok(sends);
        }
        for proposal in self.window.proposals() {
            sends.push(accept(
                self.ballot,
                proposal.slot,
                SharedCommand::new(alloc, proposal.command.clone()?)?,
            ))?;
        }
        Ok(sends)
    }
}

/// Takes in the votes that a promise tells of the slots up to one.
fn hear(told: &mut Vec<Vote<SharedCommand>>, end: Slot, entries: Entries) -> Result<(), AllocError>
    ensures heard { OnOk result (told.new.items ≡ told.old.items ++ up_to end entries.items) }
    ensures kept { OnErr result (up_to end entries.items ≢ []) }
{
    for entry in entries {
        let vote = entry.into_vote();
        if vote.slot <= end {
            told.push(vote)?;
        }
    }
    Ok(())
}

/// Whether the nodes in the set are more than half of all.
fn is_most(set: &NodeSet, nodes: Nodes) -> bool
    ensures { result ≡ is_most nodes set.now }
{
    set.is_majority_of(nodes)
}

/// What asks for votes for a command at a slot.
fn accept(ballot: Ballot, slot: Slot, command: SharedCommand) -> Outgoing
    ensures { result ≡ accept ballot (record { slot = slot; command = command }) }
{
    Outgoing {
        to: Recipients::All,
        message: Message::Accept(Vote {
            slot,
            ballot,
            command,
        }),
    }
}

/// Whether the slot is learnt.
fn is_learnt(learner: &Learner, slot: Slot) -> bool
    ensures { result ≡ is_some (learnt_at (learning_of learner.now) slot) }
{
    learner.get(slot).is_some()
}
