//! One node's proposer.

ghost use Rattle.std.specs.Prelude.{◌≡◌, ◌≤◌, ◌<◌, ◌^◌, ◌++◌, ◌∷◌, [], ℕ, length, true, false, Some, None, IsSomeAnd, ◌≢◌, IfOk, OnOk};
ghost use Rattle.std.specs.Prelude.{OnErr, IsErrOf, IsOk, MatchOption};
ghost use Rattle.std.specs.List.{list_any};
ghost use Rattle.byteorder.specs.Endian.{big_bytes};
ghost use Rattle.stable.specs.declared.key.Key.TheVariants as key;
ghost use Rattle.stable.specs.Records.{Sets};
ghost use Rattle.wire.specs.RecordForms.{IsRoundRecord};
ghost use Rattle.learner.specs.Learning.{prefix};
ghost use Rattle.learner.specs.State.{learning_of};
ghost use Rattle.proposer.specs.Campaigning.{BringsVotes};
ghost use Rattle.proposer.specs.Requests.{is_of, without};
ghost use Rattle.proposer.specs.Proposing.{loaded, next_round, StartsCampaign, with_promised, after_nack, after_learned, skipped_to, is_led};
ghost use Rattle.proposer.specs.Proposing.{gathers_on, proposes, sends_again};

use super::campaign::Campaign;
use super::fault::{SubmitFault, TimeoutFault};
use super::queue::{MOST_WAITING, Waiting};
use super::sends::{Outgoing, Recipients};
use super::window::MOST_OPEN;
use learner::Learner;
use sessions::{Number, Request};
use stable::{Key, Stable, StableFault};
use std::alloc::{AllocError, Global};
use std::marker::Model;
use synod::{Ballot, SLOTS, Slot};
use wire::{Message, Nack, NodeId, Nodes, Promise, round_of_record, round_record};

/// The requests that wait at a node, and its campaign to have them chosen.
pub struct Proposer {
    id: NodeId,
    nodes: Nodes,
    // The greatest round that it has begun, as record Round says; 0 before the first.
    round: u64,
    // The greatest round of any refusal since it was loaded; 0 before the first.
    refused: u64,
    // One more than the greatest slot that it was told is learnt; 0 before the first.
    learnt_to: u32,
    campaign: Option<Campaign>,
    waiting: Waiting,
}

// By hand, so that a crate that drops one proves nothing of what lies within.
impl Drop for Proposer {
    fn drop(self) {
        let Proposer {
            id: _,
            nodes: _,
            round: _,
            refused: _,
            learnt_to: _,
            campaign,
            waiting,
        } = self;
        drop(campaign);
        drop(waiting);
    }
}

impl Model for Proposer {
    ghost use Rattle.proposer.specs.Proposing.{Proposing};

    ghost Value = { Proposing };

    ghost view = { λ p. record {
      id = p.id;
      nodes = p.nodes;
      round = p.round;
      refused = p.refused;
      learnt_to = p.learnt_to;
      campaign = p.campaign;
      waiting = p.waiting;
    } };
}

impl Proposer {
    /// What a restart leaves: the round alone. `Damaged` where record Round is the record of no round.
    pub fn load<S: Stable>(
        alloc: Global,
        storage: &mut S,
        id: NodeId,
        nodes: Nodes,
    ) -> Result<Proposer, StableFault>
        ensures own { IfOk result (λ p. p ≡ loaded id nodes p.round) }
        ensures round { S.IsHonest storage.new → IfOk result (λ p.
            MatchOption (S.contents storage.old key.Round) (p ≡ loaded id nodes 0)
            (λ bytes. IsRoundRecord bytes p.round × (p ≡ loaded id nodes p.round))) }
        ensures reads { OnOk result (S.reads storage.old storage.new) }

        // Each error.
        ensures damaged { S.IsHonest storage.new → IsErrOf result StableFault.Damaged
            → MatchOption (S.contents storage.old key.Round) ⊥ (λ bytes. (r : ℕ) → ¬ IsRoundRecord bytes r) }
        ensures damaged_reads { IsErrOf result StableFault.Damaged → S.reads storage.old storage.new }
        ensures device { IsErrOf result StableFault.Device → S.read_fails storage.old storage.new }
        ensures memory { IsErrOf result StableFault.Memory → S.reads storage.old storage.new }
    {
        let round = match storage.get(alloc, Key::Round)? {
            Some(bytes) => round_of_record(bytes.as_slice()).ok_or(StableFault::Damaged)?,
            None => 0,
        };
        Ok(Proposer {
            id,
            nodes,
            round,
            refused: 0,
            learnt_to: 0,
            campaign: None,
            waiting: Waiting::new(alloc),
        })
    }

    /// Whether the request of this client and number waits.
    pub fn waits(&self, client: u8, number: Number) -> bool
        ensures { result ≡ list_any (is_of client number) self.now.waiting }
    {
        self.waiting.has(client, number)
    }

    /// How many requests wait.
    pub fn waiting(&self) -> usize
        ensures count { result ≡ length self.now.waiting }
        ensures few { result ≤ MOST_WAITING }
    {
        self.waiting.count()
    }

    /// How many of its proposals are open; 0 without a campaign.
    pub fn open(&self) -> usize
        ensures count { MatchOption self.now.campaign (result ≡ 0) (λ k. result ≡ length k.proposals) }
        ensures few { result ≤ MOST_OPEN }
    {
        match &self.campaign {
            Some(campaign) => campaign.open(),
            None => 0,
        }
    }

    /// Whether it has a campaign that leads.
    pub fn is_leading(&self) -> bool
        ensures { result ≡ is_led self.now.campaign }
    {
        match &self.campaign {
            Some(campaign) => campaign.is_leading(),
            None => false,
        }
    }

    /// A request waits from now on. One that waits already keeps its place, and nothing changes.
    pub fn submit(&mut self, request: Request) -> Result<(), SubmitFault>
        ensures again { list_any (is_of request.client request.number) self.old.waiting ≡ true
            → IsOk result × (self.new ≡ self.old) }
        ensures last { list_any (is_of request.client request.number) self.old.waiting ≡ false
            → OnOk result (self.new ≡ record self.old { waiting = self.old.waiting ++ request ∷ [] }) }

        // Each error.
        ensures full { IsErrOf result SubmitFault.QueueFull → MOST_WAITING ≤ length self.old.waiting }
        ensures full_refused { list_any (is_of request.client request.number) self.old.waiting ≡ false
            → MOST_WAITING ≤ length self.old.waiting → IsErrOf result SubmitFault.QueueFull }
        ensures err { OnErr result (self.new ≡ self.old) }
    {
        self.waiting.submit(request)
    }

    /// Starts a campaign under a round that was never used, for the slots from the learner's prefix on: what asks all nodes for
    /// their promises.
    ///
    /// The round is written before anybody hears of it. `storage` is the one that was loaded.
    pub fn timeout<S: Stable>(
        &mut self,
        alloc: Global,
        storage: &mut S,
        learner: &Learner,
    ) -> Result<Outgoing, TimeoutFault>
        requires { prefix (learning_of learner.now) < SLOTS }
        ensures starts { IfOk result (λ sent. StartsCampaign self.old (prefix (learning_of learner.now)) self.new sent) }
        ensures writes { OnOk result
            (S.changes storage.old (Sets key.Round (big_bytes 8 (next_round self.old))) storage.new) }

        // Each error.
        ensures used_up { IsErrOf result TimeoutFault.RoundsUsedUp
            → (2 ^ 64 ≤ next_round self.old) × (self.new ≡ self.old) × (storage.new ≡ storage.old) }
        ensures used_up_refused { 2 ^ 64 ≤ next_round self.old → IsErrOf result TimeoutFault.RoundsUsedUp }
        ensures device { IsErrOf result TimeoutFault.Device
            → S.fails storage.old (Sets key.Round (big_bytes 8 (next_round self.old))) storage.new × (self.new ≡ self.old) }
        ensures memory { IsErrOf result TimeoutFault.Memory → S.reads storage.old storage.new × (self.new ≡ self.old) }
    {
        let first = Slot::new(learner.prefix()).unwrap();
        let Some(round) = self.round.max(self.refused).checked_add(1) else {
            return Err(TimeoutFault::RoundsUsedUp);
        };
        // Written before anybody hears of it: after a restart the round must not be drawn again.
        match storage.put(alloc, Key::Round, round_record(round).to_vec(alloc)?) {
            Ok(()) => Ok(self.start(alloc, round, first)),
            Err(StableFault::Memory) => Err(TimeoutFault::Memory),
            // A put finds no damage.
            Err(StableFault::Device | StableFault::Damaged) => Err(TimeoutFault::Device),
        }
    }

    /// Starts a campaign under a round that is written.
    fn start(&mut self, alloc: Global, round: u64, first: Slot) -> Outgoing
        requires { round ≡ next_round self.old }
        ensures { StartsCampaign self.old first self.new result }
    {
        let ballot = Ballot {
            round,
            node: self.id.value(),
        };
        self.round = round;
        self.campaign = Some(Campaign::new(alloc, ballot, first));
        to_all(Message::Prepare { ballot, first })
    }

    /// A promise has come. After `AllocError` the proposer must be dropped, and loaded again: its campaign holds part of what came.
    pub fn on_promise(&mut self, from: NodeId, promise: Promise) -> Result<(), AllocError>
        ensures counted { OnOk result (self.new ≡ with_promised self.old from promise) }

        // Only a promise that counts, and of whose votes one is kept, can be refused memory.
        ensures brings { OnErr result (IsSomeAnd self.old.campaign (λ k. BringsVotes k from promise)) }
        ensures rest { OnErr result (self.new ≡ record self.old { campaign = self.new.campaign }) }
    {
        let Some(campaign) = &mut self.campaign else {
            return Ok(());
        };
        campaign.count(self.nodes, from, promise)
    }

    /// A refusal has come. One of its campaign's ballot ends the campaign.
    pub fn on_nack(&mut self, nack: Nack)
        ensures { self.new ≡ after_nack self.old nack }
    {
        self.refused = self.refused.max(nack.promised().round);
        let Some(campaign) = &self.campaign else {
            return;
        };
        if campaign.ballot() == nack.ballot() {
            self.campaign = None;
        }
    }

    /// The slot is learnt: no proposal for it is open any more.
    pub fn on_learned(&mut self, slot: Slot)
        ensures { self.new ≡ after_learned self.old slot }
    {
        self.learnt_to = self.learnt_to.max(slot.value() + 1);
        let Some(campaign) = &mut self.campaign else {
            return;
        };
        campaign.close(slot);
    }

    /// A snapshot stands for the slots below this one: no proposal for them is open any more.
    pub fn skip_to(&mut self, position: u32)
        ensures { self.new ≡ skipped_to self.old position }
    {
        if let Some(campaign) = &mut self.campaign {
            campaign.close_below(position);
        }
    }

    /// The request of this client and number is executed: whether it waited. It waits no more.
    pub fn executed(&mut self, client: u8, number: Number) -> bool
        ensures waited { result ≡ list_any (is_of client number) self.old.waiting }
        ensures rest { self.new ≡ record self.old { waiting = without client number self.old.waiting } }
        ensures gone { list_any (is_of client number) self.new.waiting ≡ false }
    {
        self.waiting.remove(client, number)
    }

    /// Proposes what it may, where it leads: which proposals are opened, slots ascending, or that it gathers promises further on.
    ///
    /// It takes a number of steps that grows with the window, and not with the requests that wait. After `AllocError` the proposer
    /// must be dropped, and loaded again.
    pub fn propose(&mut self, alloc: Global, learner: &Learner) -> Result<Vec<Outgoing>, AllocError>
        ensures proposes { IfOk result (λ sends. (self.new, sends.items) ≡ proposes self.old self.old.campaign (learning_of learner.now)) }

        // Only a leader that has something to send can be refused memory.
        ensures sending { OnErr result ((proposes self.old self.old.campaign (learning_of learner.now)).1 ≢ []) }
        ensures rest { OnErr result (self.new ≡ record self.old { campaign = self.new.campaign }) }
    {
        let Some(campaign) = &mut self.campaign else {
            return Ok(Vec::new(alloc));
        };
        if !campaign.is_leading() {
            return Ok(Vec::new(alloc));
        }
        if campaign.end().value() < learner.prefix() {
            return self.gather(alloc, learner);
        }
        campaign.close_below(learner.prefix());
        campaign.fill(alloc, &self.waiting, self.learnt_to, learner)
    }

    /// Gathers promises further on, under the same ballot, where the log has slots left and a request waits.
    fn gather(&mut self, alloc: Global, learner: &Learner) -> Result<Vec<Outgoing>, AllocError>
        ensures gathers { IfOk result (λ sends. (self.new, sends.items)
            ≡ gathers_on self.old self.old.campaign (prefix (learning_of learner.now))) }
        ensures sending { OnErr result ((gathers_on self.old self.old.campaign (prefix (learning_of learner.now))).1 ≢ []) }
        ensures rest { OnErr result (self.new ≡ record self.old { campaign = self.new.campaign }) }
    {
        let mut sends = Vec::new(alloc);
        let Some(campaign) = &mut self.campaign else {
            return Ok(sends);
        };
        let Some(first) = Slot::new(learner.prefix()) else {
            return Ok(sends);
        };
        if self.waiting.is_empty() {
            return Ok(sends);
        }
        let ballot = campaign.ballot();
        *campaign = Campaign::new(alloc, ballot, first);
        sends.push(to_all(Message::Prepare { ballot, first }))?;
        Ok(sends)
    }

    /// Sends again what may have been lost.
    pub fn tick(&self, alloc: Global) -> Result<Vec<Outgoing>, AllocError>
        ensures sends { IfOk result (λ sends. sends.items ≡ sends_again self.now.campaign) }

        // Only where something is sent can memory be refused.
        ensures sending { OnErr result (sends_again self.now.campaign ≢ []) }
    {
        match &self.campaign {
            Some(campaign) => campaign.send_again(alloc),
            None => Ok(Vec::new(alloc)),
        }
    }
}

/// The message, to every node.
fn to_all(message: Message) -> Outgoing
    ensures { result ≡ record { to = Recipients.All; message = message } }
{
    Outgoing {
        to: Recipients::All,
        message,
    }
}
