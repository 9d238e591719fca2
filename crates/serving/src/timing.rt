//! What a process has seen of the run, and what is due by the clock.

ghost use Rattle.std.specs.Prelude.{◌≡◌, ◌≤◌, ◌↔◌, IsTrue, fold};
ghost use Rattle.serving.specs.Timings.{above_votes, ballot_seen, campaigned, first_timing, leader_in, position_seen, promise_seen, seen, slot_seen, time_left, wants, IsCampaignDue, IsTickDue, IsTimeLeft, Resumes};

use super::campaign::Campaign;
use super::horizon::Horizon;
use super::leader::Leader;
use super::patience::Patience;
use super::ticks::Ticks;
use std::marker::Model;
use synod::SLOTS;
use wire::{Ballot, Entry, Envelope, Message, NodeId, Promise, Slot};

/// What a process has seen of the run, and since when. Times are in milliseconds.
#[derive(Drop)]
pub struct Timing {
    own: NodeId,
    patience: Patience,
    ticks: Ticks,
    leader: Leader,
    // Of the node that leads, and so of this node's own where it is that.
    campaign: Campaign,
    horizon: Horizon,
    position: u32,
    // Whether it wanted anything when it was asked last.
    is_wanting: bool,
    campaigns: u64,
}

impl Model for Timing {
    ghost use Rattle.serving.specs.Timings.{TimingState};

    ghost Value = { TimingState };

    ghost view = { λ t. record {
      own = t.own;
      patience = t.patience;
      ticked = t.ticks;
      highest = t.leader;
      reach = t.campaign;
      horizon = t.horizon;
      position = t.position;
      is_wanting = t.is_wanting;
      campaigns = t.campaigns;
    } };
}

impl Timing {
    /// What the process of this node knows as it begins, whose records have votes up to the horizon.
    pub fn new(own: NodeId, horizon: Horizon, now: u64) -> Timing
        ensures { result ≡ first_timing own horizon now }
    {
        Timing {
            own,
            patience: Patience::new(own.value(), now),
            ticks: Ticks::from(now),
            leader: Leader::unknown(),
            campaign: Campaign::new(),
            horizon,
            position: 0,
            is_wanting: false,
            campaigns: 0,
        }
    }

    /// The horizon.
    pub fn horizon(&self) -> u32
        ensures value { result ≡ self.now.horizon }
        ensures in_log { result ≤ SLOTS }
    {
        self.horizon.end()
    }

    /// The node that leads, as far as is known.
    pub fn leader(&self) -> Option<u8>
        ensures { result ≡ leader_in self.now }
    {
        self.leader.node()
    }

    /// How many campaigns the node has started.
    pub fn campaigns(&self) -> u64
        ensures { result ≡ self.now.campaigns }
    {
        self.campaigns
    }

    /// A message came.
    pub fn see(&mut self, envelope: &Envelope, now: u64)
        ensures { self.new ≡ seen envelope.now.message now self.old }
    {
        match &envelope.message {
            Message::Prepare { ballot, .. } => self.see_ballot(*ballot, now),
            Message::Accept(vote) => {
                self.see_ballot(vote.ballot, now);
                self.horizon.see(vote.slot);
            }
            Message::Accepted(vote) => self.horizon.see(vote.slot),
            Message::Decided { slot, .. } => self.horizon.see(*slot),
            Message::Promise(promise) => self.see_promise(promise),
            _ => {}
        }
    }

    /// A ballot was asked for.
    pub fn see_ballot(&mut self, ballot: Ballot, now: u64)
        ensures { self.new ≡ ballot_seen ballot now self.old }
    {
        if self.leader.see(ballot) {
            self.campaign = Campaign::new();
            self.patience.renew(now);
        }
    }

    /// The node itself voted for a slot.
    pub fn see_vote(&mut self, slot: Slot)
        ensures { self.new ≡ slot_seen slot self.old }
    {
        self.horizon.see(slot);
    }

    /// Whether the node wants anything, where a client waits for a reply or not.
    pub fn is_wanting(&self, position: u32, is_asked: bool) -> bool
        ensures { result ≡ wants position is_asked self.now }
    {
        is_asked || self.horizon.is_beyond(position)
    }

    /// The node is at this position. Its patience runs from when it began to want anything, and anew from each progress.
    pub fn see_position(&mut self, position: u32, is_asked: bool, now: u64)
        ensures { self.new ≡ position_seen position is_asked now self.old }
    {
        let is_wanting = self.is_wanting(position, is_asked);
        if position != self.position || !self.is_wanting {
            self.patience.renew(now);
        }
        self.position = position;
        self.is_wanting = is_wanting;
    }

    /// Whether the node is to campaign: its patience has ended, or its own campaign has reached its end and not that of the votes.
    pub fn is_campaign_due(&self, position: u32, is_asked: bool, now: u64) -> bool
        ensures { IsTrue result ↔ IsCampaignDue position is_asked now self.now }
    {
        let resumes = self.resumes(position, is_asked);
        let is_over = self.patience.is_over(now);
        let is_wanting = self.is_wanting(position, is_asked);
        resumes || is_over && is_wanting
    }

    /// The node campaigns.
    pub fn campaign(&mut self, now: u64)
        ensures { self.new ≡ campaigned now self.old }
    {
        self.campaign = Campaign::new();
        self.patience.end(now);
        self.campaigns = self.campaigns.saturating_add(1);
    }

    /// Whether the node is to tick. If so it does.
    pub fn tick(&mut self, position: u32, is_asked: bool, now: u64) -> bool
        ensures due { IsTrue result ↔ IsTickDue position is_asked now self.old }
        ensures ticks { IsTrue result → self.new ≡ record self.old { ticked = now } }
        ensures waits { ¬ IsTrue result → self.new ≡ self.old }
    {
        let is_wanting = self.is_wanting(position, is_asked);
        let is_due = self.ticks.is_due(now, is_wanting);
        if is_due {
            self.ticks.tick(now);
        }
        is_due
    }

    /// In how many milliseconds something is due: 0 where something is now.
    pub fn left(&self, position: u32, is_asked: bool, now: u64) -> u64
        ensures resumes { Resumes position is_asked self.now → result ≡ 0 }
        ensures waits { ¬ Resumes position is_asked self.now → result ≡ time_left position is_asked now self.now }
        ensures left { IsTimeLeft position is_asked now result self.now }
    {
        if self.resumes(position, is_asked) {
            return 0;
        }
        let is_wanting = self.is_wanting(position, is_asked);
        let until_tick = self.ticks.left(now, is_wanting);
        if is_wanting {
            until_tick.min(self.patience.left(now))
        } else {
            until_tick
        }
    }

    // Whether the node's own campaign is to go on where it ended.
    fn resumes(&self, position: u32, is_asked: bool) -> bool
        ensures { IsTrue result ↔ Resumes position is_asked self.now }
    {
        let is_leader = self.leader.is_node(self.own.value());
        let goes_on = self
            .campaign
            .goes_on(is_leader, position, self.horizon.end());
        goes_on && !is_asked
    }

    // A promise came, to this node's own ballot or to another's.
    fn see_promise(&mut self, promise: &Promise)
        ensures { self.new ≡ promise_seen promise.now self.old }
    {
        self.horizon.see_entries(promise.entries());
        if self.leader.is_of(promise.ballot()) {
            self.campaign.see(promise.last());
        }
    }
}
