//! A process that serves a node.

ghost use Rattle.std.specs.Prelude.{◌≡◌, ℕ, [], IfErr, IfOk, IsErrOf, None, OnErr, OnOk, Result};
ghost use Rattle.node_model.specs.declared.fault.NodeFault.{NodeFault};
ghost use Rattle.node_model.specs.declared.fault.NodeFault.TheVariants as node_fault;
ghost use Rattle.node_model.specs.declared.input.Input.TheVariants as input;
ghost use Rattle.world_model.specs.Lives.{down_over};
ghost use Rattle.life.specs.Telling.{nothing};
ghost use Rattle.serving.specs.Knowing.{IsPosition};
ghost use Rattle.serving.specs.Learning.{Learns};
ghost use Rattle.serving.specs.Ending.{EndsAt, HasEnded, IsGiven};
ghost use Rattle.serving.specs.Moves.{IsEnded, IsGivenWhere, IsTurn, KeepsTime, IsBrokenOff, Moves, StopsKeepingRecords, StopsKeepingTime, StopsTelling, Taking, TakesAll, TellsOrNot};
ghost use Rattle.serving.specs.Processes.{HasLooked};
ghost use Rattle.serving.specs.Outgoing.{IsArrival, IsRightlySent};
ghost use Rattle.serving.specs.Owing.{BreaksOff, BreaksOffOver, KeepsEachOver};
ghost use Rattle.serving.specs.Requesting.{NoneIsDue};
ghost use Rattle.serving.specs.Resting.{IsCheckpointed, Rests};
ghost use Rattle.serving.specs.Serving.{IsServing, Passes, PassesBoth, PassesOnly, Serves, ServesOver, begun, has_requests};
ghost use Rattle.serving.specs.Staying.{StaysUp, WasGiven};
ghost use Rattle.serving.specs.Timings.{IsCampaignDue, IsTickDue, IsTimeLeft, campaigned, first_timing, leader_in};
ghost use Rattle.serving.specs.Turns.{IsOfProcess};
ghost use Rattle.serving.specs.declared.fault.TurnFault.TheVariants as turn_fault;

mod answers;
mod arrivals;
mod departures;
mod lines;

use crate::checkpoints::is_checkpoint_due;
use crate::desk::Desk;
use crate::fault::{TurnFault, refusal};
use crate::horizon::Horizon;
use crate::network::Network;
use crate::requests::Requests;
use crate::timing::Timing;
use crate::waiting::Waiting;
use life::Life;
use node_model::{Input, NodeFault};
use stable::Stable;
use std::alloc::Global;
use wire::{NodeId, Nodes};

/// So many packets and so many lines a turn takes at most, so that what comes of them isn't held back for long.
pub const MOST_IN_A_TURN: usize = 256;

/// A process that serves a node: what the node's life makes of frames, lines and the time.
///
/// A client is told nothing but the replies and the answers that the life handed out, refusals, faults of its own lines, and how far
/// the node is. Nothing is sent but frames that the life handed out, and lines of clients that are handed on. The life hands out only
/// what rests on puts that returned Ok.
#[derive(Drop)]
pub struct Server<S> {
    own: NodeId,
    nodes: Nodes,
    life: Life<S>,
    timing: Timing,
    waiting: Waiting,
    requests: Requests,
}

impl<S: Stable + Drop> Server<S> {
    ghost use Rattle.std.specs.Prelude.{ℕ};
    ghost use Rattle.life.specs.Lives.{IsBorn};
    ghost use Rattle.life.specs.Seen.{life_of};
    ghost use Rattle.serving.specs.Seen.{process_of, server_of};

    /// Serves the node of this life, whose records have votes up to the horizon.
    pub fn new(
        alloc: Global,
        life: Life<S>,
        own: NodeId,
        nodes: Nodes,
        horizon: Horizon,
        now: u64,
    ) -> Server<S>
        ensures process { process_of result ≡ record {
          own = own;
          nodes = nodes;
          life = life_of life;
          waiting = record { claims = []; questions = []; due = [] };
          requests = [];
          timing = first_timing own horizon now;
        } }
        ensures born { (id count : ℕ) (storage : S) → IsBorn S.Stable id count storage (life_of life)
            → (loaded : Result (Unit {0}) NodeFault)
            × IsServing S.Stable (down_over id count storage) (begun loaded) (server_of result) }
    {
        Server {
            own,
            nodes,
            life,
            timing: Timing::new(own, horizon, now),
            waiting: Waiting::none(alloc),
            requests: Requests::none(alloc),
        }
    }

    /// What the process has seen of the run.
    pub fn timing(&self) -> &Timing
        ensures { result.now ≡ self.now.timing }
    {
        &self.timing
    }

    /// The node's position.
    pub fn position(&self) -> u32
        ensures { IsPosition (life_of self.now.life).node result }
    {
        self.life.node().position()
    }

    /// In how many milliseconds something is due.
    pub fn left(&self, now: u64) -> u64
        ensures { (position : ℕ) → IsPosition (life_of self.now.life).node position
            → IsTimeLeft position (has_requests (server_of self.now)) now result self.now.timing }
    {
        let position = self.position();
        let is_asked = self.is_asked();
        self.timing.left(position, is_asked, now)
    }

    /// Takes what has come, and hands out what comes of it: whether more may have come. After a fault the process is to end; what it
    /// let out before that is as right as ever, and no line of a client was answered twice. Where its node is down it ends at once.
    pub fn turn<N: Network, D: Desk>(
        &mut self,
        alloc: Global,
        network: &mut N,
        desk: &mut D,
        now: u64,
    ) -> Result<bool, TurnFault>
        ensures serves { ServesOver S.Stable N.tape N.Tells D.tape D.Tells (server_of self.old) network.old desk.old
            (server_of self.new) network.new desk.new }
        ensures each { OnOk result (KeepsEachOver D.tape D.Tells self.old.waiting desk.old self.new.waiting desk.new) }
        ensures stays { OnOk result (StaysUp (life_of self.old.life).node (life_of self.new.life).node) }
        ensures due { OnOk result (self.new.waiting.due ≡ []) }
        ensures rests { OnOk result (Rests (server_of self.new)) }
        ensures sends { OnOk result (PassesOnly N.tape N.Tells (IsRightlySent (leader_in self.new.timing) self.new.own)
            network.old network.new) }
        ensures handed_on { OnOk result (NoneIsDue now self.new.requests) }
        ensures learns { OnOk result (Learns N.tape N.Tells self.old network.old self.new network.new) }
        ensures moves { IfOk result (λ more. PassesBoth N.tape N.Tells D.tape D.Tells (λ sent said.
            IsTurn S.Stable now (process_of self.old) sent said (process_of self.new) more) network.old desk.old network.new desk.new) }
        ensures held { OnOk result ((life_of self.new.life).held ≡ nothing) }
        ensures own { OnOk result ((life_of self.new.life).own ≡ []) }
        ensures looked { OnOk result (HasLooked (process_of self.new)) }
        ensures breaks { OnErr result (BreaksOffOver D.tape D.Tells self.old.waiting desk.old desk.new) }
        ensures stops { IfErr result (λ fault. PassesBoth N.tape N.Tells D.tape D.Tells (λ sent said.
            IsEnded S.Stable now (process_of self.old) sent said fault (life_of self.new.life).node)
            network.old desk.old network.new desk.new) }
        ensures ends { IfErr result (HasEnded (life_of self.new.life).node) }
        ensures down { (life_of self.old.life).node.up ≡ None → IsErrOf result (turn_fault.Node node_fault.Down) }
    {
        if !self.life.node().is_up() {
            return Err(TurnFault::Node(NodeFault::Down));
        }
        let more_came = self.take(alloc, network, desk, now)?;
        let has_told = self.tell(alloc, network, desk, now)?;
        let is_asked = self.is_asked();
        let position = self.position();
        self.timing.see_position(position, is_asked, now);
        // A connection that was told something may have lines that wait unread.
        Ok(more_came | has_told)
    }

    // Takes frames, lines, and what is due by the clock: whether more may have come.
    fn take<N: Network, D: Desk>(
        &mut self,
        alloc: Global,
        network: &mut N,
        desk: &mut D,
        now: u64,
    ) -> Result<bool, TurnFault>
        ensures serves { ServesOver S.Stable N.tape N.Tells D.tape D.Tells (server_of self.old) network.old desk.old
            (server_of self.new) network.new desk.new }
        ensures comes { OnOk result (PassesOnly N.tape N.Tells IsArrival network.old network.new) }
        ensures checkpoints { OnOk result (IsCheckpointed (life_of self.new.life).node) }
        ensures takes { IfOk result (λ more. PassesBoth N.tape N.Tells D.tape D.Tells (λ came said.
            TakesAll S.Stable now (process_of self.old) came said (process_of self.new) more)
            network.old desk.old network.new desk.new) }
        ensures own { OnOk result ((life_of self.new.life).own ≡ []) }
        ensures breaks { OnErr result (Passes D.tape D.Tells (λ said. BreaksOff said self.old.waiting) desk.old desk.new) }
        ensures stops { IfErr result (λ fault. PassesBoth N.tape N.Tells D.tape D.Tells (λ sent said.
            IsBrokenOff S.Stable now (process_of self.old) sent said fault (life_of self.new.life).node)
            network.old desk.old network.new desk.new) }
        ensures ends { IfErr result (HasEnded (life_of self.new.life).node) }
    {
        let more_frames = self.take_frames(alloc, network, now)?;
        let more_lines = self.take_lines(alloc, desk)?;
        self.keep_time(alloc, now)?;
        self.take_own(alloc)?;
        self.keep_records(alloc)?;
        Ok(more_frames | more_lines)
    }

    // Lets out what came of it: whether a client was told anything that it waited for.
    fn tell<N: Network, D: Desk>(
        &mut self,
        alloc: Global,
        network: &mut N,
        desk: &mut D,
        now: u64,
    ) -> Result<bool, TurnFault>
        ensures serves { ServesOver S.Stable N.tape N.Tells D.tape D.Tells (server_of self.old) network.old desk.old
            (server_of self.new) network.new desk.new }
        ensures due { OnOk result (self.new.waiting.due ≡ []) }
        ensures rests { OnOk result (IsCheckpointed (life_of self.old.life).node → Rests (server_of self.new)) }
        ensures sends { OnOk result (PassesOnly N.tape N.Tells (IsRightlySent (leader_in self.new.timing) self.new.own)
            network.old network.new) }
        ensures handed_on { OnOk result (NoneIsDue now self.new.requests) }
        ensures moves { IfOk result (λ has_told. PassesBoth N.tape N.Tells D.tape D.Tells (λ sent said.
            TellsOrNot S.Stable now (process_of self.old) sent said (process_of self.new) has_told)
            network.old desk.old network.new desk.new) }
        ensures held { OnOk result ((life_of self.new.life).held ≡ nothing) }
        ensures own { OnOk result ((life_of self.new.life).own ≡ (life_of self.old.life).own) }
        ensures breaks { OnErr result (Passes D.tape D.Tells (λ said. BreaksOff said self.old.waiting) desk.old desk.new) }
        ensures stops { IfErr result (λ fault. PassesBoth N.tape N.Tells D.tape D.Tells (λ sent said.
            StopsTelling S.Stable now (process_of self.old) sent said fault (life_of self.new.life).node)
            network.old desk.old network.new desk.new) }
        ensures ends { IfErr result (HasEnded (life_of self.new.life).node) }
    {
        let has_replied = self.let_out(alloc, network, desk, now)?;
        let has_answered = self.tell_ripe(alloc, desk)?;
        self.turn_away(alloc)?;
        let has_told = self.tell_due(alloc, desk)?;
        self.hand_on(alloc, network, now)?;
        Ok(has_replied | has_answered | has_told)
    }

    // Whether a request waits here. The client that made it may be gone.
    fn is_asked(&self) -> bool
        ensures { result ≡ has_requests (server_of self.now) }
    {
        self.waiting.is_for_replies() || self.requests.count() > 0
    }

    // What is due by the clock.
    fn keep_time(&mut self, alloc: Global, now: u64) -> Result<(), TurnFault>
        ensures serves { Serves S.Stable (server_of self.old) [] [] (server_of self.new) }
        ensures stops { IfErr result (λ fault. StopsKeepingTime S.Stable now (process_of self.old) fault (life_of self.new.life).node) }
        ensures ends { IfErr result (HasEnded (life_of self.new.life).node) }
        ensures keeps { OnOk result (KeepsTime S.Stable now (process_of self.old) (life_of self.new.life) self.new.timing) }
        ensures others { process_of self.new ≡ record (process_of self.old) { life = life_of self.new.life; timing = self.new.timing } }
    {
        let is_asked = self.is_asked();
        let position = self.position();
        self.timing.see_position(position, is_asked, now);
        self.campaign_if_due(alloc, position, is_asked, now)?;
        self.tick_if_due(alloc, position, is_asked, now)
    }

    // A campaign where one is due.
    fn campaign_if_due(
        &mut self,
        alloc: Global,
        position: u32,
        is_asked: bool,
        now: u64,
    ) -> Result<(), TurnFault>
        ensures serves { Serves S.Stable (server_of self.old) [] [] (server_of self.new) }
        ensures stops { IfErr result (λ fault. IsCampaignDue position is_asked now self.old.timing
            × EndsAt S.Stable (IsGiven input.Timeout) (life_of self.old.life).node fault (life_of self.new.life).node) }
        ensures ends { IfErr result (HasEnded (life_of self.new.life).node) }
        ensures campaigns { OnOk result (IsGivenWhere S.Stable (IsCampaignDue position is_asked now self.old.timing) input.Timeout
            (campaigned now self.old.timing) (life_of self.old.life) self.old.timing (life_of self.new.life) self.new.timing) }
        ensures others { process_of self.new ≡ record (process_of self.old) { life = life_of self.new.life; timing = self.new.timing } }
    {
        if !self.timing.is_campaign_due(position, is_asked, now) {
            return Ok(());
        }
        self.timing.campaign(now);
        self.give(alloc, Input::Timeout)
    }

    // A tick where one is due.
    fn tick_if_due(
        &mut self,
        alloc: Global,
        position: u32,
        is_asked: bool,
        now: u64,
    ) -> Result<(), TurnFault>
        ensures serves { Serves S.Stable (server_of self.old) [] [] (server_of self.new) }
        ensures stops { IfErr result (λ fault. IsTickDue position is_asked now self.old.timing
            × EndsAt S.Stable (IsGiven input.Tick) (life_of self.old.life).node fault (life_of self.new.life).node) }
        ensures ends { IfErr result (HasEnded (life_of self.new.life).node) }
        ensures ticks { OnOk result (IsGivenWhere S.Stable (IsTickDue position is_asked now self.old.timing) input.Tick
            (record self.old.timing { ticked = now }) (life_of self.old.life) self.old.timing (life_of self.new.life) self.new.timing) }
        ensures others { process_of self.new ≡ record (process_of self.old) { life = life_of self.new.life; timing = self.new.timing } }
    {
        if !self.timing.tick(position, is_asked, now) {
            return Ok(());
        }
        self.give(alloc, Input::Tick)
    }

    // A checkpoint where one is due, and what it stands for is taken out.
    fn keep_records(&mut self, alloc: Global) -> Result<(), TurnFault>
        ensures stops { IfErr result (λ fault. StopsKeepingRecords S.Stable (life_of self.old.life) fault (life_of self.new.life).node) }
        ensures ends { IfErr result (HasEnded (life_of self.new.life).node) }
        ensures checkpoints { OnOk result (IsCheckpointed (life_of self.new.life).node) }
        ensures serves { Serves S.Stable (server_of self.old) [] [] (server_of self.new) }
        ensures moves { (now : ℕ) → OnOk result (Moves S.Stable now Taking (process_of self.old) [] [] (process_of self.new)) }
        ensures own { OnOk result ((life_of self.new.life).own ≡ (life_of self.old.life).own) }
    {
        if !is_checkpoint_due(self.position(), self.life.node().floor()) {
            return Ok(());
        }
        self.give(alloc, Input::Checkpoint)?;
        self.give(alloc, Input::Trim)?;
        Ok(())
    }

    // The node takes what the process gives it by itself.
    fn give(&mut self, alloc: Global, input: Input) -> Result<(), TurnFault>
        requires { IsOfProcess input }
        ensures stops { IfErr result (λ fault.
            EndsAt S.Stable (IsGiven input) (life_of self.old.life).node fault (life_of self.new.life).node) }
        ensures ends { IfErr result (HasEnded (life_of self.new.life).node) }
        ensures gives { OnOk result (WasGiven S.Stable (life_of self.old.life) input (life_of self.new.life)) }
        ensures serves { Serves S.Stable (server_of self.old) [] [] (server_of self.new) }
        ensures others { process_of self.new ≡ record (process_of self.old) { life = life_of self.new.life } }
    {
        refusal(self.life.take(alloc, input))?;
        Ok(())
    }
}
