//! A round by hand: a node's campaign among some members alone.

ghost use Rattle.std.specs.Prelude.{◌≡◌, ◌≢◌, ◌≤◌, ◌<◌, ◌↔◌, ◌⊎◌, ℕ, All, AllPairs, Any, Contains, length, drop, vec_len, true, IfErr};
ghost use Rattle.std.specs.Prelude.{IfOk, IfSome, Ok, Err, IsErrOf, IsTrue, MatchBool, MatchOption, OnErr, OnOk};
ghost use Rattle.node_model.specs.Faults.{is_stop_fault};
ghost use Rattle.world_model.specs.Rounds.{IsGreatestTold, IsQuorum, NoneRefuses, greater, refusal_in};
ghost use Rattle.world_model.specs.declared.round_end.RoundEnd.TheVariants as end;

use super::inner::Inner;
use events::WorldFault;
use node_model::NodeFault;
use stable::{Scripted, Stable};
use std::alloc::Global;
use synod::{Ballot, Slot};
use wire::{Envelope, Frame, LastOpened, Message, NodeId};
use world_model::{PackedBallot, RoundEnd};

impl<S: Stable> Inner<S> {
    ghost use Rattle.world.specs.Inner.{inner_of};
    ghost use Rattle.world_model.specs.Rounds.{NamesNoMember, IsLowestDown, IsBehind, IsLowestBehind, CanMeet, PositionIsAt};
    ghost use Rattle.world_model.specs.Rounds.{DeliversTo, DeliversPart, GoesDownOn, RoundEndsIn};
    ghost use Rattle.world_model.specs.Rounds.{MeetingEnds, RoundIsInterrupted, RoundEnds, IsPartOfRound, is_up};
    ghost use Rattle.world_model.specs.Rounds.{GoesOn, GoesToItsEnd, RoundBreaksOff, begun, answered, heard};

    /// A round of a node with these members, by hand, and how it ended.
    pub fn round(
        &mut self,
        alloc: Global,
        node: NodeId,
        members: &[NodeId],
    ) -> Result<RoundEnd, WorldFault>
        ensures ends { IfOk result (λ end. RoundEnds (⟦<Scripted<S> as Stable>⟧)
            (inner_of self.old) node members.now end (inner_of self.new)) }
        ensures no_node { IsErrOf result WorldFault.NoSuchNode
            ↔ NamesNoMember (length (inner_of self.old).nodes) node members.now }
        ensures unchanged { IsErrOf result WorldFault.NoSuchNode → inner_of self.new ≡ inner_of self.old }
        ensures memory { IsErrOf result WorldFault.Memory → IsPartOfRound (⟦<Scripted<S> as Stable>⟧)
            (inner_of self.old) node members.now (inner_of self.new) }
        ensures faults { IfErr result (λ f. (f ≡ WorldFault.NoSuchNode) ⊎ (f ≡ WorldFault.Memory)) }
    {
        self.find(node)?;
        self.find_all(members)?;
        let end = self.meet(alloc, node, members)?;
        self.tell_end(node, &end)?;
        Ok(end)
    }

    // Whether the run has the nodes.
    fn find_all(&self, members: &[NodeId]) -> Result<(), WorldFault>
        ensures found { OnOk result (All (λ m. m < vec_len self.now.nodes) members.now) }
        ensures no_node { IfErr result (λ f.
            (f ≡ WorldFault.NoSuchNode) × Any (λ m. vec_len self.now.nodes ≤ m) members.now) }
    {
        for member in members {
            self.find(*member)?;
        }
        Ok(())
    }

    // The round, up to its end.
    fn meet(
        &mut self,
        alloc: Global,
        node: NodeId,
        members: &[NodeId],
    ) -> Result<RoundEnd, WorldFault>
        requires there { node < vec_len self.old.nodes }
        requires members_there { All (λ m. m < vec_len self.old.nodes) members.now }
        ensures ends { IfOk result (λ end. RoundEndsIn (⟦<Scripted<S> as Stable>⟧)
            (inner_of self.old) node members.now end (inner_of self.new)) }
        ensures part { OnErr result (IsPartOfRound (⟦<Scripted<S> as Stable>⟧)
            (inner_of self.old) node members.now (inner_of self.new)) }
        ensures memory { IfErr result (λ f. f ≡ WorldFault.Memory) }
    {
        if !is_quorum(self.count(), node, members) {
            return Ok(RoundEnd::NotAQuorum);
        }
        if let Some(down) = self.lowest_down(members) {
            return Ok(RoundEnd::Down(down));
        }
        if let Some(ahead) = self.lowest_behind(node, members) {
            return Ok(RoundEnd::Behind(ahead));
        }
        let Some(slot) = self.slot_of(node) else {
            return Ok(RoundEnd::Refused(NodeFault::LogFull));
        };
        self.hold(alloc, node, members, slot)
    }

    // The lowest member that is down.
    fn lowest_down(&self, members: &[NodeId]) -> Option<NodeId>
        requires there { All (λ m. m < vec_len self.now.nodes) members.now }
        ensures { MatchOption result ((m : ℕ) → Contains members.now m → is_up (inner_of self.now) m ≡ true)
            (IsLowestDown (inner_of self.now) members.now) }
    {
        for number in 0..self.count() {
            if let Some(node) = NodeId::new(number) {
                if is_among(members, node) && !self.is_up(node) {
                    return Some(node);
                }
            }
        }
        None
    }

    // The lowest member that the node, which is up, is behind.
    fn lowest_behind(&self, node: NodeId, members: &[NodeId]) -> Option<NodeId>
        requires there { node < vec_len self.now.nodes }
        requires up { is_up (inner_of self.now) node ≡ true }
        requires members_there { All (λ m. m < vec_len self.now.nodes) members.now }
        ensures { MatchOption result
            ((m : ℕ) → Contains members.now m → ¬ (IsBehind (inner_of self.now) node m))
            (IsLowestBehind (inner_of self.now) node members.now) }
    {
        for number in 0..self.count() {
            if let Some(member) = NodeId::new(number) {
                if is_among(members, member) && self.is_behind(node, member) {
                    return Some(member);
                }
            }
        }
        None
    }

    // The round of members that can meet: what is sent in each phase is handed on in the next one.
    fn hold(
        &mut self,
        alloc: Global,
        node: NodeId,
        members: &[NodeId],
        slot: Slot,
    ) -> Result<RoundEnd, WorldFault>
        requires there { node < vec_len self.old.nodes }
        requires up { is_up (inner_of self.old) node ≡ true }
        requires at { PositionIsAt (inner_of self.old) node slot }
        ensures ends { IfOk result (λ end. MeetingEnds (⟦<Scripted<S> as Stable>⟧)
            (inner_of self.old) node members.now end (inner_of self.new)) }
        ensures part { OnErr result (RoundIsInterrupted (⟦<Scripted<S> as Stable>⟧)
            (inner_of self.old) node members.now (inner_of self.new)) }
        ensures memory { IfErr result (λ f. f ≡ WorldFault.Memory) }
    {
        self.reserve()?;
        let prepares = self.frames().len();
        if let Err(fault) = self.begin(alloc, node) {
            return Ok(without_campaign(node, fault));
        }
        let accepts = match self.gather(alloc, node, members, prepares)? {
            Ok(accepts) => accepts,
            Err(end) => return Ok(end),
        };
        match self.decide(alloc, node, members, accepts)? {
            Some(down) => Ok(RoundEnd::Stopped(down)),
            None => Ok(RoundEnd::Decided(slot)),
        }
    }

    // The prepares come to the members, and what these answer comes to the node: the number of its first accept, or how the
    // round ends before there is one.
    fn gather(
        &mut self,
        alloc: Global,
        node: NodeId,
        members: &[NodeId],
        prepares: usize,
    ) -> Result<Result<usize, RoundEnd>, WorldFault>
        requires sent { prepares ≤ vec_len self.old.frames }
        ensures goes_on { IfOk result (λ gathered. IfOk gathered (λ accepts. GoesOn (⟦<Scripted<S> as Stable>⟧)
            node members.now begun prepares (inner_of self.old) answered accepts (inner_of self.new))) }
        ensures ends { IfOk result (λ gathered. IfErr gathered (λ end. GoesToItsEnd (⟦<Scripted<S> as Stable>⟧)
            node members.now begun prepares (inner_of self.old) end (inner_of self.new))) }
        ensures accepts_sent { IfOk result (λ gathered. IfOk gathered (λ accepts. accepts ≤ vec_len self.new.frames)) }
        ensures part { OnErr result (RoundBreaksOff (⟦<Scripted<S> as Stable>⟧)
            node members.now begun prepares (inner_of self.old) (inner_of self.new)) }
        ensures memory { IfErr result (λ f. f ≡ WorldFault.Memory) }
    {
        let answers = self.frames().len();
        if let Some(down) = self.hand_on(alloc, members, prepares)? {
            return Ok(Err(RoundEnd::Stopped(down)));
        }
        let accepts = self.frames().len();
        let refusal = greatest_told(alloc, &self.frames()[answers..])?;
        if let Some(down) = self.hand_on(alloc, &[node], answers)? {
            return Ok(Err(RoundEnd::Stopped(down)));
        }
        match refusal {
            Some(promised) => Ok(Err(RoundEnd::TooLow(PackedBallot::of(promised)))),
            None => Ok(Ok(accepts)),
        }
    }

    // The accepts come to the members, and their votes to the node. Who goes down by one ends it at once, and is told.
    fn decide(
        &mut self,
        alloc: Global,
        node: NodeId,
        members: &[NodeId],
        accepts: usize,
    ) -> Result<Option<NodeId>, WorldFault>
        requires sent { accepts ≤ vec_len self.old.frames }
        ensures decides { IfOk result (λ stopped. MatchOption stopped
            ((last : ℕ) × GoesOn (⟦<Scripted<S> as Stable>⟧)
            node members.now answered accepts (inner_of self.old) heard last (inner_of self.new))
            (λ down. GoesToItsEnd (⟦<Scripted<S> as Stable>⟧)
            node members.now answered accepts (inner_of self.old) (end.Stopped down) (inner_of self.new))) }
        ensures part { OnErr result (RoundBreaksOff (⟦<Scripted<S> as Stable>⟧)
            node members.now answered accepts (inner_of self.old) (inner_of self.new)) }
        ensures memory { IfErr result (λ f. f ≡ WorldFault.Memory) }
    {
        let votes = self.frames().len();
        if let Some(down) = self.hand_on(alloc, members, accepts)? {
            return Ok(Some(down));
        }
        self.hand_on(alloc, &[node], votes)
    }

    // Of the frames that were sent by now, from `first` on, those to the receivers come there, in order of sending. Who goes down by
    // one ends it at once, and is told.
    fn hand_on(
        &mut self,
        alloc: Global,
        receivers: &[NodeId],
        first: usize,
    ) -> Result<Option<NodeId>, WorldFault>
        requires sent { first ≤ vec_len self.old.frames }
        ensures delivers { IfOk result (λ stopped. MatchOption stopped
            (DeliversTo (⟦<Scripted<S> as Stable>⟧) receivers.now
            (inner_of self.old) first (vec_len self.old.frames) (inner_of self.new))
            (λ m. GoesDownOn (⟦<Scripted<S> as Stable>⟧) receivers.now (inner_of self.old) first m (inner_of self.new))) }
        ensures part { OnErr result (DeliversPart (⟦<Scripted<S> as Stable>⟧)
            receivers.now (inner_of self.old) first (inner_of self.new)) }
        ensures memory { IfErr result (λ f. f ≡ WorldFault.Memory) }
        ensures more { vec_len self.old.frames ≤ vec_len self.new.frames }
    {
        let mut last = LastOpened::new();
        let end = self.frames().len();
        for index in first..end {
            let receiver = self.frames()[index].receiver();
            if is_among(receivers, receiver) {
                self.deliver(alloc, index as u64, &mut last)?;
                if !self.is_up(receiver) {
                    return Ok(Some(receiver));
                }
            }
        }
        Ok(None)
    }
}

/// How a round ends whose node has not begun a campaign.
fn without_campaign(node: NodeId, fault: NodeFault) -> RoundEnd
    ensures { MatchBool (is_stop_fault fault) (result ≡ end.Stopped node) (result ≡ end.Refused fault) }
{
    if fault.is_stop() {
        RoundEnd::Stopped(node)
    } else {
        RoundEnd::Refused(fault)
    }
}

/// Whether the members are more than half of so many nodes, none of them twice, and the node is one of them.
fn is_quorum(nodes: u8, node: NodeId, members: &[NodeId]) -> bool
    ensures { IsTrue result ↔ IsQuorum nodes node members.now }
{
    members.len() > usize::from(nodes / 2) && is_among(members, node) && !has_repeats(members)
}

/// Whether the node is one of them.
fn is_among(nodes: &[NodeId], node: NodeId) -> bool
    ensures { IsTrue result ↔ Contains nodes.now node }
{
    nodes.contains(&node)
}

/// Whether some node stands there twice. Of seven names one comes again after seven places at the latest.
fn has_repeats(nodes: &[NodeId]) -> bool
    ensures { MatchBool result (AllPairs ◌≢◌ nodes.now → ⊥) (AllPairs ◌≢◌ nodes.now) }
{
    match nodes {
        [] => false,
        [first, rest @ ..] => is_among(rest, *first) || has_repeats(rest),
    }
}

/// The greatest promise that the frames tell by which a ballot is refused.
fn greatest_told(alloc: Global, frames: &[Frame]) -> Result<Option<Ballot>, WorldFault>
    ensures greatest { IfOk result (λ greatest. MatchOption greatest (NoneRefuses frames.now) (IsGreatestTold frames.now)) }
    ensures memory { IfErr result (λ f. f ≡ WorldFault.Memory) }
{
    match frames {
        [] => Ok(None),
        [first, rest @ ..] => {
            let later = greatest_told(alloc, rest)?;
            let envelope = first.open(alloc)?;
            Ok(greater(refusal_in(&envelope), later))
        }
    }
}

/// The promise that the message of an envelope tells by which a ballot is refused.
fn refusal_in(envelope: &Envelope) -> Option<Ballot>
    ensures { result ≡ refusal_in envelope.now.message }
{
    match &envelope.message {
        Message::Nack(nack) => Some(nack.promised()),
        _ => None,
    }
}

/// The greater one of two ballots, if there are any.
fn greater(one: Option<Ballot>, other: Option<Ballot>) -> Option<Ballot>
    ensures { result ≡ greater one other }
{
    let Some(mine) = one else {
        return other;
    };
    if other.is_some_and(|theirs| mine < theirs) {
        other
    } else {
        one
    }
}
