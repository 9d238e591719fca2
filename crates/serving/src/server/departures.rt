//! What a process sends to the other nodes.

ghost use Rattle.std.specs.Prelude.{◌≡◌, ◌≤◌, ◌∷◌, [], IfErr, IfOk, MatchBool, OnErr, OnOk, take};
ghost use Rattle.life.specs.Telling.{nothing};
ghost use Rattle.serving.specs.Moves.{HandsOnSome, Moves, StopsHandingOn, StopsTelling, Telling, TellsOrNot};
ghost use Rattle.serving.specs.Owing.{BreaksOff};
ghost use Rattle.serving.specs.Outgoing.{AreFramesOf, ArePacketsOf, IsFrameOf, IsPacketOf, IsRightlySent};
ghost use Rattle.serving.specs.Requesting.{HandsOnFirst, NoneIsDue, as_new_all, unreplied};
ghost use Rattle.serving.specs.Resting.{IsFull};
ghost use Rattle.serving.specs.Serving.{Passes, PassesBoth, PassesOnly, ServesNodes, ServesOver};
ghost use Rattle.serving.specs.Tapes.{HasPassed};
ghost use Rattle.serving.specs.Timings.{all_own_seen, leader_in, own_seen};
ghost use Rattle.serving.specs.declared.fault.TurnFault.TheVariants as turn_fault;

use super::Server;
use crate::desk::Desk;
use crate::fault::TurnFault;
use crate::hand_on::is_handed_to;
use crate::network::Network;
use life::Told;
use stable::Stable;
use std::alloc::Global;
use wire::{Frame, Message};

impl<S: Stable + Drop> Server<S> {
    ghost use Rattle.std.specs.Prelude.{ℕ};
    ghost use Rattle.life.specs.Seen.{life_of};
    ghost use Rattle.serving.specs.Seen.{process_of, server_of};

    // What the life holds goes out: frames to the other nodes, and replies to those who wait for them. Whether one of those was told.
    pub(super) fn let_out<N: Network, D: Desk>(
        &mut self,
        alloc: Global,
        network: &mut N,
        desk: &mut D,
        now: u64,
    ) -> Result<bool, TurnFault>
        ensures serves { ServesOver S.Stable N.tape N.Tells D.tape D.Tells (server_of self.old) network.old desk.old
            (server_of self.new) network.new desk.new }
        ensures node { OnOk result ((life_of self.new.life).node ≡ (life_of self.old.life).node) }
        ensures frames { OnOk result (PassesOnly N.tape N.Tells (IsFrameOf (life_of self.old.life).held.frames) network.old network.new) }
        ensures requests { OnOk result (self.new.requests ≡ unreplied (life_of self.old.life).held.replies self.old.requests) }
        ensures moves { IfOk result (λ has_told. PassesBoth N.tape N.Tells D.tape D.Tells (λ sent said.
            TellsOrNot S.Stable now (process_of self.old) sent said (process_of self.new) has_told)
            network.old desk.old network.new desk.new) }
        ensures breaks { OnErr result (Passes D.tape D.Tells (λ said. BreaksOff said self.old.waiting) desk.old desk.new) }
        ensures stops { OnErr result (PassesBoth N.tape N.Tells D.tape D.Tells (λ sent said.
            StopsTelling S.Stable now (process_of self.old) sent said turn_fault.Memory (life_of self.new.life).node)
            network.old desk.old network.new desk.new) }
        ensures memory { IfErr result (λ fault. fault ≡ turn_fault.Memory) }
        ensures held { OnOk result ((life_of self.new.life).held ≡ nothing) }
        ensures own { OnOk result ((life_of self.new.life).own ≡ (life_of self.old.life).own) }
    {
        let Told {
            frames,
            learnt: _,
            replies,
            answers: _,
        } = self.life.hand_out(alloc);
        let waiting = self.waiting.claims().len();
        self.send_frames(alloc, network, frames.as_slice(), now)?;
        self.tell_replies(alloc, desk, replies.as_slice())?;
        // Who was told one waits no more.
        Ok(self.waiting.claims().len() < waiting)
    }

    // The frames go to their receivers.
    fn send_frames<N: Network>(
        &mut self,
        alloc: Global,
        network: &mut N,
        frames: &[Frame],
        now: u64,
    ) -> Result<(), TurnFault>
        ensures sends { PassesOnly N.tape N.Tells (IsFrameOf frames.now) network.old network.new }
        ensures same { server_of self.new ≡ server_of self.old }
        ensures all { OnOk result (Passes N.tape N.Tells (AreFramesOf frames.now) network.old network.new) }
        ensures node { (self.new.own ≡ self.old.own) × (self.new.nodes ≡ self.old.nodes) }
        ensures seen { OnOk result (self.new.timing ≡ all_own_seen frames.now now self.old.timing) }
        ensures some { OnErr result (Passes N.tape N.Tells (λ sent. (count : ℕ) × AreFramesOf (take count frames.now) sent)
            network.old network.new) }
        ensures memory { IfErr result (λ fault. fault ≡ turn_fault.Memory) }
    {
        'frames: for frame in frames.iter() {
            self.note_sent(alloc, frame, now)?;
            send_frame(alloc, network, frame)?;
        }
        Ok(())
    }

    // What its own frames tell: of its campaigns, and of its votes.
    fn note_sent(&mut self, alloc: Global, frame: &Frame, now: u64) -> Result<(), TurnFault>
        ensures same { server_of self.new ≡ server_of self.old }
        ensures seen { OnOk result (self.new.timing ≡ own_seen frame.now.message now self.old.timing) }
        ensures memory { IfErr result (λ fault. fault ≡ turn_fault.Memory) }
        ensures node { (self.new.own ≡ self.old.own) × (self.new.nodes ≡ self.old.nodes) }
    {
        if let Some(slot) = frame.voted_slot() {
            self.timing.see_vote(slot);
            return Ok(());
        }
        let envelope = frame.open(alloc)?;
        if let Message::Prepare { ballot, .. } = &envelope.message {
            self.timing.see_ballot(*ballot, now);
        }
        Ok(())
    }

    // The requests that wait here are handed on to the node that leads, or to all.
    pub(super) fn hand_on<N: Network>(
        &mut self,
        alloc: Global,
        network: &mut N,
        now: u64,
    ) -> Result<(), TurnFault>
        ensures serves { ServesNodes S.Stable N.tape N.Tells (server_of self.old) network.old (server_of self.new) network.new }
        ensures waits { self.new.waiting ≡ self.old.waiting }
        ensures life { self.new.life ≡ self.old.life }
        ensures knows { (self.new.timing ≡ self.old.timing) × (self.new.own ≡ self.old.own) }
        ensures none { self.old.requests ≡ [] → self.new.requests ≡ [] }
        ensures sends { OnOk result (PassesOnly N.tape N.Tells (IsRightlySent (leader_in self.old.timing) self.old.own)
            network.old network.new) }
        ensures keeps { as_new_all self.new.requests ≡ as_new_all self.old.requests }
        ensures all { OnOk result (NoneIsDue now self.new.requests) }
        ensures stops { (life_of self.old.life).held ≡ nothing → (IsFull (life_of self.old.life).node → self.old.requests ≡ [])
            → OnErr result (Passes N.tape N.Tells (λ sent.
            StopsHandingOn S.Stable now (process_of self.old) sent [] (life_of self.new.life).node) network.old network.new) }
        ensures memory { IfErr result (λ fault. fault ≡ turn_fault.Memory) }
        ensures moves { (life_of self.old.life).held ≡ nothing → (IsFull (life_of self.old.life).node → self.old.requests ≡ [])
            → OnOk result (Passes N.tape N.Tells (λ sent. Moves S.Stable now Telling (process_of self.old) sent [] (process_of self.new))
            network.old network.new) }
    {
        'packets: for _ in 0..self.requests.count() {
            if !self.hand_on_next(alloc, network, now)? {
                return Ok(());
            }
        }
        Ok(())
    }

    // The next request that is to be handed on: whether there is one.
    fn hand_on_next<N: Network>(
        &mut self,
        alloc: Global,
        network: &mut N,
        now: u64,
    ) -> Result<bool, TurnFault>
        ensures serves { ServesNodes S.Stable N.tape N.Tells (server_of self.old) network.old (server_of self.new) network.new }
        ensures waits { self.new.waiting ≡ self.old.waiting }
        ensures life { self.new.life ≡ self.old.life }
        ensures knows { (self.new.timing ≡ self.old.timing) × (self.new.own ≡ self.old.own) }
        ensures none { self.old.requests ≡ [] → self.new.requests ≡ [] }
        ensures sends { OnOk result (PassesOnly N.tape N.Tells (IsRightlySent (leader_in self.old.timing) self.old.own)
            network.old network.new) }
        ensures keeps { as_new_all self.new.requests ≡ as_new_all self.old.requests }
        ensures first { IfOk result (λ has_handed. MatchBool has_handed
            ((place : ℕ) × HandsOnFirst now place self.old.requests self.new.requests)
            ((self.new.requests ≡ self.old.requests) × NoneIsDue now self.old.requests)) }
        ensures stops { (life_of self.old.life).held ≡ nothing → (IsFull (life_of self.old.life).node → self.old.requests ≡ [])
            → OnErr result (Passes N.tape N.Tells (HandsOnSome S.Stable now (process_of self.old)) network.old network.new) }
        ensures memory { IfErr result (λ fault. fault ≡ turn_fault.Memory) }
        ensures moves { (life_of self.old.life).held ≡ nothing → (IsFull (life_of self.old.life).node → self.old.requests ≡ [])
            → OnOk result (Passes N.tape N.Tells (λ sent. Moves S.Stable now Telling (process_of self.old) sent [] (process_of self.new))
            network.old network.new) }
    {
        let Some(place) = self.requests.next_due(now) else {
            return Ok(false);
        };
        self.send_packet(alloc, network, self.requests.packet(place))?;
        Ok(true)
    }

    // The packet goes to the nodes to which a request is handed on.
    fn send_packet<N: Network>(
        &self,
        alloc: Global,
        network: &mut N,
        packet: &[u8],
    ) -> Result<(), TurnFault>
        ensures only { PassesOnly N.tape N.Tells (IsPacketOf (leader_in self.now.timing) self.now.own packet.now) network.old network.new }
        ensures all { OnOk result (Passes N.tape N.Tells
            (ArePacketsOf (leader_in self.now.timing) self.now.own packet.now self.now.nodes) network.old network.new) }
        ensures some { OnErr result (Passes N.tape N.Tells (λ sent. (upto : ℕ) × (upto ≤ self.now.nodes)
            × ArePacketsOf (leader_in self.now.timing) self.now.own packet.now upto sent) network.old network.new) }
        ensures memory { IfErr result (λ fault. fault ≡ turn_fault.Memory) }
    {
        let leader = self.timing.leader();
        'nodes: for node in 0..self.nodes.count() {
            if !is_handed_to(leader, self.own.value(), node) {
                continue;
            }
            network.send(alloc, self.nodes.node(node), packet)?;
        }
        Ok(())
    }
}

// The frame goes to its receiver.
fn send_frame<N: Network>(alloc: Global, network: &mut N, frame: &Frame) -> Result<(), TurnFault>
    ensures only { PassesOnly N.tape N.Tells (IsFrameOf (frame.now ∷ [])) network.old network.new }
    ensures all { OnOk result (Passes N.tape N.Tells (AreFramesOf (frame.now ∷ [])) network.old network.new) }
    ensures nothing { OnErr result (HasPassed N.tape N.Tells network.old [] network.new) }
    ensures memory { IfErr result (λ fault. fault ≡ turn_fault.Memory) }
{
    let bytes = frame.bytes(alloc)?;
    network.send(alloc, frame.receiver(), bytes.as_slice())?;
    Ok(())
}
