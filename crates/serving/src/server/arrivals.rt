//! What comes to a process from the other nodes, and from its own.

ghost use Rattle.std.specs.Prelude.{◌≡◌, ◌≤◌, ℕ, ◌∷◌, [], IfErr, IfOk, IsTrue, MatchBool, MatchOption, OnErr, OnOk, ◌↔◌};
ghost use Rattle.wire.specs.FrameReading.{frame_in};
ghost use Rattle.node_model.specs.declared.input.Input.TheVariants as input;
ghost use Rattle.clients.specs.ClientLines.{IsClientLine};
ghost use Rattle.clients.specs.declared.line.ClientLine.TheVariants as client_line;
ghost use Rattle.serving.specs.Knowing.{IsLastNumber};
ghost use Rattle.serving.specs.Ending.{EndsAt, HasEnded, IsOfOthers};
ghost use Rattle.serving.specs.Moves.{Moves, StopsTaking, Taking, TakesOwn};
ghost use Rattle.serving.specs.Outgoing.{IsArrival};
ghost use Rattle.serving.specs.Packets.{IsMessageTaken, IsTakenOnce, IsTakenOver, SubmitsNothing};
ghost use Rattle.serving.specs.Resting.{HasRead, IsReading};
ghost use Rattle.serving.specs.Serving.{Passes, PassesOnly, Serves, ServesNodes};
ghost use Rattle.serving.specs.Tapes.{Arrived, polled};
ghost use Rattle.serving.specs.Turns.{handed_on};
ghost use Rattle.serving.specs.declared.fault.TurnFault.TheVariants as turn_fault;

use super::{MOST_IN_A_TURN, Server};
use crate::fault::{TurnFault, refusal};
use crate::network::Network;
use crate::requests::HANDED_ON;
use clients::{ClientLine, read_line};
use node_model::Input;
use schedule::ReplayCause;
use sessions::Submission;
use stable::Stable;
use std::alloc::Global;
use wire::{WireFault, decode};

impl<S: Stable + Drop> Server<S> {
    ghost use Rattle.life.specs.Seen.{life_of};
    ghost use Rattle.serving.specs.Seen.{process_of, server_of};

    // What other nodes sent: whether more may have come.
    pub(super) fn take_frames<N: Network>(
        &mut self,
        alloc: Global,
        network: &mut N,
        now: u64,
    ) -> Result<bool, TurnFault>
        ensures serves { ServesNodes S.Stable N.tape N.Tells (server_of self.old) network.old (server_of self.new) network.new }
        ensures comes { OnOk result (PassesOnly N.tape N.Tells IsArrival network.old network.new) }
        ensures takes { IfOk result (λ more. Passes N.tape N.Tells (λ came.
            Moves S.Stable now Taking (process_of self.old) came [] (process_of self.new) × HasRead polled came more)
            network.old network.new) }
        ensures own { (life_of self.old.life).own ≡ [] → OnOk result ((life_of self.new.life).own ≡ []) }
        ensures stops { IfErr result (λ fault. Passes N.tape N.Tells (λ came.
            StopsTaking S.Stable now (process_of self.old) came [] fault (life_of self.new.life).node) network.old network.new) }
        ensures ends { IfErr result (HasEnded (life_of self.new.life).node) }
    {
        'frames: for _ in 0..MOST_IN_A_TURN {
            if !self.take_next_frame(alloc, network, now)? {
                return Ok(false);
            }
        }
        Ok(true)
    }

    // What has come, and what the node sends to itself on it: whether anything has.
    fn take_next_frame<N: Network>(
        &mut self,
        alloc: Global,
        network: &mut N,
        now: u64,
    ) -> Result<bool, TurnFault>
        ensures serves { ServesNodes S.Stable N.tape N.Tells (server_of self.old) network.old (server_of self.new) network.new }
        ensures comes { OnOk result (PassesOnly N.tape N.Tells IsArrival network.old network.new) }
        ensures takes { IfOk result (λ has_come. Passes N.tape N.Tells (λ came.
            Moves S.Stable now Taking (process_of self.old) came [] (process_of self.new) × IsReading polled came has_come)
            network.old network.new) }
        ensures own { (life_of self.old.life).own ≡ [] → OnOk result ((life_of self.new.life).own ≡ []) }
        ensures stops { IfErr result (λ fault. Passes N.tape N.Tells (λ came.
            StopsTaking S.Stable now (process_of self.old) came [] fault (life_of self.new.life).node) network.old network.new) }
        ensures ends { IfErr result (HasEnded (life_of self.new.life).node) }
    {
        let came = network.poll(alloc)?;
        let Some(bytes) = came else {
            return Ok(false);
        };
        self.take_frame(alloc, bytes.as_slice(), now)?;
        self.take_own(alloc)?;
        Ok(true)
    }

    // A frame of another node, or a request that it hands on. Anything else is passed over.
    fn take_frame(&mut self, alloc: Global, bytes: &[u8], now: u64) -> Result<(), TurnFault>
        ensures serves { Serves S.Stable (server_of self.old) (Arrived bytes.now ∷ []) [] (server_of self.new) }
        ensures moves { OnOk result (Moves S.Stable now Taking (process_of self.old) (Arrived bytes.now ∷ []) [] (process_of self.new)) }
        ensures stops { IfErr result (λ fault. EndsAt S.Stable IsOfOthers (life_of self.old.life).node fault (life_of self.new.life).node) }
        ensures ends { IfErr result (HasEnded (life_of self.new.life).node) }
    {
        if let Some(line) = bytes.strip_prefix(&[HANDED_ON]) {
            return self.take_handed_on(alloc, line);
        }
        self.take_message(alloc, bytes, now)
    }

    // A frame of another node. Anything else is passed over.
    fn take_message(&mut self, alloc: Global, bytes: &[u8], now: u64) -> Result<(), TurnFault>
        ensures serves { Serves S.Stable (server_of self.old) (Arrived bytes.now ∷ []) [] (server_of self.new) }
        ensures stops { IfErr result (λ fault. EndsAt S.Stable IsOfOthers (life_of self.old.life).node fault (life_of self.new.life).node) }
        ensures ends { IfErr result (HasEnded (life_of self.new.life).node) }
        ensures taken { OnOk result (IsMessageTaken S.Stable now (frame_in self.old.nodes bytes.now)
            (life_of self.old.life) self.old.timing (life_of self.new.life) self.new.timing) }
        ensures others { process_of self.new ≡ record (process_of self.old) { life = life_of self.new.life; timing = self.new.timing } }
    {
        match decode(alloc, bytes, self.nodes) {
            Ok(envelope) => {
                self.timing.see(&envelope, now);
                refusal(self.life.receive(alloc, &envelope))?;
                Ok(())
            }
            Err(WireFault::Memory) => Err(TurnFault::Memory),
            Err(_) => Ok(()),
        }
    }

    // A line that another process hands on: a request that its client waits for. Anything else is passed over.
    fn take_handed_on(&mut self, alloc: Global, line: &[u8]) -> Result<(), TurnFault>
        ensures serves { Serves S.Stable (server_of self.old) (Arrived (handed_on line.now) ∷ []) [] (server_of self.new) }
        ensures stops { IfErr result (λ fault. EndsAt S.Stable IsOfOthers (life_of self.old.life).node fault (life_of self.new.life).node) }
        ensures ends { IfErr result (HasEnded (life_of self.new.life).node) }
        ensures taken { OnOk result (IsTakenOver S.Stable line.now (life_of self.old.life) (life_of self.new.life)) }
        ensures others { process_of self.new ≡ record (process_of self.old) { life = life_of self.new.life } }
    {
        let found = submission_in(alloc, line)?;
        let Some(submission) = found else {
            return Ok(());
        };
        self.submit_once(alloc, submission, line)
    }

    // A request that was handed on with this line is submitted, but for one that has counted here.
    fn submit_once(
        &mut self,
        alloc: Global,
        submission: Submission,
        line: &[u8],
    ) -> Result<(), TurnFault>
        requires { IsClientLine line.now (client_line.Submit submission) }
        ensures serves { Serves S.Stable (server_of self.old) (Arrived (handed_on line.now) ∷ []) [] (server_of self.new) }
        ensures stops { IfErr result (λ fault. EndsAt S.Stable IsOfOthers (life_of self.old.life).node fault (life_of self.new.life).node) }
        ensures ends { IfErr result (HasEnded (life_of self.new.life).node) }
        ensures taken { OnOk result (IsTakenOnce S.Stable submission (life_of self.old.life) (life_of self.new.life)) }
        ensures others { process_of self.new ≡ record (process_of self.old) { life = life_of self.new.life } }
    {
        if self.has_counted(submission.client, submission.number.value()) {
            return Ok(());
        }
        refusal(self.life.take(alloc, input_of(submission)))?;
        Ok(())
    }

    // Whether a request of this client with this number or a greater one has counted. To submit it once more would take a slot for
    // nothing.
    fn has_counted(&self, client: u8, number: u64) -> bool
        ensures { (last : ℕ) → IsLastNumber (life_of self.now.life).node client last → IsTrue result ↔ (number ≤ last) }
    {
        number <= self.last_number(client)
    }

    // The number of the client's last request that counted.
    pub(super) fn last_number(&self, client: u8) -> u64
        ensures { IsLastNumber (life_of self.now.life).node client result }
    {
        self.life.node().last_number(client)
    }

    // The node's frames to itself, and those that come of them, until none waits.
    pub(super) fn take_own(&mut self, alloc: Global) -> Result<(), TurnFault>
        ensures serves { Serves S.Stable (server_of self.old) [] [] (server_of self.new) }
        ensures moves { (now : ℕ) → OnOk result (Moves S.Stable now Taking (process_of self.old) [] [] (process_of self.new)) }
        ensures stops { (now : ℕ) → IfErr result (λ fault.
            StopsTaking S.Stable now (process_of self.old) [] [] fault (life_of self.new.life).node) }
        ensures ends { IfErr result (HasEnded (life_of self.new.life).node) }
        ensures own { OnOk result ((life_of self.new.life).own ≡ []) }
    {
        'own: for _ in 0..u64::MAX {
            if !self.take_back(alloc)? {
                return Ok(());
            }
        }
        // No process lives long enough to come here.
        Err(TurnFault::Memory)
    }

    // The node's frame to itself that has waited longest: whether there is one. One that it refuses is gone.
    fn take_back(&mut self, alloc: Global) -> Result<bool, TurnFault>
        ensures serves { Serves S.Stable (server_of self.old) [] [] (server_of self.new) }
        ensures others { process_of self.new ≡ record (process_of self.old) { life = life_of self.new.life } }
        ensures stops { IfErr result (λ fault. EndsAt S.Stable IsOfOthers (life_of self.old.life).node fault (life_of self.new.life).node) }
        ensures ends { IfErr result (HasEnded (life_of self.new.life).node) }
        ensures takes { IfOk result (λ taken. MatchBool taken (TakesOwn S.Stable (life_of self.old.life) (life_of self.new.life))
            (((life_of self.old.life).own ≡ []) × (life_of self.new.life ≡ life_of self.old.life))) }
    {
        match self.life.take_back(alloc) {
            Ok(taken) => Ok(taken),
            Err(fault) => {
                refusal(Err(fault))?;
                Ok(true)
            }
        }
    }
}

// What the line submits, if it does.
fn submission_in(alloc: Global, line: &[u8]) -> Result<Option<Submission>, TurnFault>
    ensures found { IfOk result (λ found. MatchOption found (SubmitsNothing line.now)
        (λ submission. IsClientLine line.now (client_line.Submit submission))) }
    ensures memory { IfErr result (λ fault. fault ≡ turn_fault.Memory) }
{
    match read_line(alloc, line) {
        Ok(asked) => match asked {
            ClientLine::Submit(submission) => Ok(Some(submission)),
            _ => Ok(None),
        },
        Err(ReplayCause::Schedule(_)) => Ok(None),
        // Only memory can be wanting.
        Err(ReplayCause::World(_)) => Err(TurnFault::Memory),
    }
}

// What the submission is to a node.
pub(super) fn input_of(submission: Submission) -> Input
    ensures { result ≡ input.Submit submission.client submission.number submission.op }
{
    let Submission { client, number, op } = submission;
    Input::Submit { client, number, op }
}
