//! Ballots, slots and commands, read with the first fault that is met.

ghost use Rattle.std.specs.Prelude.{◌≡◌, ◌<◌, ◌≤◌, ⊤, IfOk, IsOk, IsErrOf};
ghost use Rattle.fields.specs.Reading.{Tells, id_at};
ghost use Rattle.sessions.specs.Requests.{IsShort};
ghost use Rattle.wire.specs.Puts.{IsPut, CommandPuts, OpBeginsAsPut, RequestBeginsAsPut, CommandBeginsAsPut};
ghost use Rattle.wire.specs.Reading.{Gives, ReadMayWant, ballot_of, ballot_at, slot_at, put_at, append_at, remove_at, op_at};
ghost use Rattle.wire.specs.Reading.{request_number_at, request_at, asked_at, command_at};

use super::fault::WireFault;
use crate::{Nodes, SharedCommand, Slot};
use fields::{Input, read_id, read_sequence, read_triple};
use sessions::{Command, MOST_PUT_POINTS, Number, Request};
use std::alloc::Global;
use store::Op;
use synod::Ballot;

/// A ballot of one of so many nodes.
#[tactic(auto, unfolding(crate::specs::Reading::ballot_at))]
pub(super) fn read_ballot(input: &mut Input, nodes: Nodes) -> Result<Ballot, WireFault>
    ensures { Tells (λ x. (x, input.new)) result (ballot_at nodes input.old) }
{
    let round = input.u64()?;
    if round == 0 {
        return Err(WireFault::Field);
    }
    let node = input.u8()?;
    if node >= nodes.count() {
        return Err(WireFault::Field);
    }
    Ok(made(round, node))
}

/// The ballot of a round and a node.
fn made(round: u64, node: u8) -> Ballot
    requires begun { 1 ≤ round }
    requires of_a_node { node < 7 }
    ensures { result ≡ ballot_of round node }
{
    Ballot { round, node }
}

/// A slot of the log.
#[tactic(auto, unfolding(crate::specs::Reading::slot_at))]
pub(super) fn read_slot(input: &mut Input) -> Result<Slot, WireFault>
    ensures { Tells (λ x. (x, input.new)) result (slot_at input.old) }
{
    let number = input.u32()?;
    let Some(slot) = Slot::new(number) else {
        return Err(WireFault::Field);
    };
    Ok(slot)
}

/// What is at a slot of the log, to be held.
#[tactic(auto)]
pub(super) fn read_held(alloc: Global, input: &mut Input) -> Result<SharedCommand, WireFault>
    ensures read { Gives (λ x. (x, input.new)) result (command_at input.old) }
    ensures memory { IsErrOf result WireFault.Memory → ReadMayWant (λ _. ⊤) (command_at input.old) }
{
    let command = read_command(alloc, input)?;
    Ok(SharedCommand::new(alloc, command)?)
}

/// What is at a slot of the log: nothing, or a client's request.
#[tactic(auto, unfolding(crate::specs::Reading::command_at))]
#[inline(always)]
pub(super) fn read_command(alloc: Global, input: &mut Input) -> Result<Command, WireFault>
    ensures read { Gives (λ x. (x, input.new)) result (command_at input.old) }
    ensures memory { IsErrOf result WireFault.Memory → ReadMayWant (λ x. CommandPuts x.0) (command_at input.old) }
    ensures begins { IsErrOf result WireFault.Memory → CommandBeginsAsPut input.old }
{
    match input.u8()? {
        0 => Ok(Command::NoOp),
        1 => read_asked(alloc, input),
        _ => Err(WireFault::Field),
    }
}

#[tactic(auto, unfolding(crate::specs::Reading::asked_at))]
fn read_asked(alloc: Global, input: &mut Input) -> Result<Command, WireFault>
    ensures read { Gives (λ x. (x, input.new)) result (asked_at input.old) }
    ensures memory { IsErrOf result WireFault.Memory → ReadMayWant (λ x. CommandPuts x.0) (asked_at input.old) }
    ensures begins { IsErrOf result WireFault.Memory → RequestBeginsAsPut input.old }
{
    let request = read_request(alloc, input)?;
    Ok(Command::Request(request))
}

#[tactic(auto, unfolding(crate::specs::Reading::request_at))]
fn read_request(alloc: Global, input: &mut Input) -> Result<Request, WireFault>
    ensures read { Gives (λ x. (x, input.new)) result (request_at input.old) }
    ensures memory { IsErrOf result WireFault.Memory → ReadMayWant (λ x. IsPut x.0.op) (request_at input.old) }
    ensures begins { IsErrOf result WireFault.Memory → RequestBeginsAsPut input.old }
{
    let client = input.u8()?;
    let number = read_request_number(input)?;
    let op = read_op(alloc, input)?;
    let Ok(request) = Request::new(client, number, op) else {
        return Err(WireFault::Field);
    };
    Ok(request)
}

#[tactic(auto, unfolding(crate::specs::Reading::request_number_at))]
fn read_request_number(input: &mut Input) -> Result<Number, WireFault>
    ensures { Tells (λ x. (x, input.new)) result (request_number_at input.old) }
{
    let value = input.u64()?;
    let Some(number) = Number::new(value) else {
        return Err(WireFault::Field);
    };
    Ok(number)
}

/// A change to the database: `01` puts, `02` appends, `03` removes.
#[tactic(auto, unfolding(crate::specs::Reading::op_at), using(crate::proofs::WantLemmas::put_wants))]
fn read_op(alloc: Global, input: &mut Input) -> Result<Op, WireFault>
    ensures short { IfOk result IsShort }
    ensures read { Gives (λ x. (x, input.new)) result (op_at input.old) }
    ensures memory { IsErrOf result WireFault.Memory → ReadMayWant (λ x. IsPut x.0) (op_at input.old) }
    ensures begins { IsErrOf result WireFault.Memory → OpBeginsAsPut input.old }
{
    match input.u8()? {
        1 => read_put(alloc, input),
        2 => read_append(input),
        3 => read_remove(input),
        _ => Err(WireFault::Field),
    }
}

#[tactic(auto, unfolding(crate::specs::Reading::put_at))]
fn read_put(alloc: Global, input: &mut Input) -> Result<Op, WireFault>
    ensures short { IfOk result IsShort }
    ensures read { Gives (λ x. (x, input.new)) result (put_at input.old) }
    ensures begins { IsErrOf result WireFault.Memory → IsOk (id_at input.old) }
{
    let id = read_id(input)?;
    let seq = read_sequence(alloc, MOST_PUT_POINTS as u16, input)?;
    Ok(Op::Put(id, seq))
}

#[tactic(auto, unfolding(crate::specs::Reading::append_at))]
fn read_append(input: &mut Input) -> Result<Op, WireFault>
    ensures short { IfOk result IsShort }
    ensures read { Tells (λ x. (x, input.new)) result (append_at input.old) }
{
    let id = read_id(input)?;
    let point = read_triple(input)?;
    let Some(op) = Op::append(id, point) else {
        return Err(WireFault::Field);
    };
    Ok(op)
}

#[tactic(auto, unfolding(crate::specs::Reading::remove_at))]
fn read_remove(input: &mut Input) -> Result<Op, WireFault>
    ensures short { IfOk result IsShort }
    ensures read { Tells (λ x. (x, input.new)) result (remove_at input.old) }
{
    let id = read_id(input)?;
    Ok(Op::Remove(id))
}
