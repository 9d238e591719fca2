//! Commands, executed one after another.

ghost use Rattle.std.specs.Prelude.{◌≤◌, IfErr};
ghost use Rattle.conformance.specs.Faults.{IsUntimed};

use super::fleet::{name, put};
use super::operations::next_point;
use super::scene::Scene;
use crate::fault::Fault;
use sessions::{Command, Machine, Number, Request};
use std::alloc::AllocError;
use store::Op;

/// So many clients ask in turn.
pub const CLIENTS: u32 = 8;

/// After so many turns a client asks its last request once more.
pub const REPEATED: u32 = 16;

/// Executes the round's request, and tells one more than the number of the reply to it; Usage where no request can put
/// a sequence of so many points.
pub fn outcome_number(machine: &mut Machine, scene: &Scene, round: u32) -> Result<u64, Fault>
    ensures { IfErr result IsUntimed }
{
    let command = Command::Request(request_at(scene, round)?);
    let outcome = machine.execute(&command)?;
    Ok(1 + u64::from(outcome.code()))
}

/// What is asked in a round.
fn request_at(scene: &Scene, round: u32) -> Result<Request, Fault>
    ensures { IfErr result IsUntimed }
{
    let client = round % CLIENTS;
    let number = number_at(round / CLIENTS);
    let op = op_at(scene, client, number)?;
    Ok(Request::new(client as u8, Number::new(number).unwrap(), op)?)
}

/// The number of a client's request in a turn: one more than in the turn before, but where that is asked once more.
fn number_at(turn: u32) -> u64
    ensures { 1 ≤ result }
{
    let turn = u64::from(turn);
    turn + 1 - turn / u64::from(REPEATED)
}

/// What a client asks under a number: its feature is put, gets points, and is removed before it is full.
fn op_at(scene: &Scene, client: u32, number: u64) -> Result<Op, AllocError> {
    match number % 256 {
        1 => put(scene, client),
        0 => Ok(Op::Remove(name(client))),
        minutes => Ok(Op::append(name(client), next_point(scene, minutes as u32)).unwrap()),
    }
}
