//! The requests that parts of a node deal with.

ghost use Rattle.std.specs.Prelude.{◌≤◌, ◌<◌, IfErr};
ghost use Rattle.synod.specs.declared.slot.TheConstants.{SLOTS};
ghost use Rattle.conformance.specs.Faults.{IsUntimed};

use super::fleet::name;
use super::messages::first_ballot;
use super::scene::{START, instant};
use crate::fault::Fault;
use sessions::{Command, Number, Request};
use std::alloc::Global;
use store::Op;
use synod::{Slot, Vote};
use tpoint::Point;
use wire::SharedCommand;

/// The client of all requests.
pub const CLIENT: u8 = 7;

/// The client's request of a number: it adds a point.
pub fn request(number: u64) -> Result<Request, Fault>
    requires { 1 ≤ number }
    ensures { IfErr result IsUntimed }
{
    let point = Point {
        t: instant(START),
        x: 0,
        y: 0,
    };
    let op = Op::append(name(0), point).unwrap();
    Ok(Request::new(CLIENT, Number::new(number).unwrap(), op)?)
}

/// The vote at a slot, under the first ballot, for a request of its own.
pub fn vote(alloc: Global, slot: u32) -> Result<Vote<SharedCommand>, Fault>
    requires { slot < SLOTS }
    ensures { IfErr result IsUntimed }
{
    Ok(Vote {
        slot: Slot::new(slot).unwrap(),
        ballot: first_ballot(),
        command: SharedCommand::new(alloc, Command::Request(request(u64::from(slot) + 1)?))?,
    })
}
