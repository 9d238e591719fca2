//! The snapshot text of a machine that has as many features and clients as one may have.

ghost use Rattle.std.specs.Prelude.{◌≡◌, IfErr};
ghost use Rattle.conformance.specs.Faults.{IsUntimed};

use super::fleet::letter;
use super::scene::fix;
use super::task::TextWork;
use crate::fault::Fault;
use sessions::{Command, Machine, Number, Request};
use std::alloc::Global;
use store::Op;
use tpoint::{Id, Interp, LONGEST_ID, Seq};

/// The sum of what the rounds answer, each the length of the text, in 64 bits.
pub fn text_total(alloc: Global, work: TextWork, points: u16, rounds: u32) -> Result<u64, Fault>
    ensures { IfErr result IsUntimed }
{
    let machine = full_machine(alloc, points)?;
    let text = machine.snapshot(alloc)?;
    text_sum(alloc, work, &machine, &text, rounds)
}

/// The same of a machine with this text.
fn text_sum(
    alloc: Global,
    work: TextWork,
    machine: &Machine,
    text: &[u8],
    rounds: u32,
) -> Result<u64, Fault>
    ensures { IfErr result IsUntimed }
{
    let mut total = 0u64;
    for _ in 0..rounds {
        let number = text_number(alloc, work, machine, text)?;
        total = total.wrapping_add(number);
    }
    Ok(total)
}

/// Does the work once, and tells how long the text is.
fn text_number(alloc: Global, work: TextWork, machine: &Machine, text: &[u8]) -> Result<u64, Fault>
    ensures { IfErr result (λ fault. fault ≡ Fault.Memory) }
{
    match work {
        TextWork::Copied => Ok(text.to_vec(alloc)?.len() as u64),
        TextWork::Written => Ok(machine.snapshot(alloc)?.len() as u64),
        TextWork::Restored => {
            let _restored = restored(alloc, text)?;
            Ok(text.len() as u64)
        }
        TextWork::WrittenAgain => written_again(alloc, text),
    }
}

/// The machine with this text.
fn restored(alloc: Global, text: &[u8]) -> Result<Machine, Fault>
    ensures { IfErr result (λ fault. fault ≡ Fault.Memory) }
{
    match Machine::restore(alloc, text) {
        Ok(machine) => Ok(machine),
        // The text of a machine is refused for memory alone.
        Err(_) => Err(Fault::Memory),
    }
}

/// How long the text is of the machine with this text; 0 if that is another text.
fn written_again(alloc: Global, text: &[u8]) -> Result<u64, Fault>
    ensures { IfErr result (λ fault. fault ≡ Fault.Memory) }
{
    let again = restored(alloc, text)?.snapshot(alloc)?;
    if again.as_slice() != text {
        return Ok(0);
    }
    Ok(again.len() as u64)
}

/// A machine after what 256 clients asked for: each put a feature of its own, and added points to it.
fn full_machine(alloc: Global, points: u16) -> Result<Machine, Fault>
    ensures { IfErr result IsUntimed }
{
    let mut machine = Machine::new(alloc);
    for client in 0..=u8::MAX {
        fill_feature(alloc, &mut machine, client, points)?;
    }
    Ok(machine)
}

/// The client's feature has so many points from now on, and no more than it may have.
fn fill_feature(alloc: Global, machine: &mut Machine, client: u8, points: u16) -> Result<(), Fault>
    ensures { IfErr result IsUntimed }
{
    for place in 0..points {
        let number = Number::new(u64::from(place) + 1).unwrap();
        let request = Request::new(client, number, filling(alloc, client, place)?)?;
        let _ = machine.execute(&Command::Request(request))?;
    }
    Ok(())
}

/// The feature is put with its first point, and gets the others one by one.
fn filling(alloc: Global, client: u8, place: u16) -> Result<Op, Fault>
    ensures { IfErr result IsUntimed }
{
    let id = long_name(client)?;
    if place == 0 {
        let first = Vec::from_array(alloc, [fix(place)])?;
        return Ok(Op::Put(id, Seq::new(Interp::Linear, first)?));
    }
    let Some(op) = Op::append(id, fix(place)) else {
        return Err(Fault::Usage);
    };
    Ok(op)
}

/// A name of the greatest length, another one for each client.
fn long_name(client: u8) -> Result<Id, Fault>
    ensures { IfErr result IsUntimed }
{
    let mut bytes = [b'-'; LONGEST_ID];
    bytes[0] = letter(u32::from(client / 16));
    bytes[1] = letter(u32::from(client));
    let Some(id) = Id::new(&bytes) else {
        return Err(Fault::Usage);
    };
    Ok(id)
}
