//! What carries a snapshot, read with the first fault that is met.

ghost use Rattle.std.specs.Prelude.{◌≡◌, ℕ, ◌-◌, ◌<◌, ◌≤◌, ⊤, min, length, IfOk, IsErrOf};
ghost use Rattle.fields.specs.Reading.{Tells};
ghost use Rattle.sessions.specs.declared.snapshot.TheConstants.{LONGEST_SNAPSHOT};
ghost use Rattle.wire.specs.FrameReading.{position_at, part_below, total_at, part_bytes_at, piece_at, message_at};
ghost use Rattle.wire.specs.Parts.{IsPosition, offset_of};
ghost use Rattle.wire.specs.Reading.{Gives, ReadMayWant};
ghost use Rattle.wire.specs.declared.frames.kind.Kind.TheVariants as kind;

use super::fault::WireFault;
use super::message::Message;
use super::part::{PART, Part, PartNumber};
use super::position::Position;
use fields::Input;
use sessions::LONGEST_SNAPSHOT;
use std::alloc::Global;
use std::rc::Rc;

/// The position of a checkpoint.
#[tactic(auto, unfolding(crate::specs::FrameReading::position_at))]
pub(super) fn read_position(input: &mut Input) -> Result<Position, WireFault>
    ensures is { IfOk result IsPosition }
    ensures read { Tells (λ x. (x, input.new)) result (position_at input.old) }
{
    let position = input.u32()?;
    match Position::new(position) {
        Some(position) => Ok(position),
        None => Err(WireFault::Field),
    }
}

/// Which part of which checkpoint's text is asked for.
#[tactic(auto, unfolding(crate::specs::FrameReading::message_at))]
pub(super) fn read_snap_ask(input: &mut Input) -> Result<Message, WireFault>
    ensures { (nodes : ℕ) → Tells (λ x. (x, input.new)) result (message_at kind.SnapAsk nodes input.old) }
{
    let position = read_position(input)?;
    let number = read_part_below(input, LONGEST_SNAPSHOT as u32)?;
    Ok(Message::SnapAsk { position, number })
}

/// A part of a text of at most so many bytes, by the place at which it begins.
#[tactic(auto, unfolding(crate::specs::FrameReading::part_below), using(crate::proofs::PartLaws::whole_parts))]
fn read_part_below(input: &mut Input, total: u32) -> Result<PartNumber, WireFault>
    requires { total ≤ LONGEST_SNAPSHOT }
    ensures begins { IfOk result (λ number. offset_of number < total) }
    ensures read { Tells (λ x. (x, input.new)) result (part_below total input.old) }
{
    let offset = input.u32()?;
    if offset % PART as u32 != 0 || offset >= total {
        return Err(WireFault::Field);
    }
    match PartNumber::new((offset / PART as u32) as u8) {
        Some(number) => Ok(number),
        None => Err(WireFault::Field),
    }
}

/// A part of a text.
#[tactic(auto, unfolding(crate::specs::FrameReading::piece_at))]
pub(super) fn read_part(alloc: Global, input: &mut Input) -> Result<Part, WireFault>
    ensures read { Gives (λ x. (x, input.new)) result (piece_at input.old) }
    ensures memory { IsErrOf result WireFault.Memory → ReadMayWant (λ _. ⊤) (piece_at input.old) }
{
    let position = read_position(input)?;
    let total = read_total(input)?;
    let number = read_part_below(input, total)?;
    let bytes = read_part_bytes(alloc, input, total, number)?;
    Ok(Part::made(position, total, number, bytes))
}

/// How many bytes a whole text has.
#[tactic(auto, unfolding(crate::specs::FrameReading::total_at))]
fn read_total(input: &mut Input) -> Result<u32, WireFault>
    ensures least { IfOk result (λ total. 4 ≤ total) }
    ensures most { IfOk result (λ total. total ≤ LONGEST_SNAPSHOT) }
    ensures read { Tells (λ x. (x, input.new)) result (total_at input.old) }
{
    let total = input.u32()?;
    if total < 4 || total > LONGEST_SNAPSHOT as u32 {
        return Err(WireFault::Field);
    }
    Ok(total)
}

/// The bytes of a part of a text of so many bytes. They are copied once, into memory of their own.
#[tactic(auto, unfolding(crate::specs::FrameReading::part_bytes_at))]
fn read_part_bytes(
    alloc: Global,
    input: &mut Input,
    total: u32,
    number: PartNumber,
) -> Result<Rc<Vec<u8>>, WireFault>
    requires { offset_of number < total }
    ensures read { Gives (λ x. (x.value.items, input.new)) result (part_bytes_at total number input.old) }
    ensures memory { IsErrOf result WireFault.Memory → ReadMayWant (λ _. ⊤) (part_bytes_at total number input.old) }
    ensures whole { IfOk result (λ bytes. length bytes.value.items ≡ min PART (total - offset_of number)) }
{
    let count = input.u16()?;
    if u32::from(count) != (total - number.offset()).min(PART as u32) {
        return Err(WireFault::Field);
    }
    let bytes = input.bytes(usize::from(count))?.to_vec(alloc)?;
    Ok(Rc::new(alloc, bytes)?)
}
