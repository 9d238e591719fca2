//! Ballots, slots and commands, as bytes at the end of others. Each value of the types fits.

ghost use Rattle.std.specs.Prelude.{◌≡◌, ℕ, ◌+◌, ◌*◌, ◌≤◌, ◌++◌, length, OnOk};
ghost use Rattle.sessions.specs.Requests.{IsShort};
ghost use Rattle.wire.specs.Spelling.{ballot_bytes, BallotFits, slot_bytes, SlotFits, op_bytes, OpFits};
ghost use Rattle.wire.specs.Spelling.{request_bytes, RequestFits, command_bytes, CommandFits};

use crate::Slot;
use fields::{
    TRIPLE_LEN, id_len, push_id, push_sequence, push_triple, push_u32, push_u64, sequence_len,
};
use sessions::{Command, Request};
use std::alloc::AllocError;
use store::Op;
use synod::Ballot;

/// A ballot: its round, and its node.
pub(super) fn push_ballot(out: &mut Vec<u8>, ballot: Ballot) -> Result<(), AllocError>
    ensures spelled { OnOk result (out.new.items ≡ out.old.items ++ ballot_bytes ballot) }
    ensures fits { BallotFits 7 ballot }
{
    push_u64(out, ballot.round)?;
    out.push(ballot.node)?;
    Ok(())
}

/// A slot.
pub(super) fn push_slot(out: &mut Vec<u8>, slot: Slot) -> Result<(), AllocError>
    ensures spelled { OnOk result (out.new.items ≡ out.old.items ++ slot_bytes slot) }
    ensures fits { SlotFits slot }
{
    push_u32(out, slot.value())
}

/// A command: whether something is asked for, and the request.
pub(super) fn push_command(out: &mut Vec<u8>, command: &Command) -> Result<(), AllocError>
    ensures spelled { OnOk result (out.new.items ≡ out.old.items ++ command_bytes command.now) }
    ensures fits { OnOk result (CommandFits command.now) }
{
    match command {
        Command::NoOp => {
            out.push(0)?;
            Ok(())
        }
        Command::Request(request) => {
            out.push(1)?;
            push_request(out, request)
        }
    }
}

fn push_request(out: &mut Vec<u8>, request: &Request) -> Result<(), AllocError>
    ensures spelled { OnOk result (out.new.items ≡ out.old.items ++ request_bytes request.now) }
    ensures fits { OnOk result (RequestFits request.now) }
{
    out.push(request.client())?;
    push_u64(out, request.number().value())?;
    push_op(out, request.op())
}

fn push_op(out: &mut Vec<u8>, op: &Op) -> Result<(), AllocError>
    requires { IsShort op.now }
    ensures spelled { OnOk result (out.new.items ≡ out.old.items ++ op_bytes op.now) }
    ensures fits { OnOk result (OpFits op.now) }
{
    match op {
        Op::Put(id, seq) => {
            out.push(1)?;
            push_id(out, id)?;
            push_sequence(out, seq)
        }
        Op::Append(addition) => {
            out.push(2)?;
            push_id(out, addition.id())?;
            push_triple(out, &addition.point())
        }
        Op::Remove(id) => {
            out.push(3)?;
            push_id(out, id)
        }
    }
}

/// How many bytes a command takes.
pub(super) fn command_len(command: &Command) -> usize
    ensures value { result ≡ length (command_bytes command.now) }
    ensures most { result ≤ 12367 }
{
    match command {
        Command::NoOp => 1,
        Command::Request(request) => 10 + op_len(request.op()),
    }
}

fn op_len(op: &Op) -> usize
    requires { IsShort op.now }
    ensures value { result ≡ length (op_bytes op.now) }
    ensures most { result ≤ 12357 }
{
    match op {
        Op::Put(id, seq) => 1 + id_len(id) + sequence_len(seq),
        Op::Append(addition) => 1 + id_len(addition.id()) + TRIPLE_LEN,
        Op::Remove(id) => 1 + id_len(id),
    }
}
