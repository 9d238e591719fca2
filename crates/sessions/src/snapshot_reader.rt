//! The machine of a snapshot text, read from left to right. Each byte is read once, and what is read is moved to its place.

ghost use Rattle.std.specs.Prelude.{◌≡◌, ◌≤◌, ◌<◌, ◌+◌, None, Some, IsTrue, IfOk, OnOk, length, true};
ghost use Rattle.fields.specs.Reading.{FieldGives, Tells};
ghost use Rattle.store.specs.Features.{IsDatabase};
ghost use Rattle.sessions.specs.Restoring.{next_id_at, feature_at, features_at, few_at, all_features_at, comes_after};
ghost use Rattle.sessions.specs.Restoring.{request_number_at, reply_at, session_at, client_from, clients_at, all_clients_at};
ghost use Rattle.sessions.specs.Restoring.{snapshot_at};
ghost use Rattle.sessions.specs.Snapshots.{held};

use crate::number::Number;
use crate::session::{Held, Session, Sessions};
use fields::{FieldFault, Input, read_id, read_sequence};
use mfjson::Feature;
use std::alloc::Global;
use store::{Db, Reply};
use tpoint::{Id, MOST_POINTS};

/// There are at most so many features, and as many clients.
const MOST_PARTS: u16 = 256;

/// The features and the sessions of the machine with this text.
#[tactic(auto, unfolding(crate::specs::Restoring::snapshot_at))]
pub fn read_snapshot(alloc: Global, bytes: &[u8]) -> Result<(Db, Sessions), FieldFault>
    ensures database { IfOk result (λ x. IsDatabase x.0) }
    ensures clients { IfOk result (λ x. length x.1 ≡ 256) }
    ensures read { FieldGives (λ x. (x.0, held x.1)) result (snapshot_at bytes.now) }
{
    let mut input = Input::new(bytes);
    let db = read_features(alloc, &mut input)?;
    let sessions = read_clients(&mut input)?;
    if !input.is_empty() {
        return Err(FieldFault::Field);
    }
    Ok((db, sessions))
}

/// The features: how many, and one after the other.
#[tactic(auto, unfolding(crate::specs::Restoring::all_features_at))]
fn read_features(alloc: Global, input: &mut Input) -> Result<Db, FieldFault>
    ensures database { IfOk result IsDatabase }
    ensures read { FieldGives (λ x. (x, input.new)) result (all_features_at input.old) }
{
    let count = read_few(input)?;
    read_each_feature(alloc, count, input)
}

/// A count of 0 to 256.
#[tactic(auto, unfolding(crate::specs::Restoring::few_at))]
fn read_few(input: &mut Input) -> Result<u16, FieldFault>
    ensures few { IfOk result (λ n. n ≤ 256) }
    ensures read { Tells (λ x. (x, input.new)) result (few_at input.old) }
{
    let count = input.u16()?;
    if count > MOST_PARTS {
        return Err(FieldFault::Field);
    }
    Ok(count)
}

/// So many features, each id after the one before it.
fn read_each_feature(alloc: Global, count: u16, input: &mut Input) -> Result<Db, FieldFault>
    requires few { count ≤ 256 }
    ensures database { IfOk result IsDatabase }
    ensures read { FieldGives (λ x. (x, input.new)) result (features_at count None input.old) }
{
    let mut db = Db::new(alloc);
    let mut before: Option<Id> = None;
    for _ in 0..count {
        let feature = read_feature(alloc, before, input)?;
        before = Some(feature.id);
        db.push(feature.id, feature.seq)?;
    }
    Ok(db)
}

/// A feature whose id comes after another.
#[tactic(auto, unfolding(crate::specs::Restoring::feature_at))]
fn read_feature(alloc: Global, before: Option<Id>, input: &mut Input) -> Result<Feature, FieldFault>
    ensures later { IfOk result (λ f. comes_after before f.id ≡ true) }
    ensures read { FieldGives (λ x. (x, input.new)) result (feature_at before input.old) }
{
    let id = read_next_id(before, input)?;
    let seq = read_sequence(alloc, MOST_POINTS as u16, input)?;
    Ok(Feature { id, seq })
}

/// An id that comes after another.
#[tactic(auto, unfolding(crate::specs::Restoring::next_id_at))]
fn read_next_id(before: Option<Id>, input: &mut Input) -> Result<Id, FieldFault>
    ensures later { IfOk result (λ id. comes_after before id ≡ true) }
    ensures read { Tells (λ x. (x, input.new)) result (next_id_at before input.old) }
{
    let id = read_id(input)?;
    if !comes_after(before, id) {
        return Err(FieldFault::Field);
    }
    Ok(id)
}

fn comes_after(before: Option<Id>, id: Id) -> bool
    ensures { result ≡ comes_after before id }
{
    match before {
        Some(before) => before < id,
        None => true,
    }
}

/// What is kept of the clients: of how many, and one after the other.
#[tactic(auto, unfolding(crate::specs::Restoring::all_clients_at))]
fn read_clients(input: &mut Input) -> Result<Sessions, FieldFault>
    ensures clients { IfOk result (λ s. length s ≡ 256) }
    ensures read { Tells (λ x. (held x, input.new)) result (all_clients_at input.old) }
{
    let count = read_few(input)?;
    read_each_client(count, input)
}

/// So many clients, each after the one before it.
fn read_each_client(count: u16, input: &mut Input) -> Result<Sessions, FieldFault>
    ensures clients { IfOk result (λ s. length s ≡ 256) }
    ensures read { Tells (λ x. (held x, input.new)) result (clients_at count 0 input.old) }
{
    let mut sessions = Sessions::new();
    let mut from = 0;
    for _ in 0..count {
        let held = read_client(from, input)?;
        from = u16::from(held.client) + 1;
        sessions.keep(held.client, held.session);
    }
    Ok(sessions)
}

/// A client that is not before another.
#[tactic(auto, unfolding(crate::specs::Restoring::client_from))]
fn read_client(from: u16, input: &mut Input) -> Result<Held, FieldFault>
    ensures late { IfOk result (λ held. from ≤ held.client) }
    ensures read { Tells (λ x. (x, input.new)) result (client_from from input.old) }
{
    let client = input.u8()?;
    if u16::from(client) < from {
        return Err(FieldFault::Field);
    }
    let session = read_session(input)?;
    Ok(Held { client, session })
}

/// The number of a request, and the reply to it.
#[tactic(auto, unfolding(crate::specs::Restoring::session_at))]
fn read_session(input: &mut Input) -> Result<Session, FieldFault>
    ensures { Tells (λ x. (x, input.new)) result (session_at input.old) }
{
    let number = read_request_number(input)?;
    let reply = read_reply(input)?;
    Ok(Session { number, reply })
}

/// A number from 1 on.
#[tactic(auto, unfolding(crate::specs::Restoring::request_number_at))]
fn read_request_number(input: &mut Input) -> Result<Number, FieldFault>
    ensures { Tells (λ x. (x, input.new)) result (request_number_at input.old) }
{
    let value = input.u64()?;
    let Some(number) = Number::new(value) else {
        return Err(FieldFault::Field);
    };
    Ok(number)
}

/// A reply, by its code.
#[tactic(auto, unfolding(crate::specs::Restoring::reply_at))]
fn read_reply(input: &mut Input) -> Result<Reply, FieldFault>
    ensures { Tells (λ x. (x, input.new)) result (reply_at input.old) }
{
    match input.u8()? {
        0 => Ok(Reply::Done),
        21 => Ok(Reply::Unknown),
        22 => Ok(Reply::NotLater),
        23 => Ok(Reply::Full),
        24 => Ok(Reply::TooMany),
        _ => Err(FieldFault::Field),
    }
}
