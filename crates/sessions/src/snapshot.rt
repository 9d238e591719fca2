//! The snapshot text of a machine.

ghost use Rattle.std.specs.Prelude.{◌≡◌, ℕ, ◌+◌, ◌*◌, ◌<◌, ◌≤◌, ◌++◌, ◌∷◌, [], All, length, IfOk, OnOk};
ghost use Rattle.std.specs.List.{flat_map};
ghost use Rattle.store.specs.Features.{IsDatabase};
ghost use Rattle.sessions.specs.Snapshots.{feature_bytes, client_bytes, counted, text_bytes, held, held_from};
ghost use Rattle.sessions.specs.Snapshots.{FeatureFits, ClientFits, PartsFit};

use crate::session::{Session, Sessions};
use fields::{push_id, push_sequence, push_u16, push_u64};
use std::alloc::{AllocError, Global};
use store::{Db, MOST_FEATURES};
use tpoint::{Id, LONGEST_ID, MOST_POINTS, Seq};

/// The text of a machine is at most so long: 256 features of ids of 64 bytes and of 1,024 points, and 256 clients.
pub const LONGEST_SNAPSHOT: usize = 6_311_428;

/// What is kept of a client takes so many bytes.
const CLIENT_LEN: usize = 10;

/// A point takes so many bytes.
const POINT_LEN: usize = 24;

/// A feature takes at most so many bytes: the lengths and the interpolation in four, its id, and its points.
const LONGEST_FEATURE: usize = 4 + LONGEST_ID + POINT_LEN * MOST_POINTS;

/// The text of these features and sessions, in one piece of memory.
pub fn snapshot_text(alloc: Global, db: &Db, sessions: &Sessions) -> Result<Vec<u8>, AllocError>
    requires clients { length sessions.now ≡ 256 }
    ensures spelled { IfOk result (λ text. text.items ≡ text_bytes db.now (held sessions.now)) }
    ensures least { IfOk result (λ text. 4 ≤ length text.items) }
    ensures most { IfOk result (λ text. length text.items ≤ LONGEST_SNAPSHOT) }
    ensures fits { OnOk result (PartsFit db.now (held sessions.now)) }
{
    let mut out = Vec::with_capacity(alloc, text_len(db, sessions.places()))?;
    push_features(&mut out, db)?;
    push_clients(&mut out, sessions.places())?;
    Ok(out)
}

/// How long the text is.
fn text_len(db: &Db, places: &[Option<Session>]) -> usize
    requires clients { length places.now ≡ 256 }
    ensures value { result ≡ length (text_bytes db.now (held places.now)) }
    ensures least { 4 ≤ result }
    ensures most { result ≤ LONGEST_SNAPSHOT }
{
    4 + features_len(db) + CLIENT_LEN * usize::from(count_held(places))
}

/// How long the features are.
fn features_len(db: &Db) -> usize
    ensures value { result ≡ length (flat_map feature_bytes db.now) }
    ensures most { result ≤ LONGEST_FEATURE * MOST_FEATURES }
{
    let mut len = 0;
    for at in 0..db.len() {
        let (id, seq) = db.feature(at).unwrap();
        len += feature_len(id, seq);
    }
    len
}

fn feature_len(id: &Id, seq: &Seq) -> usize
    ensures value { result ≡ length (feature_bytes (record { id = id.now; seq = seq.now })) }
    ensures most { result ≤ LONGEST_FEATURE }
{
    4 + id.bytes().len() + POINT_LEN * seq.points().len()
}

/// Of how many clients something is kept.
fn count_held(places: &[Option<Session>]) -> u16
    requires { length places.now ≤ 256 }
    ensures value { result ≡ length (held places.now) }
    ensures most { result ≤ 256 }
{
    let mut rest = places;
    let mut client: u16 = 0;
    let mut count: u16 = 0;
    while let [place, more @ ..] = rest {
        count += ones(*place);
        client += 1;
        rest = more;
    }
    count
}

fn ones(place: Option<Session>) -> u16
    ensures value { (client : ℕ) → result ≡ length (held_from client (place ∷ [])) }
    ensures most { result ≤ 1 }
{
    match place {
        Some(_) => 1,
        None => 0,
    }
}

/// The features: how many, and one after the other.
fn push_features(out: &mut Vec<u8>, db: &Db) -> Result<(), AllocError>
    ensures spelled { OnOk result (out.new.items ≡ out.old.items ++ counted feature_bytes db.now) }
    ensures fits { OnOk result (All FeatureFits db.now) }
    ensures database { IsDatabase db.now }
{
    push_u16(out, db.len() as u16)?;
    push_each_feature(out, db)
}

fn push_each_feature(out: &mut Vec<u8>, db: &Db) -> Result<(), AllocError>
    ensures spelled { OnOk result (out.new.items ≡ out.old.items ++ flat_map feature_bytes db.now) }
    ensures fits { OnOk result (All FeatureFits db.now) }
{
    for at in 0..db.len() {
        let (id, seq) = db.feature(at).unwrap();
        push_feature(out, id, seq)?;
    }
    Ok(())
}

fn push_feature(out: &mut Vec<u8>, id: &Id, seq: &Seq) -> Result<(), AllocError>
    ensures spelled { OnOk result (out.new.items
        ≡ out.old.items ++ feature_bytes (record { id = id.now; seq = seq.now })) }
    ensures fits { OnOk result (FeatureFits (record { id = id.now; seq = seq.now })) }
{
    push_id(out, id)?;
    push_sequence(out, seq)
}

/// What is kept of the clients: of how many, and one after the other.
fn push_clients(out: &mut Vec<u8>, places: &[Option<Session>]) -> Result<(), AllocError>
    requires { length places.now ≤ 256 }
    ensures spelled { OnOk result (out.new.items ≡ out.old.items ++ counted client_bytes (held places.now)) }
    ensures fits { OnOk result (All ClientFits (held places.now)) }
{
    push_u16(out, count_held(places))?;
    push_each_client(out, places)
}

fn push_each_client(out: &mut Vec<u8>, places: &[Option<Session>]) -> Result<(), AllocError>
    requires { length places.now ≤ 256 }
    ensures spelled { OnOk result (out.new.items ≡ out.old.items ++ flat_map client_bytes (held places.now)) }
    ensures fits { OnOk result (All ClientFits (held places.now)) }
{
    let mut rest = places;
    let mut client: u16 = 0;
    while let [place, more @ ..] = rest {
        push_place(out, client as u8, *place)?;
        client += 1;
        rest = more;
    }
    Ok(())
}

/// What is kept of one client.
fn push_place(out: &mut Vec<u8>, client: u8, place: Option<Session>) -> Result<(), AllocError>
    ensures spelled { OnOk result (out.new.items
        ≡ out.old.items ++ flat_map client_bytes (held_from client (place ∷ []))) }
    ensures fits { OnOk result (All ClientFits (held_from client (place ∷ []))) }
{
    match place {
        Some(session) => push_client(out, client, session),
        None => Ok(()),
    }
}

fn push_client(out: &mut Vec<u8>, client: u8, session: Session) -> Result<(), AllocError>
    ensures spelled { OnOk result (out.new.items
        ≡ out.old.items ++ client_bytes (record { client = client; session = session })) }
    ensures fits { OnOk result (ClientFits (record { client = client; session = session })) }
{
    out.push(client)?;
    push_u64(out, session.number.value())?;
    out.push(session.reply.code())?;
    Ok(())
}
