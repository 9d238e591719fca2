//! The marks of features on a map, and their ids.

#![tactic(auto, using(picture::proofs::Growth::grows_by, picture::proofs::Growth::grows_on, picture::proofs::Growth::grows_not))]

ghost use Rattle.std.specs.Prelude.{◌≡◌, ◌++◌, MatchOption, OnOk};
ghost use Rattle.picture.specs.Growing.{Grows};
ghost use Rattle.fleetmap.specs.Pages.{AreMarked, IsMarkOf, IsMarkedAt, IsNotShown, mark_text};

use crate::label::{MARK, Rooms};
use crate::page::{color_of, place_on_map};
use crate::shown::Shown;
use crate::spot::Spot;
use picture::Picture;
use std::alloc::Global;
use std::io;
use store::Db;

/// Draws where the features are, and then their ids, so that no id is over a mark.
pub(crate) fn draw_marks(
    alloc: Global,
    picture: &mut Picture,
    db: &Db,
    shown: &[Shown],
) -> io::Result<()>
    ensures grows { OnOk result (Grows picture.old picture.new) }
    ensures marked { OnOk result (AreMarked db.now shown.now picture.new) }
{
    let mut rooms = Rooms::new(alloc);
    draw_spots(picture, db, shown, &mut rooms)?;
    draw_ids(picture, db, shown, &mut rooms)
}

/// Draws where the features are. Each mark takes its room.
fn draw_spots(picture: &mut Picture, db: &Db, shown: &[Shown], rooms: &mut Rooms) -> io::Result<()>
    ensures grows { OnOk result (Grows picture.old picture.new) }
    ensures marked { OnOk result (AreMarked db.now shown.now picture.new) }
{
    for at in 0..db.len() {
        draw_spot(picture, db, shown, rooms, at)?;
    }
    Ok(())
}

/// Draws where a feature is, if it is on the map.
fn draw_spot(
    picture: &mut Picture,
    db: &Db,
    shown: &[Shown],
    rooms: &mut Rooms,
    at: u32,
) -> io::Result<()>
    ensures grows { OnOk result (Grows picture.old picture.new) }
    ensures marked { OnOk result (IsMarkedAt db.now shown.now at picture.new) }
{
    match mark_of(db, shown, at) {
        Some((id, spot)) => draw_mark(picture, rooms, color_of(at), id, &spot),
        None => Ok(()),
    }
}

/// Draws the mark of a feature with this id.
fn draw_mark(
    picture: &mut Picture,
    rooms: &mut Rooms,
    class: &[u8],
    id: &[u8],
    spot: &Spot,
) -> io::Result<()>
    ensures { OnOk result (picture.new ≡ picture.old ++ mark_text class.now id.now spot.now) }
{
    let place = place_on_map(spot);
    rooms.take_mark(place)?;
    picture.open(class, id)?;
    picture.circle(b"mark", place, MARK)?;
    picture.close()
}

/// Draws the ids of the features that are on the map, beside their marks.
fn draw_ids(picture: &mut Picture, db: &Db, shown: &[Shown], rooms: &mut Rooms) -> io::Result<()>
    ensures { OnOk result (Grows picture.old picture.new) }
{
    for at in 0..db.len() {
        draw_id(picture, db, shown, rooms, at)?;
    }
    Ok(())
}

/// Draws the id of a feature, if it is on the map.
fn draw_id(
    picture: &mut Picture,
    db: &Db,
    shown: &[Shown],
    rooms: &mut Rooms,
    at: u32,
) -> io::Result<()>
    ensures { OnOk result (Grows picture.old picture.new) }
{
    match mark_of(db, shown, at) {
        Some((id, spot)) => rooms.draw_beside(picture, place_on_map(&spot), id),
        None => Ok(()),
    }
}

/// The id of the feature at a place, and where it is drawn; None where it isn't on the map.
fn mark_of<'a>(db: &'a Db, shown: &[Shown], at: u32) -> Option<(&'a [u8], Spot)>
    ensures { MatchOption result (IsNotShown db.now shown.now at) (λ mark. IsMarkOf db.now shown.now at mark.0.now mark.1) }
{
    let (id, _seq) = db.feature(at)?;
    match shown.get(at as usize)? {
        Shown::At(spot) => Some((id.bytes(), *spot)),
        Shown::Nowhere | Shown::Beyond => None,
    }
}
