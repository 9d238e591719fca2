//! The ids beside the marks of a map, none over another.

#![tactic(auto, using(picture::proofs::Growth::grows_by, picture::proofs::Growth::grows_on, picture::proofs::Growth::grows_not))]

ghost use Rattle.std.specs.Prelude.{OnOk};
ghost use Rattle.picture.specs.Growing.{Grows};

use crate::page::{MAP_BOTTOM, MAP_LEFT, MAP_RIGHT, MAP_TOP};
use picture::{Picture, Place};
use std::alloc::{AllocError, Global};
use std::cmp::Ordering;
use std::io;
use tpoint::LONGEST_ID;

/// A letter of an id takes this room, in hundredths of a unit.
const LETTER: u32 = 790;

/// Half the height of an id, in hundredths of a unit.
const HALF_LINE: i64 = 800;

/// The line on which letters stand is so far above the end of their room.
const BASE: i64 = 350;

/// The radius of a mark.
pub(crate) const MARK: u32 = 600;

/// So many rooms around a mark are tried: eight near it, and eight further off, twice.
const ROOMS: u32 = 24;

/// Part of a map that is taken.
#[derive(Clone, Copy)]
struct Room {
    left: i64,
    top: i64,
    right: i64,
    bottom: i64,
}

/// The rooms of a map that are taken.
#[derive(Drop)]
pub(crate) struct Rooms {
    taken: Vec<Room>,
}

impl Rooms {
    /// The map on which nothing is.
    pub fn new(alloc: Global) -> Rooms {
        Rooms {
            taken: Vec::new(alloc),
        }
    }

    /// A mark takes its room.
    pub fn take_mark(&mut self, at: Place) -> Result<(), AllocError> {
        let room = room_at(
            i64::from(at.x),
            i64::from(at.y),
            i64::from(MARK),
            i64::from(MARK),
        );
        self.taken.push(room)?;
        Ok(())
    }

    /// Draws a text beside a place, in the first free room around it, with a thin line to it where it is far. Where there is none it
    /// is left out.
    pub fn draw_beside(&mut self, picture: &mut Picture, at: Place, text: &[u8]) -> io::Result<()>
        ensures { OnOk result (Grows picture.old picture.new) }
    {
        for number in 0..ROOMS {
            let room = room_beside(at, text.len(), number);
            if self.is_free(&room) {
                self.taken.push(room)?;
                return draw_in(picture, at, &room, number, text);
            }
        }
        Ok(())
    }

    fn is_free(&self, room: &Room) -> bool {
        for taken in &self.taken {
            if overlap(taken, room) {
                return false;
            }
        }
        is_on_map(room)
    }
}

/// The room of a text by its number, around a place.
fn room_beside(at: Place, letters: usize, number: u32) -> Room {
    let half = i64::from(LETTER) * letters.min(LONGEST_ID) as i64 / 2;
    let away = i64::from((number / 8).saturating_mul(1800).saturating_add(MARK + 200));
    let (across, along) = direction(number % 8);
    let x = shifted(i64::from(at.x), across, half.saturating_add(away));
    let y = shifted(i64::from(at.y), along, away.saturating_add(HALF_LINE));
    room_at(x, y, half, HALF_LINE)
}

/// Right, left, the four corners, above and below.
fn direction(number: u32) -> (Ordering, Ordering) {
    match number {
        0 => (Ordering::Greater, Ordering::Equal),
        1 => (Ordering::Less, Ordering::Equal),
        2 => (Ordering::Greater, Ordering::Less),
        3 => (Ordering::Greater, Ordering::Greater),
        4 => (Ordering::Less, Ordering::Less),
        5 => (Ordering::Less, Ordering::Greater),
        6 => (Ordering::Equal, Ordering::Less),
        _ => (Ordering::Equal, Ordering::Greater),
    }
}

fn shifted(z: i64, to: Ordering, by: i64) -> i64 {
    match to {
        Ordering::Less => z.saturating_sub(by),
        Ordering::Equal => z,
        Ordering::Greater => z.saturating_add(by),
    }
}

/// The room with this middle, and half its width and height.
fn room_at(x: i64, y: i64, across: i64, along: i64) -> Room {
    Room {
        left: x.saturating_sub(across),
        top: y.saturating_sub(along),
        right: x.saturating_add(across),
        bottom: y.saturating_add(along),
    }
}

fn is_on_map(room: &Room) -> bool {
    i64::from(MAP_LEFT) <= room.left
        && room.right <= i64::from(MAP_RIGHT)
        && i64::from(MAP_TOP) <= room.top
        && room.bottom <= i64::from(MAP_BOTTOM)
}

fn overlap(a: &Room, b: &Room) -> bool {
    a.left < b.right && b.left < a.right && a.top < b.bottom && b.top < a.bottom
}

/// Draws a text in its room, with a line to its place where the room isn't one of the nearest.
fn draw_in(
    picture: &mut Picture,
    at: Place,
    room: &Room,
    number: u32,
    text: &[u8],
) -> io::Result<()>
    ensures { OnOk result (Grows picture.old picture.new) }
{
    draw_lead(picture, at, room, number)?;
    picture.text(
        b"id",
        place(room.left, room.bottom.saturating_sub(BASE)),
        text,
    )
}

/// The line from a place to a room that isn't one of the nearest.
fn draw_lead(picture: &mut Picture, at: Place, room: &Room, number: u32) -> io::Result<()>
    ensures { OnOk result (Grows picture.old picture.new) }
{
    if number < 8 {
        return Ok(());
    }
    let x = i64::from(at.x).max(room.left).min(room.right);
    let y = i64::from(at.y).max(room.top).min(room.bottom);
    picture.line(b"lead", at, place(x, y))
}

/// The place with these coordinates; one that is negative counts as 0.
fn place(x: i64, y: i64) -> Place {
    Place {
        x: u32::try_from(x).unwrap_or(0),
        y: u32::try_from(y).unwrap_or(0),
    }
}
