//! Writing documents.
//!
//! A document is written into one vector, for which room is made once.

ghost use Rattle.std.specs.Prelude.{◌≡◌, [], ◌∷◌, ◌++◌, ℕ, List, IfOk, OnOk};
ghost use Rattle.mfjson.specs.Datetime.{IsDatetime};
ghost use Rattle.mfjson.specs.Document.{IsCanonical, IsDocumentOf, IsDocumentOfNoOther, WritesWhen, WritesWhere};
ghost use Rattle.mfjson.specs.Texts.{Continues, ListsPoints, IsWrittenAfter, position_text};

use crate::{Feature, datetime_text};
use std::alloc::{AllocError, Global};
use textbuf::{LONGEST_WHOLE, write_byte, write_text, write_whole};
use tpoint::{Instant, Point};

/// The bytes that a position takes at most: brackets, two numbers, and a comma between them and before all.
const LONGEST_POSITION: usize = 4 + 2 * LONGEST_WHOLE;

/// The bytes that a datetime takes: its text in quotes, and a comma before it.
const DATETIME_LEN: usize = 27;

/// The bytes that a point takes at most, as coordinates are in range.
const LONGEST_POINT: usize = DATETIME_LEN + 28;

/// The bytes that a document takes at most beside its points.
const LONGEST_FRAME: usize = 256;

/// The canonical document of a feature: compact JSON, its members in byte order of their names.
pub fn write(alloc: Global, feature: &Feature) -> Result<Vec<u8>, AllocError>
    ensures canonical { IfOk result (λ text. IsCanonical text.items feature.now) }
    ensures of_this { IfOk result (λ text. IsDocumentOf text.items feature.now) }
    ensures of_no_other { IfOk result (λ text. IsDocumentOfNoOther text.items feature.now) }
{
    write_after(alloc, b"", feature)
}

/// These bytes, and after them the canonical document of a feature.
pub fn write_after(alloc: Global, start: &[u8], feature: &Feature) -> Result<Vec<u8>, AllocError>
    ensures { IfOk result (λ text. IsWrittenAfter start.now text.items feature.now) }
{
    let id = feature.id.as_str();
    let interpolation = feature.seq.interp().name();
    let points = feature.seq.points();
    let room = points
        .len()
        .saturating_mul(LONGEST_POINT)
        .saturating_add(LONGEST_FRAME);
    let mut text = Vec::with_capacity(alloc, room.saturating_add(start.len()))?;
    text.extend_from_slice(start)?;
    text.extend_from_slice(b"{\"id\":\"")?;
    text.extend_from_slice(id.as_bytes())?;
    text.extend_from_slice(b"\",\"temporalGeometry\":{\"coordinates\":")?;
    push_coordinates(&mut text, points)?;
    text.extend_from_slice(b",\"datetimes\":")?;
    push_datetimes(&mut text, points)?;
    text.extend_from_slice(b",\"interpolation\":\"")?;
    text.extend_from_slice(interpolation.as_bytes())?;
    text.extend_from_slice(b"\",\"type\":\"MovingPoint\"},\"type\":\"Feature\"}")?;
    Ok(text)
}

/// Adds the array of the points' positions.
fn push_coordinates(text: &mut Vec<u8>, points: &[Point]) -> Result<(), AllocError>
    ensures { OnOk result (ListsPoints WritesWhere points.now text.old.items text.new.items) }
{
    let Some((first, rest)) = points.split_first() else {
        return text.extend_from_slice(b"[]");
    };
    push_position(text, b'[', first)?;
    push_positions(text, rest)?;
    text.push(b']')?;
    Ok(())
}

/// Adds the points' positions, each after a comma.
fn push_positions(text: &mut Vec<u8>, points: &[Point]) -> Result<(), AllocError>
    ensures { OnOk result (Continues WritesWhere points.now text.old.items text.new.items) }
{
    for point in points {
        push_position(text, b',', point)?;
    }
    Ok(())
}

/// Adds a byte, and the point's position.
fn push_position(text: &mut Vec<u8>, before: u8, point: &Point) -> Result<(), AllocError>
    ensures { OnOk result (text.new.items ≡ text.old.items ++ before ∷ position_text point.now) }
{
    let Point { x, y, .. } = *point;
    let mut line = [0; LONGEST_POSITION];
    let start = write_byte(b']', &mut line, LONGEST_POSITION);
    let start = write_whole(y, &mut line, start);
    let start = write_byte(b',', &mut line, start);
    let start = write_whole(x, &mut line, start);
    let start = write_byte(b'[', &mut line, start);
    let start = write_byte(before, &mut line, start);
    text.extend_from_slice(&line[start..])
}

/// Adds the array of the points' datetimes.
fn push_datetimes(text: &mut Vec<u8>, points: &[Point]) -> Result<(), AllocError>
    ensures { OnOk result (ListsPoints WritesWhen points.now text.old.items text.new.items) }
{
    let Some((first, rest)) = points.split_first() else {
        return text.extend_from_slice(b"[]");
    };
    push_datetime(text, b'[', first.t)?;
    push_more_datetimes(text, rest)?;
    text.push(b']')?;
    Ok(())
}

/// Adds the points' datetimes, each after a comma.
fn push_more_datetimes(text: &mut Vec<u8>, points: &[Point]) -> Result<(), AllocError>
    ensures { OnOk result (Continues WritesWhen points.now text.old.items text.new.items) }
{
    for point in points {
        push_datetime(text, b',', point.t)?;
    }
    Ok(())
}

/// Adds a byte, and the instant's datetime in quotes.
fn push_datetime(text: &mut Vec<u8>, before: u8, t: Instant) -> Result<(), AllocError>
    ensures { OnOk result ((datetime : List ℕ) × IsDatetime datetime t
        × (text.new.items ≡ text.old.items ++ before ∷ 34 ∷ (datetime ++ 34 ∷ []))) }
{
    let datetime = datetime_text(t);
    let mut line = [0; DATETIME_LEN];
    let start = write_byte(b'"', &mut line, DATETIME_LEN);
    let start = write_text(&datetime, &mut line, start);
    let start = write_byte(b'"', &mut line, start);
    let start = write_byte(before, &mut line, start);
    text.extend_from_slice(&line[start..])
}
