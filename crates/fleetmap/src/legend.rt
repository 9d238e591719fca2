//! What stands beside the map.

#![tactic(auto, using(picture::proofs::Growth::grows_by, picture::proofs::Growth::grows_on, picture::proofs::Growth::grows_not))]

ghost use Rattle.std.specs.Prelude.{OnOk};
ghost use Rattle.picture.specs.Growing.{Grows};

use crate::asked::Asked;
use crate::page::{MAP_RIGHT, MAP_TOP, color_of};
use mfjson::datetime_text;
use picture::{Picture, Place};
use std::alloc::{AllocError, Global};
use std::io;
use store::Db;
use tpoint::{Instant, Seq};

/// Where the legend begins, in hundredths of a unit, and how high one of its lines is.
const LEFT: u32 = MAP_RIGHT + 2400;

const LINE: u32 = 1600;

/// The features end at this line, and the queries at that.
const FEATURES_END: u32 = 34;

const QUERIES_END: u32 = 60;

/// A line has room for so many letters, each of this width.
const LETTERS: usize = 60;

const LETTER: u32 = 723;

/// Draws the legend: each feature with its position, unrounded, and each query with its answer, as far as there is room.
pub(crate) fn draw_legend(
    alloc: Global,
    picture: &mut Picture,
    db: &Db,
    t: Instant,
    asked: &[Asked],
) -> io::Result<()>
    ensures { OnOk result (Grows picture.old picture.new) }
{
    picture.text(b"head", line_at(0), b"Features, and where they are (mm)")?;
    draw_features(alloc, picture, db, t)?;
    draw_queries(alloc, picture, asked, queries_line(db.len()))
}

/// Draws the features, as far as there is room, and how many are left.
fn draw_features(alloc: Global, picture: &mut Picture, db: &Db, t: Instant) -> io::Result<()>
    ensures { OnOk result (Grows picture.old picture.new) }
{
    let count = db.len();
    let mut line: u32 = 1;
    for at in 0..count {
        if line > FEATURES_END {
            return draw_left(alloc, picture, (count - at) as usize, line);
        }
        draw_feature(alloc, picture, db, at, t, line)?;
        line = line.saturating_add(2);
    }
    Ok(())
}

/// Draws how many features are left, for which there is no room.
fn draw_left(alloc: Global, picture: &mut Picture, left: usize, line: u32) -> io::Result<()>
    ensures { OnOk result (Grows picture.old picture.new) }
{
    let text = format!(in alloc; "and {left} more")?;
    picture.text(b"fact", line_at(line), text.as_bytes())
}

/// The line at which the queries begin: one behind the features.
fn queries_line(count: u32) -> u32 {
    let end = count.saturating_mul(2).saturating_add(1);
    end.min(FEATURES_END + 2).saturating_add(1)
}

/// Where a line of the legend stands.
fn line_at(line: u32) -> Place {
    Place {
        x: LEFT,
        y: MAP_TOP
            .saturating_add(1200)
            .saturating_add(line.saturating_mul(LINE)),
    }
}

/// Two lines: a feature's id beside its colour, and how it moves and where it is.
fn draw_feature(
    alloc: Global,
    picture: &mut Picture,
    db: &Db,
    at: u32,
    t: Instant,
    line: u32,
) -> io::Result<()>
    ensures { OnOk result (Grows picture.old picture.new) }
{
    match db.feature(at) {
        Some((id, seq)) => {
            draw_id(picture, id.bytes(), color_of(at), line_at(line))?;
            let text = position_text(alloc, seq, t)?;
            let below = behind(line_at(line.saturating_add(1)));
            draw_fact(picture, below, text.as_bytes())
        }
        None => Ok(()),
    }
}

/// A feature's id, beside its colour.
fn draw_id(picture: &mut Picture, id: &[u8], color: &[u8], at: Place) -> io::Result<()>
    ensures { OnOk result (Grows picture.old picture.new) }
{
    let middle = Place {
        x: at.x.saturating_add(500),
        y: at.y.saturating_sub(400),
    };
    picture.open(color, id)?;
    picture.circle(b"dot", middle, 500)?;
    picture.close()?;
    picture.text(b"fact", behind(at), id)
}

/// A place a little to the right.
fn behind(at: Place) -> Place {
    Place {
        x: at.x.saturating_add(1800),
        y: at.y,
    }
}

/// How a feature moves, and where it is at an instant, as it is defined.
fn position_text(alloc: Global, seq: &Seq, t: Instant) -> Result<String, AllocError> {
    let mut text = String::new(alloc);
    let name = seq.interp().name();
    match seq.value_at(t).value {
        Some((x, y)) => write!(text, "{name}: {x}, {y}")?,
        None => write!(text, "{name}: nowhere at this instant")?,
    }
    Ok(text)
}

/// Draws a text, cut where the page ends; the whole of it is shown where the pointer rests on it.
fn draw_fact(picture: &mut Picture, at: Place, text: &[u8]) -> io::Result<()>
    ensures { OnOk result (Grows picture.old picture.new) }
{
    if text.len() <= LETTERS {
        return picture.text(b"fact", at, text);
    }
    picture.open(b"long", text)?;
    picture.text(b"fact", at, first_letters(text))?;
    let end = Place {
        x: at.x.saturating_add(LETTERS as u32 * LETTER),
        y: at.y,
    };
    picture.text(b"fact", end, b"..")?;
    picture.close()
}

/// What a line has room for.
fn first_letters(text: &[u8]) -> &[u8] {
    match text.get(..LETTERS) {
        Some(first) => first,
        None => text,
    }
}

/// Draws the queries of rectangles, by the numbers that stand in these.
fn draw_queries(alloc: Global, picture: &mut Picture, asked: &[Asked], first: u32) -> io::Result<()>
    ensures { OnOk result (Grows picture.old picture.new) }
{
    if asked.is_empty() {
        return Ok(());
    }
    picture.text(
        b"head",
        line_at(first),
        b"Rectangles, and what was answered",
    )?;
    draw_answers(alloc, picture, asked, first.saturating_add(1))
}

/// Draws the queries from this line on, as far as there is room, and how many are left.
fn draw_answers(alloc: Global, picture: &mut Picture, asked: &[Asked], first: u32) -> io::Result<()>
    ensures { OnOk result (Grows picture.old picture.new) }
{
    let mut line = first;
    for k in 0..asked.len() {
        if line.saturating_add(2) > QUERIES_END {
            return draw_left(alloc, picture, asked.len() - k, line);
        }
        draw_query(alloc, picture, k + 1, &asked[k], line)?;
        line = line.saturating_add(2);
    }
    Ok(())
}

/// Two lines: what was asked and answered, and of which period.
fn draw_query(
    alloc: Global,
    picture: &mut Picture,
    number: usize,
    one: &Asked,
    line: u32,
) -> io::Result<()>
    ensures { OnOk result (Grows picture.old picture.new) }
{
    let tag = format!(in alloc; "{number}")?;
    picture.open(one.class(), tag.as_bytes())?;
    picture.text(b"tag", line_at(line), tag.as_bytes())?;
    picture.close()?;
    let question = question_text(alloc, one)?;
    draw_fact(picture, behind(line_at(line)), &question)?;
    let period = period_text(alloc, one)?;
    draw_fact(picture, behind(line_at(line.saturating_add(1))), &period)
}

/// At which line which node was asked, about which feature, and what it answered.
fn question_text(alloc: Global, one: &Asked) -> Result<Vec<u8>, AllocError> {
    let mut text = Vec::new(alloc);
    let line = one.line;
    let node = one.node;
    let place = format!(in alloc; "line {line}, node {node}: ")?;
    text.extend_from_slice(place.as_bytes())?;
    if let Some(id) = one.feature() {
        text.extend_from_slice(id.bytes())?;
        text.push(b' ')?;
    }
    match &one.answer {
        Some(answer) => text.extend_from_slice(answer)?,
        None => text.extend_from_slice(b"refused")?,
    }
    Ok(text)
}

/// The period of a query, with a bracket for each end that is in it, and a parenthesis for one that isn't.
fn period_text(alloc: Global, one: &Asked) -> Result<Vec<u8>, AllocError> {
    let mut text = Vec::new(alloc);
    if let Some(period) = one.period() {
        text.push(if period.begin_in() { b'[' } else { b'(' })?;
        text.extend_from_slice(&datetime_text(period.begin()))?;
        text.push(b' ')?;
        text.extend_from_slice(&datetime_text(period.end()))?;
        text.push(if period.end_in() { b']' } else { b')' })?;
    }
    Ok(text)
}
