//! The bar of a scale.

#![tactic(auto, using(picture::proofs::Growth::grows_by, picture::proofs::Growth::grows_on, picture::proofs::Growth::grows_not))]

ghost use Rattle.std.specs.Prelude.{OnOk};
ghost use Rattle.picture.specs.Growing.{Grows};

use crate::chart::{Chart, SIDE};
use picture::{Picture, Place};
use std::alloc::{AllocError, Global};
use std::io;

/// The height of the bar's ends, in hundredths of a unit.
const TICK: u32 = 600;

/// Draws a bar from a place to the right, about a quarter as long as the map is wide, and how long that is.
pub(crate) fn draw_scale(
    alloc: Global,
    picture: &mut Picture,
    chart: &Chart,
    at: Place,
) -> io::Result<()>
    ensures { OnOk result (Grows picture.old picture.new) }
{
    let length = round_length(chart.span() / 4);
    let drawn = drawn_length(length, chart.span());
    let end = Place {
        x: at.x.saturating_add(drawn),
        y: at.y,
    };
    let above = at.y.saturating_sub(TICK);
    picture.line(b"bar", at, end)?;
    picture.line(b"bar", at, Place { x: at.x, y: above })?;
    picture.line(b"bar", end, Place { x: end.x, y: above })?;
    let text = length_text(alloc, length)?;
    let beside = Place {
        x: end.x.saturating_add(800),
        y: at.y,
    };
    picture.text(b"note", beside, text.as_bytes())
}

/// The greatest of 1, 2, 5, 10, 20, 50 and so on that isn't above the length, in millimetres; at least 1.
fn round_length(length: u64) -> u64 {
    let mut power = 1;
    for _ in 0..15 {
        if length / 10 >= power {
            power *= 10;
        }
    }
    if length / 5 >= power {
        power * 5
    } else if length / 2 >= power {
        power * 2
    } else {
        power
    }
}

/// How long a length is drawn, rounded down.
fn drawn_length(length: u64, span: u64) -> u32 {
    if length >= span {
        return SIDE;
    }
    let drawn = u128::from(length) * u128::from(SIDE) / u128::from(span);
    u32::try_from(drawn).unwrap_or(SIDE)
}

/// A length in metres, or in kilometres.
fn length_text(alloc: Global, mm: u64) -> Result<String, AllocError> {
    let mut text = String::new(alloc);
    if mm >= 1_000_000 {
        let km = mm / 1_000_000;
        write!(text, "{km} km")?;
    } else if mm >= 1000 {
        let m = mm / 1000;
        write!(text, "{m} m")?;
    } else {
        write!(text, "0.{mm:03} m")?;
    }
    Ok(text)
}
