//! The page: the map, and what stands beside it.

#![tactic(auto, using(picture::proofs::Growth::grows_by, picture::proofs::Growth::grows_on, picture::proofs::Growth::grows_not, picture::proofs::Growth::has_last, picture::proofs::Growth::has_still))]

ghost use Rattle.std.specs.Prelude.{◌≡◌, IfOk, OnOk};
ghost use Rattle.picture.specs.Growing.{Grows, Has};
ghost use Rattle.fleetmap.specs.Pages.{ShowsFleet, place_of, title_text};

use crate::areas::draw_areas;
use crate::asked::Asked;
use crate::chart::{Chart, SIDE};
use crate::corners::chart_of;
use crate::legend::draw_legend;
use crate::marks::draw_marks;
use crate::scale::draw_scale;
use crate::shown::show_fleet;
use crate::spot::Spot;
use crate::way::draw_way;
use picture::{Picture, Place};
use std::alloc::Global;
use std::io;
use store::Db;
use tpoint::Instant;

/// The size of the page, in units: that of A3, of whose millimetres a unit is about a quarter.
const WIDTH: u32 = 1588;

const HEIGHT: u32 = 1123;

/// Where the map is, in hundredths of a unit.
pub(crate) const MAP_LEFT: u32 = 2_400;

pub(crate) const MAP_TOP: u32 = 6_400;

pub(crate) const MAP_RIGHT: u32 = MAP_LEFT + SIDE;

pub(crate) const MAP_BOTTOM: u32 = MAP_TOP + SIDE;

/// How the elements look. An id has an edge, so that it can be read over a way. No text is smaller than 12 units, which are 9 points on A3.
const STYLE: &[u8] = b"svg{background:#fff;font-family:sans-serif}\
.frame{fill:#fcfcf8;stroke:#888}\
.way{fill:none;stroke:currentColor;stroke-width:2;stroke-linejoin:round}\
.leap{fill:none;stroke:currentColor;stroke-width:1.2;stroke-dasharray:2 4}\
.dot{fill:currentColor}\
.mark{fill:currentColor;stroke:#fff;stroke-width:1.5}\
.area{fill-opacity:.12;stroke-width:1.2;stroke-dasharray:6 3;fill:currentColor;stroke:currentColor}\
.tag{font-size:13px;font-weight:bold;fill:currentColor}\
.lead{stroke:#666;stroke-width:.7}\
.id{font:13px monospace;fill:#111}.id,.tag{paint-order:stroke;stroke:#fcfcf8;stroke-width:3px;stroke-linejoin:round}\
.bar{stroke:#111;stroke-width:1.5}\
.title{font-size:22px;font-weight:bold}\
.head{font-size:15px;font-weight:bold}\
.note{font-size:13px;fill:#222}\
.fact{font:12px monospace;fill:#222}\
.yes{color:#1b7f3b}.no{color:#b3261e}.other{color:#555}\
.c0{color:#1f77b4}.c1{color:#d95f02}.c2{color:#2a8f2a}.c3{color:#c2272d}.c4{color:#7b52ab}\
.c5{color:#8c564b}.c6{color:#d0459b}.c7{color:#5a5a5a}.c8{color:#9a8f00}.c9{color:#0f97a8}";

/// The picture of a fleet at an instant: each feature's way, and its position then with its id; the rectangles of which a run was
/// asked; a scale; and a legend, in which each position stands as it is, unrounded.
///
/// `title` and `note` are the page's first lines. Each error is out of memory.
pub fn draw_fleet(
    alloc: Global,
    db: &Db,
    t: Instant,
    asked: &[Asked],
    title: &[u8],
    note: &[u8],
) -> io::Result<Vec<u8>>
    ensures { IfOk result (λ text. ShowsFleet db.now t title.now text.items) }
{
    let chart = chart_of(db, asked);
    let shown = show_fleet(alloc, db, t, &chart)?;
    let mut picture = Picture::new(alloc, WIDTH, HEIGHT, STYLE)?;
    draw_title(&mut picture, title, note)?;
    let corner = Place {
        x: MAP_LEFT,
        y: MAP_TOP,
    };
    picture.rectangle(b"frame", corner, SIDE, SIDE)?;
    draw_areas(alloc, &mut picture, asked, &chart)?;
    draw_ways(alloc, &mut picture, db, &chart)?;
    draw_marks(alloc, &mut picture, db, &shown)?;
    let below_legend = Place {
        x: MAP_RIGHT + 2400,
        y: MAP_BOTTOM,
    };
    draw_scale(alloc, &mut picture, &chart, below_legend)?;
    draw_legend(alloc, &mut picture, db, t, asked)?;
    picture.finish()
}

/// The page's first lines.
fn draw_title(picture: &mut Picture, title: &[u8], note: &[u8]) -> io::Result<()>
    ensures grows { OnOk result (Grows picture.old picture.new) }
    ensures titled { OnOk result (Has (title_text title.now) picture.new) }
{
    let first = Place {
        x: MAP_LEFT,
        y: 3000,
    };
    let second = Place {
        x: MAP_LEFT,
        y: 5200,
    };
    picture.text(b"title", first, title)?;
    picture.text(b"note", second, note)
}

/// Where a spot of the chart is on the page.
pub(crate) fn place_on_map(spot: &Spot) -> Place
    ensures { result ≡ place_of spot.now }
{
    let spot = *spot;
    Place {
        x: MAP_LEFT + spot.x,
        y: MAP_BOTTOM - spot.y,
    }
}

/// The class that colours a feature.
pub(crate) fn color_of(at: u32) -> &'static [u8] {
    match at % 10 {
        0 => b"c0",
        1 => b"c1",
        2 => b"c2",
        3 => b"c3",
        4 => b"c4",
        5 => b"c5",
        6 => b"c6",
        7 => b"c7",
        8 => b"c8",
        _ => b"c9",
    }
}

/// Draws the ways of the features.
fn draw_ways(alloc: Global, picture: &mut Picture, db: &Db, chart: &Chart) -> io::Result<()>
    ensures { OnOk result (Grows picture.old picture.new) }
{
    for at in 0..db.len() {
        draw_one_way(alloc, picture, db, chart, at)?;
    }
    Ok(())
}

/// Draws the way of a feature, which shows its id where the pointer rests on it.
fn draw_one_way(
    alloc: Global,
    picture: &mut Picture,
    db: &Db,
    chart: &Chart,
    at: u32,
) -> io::Result<()>
    ensures { OnOk result (Grows picture.old picture.new) }
{
    match db.feature(at) {
        Some((id, seq)) => {
            picture.open(color_of(at), id.bytes())?;
            draw_way(alloc, picture, seq, chart)?;
            picture.close()
        }
        None => Ok(()),
    }
}
