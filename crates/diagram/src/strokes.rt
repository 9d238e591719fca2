//! The line of a frame, by what became of it.

ghost use Rattle.std.specs.Prelude.{◌≡◌, ◌++◌, ◌<◌, ◌^◌, OnOk};
ghost use Rattle.diagram.specs.Strokes.{aim, came_text, dropped_end, stroke_text, waiting_end};

use super::arrows::{Arrow, Fate};
use super::colors::{came_class, lost_class, waits_class};
use super::layout::Layout;
use super::places::{lane, place};
use picture::{Picture, Place};
use std::io;

/// How far a frame from a node to itself goes off the lane, in which it would lie.
const BEND: u32 = 1_000;

/// The line of a frame: whole where it came, else dashed, and where it was dropped two thirds of the way and without a head.
pub(crate) fn draw_arrow(
    picture: &mut Picture,
    nodes: u8,
    arrow: &Arrow,
    color: usize,
    layout: &Layout,
) -> io::Result<()>
    ensures { OnOk result (picture.new ≡ picture.old ++ stroke_text nodes layout.now.ends.items arrow.now color) }
{
    let begin = place(nodes, arrow.from, layout, arrow.sent);
    match arrow.fate {
        Fate::Came(step) => draw_whole(picture, nodes, arrow, step, color, layout),
        Fate::Dropped => picture.line(lost_class(color), begin, dropped_end(nodes, arrow, layout)),
        Fate::Waits => picture.arrow(waits_class(color), begin, waiting_end(nodes, arrow, layout)),
    }
}

/// The line of a frame that came at this step. One to the node itself comes back to the lane.
fn draw_whole(
    picture: &mut Picture,
    nodes: u8,
    arrow: &Arrow,
    step: usize,
    color: usize,
    layout: &Layout,
) -> io::Result<()>
    ensures { OnOk result (picture.new ≡ picture.old ++ came_text nodes layout.now.ends.items arrow.now step color) }
{
    let begin = place(nodes, arrow.from, layout, arrow.sent);
    let end = place(nodes, arrow.to, layout, step);
    let class = came_class(color);
    if arrow.from.value() != arrow.to.value() {
        return picture.arrow(class, begin, end);
    }
    let bend = Place {
        x: aim(nodes, arrow),
        y: begin.y.midpoint(end.y),
    };
    picture.line(class, begin, bend)?;
    picture.arrow(class, bend, end)
}

/// Where the line of a frame ends that was dropped: two thirds of the way.
fn dropped_end(nodes: u8, arrow: &Arrow, layout: &Layout) -> Place
    ensures { result ≡ dropped_end nodes layout.now.ends.items arrow.now }
{
    Place {
        x: (lane(nodes, arrow.from.value()) + 2 * aim(nodes, arrow)) / 3,
        y: layout.place_of(arrow.sent).saturating_add(300),
    }
}

/// Where that of a frame ends that waits.
fn waiting_end(nodes: u8, arrow: &Arrow, layout: &Layout) -> Place
    ensures { result ≡ waiting_end nodes layout.now.ends.items arrow.now }
{
    Place {
        x: aim(nodes, arrow),
        y: layout.place_of(arrow.sent).saturating_add(450),
    }
}

/// Where the line of a frame goes: to its receiver's lane, and beside it where that is its sender's.
fn aim(nodes: u8, arrow: &Arrow) -> u32
    ensures there { result ≡ aim nodes arrow.now }
    ensures near { result < 2 ^ 25 }
{
    let (from, to) = (arrow.from.value(), arrow.to.value());
    if from == to {
        lane(nodes, from) + BEND
    } else {
        lane(nodes, to)
    }
}
