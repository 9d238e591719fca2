//! The signs of a picture, on the lanes of nodes.

ghost use Rattle.std.specs.Prelude.{◌≡◌, ◌++◌, List, slice_index_or, slice_set, OnOk};
ghost use Rattle.diagram.specs.Drawn.{IsMark, mark_text, sign_place};
ghost use Rattle.diagram.specs.Places.{Stands, further};
ghost use Rattle.diagram.specs.Shown.{DrawsStanding, mark_step};
ghost use Rattle.diagram.specs.Signs.{AreCounted, sign_text, square_text};

use super::layout::Layout;
use super::places::lane;
use super::scene::{Mark, Scene, Sign};
use picture::{Picture, Place};
use std::io;
use wire::NodeId;

/// The distance of two signs of one node at one step.
const SIGNS: u32 = 3_400;

/// The signs on the lanes. Several of one node at one step stand beside each other.
pub(crate) fn draw_marks(picture: &mut Picture, scene: &Scene, layout: &Layout) -> io::Result<()>
    ensures { let ends = layout.now.ends.items in let marks = scene.now.marks.now in
        OnOk result (DrawsStanding mark_step (IsMark scene.now.nodes marks ends) ends marks picture.old picture.new) }
{
    let mut step = 0;
    let mut lanes = [0u32; 7];
    for mark in scene.marks {
        begin_step(&mut lanes, step, mark.step);
        step = mark.step;
        let others = count_sign(&mut lanes, mark.node);
        draw_next(picture, scene.nodes, mark, others, layout)?;
    }
    Ok(())
}

/// None is counted yet at another step than the last one.
fn begin_step(lanes: &mut [u32; 7], last: usize, step: usize)
    ensures { (marks : List Mark) → AreCounted marks last lanes.old → AreCounted marks step lanes.new }
{
    if step != last {
        *lanes = [0; 7];
    }
}

/// Counts a sign on the lane of a node. So many were there before it.
fn count_sign(lanes: &mut [u32; 7], node: NodeId) -> u32
    ensures others { result ≡ slice_index_or lanes.old node 0 }
    ensures counted { lanes.new ≡ slice_set lanes.old node (further result 1) }
{
    let lane = usize::from(node.value());
    let others = lanes[lane];
    lanes[lane] = others.saturating_add(1);
    others
}

/// The next sign, behind so many others on the lane of its node, if its step is shown.
fn draw_next(
    picture: &mut Picture,
    nodes: u8,
    mark: &Mark,
    others: u32,
    layout: &Layout,
) -> io::Result<()>
    ensures stands { let ends = layout.now.ends.items in
        OnOk result (Stands ends mark.now.step → picture.new ≡ picture.old ++ mark_text (sign_place nodes ends mark.now others) mark.now) }
    ensures left_out { OnOk result (¬ (Stands layout.now.ends.items mark.now.step) → picture.new ≡ picture.old) }
{
    let y = layout.place_of(mark.step);
    if y == 0 {
        return Ok(());
    }
    let x = lane(nodes, mark.node.value()).saturating_add(others.saturating_mul(SIGNS));
    draw_mark(picture, mark, x, y)
}

/// A sign, and its note.
fn draw_mark(picture: &mut Picture, mark: &Mark, x: u32, y: u32) -> io::Result<()>
    ensures { OnOk result (picture.new ≡ picture.old ++ mark_text (record { x = x; y = y }) mark.now) }
{
    picture.open(b"mark", mark.title.as_slice())?;
    draw_sign(picture, mark.sign, Place { x, y })?;
    let beside = Place {
        x: x.saturating_add(350),
        y: y.saturating_sub(60),
    };
    picture.text(b"note", beside, mark.note.as_slice())?;
    picture.close()
}

/// The shape of a sign.
fn draw_sign(picture: &mut Picture, sign: Sign, at: Place) -> io::Result<()>
    ensures { OnOk result (picture.new ≡ picture.old ++ sign_text sign at) }
{
    match sign {
        Sign::Learnt => picture.circle(b"sign learnt", at, 220),
        Sign::Replied => picture.circle(b"sign replied", at, 220),
        Sign::Answered => picture.circle(b"sign answered", at, 220),
        Sign::Lost => square(picture, b"sign missed", at),
        Sign::Refused => square(picture, b"sign refused", at),
        Sign::Stopped => square(picture, b"sign stopped", at),
        Sign::Restarted => square(picture, b"sign", at),
        Sign::Restored => square(picture, b"sign restored", at),
        Sign::Submitted | Sign::TimedOut | Sign::Other => picture.circle(b"sign", at, 150),
    }
}

/// A small square around a place.
fn square(picture: &mut Picture, class: &[u8], at: Place) -> io::Result<()>
    ensures { OnOk result (picture.new ≡ picture.old ++ square_text class.now at) }
{
    let corner = Place {
        x: at.x.saturating_sub(200),
        y: at.y.saturating_sub(200),
    };
    picture.rectangle(class, corner, 400, 400)
}
