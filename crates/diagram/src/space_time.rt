//! The space-time diagram: lanes, and the words beside them.

ghost use Rattle.std.specs.Prelude.{◌≡◌, ◌++◌, IfOk, OnOk, length, take};
ghost use Rattle.std.specs.List.{range_with_len};
ghost use Rattle.diagram.specs.Drawn.{Adds, Draws, IsHead, IsLane, IsLine, heading, lane_text};
ghost use Rattle.diagram.specs.Pictures.{ShowsAsked};
ghost use Rattle.diagram.specs.Places.{Stands};
ghost use Rattle.diagram.specs.Shown.{DrawsStanding, label_step};

use super::arrow_lines::draw_arrows;
use super::layout::{Layout, Window, choose_window, lay_out};
use super::places::lane;
use super::scene::{Label, Scene};
use super::signs::draw_marks;
use picture::{Picture, Place};
use std::alloc::Global;
use std::io::{self, Write};

/// The width of a page of format A3, in points.
const WIDTH: u32 = 842;

/// A schedule's line is cut after so many bytes.
const LONGEST_TEXT: usize = 56;

/// How the elements look. Words have a white edge, so that they can be read over a line. None is smaller than 7 points.
const STYLE: &[u8] =
    b"svg{background:#fff}text{font:7px monospace;fill:#222}.head{font:bold 9px sans-serif}.note{font:7px sans-serif}\
.kind{font:7px sans-serif;text-anchor:end}.note,.kind{paint-order:stroke;stroke:#fff;stroke-width:2px}\
line,polyline{fill:none;stroke-width:0.8}.lane{stroke:#bbb}.lost,.waits{stroke-dasharray:3 2}.lost{opacity:0.7}\
.b0{stroke:#1f77b4}.b1{stroke:#d62728}.b2{stroke:#2ca02c}.b3{stroke:#9467bd}.b4{stroke:#ff7f0e}.b5{stroke:#17becf}\
.b6{stroke:#8c564b}.b7{stroke:#e377c2}.none{stroke:#7f7f7f}.sign{stroke:#222;stroke-width:0.5;fill:#fff}\
.learnt{fill:#2ca02c}.replied{fill:#1f77b4}.answered{fill:#17becf}.missed{fill:#bbb}.refused{fill:#ff7f0e}.stopped{fill:#d62728}.restored{fill:#9467bd}";

/// What the signs and the lines mean.
const MEANINGS: &[u8] =
    b"dashed: dropped (two thirds of the way) or waiting; a colour for each ballot, grey without one; circles: learnt (green), \
replied (blue), answered (light blue); squares: refused (orange), stopped (red), lost as the node was down (grey), restored (violet), restarted (white)";

/// The picture of the frames from number `from`, or the first, to number `to`, or the last; of more than a picture shows, the first ones.
/// It names those that it shows.
///
/// An error is out of memory.
pub fn draw(
    alloc: Global,
    scene: &Scene,
    from: Option<usize>,
    to: Option<usize>,
) -> io::Result<Vec<u8>>
    ensures { IfOk result (λ text. ShowsAsked scene.now from to text.items) }
{
    let window = choose_window(alloc, scene, from, to)?;
    let layout = lay_out(alloc, scene, window)?;
    let height = layout.height / 100 + 20;
    let mut picture = Picture::new(alloc, WIDTH, height, STYLE)?;
    draw_head(alloc, &mut picture, scene, window)?;
    draw_lanes(alloc, &mut picture, scene.nodes, layout.height)?;
    draw_labels(&mut picture, scene, &layout)?;
    draw_arrows(alloc, &mut picture, scene, window, &layout)?;
    draw_marks(&mut picture, scene, &layout)?;
    picture.finish()
}

/// What the picture shows.
fn draw_head(alloc: Global, picture: &mut Picture, scene: &Scene, window: Window) -> io::Result<()>
    ensures { OnOk result (Adds (IsHead (length scene.now.frames.now) scene.now.nodes window) picture.old picture.new) }
{
    let mut text = Vec::new(alloc);
    push_heading(&mut text, window, scene.frames.len(), scene.nodes)?;
    picture.text(b"head", Place { x: 1_000, y: 1_400 }, text.as_slice())?;
    picture.text(b"note", Place { x: 1_000, y: 2_400 }, MEANINGS)
}

/// Adds which frames are shown, of how many.
fn push_heading(text: &mut Vec<u8>, window: Window, frames: usize, nodes: u8) -> io::Result<()>
    ensures { OnOk result (text.new.items ≡ text.old.items ++ heading window frames nodes) }
{
    if window.first < window.end {
        let (first, last) = (window.first, window.end - 1);
        write!(text, "frames {first} to {last} of {frames}, {nodes} nodes")
    } else {
        write!(text, "no frame of {frames}, {nodes} nodes")
    }
}

/// A lane for each node, down to this height.
fn draw_lanes(alloc: Global, picture: &mut Picture, nodes: u8, height: u32) -> io::Result<()>
    ensures { OnOk result (Draws (IsLane nodes height) picture.old (range_with_len 0 nodes) picture.new) }
{
    for node in 0..nodes {
        draw_lane(alloc, picture, nodes, node, height)?;
    }
    Ok(())
}

/// The lane of a node, and the node's number above it.
fn draw_lane(
    alloc: Global,
    picture: &mut Picture,
    nodes: u8,
    node: u8,
    height: u32,
) -> io::Result<()>
    ensures { OnOk result (picture.new ≡ picture.old ++ lane_text nodes height node) }
{
    let x = lane(nodes, node);
    let mut name = Vec::new(alloc);
    write!(&mut name, "node {node}")?;
    let above = Place {
        x: x.saturating_sub(1_200),
        y: 3_600,
    };
    picture.text(b"head", above, name.as_slice())?;
    picture.line(b"lane", Place { x, y: 3_800 }, Place { x, y: height })
}

/// The schedule's lines, beside the steps at which they begin.
fn draw_labels(picture: &mut Picture, scene: &Scene, layout: &Layout) -> io::Result<()>
    ensures { let ends = layout.now.ends.items in
        OnOk result (DrawsStanding label_step (IsLine ends) ends scene.now.labels.now picture.old picture.new) }
{
    let mut last = None;
    let mut before = 0u32;
    for label in scene.labels {
        before = if last == Some(label.step) {
            before.saturating_add(1)
        } else {
            0
        };
        last = Some(label.step);
        draw_label(picture, label, before, layout)?;
    }
    Ok(())
}

/// A line, if its step is shown. So many of its step stand above it.
fn draw_label(picture: &mut Picture, label: &Label, before: u32, layout: &Layout) -> io::Result<()>
    ensures stands { let ends = layout.now.ends.items in
        OnOk result (Stands ends label.now.step → Adds (IsLine ends label.now) picture.old picture.new) }
    ensures left_out { OnOk result (¬ (Stands layout.now.ends.items label.now.step) → picture.new ≡ picture.old) }
{
    if layout.place_of(label.step) == 0 {
        return Ok(());
    }
    let y = layout.text_place(label.step, before);
    picture.text(b"line", Place { x: 1_000, y }, cut(label.text.as_slice()))
}

/// The first bytes of a text.
fn cut(text: &[u8]) -> &[u8]
    ensures { result.now ≡ take LONGEST_TEXT text.now }
{
    match text.split_at_checked(LONGEST_TEXT) {
        Some((first, _)) => first,
        None => text,
    }
}
