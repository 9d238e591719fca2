//! The arrows of a picture, and what is told of them.

ghost use Rattle.std.specs.Prelude.{◌≡◌, ◌++◌, ◌≤◌, ◌↔◌, IsTrue, OnOk, codes, length};
ghost use Rattle.picture.specs.Elements.{opened};
ghost use Rattle.diagram.specs.Drawn.{Adds, Draws, IsFrame, IsTold, MayTell};
ghost use Rattle.diagram.specs.Facts.{facts_of, kind_text};
ghost use Rattle.diagram.specs.Pictures.{AreThere, DrawsFrames, IsThere, IsWhole};
ghost use Rattle.diagram.specs.Titles.{fate_text, title_text};

use super::arrows::{Arrow, Fate, list_arrows};
use super::colors::color_of;
use super::facts::{Facts, facts_of, kind_name, push_frame};
use super::layout::{Layout, Window};
use super::places::lane;
use super::scene::Scene;
use super::strokes::draw_arrow;
use picture::{Picture, Place};
use std::alloc::Global;
use std::io;
use synod::Ballot;
use wire::{Frame, Kind};

/// The distance of two words beside a lane.
const WORDS: u32 = 800;

/// The arrows, each with what its frame is.
pub(crate) fn draw_arrows(
    alloc: Global,
    picture: &mut Picture,
    scene: &Scene,
    window: Window,
    layout: &Layout,
) -> io::Result<()>
    requires in_order { window.first ≤ window.end }
    requires there { window.end ≤ length scene.now.frames.now }
    ensures { OnOk result (IsWhole scene.now → DrawsFrames scene.now window layout.now.ends.items picture.old picture.new) }
{
    if !reaches(scene, window.end) {
        return Ok(());
    }
    let arrows = list_arrows(
        alloc,
        scene.frames,
        scene.waiting,
        scene.passages,
        window.first,
        window.end,
    )?;
    draw_all(alloc, picture, scene, arrows.as_slice(), layout)
}

/// Whether there is a flag and a passage for each frame before this one.
fn reaches(scene: &Scene, end: usize) -> bool
    ensures { IsTrue result ↔ (end ≤ length scene.now.waiting.now) × (end ≤ length scene.now.passages.now) }
{
    end <= scene.waiting.len() && end <= scene.passages.len()
}

/// Arrows, in their order.
fn draw_all(
    alloc: Global,
    picture: &mut Picture,
    scene: &Scene,
    arrows: &[Arrow],
    layout: &Layout,
) -> io::Result<()>
    ensures { OnOk result (AreThere scene.now.frames.now arrows.now
        → Draws (IsFrame scene.now layout.now.ends.items) picture.old arrows.now picture.new) }
{
    let mut ballots = Vec::new(alloc);
    let mut free = [0; 7];
    for arrow in arrows {
        draw_next(
            alloc,
            picture,
            scene,
            arrow,
            layout,
            &mut ballots,
            &mut free,
        )?;
    }
    Ok(())
}

/// The next arrow, and the kind of its frame beside it. The ballots so far have their colours, and beside the lanes it is free from there on.
fn draw_next(
    alloc: Global,
    picture: &mut Picture,
    scene: &Scene,
    arrow: &Arrow,
    layout: &Layout,
    ballots: &mut Vec<Ballot>,
    free: &mut [u32; 7],
) -> io::Result<()>
    ensures { OnOk result (IsThere scene.now.frames.now arrow.now
        → Adds (IsFrame scene.now layout.now.ends.items arrow.now) picture.old picture.new) }
{
    match scene.frames.get(arrow.frame) {
        Some(frame) => draw_sent(
            alloc,
            picture,
            scene.nodes,
            arrow,
            frame,
            layout,
            ballots,
            free,
        ),
        None => Ok(()),
    }
}

/// The arrow of this frame, and the frame's kind beside it.
fn draw_sent(
    alloc: Global,
    picture: &mut Picture,
    nodes: u8,
    arrow: &Arrow,
    frame: &Frame,
    layout: &Layout,
    ballots: &mut Vec<Ballot>,
    free: &mut [u32; 7],
) -> io::Result<()>
    ensures { OnOk result (Adds (IsTold nodes layout.now.ends.items arrow.now (facts_of frame.now.message)) picture.old picture.new) }
{
    let facts = facts_of(&frame.open(alloc)?.message);
    let color = color_of(ballots, facts.ballot)?;
    draw_frame(alloc, picture, nodes, arrow, &facts, color, layout, free)
}

/// The arrow of a frame, under a title that says what the frame is, and the frame's kind beside it.
fn draw_frame(
    alloc: Global,
    picture: &mut Picture,
    nodes: u8,
    arrow: &Arrow,
    facts: &Facts,
    color: usize,
    layout: &Layout,
    free: &mut [u32; 7],
) -> io::Result<()>
    ensures { OnOk result (Adds (IsTold nodes layout.now.ends.items arrow.now facts.now) picture.old picture.new) }
{
    open_frame(alloc, picture, arrow, facts)?;
    draw_arrow(picture, nodes, arrow, color, layout)?;
    picture.close()?;
    draw_kind(picture, nodes, arrow, facts.kind, layout, free)
}

/// The group of a frame begins, with its title.
fn open_frame(alloc: Global, picture: &mut Picture, arrow: &Arrow, facts: &Facts) -> io::Result<()>
    ensures { OnOk result (picture.new ≡ picture.old ++ opened (codes "frame") (title_text arrow.now facts.now)) }
{
    let mut title = Vec::new(alloc);
    push_frame(&mut title, arrow.frame, arrow.from, arrow.to, facts)?;
    push_fate(&mut title, arrow.fate)?;
    picture.open(b"frame", title.as_slice())
}

/// The kind of a frame, left of the lane of its sender, where the last word there leaves room: so once for all that are sent at a step.
fn draw_kind(
    picture: &mut Picture,
    nodes: u8,
    arrow: &Arrow,
    kind: Kind,
    layout: &Layout,
    free: &mut [u32; 7],
) -> io::Result<()>
    ensures { OnOk result (Adds (MayTell nodes layout.now.ends.items arrow.now (kind_text kind)) picture.old picture.new) }
{
    let node = arrow.from.value();
    let y = layout.place_of(arrow.sent);
    let Some(free) = free.get_mut(usize::from(node)) else {
        return Ok(());
    };
    if y < *free {
        return Ok(());
    }
    *free = y.saturating_add(WORDS);
    let beside = Place {
        x: lane(nodes, node).saturating_sub(200),
        y: y.saturating_add(600),
    };
    picture.text(b"kind", beside, kind_name(kind).as_bytes())
}

/// What became of a frame, behind what it is.
fn push_fate(title: &mut Vec<u8>, fate: Fate) -> io::Result<()>
    ensures { OnOk result (title.new.items ≡ title.old.items ++ fate_text fate) }
{
    title.extend_from_slice(match fate {
        Fate::Came(_) => b", delivered",
        Fate::Dropped => b", dropped",
        Fate::Waits => b", waits",
    })?;
    Ok(())
}
