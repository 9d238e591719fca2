//! Pictures: the text of a few elements, of a diagram of two frames, and of a fleet of one feature.

use diagram::{Label, Mark, Passage, Scene, Sign, draw};
use fleetmap::{Asked, draw_fleet};
use picture::{Picture, Place};
use std::alloc::Global;
use std::str;
use std::test::Fail;
use store::{Db, Op, Query};
use synod::{Ballot, Slot};
use tpoint::{Id, Instant, Interp, Period, Point, Rect, Seq};
use wire::{Frame, Message, NodeId};

const DRAWN: &str = "\
<line class=\"way\" x1=\"0.00\" y1=\"1.05\" x2=\"12.30\" y2=\"7.00\"/>
<polyline class=\"way\" points=\"0.00,1.05 12.30,7.00 \"/>
<circle class=\"dot\" cx=\"12.30\" cy=\"7.00\" r=\"1.50\"/>
<rect class=\"area\" x=\"0.00\" y=\"1.05\" width=\"2.00\" height=\"30.00\"/>
<g class=\"a b\"><title>&#x003c;/g&#x003e;</title>
<text class=\"id\" x=\"0.00\" y=\"1.05\">&#x003c;script&#x003e; &#x2400;&#x0022;</text>
</g>
</svg>
";

#[test]
fn draws_elements(rt: HostRuntime) -> Result<(), Fail> {
    let (from, to) = (Place { x: 0, y: 105 }, Place { x: 1230, y: 700 });
    let mut picture = Picture::new(rt.alloc(), 20, 10, b".way{fill:none}")?;
    picture.line(b"way", from, to)?;
    picture.way(b"way", &[from, to])?;
    picture.circle(b"dot", to, 150)?;
    picture.rectangle(b"area", from, 200, 3000)?;
    picture.open(b"a b", b"</g>")?;
    picture.text(b"id", from, b"<script> \x00\"")?;
    picture.close()?;
    let text = picture.finish()?;
    assert!(rt; text.ends_with(DRAWN.as_bytes()));
    Ok(())
}

const TOLD: &str = "\
<text class=\"line\" x=\"10.00\" y=\"49.00\">timeout 0</text>
<g class=\"frame\"><title>frame 0 prepare 0 -&#x003e; 1 slot 0 ballot 1.0, delivered</title>
<line class=\"came b0\" x1=\"280.00\" y1=\"49.00\" x2=\"510.00\" y2=\"63.00\" marker-end=\"url(#head)\"/>
</g>
<text class=\"kind\" x=\"278.00\" y=\"55.00\">prepare</text>
<g class=\"frame\"><title>frame 1 prepare 0 -&#x003e; 1 slot 0 ballot 1.0, dropped</title>
<line class=\"lost b0\" x1=\"280.00\" y1=\"49.00\" x2=\"433.33\" y2=\"52.00\"/>
</g>
<g class=\"mark\"><title>node 1 learnt</title>
<circle class=\"sign learnt\" cx=\"510.00\" cy=\"63.00\" r=\"2.20\"/>
<text class=\"note\" x=\"513.50\" y=\"62.40\">0</text>
</g>
</svg>
";

#[test]
fn draws_frames(rt: HostRuntime) -> Result<(), Fail> {
    let alloc = rt.alloc();
    let frames = two_prepares(alloc)?;
    let marks = vec![in alloc; learnt(alloc)?]?;
    let labels = vec![in alloc;
        Label {
            step: 0,
            text: Vec::from_slice(alloc, b"timeout 0")?
        },
    ]?;
    let scene = Scene {
        nodes: 3,
        steps: 2,
        frames: frames.as_slice(),
        waiting: &[false, false],
        passages: &[passage(Some(1)), passage(None)],
        marks: marks.as_slice(),
        labels: labels.as_slice(),
    };
    let text = draw(alloc, &scene, None, None)?;
    assert!(rt; text.ends_with(TOLD.as_bytes()));
    Ok(())
}

/// Two frames from node 0 to node 1.
fn two_prepares(alloc: Global) -> Result<Vec<Frame>, Fail> {
    let (one, two) = (NodeId::new(0).ok_or("0")?, NodeId::new(1).ok_or("1")?);
    let ballot = Ballot::new(1, 0).ok_or("ballot")?;
    let message = Message::Prepare {
        ballot,
        first: Slot::first(),
    };
    let mut frames = Vec::new(alloc);
    frames.push(Frame::of(alloc, one, two, &message)?)?;
    frames.push(Frame::of(alloc, one, two, &message)?)?;
    Ok(frames)
}

/// A frame was sent at the first step.
fn passage(came: Option<usize>) -> Passage {
    Passage { sent: 0, came }
}

/// Node 1 learns slot 0 at the second step.
fn learnt(alloc: Global) -> Result<Mark, Fail> {
    Ok(Mark {
        step: 1,
        node: NodeId::new(1).ok_or("1")?,
        sign: Sign::Learnt,
        note: Vec::from_slice(alloc, b"0")?,
        title: Vec::from_slice(alloc, b"node 1 learnt")?,
    })
}

// A map of 710 mm: 600, a sixth of that, and 10. So 20 mm are 2929.58 hundredths of a unit.
const MARK_DRAWN: &str = "<circle class=\"mark\" cx=\"104.56\" cy=\"1023.44\" r=\"6.00\"/>";

#[test]
fn draws_a_fleet(rt: HostRuntime) -> Result<(), Fail> {
    let alloc = rt.alloc();
    let begin = Instant::new(0).ok_or("begin")?;
    let end = Instant::new(3).ok_or("end")?;
    let mut points = Vec::new(alloc);
    points.push(Point {
        t: begin,
        x: 0,
        y: 0,
    })?;
    points.push(Point {
        t: end,
        x: 600,
        y: 600,
    })?;
    let seq = Seq::new(Interp::Linear, points).ok().ok_or("seq")?;
    let id = Id::new(b"bus-7").ok_or("id")?;
    let mut db = Db::new(alloc);
    let _told = db.apply(&Op::Put(id, seq))?;
    let area = Rect::new(0, 0, 100, 100).ok_or("area")?;
    let period = Period::new(begin, end).ok_or("period")?;
    let query = Query::Within(period, area);
    let mut asked = Vec::new(alloc);
    asked.push(Asked {
        line: 4,
        node: 1,
        query,
        answer: None,
    })?;
    let text = draw_fleet(alloc, &db, begin, &asked, b"<title>", b"")?;
    let text = str::from_utf8(&text).unwrap_or("");
    assert!(rt; text.contains("&#x003c;title&#x003e;"));
    assert!(rt; text.contains(MARK_DRAWN));
    assert!(rt; text.contains("line 4, node 1: refused"));
    Ok(())
}
