//! What is drawn of each frame.

ghost use Rattle.std.specs.Prelude.{◌≡◌, ◌+◌, ◌≤◌, ◌<◌, length, IfOk};
ghost use Rattle.diagram.specs.Arrows.{AreArrows, arrow_of, fate_of};

use std::alloc::{AllocError, Global};
use wire::{Frame, NodeId};

/// When a frame was sent, and when it came for the first time, if it did: the numbers of the run's steps.
#[derive(Clone, Copy, Debug, PartialEq, Eq)]
pub struct Passage {
    pub sent: usize,
    pub came: Option<usize>,
}

/// What became of a frame.
#[derive(Clone, Copy, Debug, PartialEq, Eq)]
pub enum Fate {
    /// It came at this step.
    Came(usize),
    /// It waits no more, and has not come.
    Dropped,
    /// It waits.
    Waits,
}

/// A frame between the lanes of two nodes.
#[derive(Clone, Copy)]
pub struct Arrow {
    /// The number of the frame.
    pub frame: usize,
    pub from: NodeId,
    pub to: NodeId,
    /// The step at which it was sent.
    pub sent: usize,
    pub fate: Fate,
}

/// The arrows of the frames from `first` to before `end`: one for each, in their order. `waiting` and `passages` have an entry for each
/// frame of the run.
pub fn list_arrows(
    alloc: Global,
    frames: &[Frame],
    waiting: &[bool],
    passages: &[Passage],
    first: usize,
    end: usize,
) -> Result<Vec<Arrow>, AllocError>
    requires in_order { first ≤ end }
    requires frames { end ≤ length frames.now }
    requires waiting { end ≤ length waiting.now }
    requires passages { end ≤ length passages.now }
    ensures { IfOk result (λ arrows. AreArrows frames.now waiting.now passages.now first end arrows.items) }
{
    let mut arrows = Vec::new(alloc);
    for number in first..end {
        let arrow = arrow_of(number, &frames[number], waiting[number], passages[number]);
        arrows.push(arrow)?;
    }
    Ok(arrows)
}

/// The arrow of a frame.
fn arrow_of(number: usize, frame: &Frame, waits: bool, passage: Passage) -> Arrow
    ensures { result ≡ arrow_of number frame.now waits passage }
{
    Arrow {
        frame: number,
        from: frame.sender(),
        to: frame.receiver(),
        sent: passage.sent,
        fate: fate_of(waits, passage.came),
    }
}

/// What became of a frame. One that was dropped may have come all the same.
fn fate_of(waits: bool, came: Option<usize>) -> Fate
    ensures { result ≡ fate_of waits came }
{
    if waits {
        return Fate::Waits;
    }
    match came {
        Some(step) => Fate::Came(step),
        None => Fate::Dropped,
    }
}
