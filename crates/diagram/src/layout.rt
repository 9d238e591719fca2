//! Which frames are drawn, and how high each step stands.

ghost use Rattle.std.specs.Prelude.{◌≡◌, ℕ, ◌+◌, ◌-◌, ◌*◌, ◌^◌, ◌<◌, ◌≤◌, max, min, length, slice_index_or, if◌then◌else◌, IfOk, IsTrue};
ghost use Rattle.diagram.specs.Places.{HaveRoom, Stands, down, further};
ghost use Rattle.diagram.specs.Shown.{IsJust, IsLayout, IsStepOf, IsStepOfFrames, IsStepOfPassage, Sets, StandWhereSet, first_step, label_step, last_step, mark_step, sent_at};
ghost use Rattle.diagram.specs.Windows.{IsChosen, IsWindowOf};

use super::arrows::Passage;
use super::scene::Scene;
use std::alloc::{AllocError, Global};

/// A picture shows at most this many frames.
pub const MOST_FRAMES: usize = 200;

/// Where the first step stands, in hundredths of a point.
const TOP: u32 = 4_000;

/// The height of a page of format A3, less a margin.
const PAGE: u32 = 117_000;

/// The height of a line of text.
const TEXT_ROW: u32 = 900;

/// The least and the greatest height of a step beside which no text stands.
const BARE_ROW: u32 = 450;

const WIDE_ROW: u32 = 1_400;

/// Frames from the first to before the end.
#[derive(Clone, Copy, Debug, PartialEq, Eq)]
pub struct Window {
    pub first: usize,
    pub end: usize,
}

/// How high the steps stand: how many lines of text each has, and where it ends, in hundredths of a point. One that isn't drawn ends at 0.
#[derive(Drop)]
pub(crate) struct Layout {
    pub texts: Vec<u32>,
    pub ends: Vec<u32>,
    pub height: u32,
    ghost room: { HaveRoom texts.items ends.items },
}

/// The frames that are drawn: from `from`, or the first one, to `to`, or the last one; of more than a picture shows, and of more than fit
/// a page of format A3, the first ones.
pub fn choose_window(
    alloc: Global,
    scene: &Scene,
    from: Option<usize>,
    to: Option<usize>,
) -> Result<Window, AllocError>
    ensures { IfOk result (IsChosen (length scene.now.frames.now) from to) }
{
    let count = scene.frames.len();
    let first = from.unwrap_or(0).min(count);
    let last = match to {
        Some(last) => last.saturating_add(1).min(count),
        None => count,
    };
    let most = last.saturating_sub(first).min(MOST_FRAMES);
    fit_page(alloc, scene, first, most)
}

/// The longest window of these frames that fits a page, in steps of an eighth; an eighth of them, where none fits.
fn fit_page(alloc: Global, scene: &Scene, first: usize, most: usize) -> Result<Window, AllocError>
    requires there { first + most ≤ length scene.now.frames.now }
    requires few { most ≤ MOST_FRAMES }
    ensures { IfOk result (IsWindowOf (length scene.now.frames.now) first most) }
{
    for eighths in 0..7usize {
        let window = Window {
            first,
            end: first + (most - most * eighths / 8),
        };
        let layout = lay_out(alloc, scene, window)?;
        if layout.height <= PAGE {
            return Ok(window);
        }
    }
    Ok(Window {
        first,
        end: first + (most - most * 7 / 8),
    })
}

/// How high the steps stand of which the window shows something.
pub(crate) fn lay_out(alloc: Global, scene: &Scene, window: Window) -> Result<Layout, AllocError>
    requires { window.first ≤ window.end }
    ensures { IfOk result (λ layout. IsLayout scene.now window layout.ends.items layout.height) }
{
    let mut texts = vec![in alloc; 0u32; scene.steps.saturating_add(1)]?;
    let mut shown = vec![in alloc; false; scene.steps.saturating_add(1)]?;
    show_passages(&mut shown, scene, window);
    let (first, last) = steps_of(scene, window);
    show_marks(&mut shown, scene, first, last);
    show_labels(&mut shown, &mut texts, scene, first, last);
    stack(alloc, texts, shown)
}

/// Every step between these at which a mark stands is shown.
fn show_marks(shown: &mut Vec<bool>, scene: &Scene, first: usize, last: usize)
    ensures { Sets (IsStepOf mark_step scene.now.marks.now first last) shown.old.items shown.new.items }
{
    for mark in scene.marks {
        show_between(shown, mark.step, first, last);
    }
}

/// Every step between these at which a line of the schedule begins is shown, with its texts.
fn show_labels(
    shown: &mut Vec<bool>,
    texts: &mut Vec<u32>,
    scene: &Scene,
    first: usize,
    last: usize,
)
    ensures shown { Sets (IsStepOf label_step scene.now.labels.now first last) shown.old.items shown.new.items }
    ensures texts { length texts.new.items ≡ length texts.old.items }
{
    for label in scene.labels {
        let is_shown = show_between(shown, label.step, first, last);
        add_text(texts, label.step, is_shown);
    }
}

/// Every step at which a frame of the window was sent or came is shown.
fn show_passages(shown: &mut Vec<bool>, scene: &Scene, window: Window)
    requires { window.first ≤ window.end }
    ensures { Sets (IsStepOfFrames scene.now.passages.now window.first window.end) shown.old.items shown.new.items }
{
    for number in window.first..window.end {
        show_frame(shown, scene.passages, number);
    }
}

/// The steps at which this frame was sent and came are shown.
fn show_frame(shown: &mut Vec<bool>, passages: &[Passage], number: usize)
    ensures { Sets (IsStepOfFrames passages.now number (number + 1)) shown.old.items shown.new.items }
{
    if let Some(passage) = passages.get(number) {
        show_passage(shown, *passage);
    }
}

/// The steps at which a frame was sent and came are shown.
fn show_passage(shown: &mut Vec<bool>, passage: Passage)
    ensures { Sets (IsStepOfPassage passage) shown.old.items shown.new.items }
{
    set_flag(shown, passage.sent);
    if let Some(step) = passage.came {
        set_flag(shown, step);
    }
}

/// Shows a step that is between these. Whether it is.
fn show_between(shown: &mut Vec<bool>, step: usize, first: usize, last: usize) -> bool
    ensures { Sets (IsJust step first last) shown.old.items shown.new.items }
{
    if first <= step && step <= last {
        set_flag(shown, step);
        return true;
    }
    false
}

/// The first and the last step of which labels and marks are drawn: those between which the window's frames were sent, and all that is
/// before the first frame, or after the last.
fn steps_of(scene: &Scene, window: Window) -> (usize, usize)
    ensures first { result.0 ≡ first_step scene.now window }
    ensures last { result.1 ≡ last_step scene.now window }
{
    let first = if window.first == 0 {
        0
    } else {
        sent_at(scene.passages, window.first)
    };
    let last = if window.end >= scene.frames.len() {
        scene.steps
    } else {
        sent_at(scene.passages, window.end.saturating_sub(1))
    };
    (first, last)
}

/// The step at which a frame was sent.
fn sent_at(passages: &[Passage], number: usize) -> usize
    ensures { result ≡ sent_at passages.now number }
{
    match passages.get(number) {
        Some(passage) => passage.sent,
        None => 0,
    }
}

fn set_flag(flags: &mut Vec<bool>, index: usize)
    ensures { Sets (λ step. index ≡ step) flags.old.items flags.new.items }
{
    if index < flags.len() {
        flags[index] = true;
    }
}

/// Counts a line of text, if its step is shown.
fn add_text(texts: &mut Vec<u32>, index: usize, is_shown: bool)
    ensures { length texts.new.items ≡ length texts.old.items }
{
    if is_shown && index < texts.len() {
        texts[index] = texts[index].saturating_add(1);
    }
}

/// The steps that are shown, one below the other.
fn stack(alloc: Global, texts: Vec<u32>, shown: Vec<bool>) -> Result<Layout, AllocError>
    requires { length texts.items ≡ length shown.items }
    ensures { IfOk result (λ layout. StandWhereSet shown.items layout.ends.items layout.height) }
{
    let bare = bare_row(texts.as_slice(), shown.as_slice());
    let mut ends = Vec::new(alloc);
    let mut height = TOP;
    for index in 0..shown.len() {
        let is_shown = shown[index];
        height = stand_below(height, is_shown, row_of(texts[index], bare));
        ends.push(place_if(is_shown, height))?;
    }
    Ok(Layout {
        texts,
        ends,
        height,
    })
}

/// How far it is down to the end of a step that begins there, if it is shown.
fn stand_below(height: u32, is_shown: bool, row: u32) -> u32
    ensures lower { height ≤ result }
    ensures shown { IsTrue is_shown → result ≡ further height row }
{
    if is_shown {
        height.saturating_add(row)
    } else {
        height
    }
}

/// Where a step ends that is shown; 0 for another.
fn place_if(is_shown: bool, height: u32) -> u32
    ensures { result ≡ (if is_shown then height else 0) }
{
    if is_shown { height } else { 0 }
}

/// The height of a step with so many lines of text.
fn row_of(count: u32, bare: u32) -> u32
    requires { BARE_ROW ≤ bare }
    ensures { max BARE_ROW (min (count * TEXT_ROW) (2 ^ 32 - 1)) ≤ result }
{
    if count == 0 {
        bare
    } else {
        count.saturating_mul(TEXT_ROW)
    }
}

/// The height of a step without text: as much as fills the page.
fn bare_row(texts: &[u32], shown: &[bool]) -> u32
    ensures { BARE_ROW ≤ result }
{
    let mut text_height = TOP;
    let mut bare = 0u32;
    for (count, is_shown) in texts.iter().zip(shown.iter()) {
        if *is_shown && *count == 0 {
            bare = bare.saturating_add(1);
        }
        if *is_shown {
            text_height = text_height.saturating_add(count.saturating_mul(TEXT_ROW));
        }
    }
    let each = PAGE.saturating_sub(text_height) / bare.max(1);
    each.min(WIDE_ROW).max(BARE_ROW)
}

impl Layout {
    /// Where a step stands.
    pub fn place_of(&self, step: usize) -> u32
        ensures { result ≡ down self.now.ends.items step }
    {
        self.ends.get(step).copied().unwrap_or(0)
    }

    /// Where the line of text stands that has so many others of its step before it.
    pub fn text_place(&self, step: usize, before: u32) -> u32
        ensures above { result ≤ down self.now.ends.items step }
        ensures below { let ends = self.now.ends.items in (i : ℕ) → i < step → Stands ends i → Stands ends step
            → down ends step < 2 ^ 32 - 1 → down ends i + 450 ≤ result }
    {
        let below = self.texts_of(step).saturating_sub(before.saturating_add(1));
        self.place_of(step)
            .saturating_sub(below.saturating_mul(TEXT_ROW))
    }

    /// How many lines of text a step has.
    fn texts_of(&self, step: usize) -> u32
        ensures { result ≡ slice_index_or self.now.texts.items step 0 }
    {
        self.texts.get(step).copied().unwrap_or(0)
    }
}
