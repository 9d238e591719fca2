//! A run as a picture.

ghost use Rattle.std.specs.Prelude.{IfErr, IfOk};
ghost use Rattle.story.specs.Following.{IsRunOf, IsUntold};
ghost use Rattle.story.specs.Ledgers.{IsComplete};
ghost use Rattle.story.specs.Lines.{texts_in};
ghost use Rattle.story.specs.Sketches.{AreLabels, IsSketchOf, IsSketched};
ghost use Rattle.story.specs.declared.ledger.Ledger.{Ledger as ALedger};
ghost use Rattle.world.specs.Seen.{world_of};

use super::account::Account;
use super::course::follow;
use super::ledger::{Ledger, ends_at};
use super::line_texts::{split_lines, text_of};
use super::marks::mark_run;
use diagram::{Label, Scene};
use events::WorldFault;
use replay::Watch;
use schedule::ReplayFault;
use stable::{MemStable, Scripted, Stable};
use std::alloc::Global;
use std::io;

/// The space-time diagram of the run that the bytes spell, as SVG, up to the line that ends it: of the frames from number `from`, or the
/// first, to number `to`, or the last; of more than a picture shows, of the first ones, which it names. The watch is told of each line that is
/// done.
///
/// An error is the first faulty line, or out of memory.
pub fn draw<W: Watch>(
    alloc: Global,
    bytes: &[u8],
    from: Option<usize>,
    to: Option<usize>,
    watch: &mut W,
) -> Result<Account, ReplayFault>
    ensures run { IfOk result (λ account. (ledger : ALedger)
        × IsRunOf (⟦<Scripted<MemStable> as Stable>⟧) bytes.now ledger.lines.items ledger.steps.items ledger.fault (world_of ledger.world)
        × IsSketchOf bytes.now ledger from to account) }
    ensures untold { IfErr result (IsUntold bytes.now) }
{
    let ledger = follow(alloc, bytes, watch)?;
    let fault = ledger.fault;
    match draw_ledger(alloc, bytes, &ledger, from, to) {
        Ok(text) => Ok(Account { text, fault }),
        Err(_) => Err(ends_at(1, WorldFault::Memory)),
    }
}

fn draw_ledger(
    alloc: Global,
    bytes: &[u8],
    ledger: &Ledger,
    from: Option<usize>,
    to: Option<usize>,
) -> io::Result<Vec<u8>>
    requires { IsComplete ledger.now }
    ensures { IfOk result (λ text. IsSketched bytes.now ledger.now from to text.items) }
{
    let labels = label_lines(alloc, bytes, ledger)?;
    let marks = mark_run(alloc, ledger)?;
    let scene = Scene {
        nodes: ledger.world.count(),
        steps: ledger.steps.len(),
        frames: ledger.world.frames(),
        waiting: ledger.world.waiting(),
        passages: ledger.passages.as_slice(),
        marks: marks.as_slice(),
        labels: labels.as_slice(),
    };
    diagram::draw(alloc, &scene, from, to)
}

/// The schedule's lines, each with the step at which it begins.
fn label_lines(alloc: Global, bytes: &[u8], ledger: &Ledger) -> io::Result<Vec<Label>>
    ensures { IfOk result (λ labels. AreLabels (texts_in bytes.now) ledger.now.lines.items labels.items) }
{
    let mut labels = Vec::new(alloc);
    let texts = split_lines(alloc, bytes)?;
    for begin in ledger.lines.iter() {
        let text = text_of(texts.as_slice(), begin.number);
        labels.push(Label {
            step: begin.step,
            text: Vec::from_slice(alloc, text)?,
        })?;
    }
    Ok(labels)
}
