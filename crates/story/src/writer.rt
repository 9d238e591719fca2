//! What writes a run down, line by line.

ghost use Rattle.std.specs.Prelude.{[], ◌∷◌, IfOk, OnOk};
ghost use Rattle.story.specs.Happenings.{told_by};
ghost use Rattle.story.specs.Lines.{AddsLines, Says, whole};
ghost use Rattle.story.specs.Saying.{count_said, fault_said, help, item_said, line_said, way_out, world_help};
ghost use Rattle.story.specs.declared.writer.Form.TheVariants.{Words};

use super::items::Item;
use super::lines::push_line;
use super::objects::{count_object, fault_object, item_object, line_object};
use super::ranges::Range;
use super::words::{
    count_words, fault_words, frames_words, item_words, line_words, waiting_words, way_out_words,
};
use events::WorldFault;
use schedule::{ReplayCause, ReplayFault};
use std::alloc::Global;
use std::io;

/// For whom a run is told.
#[derive(Clone, Copy, Debug, PartialEq, Eq)]
pub enum Form {
    /// Each line of the schedule, and below it what came of it, in words.
    Words,
    /// A JSON object a line, for each line of the schedule and each thing that came of it.
    Json,
}

/// Tells a line of the schedule. Here and below an error is out of memory.
pub(crate) fn tell_line(
    alloc: Global,
    form: Form,
    text: &mut Vec<u8>,
    number: u64,
    line: &[u8],
) -> io::Result<()>
    ensures { OnOk result (AddsLines text.old.items (line_said form number line.now ∷ []) text.new.items) }
{
    let line = line_in(alloc, form, number, line)?;
    push_line(text, line.as_slice())
}

fn line_in(alloc: Global, form: Form, number: u64, line: &[u8]) -> io::Result<Vec<u8>>
    ensures { IfOk result (λ text. Says (line_said form number line.now) text.items) }
{
    match form {
        Form::Words => line_words(alloc, number, line),
        Form::Json => line_object(alloc, number, line),
    }
}

/// Tells what came of a line.
pub(crate) fn tell_item(
    alloc: Global,
    form: Form,
    text: &mut Vec<u8>,
    line: u64,
    item: &Item,
) -> io::Result<()>
    ensures { OnOk result (AddsLines text.old.items (item_said form line (told_by item.now) ∷ []) text.new.items) }
{
    let line = item_in(alloc, form, line, item)?;
    push_line(text, line.as_slice())
}

fn item_in(alloc: Global, form: Form, line: u64, item: &Item) -> io::Result<Vec<u8>>
    ensures { IfOk result (λ text. Says (item_said form line (told_by item.now)) text.items) }
{
    match form {
        Form::Words => item_words(alloc, line, item),
        Form::Json => item_object(alloc, line, item),
    }
}

/// Tells how many frames were sent at a line, of which the first has this number.
pub(crate) fn tell_count(
    alloc: Global,
    form: Form,
    text: &mut Vec<u8>,
    line: u64,
    first: usize,
    count: usize,
) -> io::Result<()>
    ensures { OnOk result (AddsLines text.old.items (count_said form line first count ∷ []) text.new.items) }
{
    let line = count_in(alloc, form, line, first, count)?;
    push_line(text, line.as_slice())
}

fn count_in(alloc: Global, form: Form, line: u64, first: usize, count: usize) -> io::Result<Vec<u8>>
    ensures { IfOk result (λ text. Says (count_said form line first count) text.items) }
{
    match form {
        Form::Words => count_words(alloc, line, first, count),
        Form::Json => count_object(alloc, line, first, count),
    }
}

/// Tells the fault with which the run ends, and what helps at some: how many frames there are, or which ones wait.
pub(crate) fn tell_fault(
    alloc: Global,
    form: Form,
    text: &mut Vec<u8>,
    fault: ReplayFault,
    frames: usize,
    waiting: &[Range],
) -> io::Result<()>
    ensures { OnOk result (AddsLines text.old.items (fault_said form fault frames waiting.now) text.new.items) }
{
    match form {
        Form::Words => tell_fault_words(alloc, text, fault, frames, waiting),
        Form::Json => {
            let line = fault_object(alloc, fault, frames, waiting)?;
            push_line(text, line.as_slice())
        }
    }
}

fn tell_fault_words(
    alloc: Global,
    text: &mut Vec<u8>,
    fault: ReplayFault,
    frames: usize,
    waiting: &[Range],
) -> io::Result<()>
    ensures { OnOk result (AddsLines text.old.items (fault_said Words fault frames waiting.now) text.new.items) }
{
    let line = fault_words(alloc, fault)?;
    push_line(text, line.as_slice())?;
    tell_help(alloc, text, fault.cause, frames, waiting)
}

/// Tells what helps where the run ended so.
fn tell_help(
    alloc: Global,
    text: &mut Vec<u8>,
    cause: ReplayCause,
    frames: usize,
    waiting: &[Range],
) -> io::Result<()>
    ensures { OnOk result (AddsLines text.old.items (help cause frames waiting.now) text.new.items) }
{
    match cause {
        ReplayCause::Schedule(_) => Ok(()),
        ReplayCause::World(fault) => tell_world_help(alloc, text, fault, frames, waiting),
    }
}

fn tell_world_help(
    alloc: Global,
    text: &mut Vec<u8>,
    fault: WorldFault,
    frames: usize,
    waiting: &[Range],
) -> io::Result<()>
    ensures { OnOk result (AddsLines text.old.items (world_help fault frames waiting.now) text.new.items) }
{
    match fault {
        WorldFault::NoSuchFrame => tell_frames(alloc, text, frames),
        WorldFault::FlushLimit => tell_waiting(alloc, text, waiting),
        WorldFault::NoSuchNode => Ok(()),
        WorldFault::Memory => Ok(()),
        WorldFault::NotEmpty => Ok(()),
    }
}

/// Tells how many frames there are.
fn tell_frames(alloc: Global, text: &mut Vec<u8>, frames: usize) -> io::Result<()>
    ensures { OnOk result (AddsLines text.old.items (world_help WorldFault.NoSuchFrame frames []) text.new.items) }
{
    let line = frames_words(alloc, frames)?;
    push_line(text, line.as_slice())
}

/// Tells which frames wait where a flush doesn't end, and what ends it.
fn tell_waiting(alloc: Global, text: &mut Vec<u8>, waiting: &[Range]) -> io::Result<()>
    ensures { OnOk result (AddsLines text.old.items (world_help WorldFault.FlushLimit 0 waiting.now) text.new.items) }
{
    let line = waiting_words(alloc, waiting)?;
    push_line(text, line.as_slice())?;
    tell_way_out(alloc, text)
}

/// Tells what ends such a flush.
fn tell_way_out(alloc: Global, text: &mut Vec<u8>) -> io::Result<()>
    ensures { OnOk result (AddsLines text.old.items (whole way_out ∷ []) text.new.items) }
{
    let line = way_out_words(alloc)?;
    push_line(text, line.as_slice())
}
