//! A run as text.

ghost use Rattle.std.specs.Prelude.{◌≡◌, ◌+◌, ◌++◌, ◌<◌, ◌^◌, IfErr, IfOk, OnOk, map, slice_get};
ghost use Rattle.world.specs.Seen.{world_of};
ghost use Rattle.story.specs.Accounts.{IsAccountOf, IsWritten, and_frame, at_line, end_lines, entry_lines, happening_at, item_lines, line_lines, place_after, sent_lines};
ghost use Rattle.story.specs.Following.{IsRunOf, IsUntold};
ghost use Rattle.story.specs.Ledgers.{IsComplete};
ghost use Rattle.story.specs.Lines.{AddsLines};
ghost use Rattle.story.specs.declared.ledger.Ledger.{Ledger as ALedger};

use super::course::follow;
use super::entries::{Entry, list_run};
use super::items::{coming_at, item_of};
use super::ledger::{Ledger, ends_at};
use super::line_texts::{split_lines, text_of};
use super::ranges::list_ranges;
use super::writer::{Form, tell_count, tell_fault, tell_item, tell_line};
use events::WorldFault;
use replay::Watch;
use schedule::ReplayFault;
use stable::{MemStable, Scripted, Stable};
use std::alloc::Global;
use std::io;

/// What is told of a run, also where it ended with a fault, which is told at its end.
#[derive(Drop)]
pub struct Account {
    pub text: Vec<u8>,
    pub fault: Option<ReplayFault>,
}

/// What came of each line of the schedule that the bytes spell, up to the line that ends the run. Each frame is told where `frames` says
/// so; else how many were sent. The watch is told of each line that is done.
///
/// An error is the first faulty line, or out of memory.
pub fn tell<W: Watch>(
    alloc: Global,
    bytes: &[u8],
    form: Form,
    frames: bool,
    watch: &mut W,
) -> Result<Account, ReplayFault>
    ensures told { IfOk result (λ account. (ledger : ALedger)
        × IsRunOf (⟦<Scripted<MemStable> as Stable>⟧) bytes.now ledger.lines.items ledger.steps.items ledger.fault (world_of ledger.world)
        × IsAccountOf bytes.now ledger (record { form = form; frames = frames }) account) }
    ensures untold { IfErr result (IsUntold bytes.now) }
{
    let ledger = follow(alloc, bytes, watch)?;
    let fault = ledger.fault;
    match tell_run(alloc, bytes, &ledger, Manner { form, frames }) {
        Ok(text) => Ok(Account { text, fault }),
        Err(_) => Err(ends_at(1, WorldFault::Memory)),
    }
}

/// How a run is told: in which form, and whether frames are told one by one.
#[derive(Clone, Copy)]
pub(crate) struct Manner {
    pub form: Form,
    pub frames: bool,
}

/// How far a run is told: the number of the line, the step, and how many frames of the line wait to be told of as a number, from the first of
/// them on.
#[derive(Clone, Copy)]
pub(crate) struct Place {
    pub line: u64,
    pub step: usize,
    pub first: usize,
    pub sent: usize,
}

impl Place {
    /// One frame more is to be told of as a number.
    fn and_frame(self, number: usize) -> Place
        requires { self.sent + 1 < 2 ^ 64 }
        ensures { result ≡ and_frame self number }
    {
        Place {
            line: self.line,
            step: self.step,
            first: if self.sent == 0 { number } else { self.first },
            sent: self.sent + 1,
        }
    }

    /// A step begins.
    fn at_step(self, step: usize) -> Place
        ensures { result ≡ record self { step = step } }
    {
        Place {
            line: self.line,
            step,
            first: self.first,
            sent: self.sent,
        }
    }
}

/// Writes all that is told of a run: each line of the schedule, what came of it, and how the run ended.
fn tell_run(alloc: Global, bytes: &[u8], ledger: &Ledger, manner: Manner) -> io::Result<Vec<u8>>
    requires { IsComplete ledger.now }
    ensures { IfOk result (λ text. IsWritten bytes.now ledger.now manner text.items) }
{
    let entries = list_run(alloc, ledger)?;
    let texts = split_lines(alloc, bytes)?;
    let mut text = Vec::new(alloc);
    let mut place = Place {
        line: 0,
        step: 0,
        first: 0,
        sent: 0,
    };
    for index in 0..entries.len() {
        let entry = entries[index];
        place = tell_next(
            alloc,
            ledger,
            texts.as_slice(),
            manner,
            place,
            entry,
            &mut text,
        )?;
    }
    tell_end(alloc, ledger, manner, place, &mut text)?;
    Ok(text)
}

/// Tells the next entry, or counts it where it is a frame that isn't told by itself.
fn tell_next(
    alloc: Global,
    ledger: &Ledger,
    texts: &[&[u8]],
    manner: Manner,
    place: Place,
    entry: Entry,
    text: &mut Vec<u8>,
) -> io::Result<Place>
    requires { place.sent + 1 < 2 ^ 64 }
    ensures lines { OnOk result (AddsLines text.old.items (entry_lines manner ledger.now (map (λ t. t.now) texts.now) place entry) text.new.items) }
    ensures place { IfOk result (λ after. after ≡ place_after manner ledger.now place entry) }
{
    match entry {
        Entry::Line(index) => begin_line(alloc, ledger, texts, manner.form, place, index, text),
        Entry::Frame(number) => {
            if manner.frames {
                tell_entry(alloc, ledger, manner.form, place, entry, text)
            } else {
                Ok(place.and_frame(number))
            }
        }
        Entry::Step(step) => Ok(place.at_step(step)),
        Entry::Outcome(_) | Entry::Learnt(_) | Entry::Replied(_) | Entry::Answered(_) => tell_entry(
            alloc,
            ledger,
            manner.form,
            place,
            entry,
            text,
        ),
    }
}

/// Ends the line before, and tells a line of the schedule.
#[tactic(auto, using(crate::proofs::LineLemmas::lines_on))]
fn begin_line(
    alloc: Global,
    ledger: &Ledger,
    texts: &[&[u8]],
    form: Form,
    place: Place,
    index: usize,
    text: &mut Vec<u8>,
) -> io::Result<Place>
    ensures lines { OnOk result (AddsLines text.old.items
        (sent_lines form place ++ line_lines form (map (λ t. t.now) texts.now) (slice_get ledger.now.lines.items index)) text.new.items) }
    ensures place { IfOk result (λ after. after ≡ at_line place (slice_get ledger.now.lines.items index)) }
{
    tell_sent(alloc, form, place, text)?;
    let Some(begin) = ledger.lines.get(index) else {
        return Ok(place);
    };
    let line = begin.number;
    tell_line(alloc, form, text, line, text_of(texts, line))?;
    Ok(Place {
        line,
        step: place.step,
        first: 0,
        sent: 0,
    })
}

/// Tells how many frames were sent at a line, where they aren't told one by one.
#[tactic(auto, using(crate::proofs::AccountLemmas::none_sent, crate::proofs::AccountLemmas::some_sent))]
fn tell_sent(alloc: Global, form: Form, place: Place, text: &mut Vec<u8>) -> io::Result<()>
    ensures { OnOk result (AddsLines text.old.items (sent_lines form place) text.new.items) }
{
    let Place {
        line,
        first,
        sent,
        ..
    } = place;
    if sent == 0 {
        return Ok(());
    }
    tell_count(alloc, form, text, line, first, sent)
}

/// Tells what came of a step by an entry, if something did.
#[tactic(auto, using(crate::proofs::AccountLemmas::item_told, crate::proofs::AccountLemmas::no_item))]
fn tell_entry(
    alloc: Global,
    ledger: &Ledger,
    form: Form,
    place: Place,
    entry: Entry,
    text: &mut Vec<u8>,
) -> io::Result<Place>
    ensures lines { OnOk result (AddsLines text.old.items
        (item_lines form place.line (happening_at ledger.now place entry)) text.new.items) }
    ensures place { IfOk result (λ after. after ≡ place) }
{
    let coming = coming_at(ledger.steps.as_slice(), place.step);
    match item_of(alloc, &ledger.world, coming, entry) {
        Ok(item) => match item {
            Some(item) => {
                tell_item(alloc, form, text, place.line, &item)?;
                Ok(place)
            }
            None => Ok(place),
        },
        Err(refused) => Err(io::Error::from(refused)),
    }
}

/// Tells how many frames of the last line are not told yet, and the fault with which the run ended, if it did.
#[tactic(auto, using(crate::proofs::LineLemmas::lines_on))]
fn tell_end(
    alloc: Global,
    ledger: &Ledger,
    manner: Manner,
    place: Place,
    text: &mut Vec<u8>,
) -> io::Result<()>
    ensures { OnOk result (AddsLines text.old.items (end_lines manner ledger.now place) text.new.items) }
{
    tell_sent(alloc, manner.form, place, text)?;
    match ledger.fault {
        Some(fault) => {
            let waiting = list_ranges(alloc, ledger.world.waiting())?;
            let count = ledger.world.frames().len();
            tell_fault(alloc, manner.form, text, fault, count, waiting.as_slice())
        }
        None => Ok(()),
    }
}
