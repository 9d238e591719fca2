//! The marks of a picture, entry by entry.

ghost use Rattle.std.specs.Prelude.{◌≡◌, ◌∷◌, [], ◌++◌, IfOk, OnOk, codes, decimal, map, slice_get};
ghost use Rattle.replay.specs.Transcripts.{command_text};
ghost use Rattle.sessions.specs.SessionReplies.{outcome_code};
ghost use Rattle.story.specs.Happenings.{coming_at, happening, reply_given, slot_learnt, step_at, told_by};
ghost use Rattle.story.specs.Ledgers.{IsComplete};
ghost use Rattle.story.specs.Marking.{AreMarksOf, HasMarked, deed_marks, done_mark, entry_marks, marking, marks_if, marks_of, step_marks, told_mark};
ghost use Rattle.story.specs.Wordings.{words_of};
ghost use Rattle.world.specs.Seen.{world_of};

use super::deeds::Deed;
use super::entries::{Entry, list_run};
use super::items::{Item, coming_at, item_of, push_command};
use super::ledger::{Ledger, Step};
use super::words::push_item;
use diagram::{Mark, Sign};
use sessions::SessionReply;
use std::alloc::Global;
use std::io::{self, Write};
use wire::NodeId;
use world_model::LearntEntry;

/// Makes the marks of what is told, at the step of which it is told.
#[derive(Drop)]
pub(crate) struct Marker {
    alloc: Global,
    step: usize,
    marks: Vec<Mark>,
}

/// The marks of all that is told of a run.
pub(crate) fn mark_run(alloc: Global, ledger: &Ledger) -> io::Result<Vec<Mark>>
    requires { IsComplete ledger.now }
    ensures { IfOk result (λ marks. AreMarksOf ledger.now marks.items) }
{
    let entries = list_run(alloc, ledger)?;
    let mut marker = begin(alloc);
    for index in 0..entries.len() {
        let entry = entries[index];
        marker.mark_next(ledger, entry)?;
    }
    let Marker { marks, .. } = marker;
    Ok(marks)
}

/// Nothing is marked.
fn begin(alloc: Global) -> Marker
    ensures step { result.step ≡ 0 }
    ensures marks { result.marks.items ≡ [] }
{
    Marker {
        alloc,
        step: 0,
        marks: Vec::new(alloc),
    }
}

impl Marker {
    /// Marks what the next entry tells.
    fn mark_next(&mut self, ledger: &Ledger, entry: Entry) -> io::Result<()>
        ensures step { OnOk result (self.new.step ≡ step_at self.old.step entry) }
        ensures marks { OnOk result (map marking self.new.marks.items
            ≡ map marking self.old.marks.items ++ entry_marks ledger.now self.old.step entry) }
    {
        match entry {
            Entry::Step(number) => self.begin_step(ledger.steps.as_slice(), number),
            Entry::Frame(_) => Ok(()),
            Entry::Line(_)
            | Entry::Outcome(_)
            | Entry::Learnt(_)
            | Entry::Replied(_)
            | Entry::Answered(_) => self.mark_entry(ledger, entry),
        }
    }

    /// Marks what happened by an entry, where that is shown at a node.
    fn mark_entry(&mut self, ledger: &Ledger, entry: Entry) -> io::Result<()>
        ensures { OnOk result (HasMarked self.old self.new (marks_if self.old.step
            (happening (world_of ledger.now.world) (coming_at ledger.now.steps.items self.old.step) entry))) }
    {
        let coming = coming_at(ledger.steps.as_slice(), self.step);
        match item_of(self.alloc, &ledger.world, coming, entry) {
            Ok(item) => match item {
                Some(item) => self.mark(&item),
                None => Ok(()),
            },
            Err(refused) => Err(io::Error::from(refused)),
        }
    }

    /// Marks what came of a step, where that is shown at a node.
    fn mark(&mut self, item: &Item) -> io::Result<()>
        ensures { OnOk result (HasMarked self.old self.new (marks_of self.old.step (told_by item.now))) }
    {
        match item {
            Item::Sent { .. } => Ok(()),
            Item::Lost { to, .. } => self.mark_item(item, *to, Sign::Lost),
            Item::Learnt(entry) => self.mark_learnt(item, *entry),
            Item::Replied(entry) => self.mark_reply(item, entry.node, entry.reply),
            Item::Answered(entry) => self.mark_item(item, entry.node, Sign::Answered),
            Item::Restored(node, _) => self.mark_item(item, *node, Sign::Restored),
            Item::Refused(node, _) => self.mark_item(item, *node, Sign::Refused),
            Item::Stopped(node, _) => self.mark_item(item, *node, Sign::Stopped),
            Item::Round(node, _) => self.mark_item(item, *node, Sign::Other),
        }
    }

    /// Marks an item that has no note.
    fn mark_item(&mut self, item: &Item, node: NodeId, sign: Sign) -> io::Result<()>
        ensures { OnOk result (HasMarked self.old self.new (told_mark self.old.step node sign [] (told_by item.now))) }
    {
        let note = Vec::new(self.alloc);
        self.mark_noted(item, node, sign, note)
    }

    /// Marks what was learnt: the slot and the command are noted.
    fn mark_learnt(&mut self, item: &Item, entry: &LearntEntry) -> io::Result<()>
        ensures { OnOk result (HasMarked self.old self.new (told_mark self.old.step entry.now.node Sign.Learnt
            (decimal entry.now.slot ++ (codes " " ++ command_text entry.now.command)) (told_by item.now))) }
    {
        let slot = entry.slot.value();
        let mut note = Vec::new(self.alloc);
        write!(&mut note, "{slot} ")?;
        push_command(&mut note, entry.command.command())?;
        self.mark_noted(item, entry.node, Sign::Learnt, note)
    }

    /// Marks a reply: its number is noted.
    fn mark_reply(&mut self, item: &Item, node: NodeId, reply: SessionReply) -> io::Result<()>
        ensures { OnOk result (HasMarked self.old self.new (told_mark self.old.step node Sign.Replied
            (codes "reply " ++ decimal (outcome_code reply)) (told_by item.now))) }
    {
        let code = reply.code();
        let mut note = Vec::new(self.alloc);
        write!(&mut note, "reply {code}")?;
        self.mark_noted(item, node, Sign::Replied, note)
    }

    /// Marks an item with a note.
    fn mark_noted(&mut self, item: &Item, node: NodeId, sign: Sign, note: Vec<u8>) -> io::Result<()>
        ensures { OnOk result (HasMarked self.old self.new (told_mark self.old.step node sign note.items (told_by item.now))) }
    {
        let mut title = Vec::new(self.alloc);
        push_item(&mut title, item)?;
        self.push(node, sign, note, title)
    }

    /// The next step begins: what is done at it is marked.
    fn begin_step(&mut self, steps: &[Step], number: usize) -> io::Result<()>
        ensures step { OnOk result (self.new.step ≡ number) }
        ensures marks { OnOk result (map marking self.new.marks.items
            ≡ map marking self.old.marks.items ++ step_marks number (slice_get steps.now number)) }
    {
        self.step = number;
        match steps.get(number) {
            Some(step) => self.mark_deed(step.deed),
            None => Ok(()),
        }
    }

    /// Marks what is done to a node.
    fn mark_deed(&mut self, deed: Deed) -> io::Result<()>
        ensures { OnOk result (HasMarked self.old self.new (deed_marks self.old.step deed)) }
    {
        match deed {
            Deed::Submitted(node) => self.mark_done(node, Sign::Submitted, "a request comes"),
            Deed::TimedOut(node) => self.mark_done(node, Sign::TimedOut, "its patience ends"),
            Deed::Restarted(node) => self.mark_done(node, Sign::Restarted, "it restarts"),
            Deed::Delivered(_) | Deed::Dropped(_) | Deed::Other(_) => Ok(()),
            Deed::Flushed | Deed::Ended => Ok(()),
        }
    }

    /// Marks what is done to a node, as the words say.
    fn mark_done(&mut self, node: NodeId, sign: Sign, words: &str) -> io::Result<()>
        ensures { OnOk result (HasMarked self.old self.new (done_mark self.old.step node sign words.now)) }
    {
        let number = node.value();
        let mut title = Vec::new(self.alloc);
        write!(&mut title, "node {number}: {words}")?;
        let note = Vec::new(self.alloc);
        self.push(node, sign, note, title)
    }

    fn push(&mut self, node: NodeId, sign: Sign, note: Vec<u8>, title: Vec<u8>) -> io::Result<()>
        ensures { OnOk result (HasMarked self.old self.new (record {
          step = self.old.step;
          node = node;
          sign = sign;
          note = note.items;
          title = title.items;
        } ∷ [])) }
    {
        self.marks.push(Mark {
            step: self.step,
            node,
            sign,
            note,
            title,
        })?;
        Ok(())
    }
}
