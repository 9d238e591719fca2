//! The index.

ghost use Rattle.std.specs.Prelude.{◌≡◌, ◌<◌, [], length, slice_get, slice_set, Some, IsTrue, IfOk, IfErr, OnOk, OnErr, IsOk};
ghost use Rattle.std.specs.List.{remove};
ghost use Rattle.timeindex.specs.Ascending.{ElementIsAt, IsElementGap};
ghost use Rattle.timeindex.specs.Entries.{Entry, IsSet, overlaps, id_of, is_known, with_entry, without_entry, ids_overlapping};

use crate::entry::Entry;
use std::alloc::{AllocError, Global};
use std::marker::Model;
use tpoint::{Id, Instant, Period};

/// A set of entries, at most one for an id.
///
/// They are kept in the byte order of their ids, so one is found by a binary search, and the ids of
/// a part of them need no sorting.
#[derive(Drop)]
pub struct TimeIndex {
    entries: Vec<Entry>,
}

impl Model for TimeIndex {
    ghost use Rattle.std.specs.Prelude.{List};
    ghost use Rattle.timeindex.specs.Entries.{Entry, IsSet};

    ghost Value = { List Entry };

    ghost view = { λ index. index.entries.items };

    ghost invariant = { λ index. IsSet index.entries.items };
}

impl TimeIndex {
    /// The set without entries.
    pub fn new(alloc: Global) -> TimeIndex
        ensures { result ≡ [] }
    {
        TimeIndex {
            entries: Vec::new(alloc),
        }
    }

    /// Adds an entry, or puts it in the place of the one with its id, which takes no memory and
    /// succeeds. Where a growth was refused the set is as it was.
    pub fn insert(&mut self, id: Id, first: Instant, last: Instant) -> Result<(), AllocError>
        ensures value { OnOk result
            (self.new ≡ with_entry self.old (record { id = id; first = first; last = last })) }
        ensures known { IsTrue (is_known self.old id) → IsOk result }
        ensures err { OnErr result (self.new ≡ self.old) }
        ensures set { IsSet self.new }
    {
        match self.place(&id) {
            Ok(at) => self.entries[at].replace(first, last),
            Err(at) => self.insert_at(at, id, first, last)?,
        }
        Ok(())
    }

    /// Adds the entry of an id that has none, at the place where it goes in the byte order of ids. Where a growth was refused the set
    /// is as it was.
    pub fn insert_at(
        &mut self,
        place: usize,
        id: Id,
        first: Instant,
        last: Instant,
    ) -> Result<(), AllocError>
        requires { IsElementGap id_of self.old id place }
        ensures value { OnOk result
            (self.new ≡ with_entry self.old (record { id = id; first = first; last = last })) }
        ensures err { OnErr result (self.new ≡ self.old) }
        ensures set { IsSet self.new }
    {
        let entry = Entry::new(*self.entries.allocator(), id, first, last)?;
        self.entries.insert(place, entry)?;
        Ok(())
    }

    /// Puts another first and last instant into the entry at a place, in the byte order of ids. It
    /// takes no memory.
    pub fn replace(&mut self, place: usize, first: Instant, last: Instant)
        requires { place < length self.old }
        ensures value { (e : Entry) → slice_get self.old place ≡ Some e
            → self.new ≡ slice_set self.old place (record e { first = first; last = last }) }
        ensures set { IsSet self.new }
    {
        self.entries[place].replace(first, last);
    }

    /// Takes out the entry of an id, and tells whether there was one.
    pub fn remove(&mut self, id: &Id) -> bool
        ensures told { result ≡ is_known self.old id.now }
        ensures value { self.new ≡ without_entry self.old id.now }
        ensures set { IsSet self.new }
    {
        let Ok(at) = self.place(id) else {
            return false;
        };
        self.entries.remove(at);
        true
    }

    /// Takes out the entry at a place, in the byte order of ids.
    pub fn remove_at(&mut self, place: usize)
        requires { place < length self.old }
        ensures value { self.new ≡ remove self.old place }
        ensures set { IsSet self.new }
    {
        self.entries.remove(place);
    }

    /// Whether the entry at a place, in the byte order of ids, has an instant in the period.
    pub fn overlaps(&self, place: usize, period: &Period) -> bool
        requires { place < length self.now }
        ensures { (e : Entry) → slice_get self.now place ≡ Some e → result ≡ overlaps period.now e }
    {
        self.entries[place].overlaps(period)
    }

    /// The ids of the entries that have an instant in the period, in byte order. Only where there is one is memory taken.
    pub fn overlapping(&self, alloc: Global, period: &Period) -> Result<Vec<Id>, AllocError>
        ensures value { IfOk result (λ ids. ids.items ≡ ids_overlapping self.now period.now) }
        ensures none { ids_overlapping self.now period.now ≡ [] → IsOk result }
    {
        let mut ids = Vec::new(alloc);
        for entry in &self.entries {
            if entry.overlaps(period) {
                ids.push(entry.id())?;
            }
        }
        Ok(ids)
    }

    /// The place of the entry with the id, or the place where it would go.
    fn place(&self, id: &Id) -> Result<usize, usize>
        ensures found { IfOk result (ElementIsAt id_of self.now id.now) }
        ensures absent { IfErr result (IsElementGap id_of self.now id.now) }
    {
        self.entries.binary_search_by_key(id, |entry| entry.id())
    }
}
