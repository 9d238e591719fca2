//! Values by slot.

ghost use Rattle.std.specs.Prelude.{◌≡◌, ◌≤◌, ◌<◌, ◌+◌, ℕ, length, slice_get, vec_len, vec_capacity, Some, None, IfOk, OnOk, OnErr, MatchOption};
ghost use Rattle.std.specs.Option.{option_copied};
ghost use Rattle.std.specs.BTreeMap.{get};
ghost use Rattle.std.specs.Ordering.{nat_cmp};
ghost use Rattle.synod.specs.Records.{put};
ghost use Rattle.slot_table.specs.Places.{AreEmptyTo, RowIsApart};

use std::alloc::{AllocError, Global};
use std::collections::BTreeMap;
use synod::{SLOTS, Slot};

// A value less than so many slots behind the row makes it longer: each value adds at most as many places to it.
const REACH: usize = 64;

/// Values by slot: at each slot at most one.
///
/// What stands at the slots from one on is found by its place: from the first at which something is put, where nothing stood
/// so far. What stands below that slot, or far behind the others, is searched for, in a number of steps that grows with the
/// logarithm of the values.
pub struct SlotTable<V> {
    // The slot at which the row begins.
    from: u32,
    // What stands at that slot, at the next and so on.
    row: Vec<Option<V>>,
    // What stands at all other slots.
    others: BTreeMap<Slot, V>,
    // The places of the row before this one hold nothing, and are looked at no more.
    empty: usize,
    ghost vacant: { AreEmptyTo empty row.items },
    ghost apart: { RowIsApart from row.items others },
}

// By hand, so that a crate that drops one proves nothing of what lies within.
impl<V: Drop> Drop for SlotTable<V> {
    fn drop(self) {
        let SlotTable {
            from: _,
            row,
            others,
            empty: _,
        } = self;
        drop(row);
        drop(others);
    }
}

impl<V: Drop> SlotTable<V> {
    ghost use Rattle.slot_table.specs.Values.{row_from, value_at, without_below, IsEmptyFrom, IsFirstFrom, IsFirstBelow, IsEmptyBetween};

    /// Nothing stands at any slot, and no memory is taken.
    pub fn new(alloc: Global) -> SlotTable<V>
        ensures empty { value_at result ≡ (λ _. None) }
        ensures capacity { vec_capacity result.row ≡ 0 }
    {
        SlotTable {
            from: 0,
            row: Vec::new(alloc),
            others: BTreeMap::new(alloc),
            empty: 0,
        }
    }

    /// The same, with room for so many values at slots in turn: none of these wants memory.
    pub fn with_room(alloc: Global, count: usize) -> Result<SlotTable<V>, AllocError>
        ensures empty { IfOk result (λ table. value_at table ≡ (λ _. None)) }
        ensures room { IfOk result (λ table. vec_capacity table.row ≡ count) }
    {
        let row = Vec::with_capacity(alloc, count)?;
        Ok(SlotTable {
            from: 0,
            row,
            others: BTreeMap::new(alloc),
            empty: 0,
        })
    }

    /// The value at a slot.
    #[inline]
    pub fn get(&self, slot: Slot) -> Option<&V>
        ensures { option_copied result ≡ value_at self.now slot }
    {
        match self.row.get(self.place(slot)) {
            Some(place) => place.as_ref(),
            None => self.others.get(&slot),
        }
    }

    // Where a slot lies in the row. For one that isn't of the row, a place behind its end.
    #[inline]
    fn place(&self, slot: Slot) -> usize
        ensures within { result < length self.now.row.items → slot ≡ self.now.from + result }
        ensures reads { slice_get self.now.row.items result ≡ row_from self.now.from self.now.row.items slot }
    {
        if slot.value() < self.from {
            return usize::MAX;
        }
        (slot.value() - self.from) as usize
    }

    // The first slot behind the row.
    #[inline]
    fn end(&self) -> usize
        ensures { result ≡ self.now.from + length self.now.row.items }
    {
        self.from as usize + self.row.len()
    }

    /// Of the slots from this one on the first at which a value stands, and the value.
    #[inline]
    pub fn first_from(&self, from: Slot) -> Option<(Slot, &V)>
        ensures { MatchOption result (IsEmptyFrom (value_at self.now) from)
            (λ found. IsFirstFrom (value_at self.now) from found.0 found.1.now) }
    {
        if let Some(found) = self.first_before(from) {
            return Some(found);
        }
        let filled = self.from as usize + self.empty;
        for next in filled.max(from.value() as usize)..SLOTS as usize {
            let slot = Slot::new(next as u32).unwrap();
            match self.row.get(self.place(slot)) {
                Some(Some(found)) => return Some((slot, found)),
                Some(None) => {}
                None => return self.first_other(slot),
            }
        }
        None
    }

    // The first from a slot on, where it lies before the row.
    fn first_before(&self, from: Slot) -> Option<(Slot, &V)>
        ensures { MatchOption result (IsEmptyBetween (value_at self.now) from self.now.from)
            (λ found. IsFirstFrom (value_at self.now) from found.0 found.1.now) }
    {
        if from.value() >= self.from {
            return None;
        }
        match self.first_other(from) {
            Some((slot, found)) if slot.value() < self.from => Some((slot, found)),
            _ => None,
        }
    }

    // The first of what is searched for, from a slot on.
    fn first_other(&self, from: Slot) -> Option<(Slot, &V)>
        ensures { MatchOption result (IsEmptyFrom (get nat_cmp self.now.others) from)
            (λ found. IsFirstFrom (get nat_cmp self.now.others) from found.0 found.1.now) }
    {
        match self.others.range(from..).next() {
            Some((slot, found)) => Some((*slot, found)),
            None => None,
        }
    }

    /// Makes a value stand at a slot, and hands out what stood there. Where something does, no memory is wanted.
    // A value may be large, and is put together where it is to lie only if what mostly comes is put in place.
    #[inline(always)]
    pub fn insert(&mut self, slot: Slot, value: V) -> Result<Option<V>, AllocError>
        ensures before { IfOk result (λ before. before ≡ value_at self.old slot) }
        ensures stands { OnOk result (value_at self.new ≡ put (value_at self.old) slot (Some value)) }
        ensures absent { OnErr result (value_at self.old slot ≡ None) }
        ensures unchanged { OnErr result (value_at self.new ≡ value_at self.old) }

        // Memory is wanted only for a slot that isn't of the row, and little of it goes to the row.
        ensures behind { OnErr result (row_from self.new.from self.new.row.items slot ≡ None) }
        ensures row { length self.new.row.items ≤ length self.old.row.items + 64 }
    {
        // Slots come nearly in turn, so the next of the row is what mostly comes.
        if slot.value() as usize == self.end() && self.row.len() < self.row.capacity() {
            return Ok(self.lay(slot, value));
        }
        self.lengthen(slot);
        let place = self.place(slot);
        self.empty = self.empty.min(place);
        match self.row.get_mut(place) {
            Some(place) => Ok(place.replace(value)),
            None => Ok(self.others.insert(slot, value)?),
        }
    }

    /// Nothing stands at a slot any more. What stood there is handed out.
    pub fn remove(&mut self, slot: Slot) -> Option<V>
        ensures before { result ≡ value_at self.old slot }
        ensures gone { value_at self.new ≡ put (value_at self.old) slot None }
    {
        let place = self.place(slot);
        match self.row.get_mut(place) {
            Some(place) => place.take(),
            None => self.others.remove(&slot),
        }
    }

    /// Nothing stands at a slot below this one any more. No memory is wanted. All calls together look at each value that they take
    /// out, and at each place of the row, once.
    pub fn remove_below(&mut self, below: u32)
        ensures gone { value_at self.new ≡ without_below (value_at self.old) below }
    {
        let mut next = 0;
        while let Some(slot) = self.first_below(next, below) {
            let _ = self.remove(slot);
            next = slot.value() + 1;
        }
        self.pass_over(below);
    }

    // Nothing stands below a slot: the places of the row up to there are looked at no more. If it has no others, it begins anew.
    fn pass_over(&mut self, below: u32)
        requires { (s : ℕ) → s < below → value_at self.old s ≡ None }
        ensures { value_at self.new ≡ value_at self.old }
    {
        let places = below.min(SLOTS).saturating_sub(self.from) as usize;
        self.empty = self.empty.max(self.row.len().min(places));
        if self.empty == self.row.len() {
            self.empty = 0;
            self.row.clear();
        }
    }

    // Of the slots from one on, and below another, the first at which a value stands.
    fn first_below(&self, from: u32, below: u32) -> Option<Slot>
        ensures { MatchOption result (IsEmptyBetween (value_at self.now) from below)
            (IsFirstBelow (value_at self.now) from below) }
    {
        match self.first_from(Slot::new(from)?) {
            Some((slot, _)) if slot.value() < below => Some(slot),
            _ => None,
        }
    }

    // A value goes to the end of the row, which has room for it, and what stood at its slot is handed out.
    #[inline(always)]
    fn lay(&mut self, slot: Slot, value: V) -> Option<V>
        requires next { slot ≡ self.old.from + vec_len self.old.row }
        requires room { vec_len self.old.row < vec_capacity self.old.row }
        ensures before { result ≡ value_at self.old slot }
        ensures stands { value_at self.new ≡ put (value_at self.old) slot (Some value) }
        ensures row { length self.new.row.items ≤ length self.old.row.items + 64 }
    {
        let before = self.others.remove(&slot);
        let _ = self.row.push(Some(value));
        before
    }

    // Where a slot isn't far behind the row, the row goes on up to it, as far as memory serves.
    #[inline(never)]
    fn lengthen(&mut self, slot: Slot)
        ensures same { value_at self.new ≡ value_at self.old }
        ensures row { length self.new.row.items ≤ length self.old.row.items + 64 }
    {
        self.begin(slot);
        let last = slot.value() as usize;
        let end = self.end();
        if last.saturating_sub(end) >= REACH {
            return;
        }
        for next in end..last + 1 {
            self.join(Slot::new(next as u32).unwrap());
        }
    }

    // A row without a place is to begin at this slot.
    fn begin(&mut self, slot: Slot)
        ensures same { value_at self.new ≡ value_at self.old }
        ensures row { self.new.row.items ≡ self.old.row.items }
    {
        if self.row.is_empty() {
            self.from = slot.value();
        }
    }

    // Where the slot is the next of the row, it joins it, unless memory is wanting.
    fn join(&mut self, next: Slot)
        ensures same { value_at self.new ≡ value_at self.old }
        ensures row { length self.new.row.items ≤ length self.old.row.items + 1 }
    {
        if next.value() as usize != self.end() {
            return;
        }
        if let Err(_) = self.row.try_reserve(1) {
            return;
        }
        let found = self.others.remove(&next);
        let _ = self.row.push(found);
    }
}
