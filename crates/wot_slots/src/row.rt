//! A row of slots: each slot has the place of its entry, and the entries stand in the order in which they came.
//!
//! It uses std's `Vec` and `specs/{Live,Row}.antt`. Whoever asks for values in the order in which they were
//! put, as for the signatures of one certificate, reads memory from its beginning to its end, and needs no slots for
//! it: an entry that is there is what a lookup of its number finds. A slot takes four octets, so a row can have many
//! empty ones.
ghost use Rattle.std.specs.Prelude.{◌≡◌, ◌<◌, [], ℕ, length, true, is_some, None, Some, IfOk, MatchBool};
ghost use Rattle.std.specs.List.{slice_index_or};
ghost use Rattle.std.specs.Option.{option_copied, IfSome};
ghost use Rattle.wot_slots.specs.Live.{AreFound};
ghost use Rattle.wot_slots.specs.Found.{held_for, near_in, DiffersAt, IsSlotOf};
ghost use Rattle.wot_slots.specs.Row.{HasEntries};

use std::alloc::Global;
use std::marker::Model;
use wot_types::{Memory, SigNumber};

/// The place of no entry, and the largest number of entries.
const NOWHERE: u32 = 4_294_967_295;

/// A row of slots. A slot has a number with its value, or nothing.
#[derive(Drop)]
pub struct Row<T> {
    /// For each slot the place of its entry. An empty slot has a place at which there is no entry (`NOWHERE`).
    places: Vec<u32>,
    /// Numbers with their values, in the order in which they came, each number once. The place of one whose slot was
    /// emptied has nothing until the next longer row is made.
    entries: Vec<Option<(SigNumber, T)>>,
}

impl<T> Model for Row<T> {
    ghost use Rattle.wot_slots.specs.Live.{IsKeptBy};
    ghost use Rattle.wot_slots.specs.Row.{slots_by, RowOf};

    ghost Value = { RowOf T };

    ghost view = { λ r. record { items = slots_by r.places.items r.entries.items; came = r.entries.items } };

    ghost invariant = { λ r. IsKeptBy r.places.items r.entries.items };
}

impl<T: Copy> Row<T> {
    /// No slots. Doesn't allocate.
    pub(crate) fn new(alloc: Global) -> Row<T>
        ensures none { result.items ≡ [] }
    {
        Row {
            places: Vec::new(alloc),
            entries: Vec::new(alloc),
        }
    }

    /// This many empty slots.
    pub(crate) fn vacant(alloc: Global, count: usize) -> Result<Row<T>, Memory>
        ensures vacant { IfOk result (λ made. (i : ℕ) → slice_index_or made.items i None ≡ None) }
        ensures count { IfOk result (λ made. length made.items ≡ count) }
    {
        let mut places = Vec::new(alloc);
        places.resize(count, NOWHERE)?;
        let entries = Vec::new(alloc);
        Ok(Row { places, entries })
    }

    /// How many slots there are.
    pub(crate) fn len(&self) -> usize
        ensures { result ≡ length self.now.items }
    {
        self.places.len()
    }

    /// How many entries there are, with those whose slots were emptied.
    pub(crate) fn entries_len(&self) -> usize
        ensures { result ≡ length self.now.came }
    {
        self.entries.len()
    }

    /// The slot at this place.
    pub(crate) fn slot(&self, at: usize) -> Option<&(SigNumber, T)>
        requires within { at < length self.now.items }
        ensures slot { option_copied result ≡ slice_index_or self.now.items at None }
    {
        entry_in(&self.entries, self.places[at] as usize)
    }

    /// The entry at this place, if there is one.
    pub(crate) fn entry(&self, at: usize) -> Option<&(SigNumber, T)>
        ensures entry { option_copied result ≡ slice_index_or self.now.came at None }
    {
        entry_in(&self.entries, at)
    }

    /// The place after the entry of this slot.
    pub(crate) fn place_after(&self, at: usize) -> usize
        requires within { at < length self.now.items }
    {
        (self.places[at] as usize).saturating_add(1)
    }

    /// Fills an empty slot of a number with a new entry. Returns whether it could: without memory or a place for it
    /// nothing changes.
    pub(crate) fn fill(&mut self, at: usize, number: SigNumber, value: T) -> bool
        requires here { IsSlotOf number at self.old.items }
        requires vacant { slice_index_or self.old.items at None ≡ None }
        requires absent { near_in self.old.items number ≡ None }
        ensures filled { MatchBool result (DiffersAt number (Some value) self.old.items self.new.items)
            (self.new.items ≡ self.old.items) }
    {
        let count = self.entries.len();
        if count >= NOWHERE as usize {
            return false;
        }
        match self.entries.push(Some((number, value))) {
            Ok(()) => {
                self.places[at] = count as u32;
                true
            }
            Err(_) => false,
        }
    }

    /// Sets the value in the slot of a number. Doesn't allocate.
    pub(crate) fn replace(&mut self, at: usize, number: SigNumber, value: T)
        requires within { at < length self.old.items }
        requires held { is_some (held_for number (slice_index_or self.old.items at None)) ≡ true }
        ensures replaced { DiffersAt number (Some value) self.old.items self.new.items }
    {
        let place = self.places[at] as usize;
        self.entries[place] = Some((number, value));
    }

    /// Empties a slot, and with it the entry. Doesn't allocate.
    pub(crate) fn empty(&mut self, at: usize)
        requires within { at < length self.old.items }
        requires there { is_some (slice_index_or self.old.items at None) ≡ true }
        ensures emptied { IfSome (slice_index_or self.old.items at None)
            (λ e. DiffersAt e.0 None self.old.items self.new.items) }
    {
        let place = self.places[at] as usize;
        self.entries[place] = None;
        self.places[at] = NOWHERE;
    }

    /// A law: what a slot has is one of the entries.
    pub(crate) fn slots_are_entries(&self)
        ensures entries { HasEntries self.now.items self.now.came }
    {
        let _ = &self.entries;
    }

    /// A law: what an entry has for a number is what the slots have for it.
    pub(crate) fn entries_are_found(&self)
        ensures found { AreFound self.now.items self.now.came }
    {
        let _ = &self.entries;
    }
}

/// The entry at this place, if there is one.
fn entry_in<T>(entries: &[Option<(SigNumber, T)>], at: usize) -> Option<&(SigNumber, T)>
    ensures entry { option_copied result ≡ slice_index_or entries.now at None }
{
    match entries.get(at) {
        Some(Some(entry)) => Some(entry),
        _ => None,
    }
}
