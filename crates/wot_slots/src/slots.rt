//! A value for each signature number: most in a row of slots, others in a tree.
//!
//! It uses `row`, `near`, `above`, `moving` and std's map. Whoever chooses numbers can't make a lookup
//! slow: it reads eight slots, and if the number isn't there, the tree. Whoever looks numbers up in the order in which
//! they came can begin each lookup after the entry of the last one, and then mostly reads one entry.
ghost use Rattle.std.specs.Prelude.{◌≡◌, true, None, Some, is_some, OnOk, OnErr};
ghost use Rattle.wot_types.specs.declared.number.SigNumber.{SigNumber as TheNumber};
ghost use Rattle.wot_slots.specs.Above.{IsNextEntry};
ghost use Rattle.wot_slots.specs.Near.{held_of, HoldsSame, Puts};

use crate::above::next_number;
use crate::moving::longer;
use crate::near::{forget_near, keep_near, near_at, near_from, replace_near};
use crate::row::Row;
use std::alloc::Global;
use std::collections::BTreeMap;
use wot_types::{Memory, SigNumber};

/// The least number of slots.
const LEAST: usize = 64;

/// A value for each number.
#[derive(Drop)]
pub struct Slots<T> {
    /// Most values.
    pub near: Row<T>,
    /// The values that aren't in a slot.
    pub rest: BTreeMap<SigNumber, T, Global>,
    /// How many numbers have a value.
    pub count: usize,
    /// The row gets longer once it has this many entries.
    pub until: usize,
    pub alloc: Global,
}

impl<T: Copy> Slots<T> {
    /// No values. Doesn't allocate.
    pub fn new(alloc: Global) -> Slots<T>
        ensures empty { (n : TheNumber) → held_of result n ≡ None }
    {
        let near = Row::new(alloc);
        let rest = BTreeMap::new(alloc);
        Slots {
            near,
            rest,
            count: 0,
            until: 0,
            alloc,
        }
    }

    /// The value of a number.
    pub fn get(&self, number: &SigNumber) -> Option<T>
        ensures held { result ≡ held_of self.now number.now }
    {
        match near_at(&self.near, number) {
            Some(value) => Some(value),
            None => self.rest.get(number).copied(),
        }
    }

    /// The value of a number, and where to look first for the next one: after the number's entry, or at `from` if it
    /// has none. It looks at the entry at `from` first. So lookups in the order in which values were put read one entry
    /// each. Any place gives the same value.
    pub fn get_from(&self, number: &SigNumber, from: usize) -> (Option<T>, usize)
        ensures held { result.0 ≡ held_of self.now number.now }
    {
        match near_from(&self.near, number, from) {
            Some((value, next)) => (Some(value), next),
            None => (self.rest.get(number).copied(), from),
        }
    }

    /// The least number above the last one, with its value, or the least number of all if there is no last one. Doesn't
    /// allocate.
    pub fn next_above(&self, last: Option<SigNumber>) -> Option<(SigNumber, T)>
        ensures next { IsNextEntry (held_of self.now) last result }
    {
        let Some(number) = next_number(&self.near, &self.rest, last) else {
            return None;
        };
        match self.get(&number) {
            Some(value) => Some((number, value)),
            None => None,
        }
    }

    /// Keeps a value for a number that has none. On `Memory` each number has what it had.
    pub fn put(&mut self, number: SigNumber, value: T) -> Result<(), Memory>
        requires absent { held_of self.old number ≡ None }
        ensures put { OnOk result (Puts number (Some value) self.old self.new) }
        ensures kept { OnErr result (HoldsSame self.old self.new) }
    {
        self.make_room();
        self.hold(number, value)?;
        self.count = self.count.saturating_add(1);
        Ok(())
    }

    /// Keeps a value for a number, in place of an earlier one. Replacing one doesn't allocate. On `Memory` each number
    /// has what it had.
    pub fn set(&mut self, number: SigNumber, value: T) -> Result<(), Memory>
        ensures put { OnOk result (Puts number (Some value) self.old self.new) }
        ensures kept { OnErr result (HoldsSame self.old self.new) }
        ensures was_absent { OnErr result (held_of self.old number ≡ None) }
    {
        let Some(_) = self.get(&number) else {
            return self.put(number, value);
        };
        self.replace(number, value);
        Ok(())
    }

    /// Replaces the value of a number that has one. Doesn't allocate.
    pub fn replace(&mut self, number: SigNumber, value: T)
        requires there { is_some (held_of self.old number) ≡ true }
        ensures put { Puts number (Some value) self.old self.new }
    {
        if replace_near(&mut self.near, number, value) {
            return;
        }
        match self.rest.insert(number, value) {
            Ok(_) => (),
            Err(_) => (),
        }
    }

    /// Removes a number. Doesn't allocate.
    pub fn forget(&mut self, number: &SigNumber)
        ensures forgotten { Puts number.now None self.old self.new }
    {
        let weight = usize::from(self.get(number).is_some());
        forget_near(&mut self.near, number);
        let _ = self.rest.remove(number);
        self.count = self.count.saturating_sub(weight);
    }

    /// Keeps a value in a slot, or else in the tree.
    fn hold(&mut self, number: SigNumber, value: T) -> Result<(), Memory>
        requires absent { held_of self.old number ≡ None }
        ensures put { OnOk result (Puts number (Some value) self.old self.new) }
        ensures kept { OnErr result (HoldsSame self.old self.new) }
    {
        if keep_near(&mut self.near, number, value) {
            return Ok(());
        }
        match self.rest.insert(number, value) {
            Ok(_) => Ok(()),
            Err(_) => Err(Memory),
        }
    }

    /// Makes a new row with eight slots for each value once a quarter of the slots would be taken. Entries of numbers
    /// that were removed count too, and the new row is without them. Without memory the row stays as it is until there
    /// are half as many entries more.
    fn make_room(&mut self)
        ensures same { HoldsSame self.old self.new }
    {
        let entries = self.near.entries_len();
        if entries < self.until {
            return;
        }
        self.until = entries.saturating_add(entries / 2);
        let wanted = LEAST.max(self.count.saturating_mul(8));
        if let Some(made) = longer(self.alloc, &self.near, &mut self.rest, wanted) {
            self.near = made;
            self.until = wanted / 4;
        }
    }
}
