//! A certificate directory in memory, with calls that fail on demand. It is for tests, and shows what `Shelf` promises:
//! its contracts say exactly what each call does.
//!
//! It uses `specs/World.antt` and `specs/Memory.antt`.
ghost use Rattle.std.specs.Prelude.{◌≡◌, ◌≤◌, [], Some, IfOk, IfErr, IfSome, OnOk, OnErr, IsErrOf};
ghost use Rattle.std.specs.Option.{option_copied};
ghost use Rattle.wot_io.specs.Counts.{Rose, next_count};
ghost use Rattle.wot_certd.specs.World.{is_one_of, called, fails_next, entry_at, with_entry};
ghost use Rattle.wot_certd.specs.World.{entry_answer, read_answer};
ghost use Rattle.wot_certd.specs.Shelf.{FitsEntry, IsReadAs, ReadReturns, ReplaceReturns, Becomes, Replaces};
ghost use Rattle.wot_certd.specs.Memory.{entered, faulted};

use crate::shelf::LONGEST;
use crate::{Given, Shelf, ShelfFault};
use std::alloc::Global;
use std::collections::BTreeMap;
use std::marker::Model;
use wot_types::{Memory, Name};

/// The octets of an entry.
#[derive(Drop)]
struct Entry {
    octets: Vec<u8>,
}

impl Model for Entry {
    ghost use Rattle.std.specs.Prelude.{List, ℕ};

    ghost Value = { List ℕ };

    ghost view = { λ a. a.octets.items };
}

type Entries = BTreeMap<Name, Entry, Global>;

/// The octets under a name.
fn find<'a>(entries: &'a Entries, name: &Name) -> Option<&'a Entry>
    ensures found { option_copied result ≡ entry_at entries.now.entries name.now }
{
    entries.get(name)
}

/// Puts an entry under its name.
fn put(entries: &mut Entries, name: Name, octets: Vec<u8>) -> Result<(), Memory>
    ensures put { OnOk result (entries.new.entries ≡ with_entry entries.old.entries name octets.items) }
    ensures kept { OnErr result (entries.new.entries ≡ entries.old.entries) }
{
    entries.insert(name, Entry { octets })?;
    Ok(())
}

/// A copy of an entry's octets, unless they are too many.
fn copy_of(alloc: Global, octets: &[u8]) -> Result<Given, Memory>
    ensures gives { IfOk result (λ given. IsReadAs given (entry_answer (Some octets.now))) }
    ensures within { IfOk result (λ given. FitsEntry given) }
{
    if octets.len() > LONGEST {
        return Ok(Given::Long);
    }
    Ok(Given::Bytes(Vec::from_slice(alloc, octets)?))
}

/// A certificate directory in memory.
#[derive(Drop)]
pub struct MemoryShelf {
    alloc: Global,
    entries: Entries,
    calls: u64,
    fails: Vec<u64>,
    late: Vec<u64>,
    faults: u64,
}

impl Model for MemoryShelf {
    ghost use Rattle.wot_certd.specs.Memory.{ShelfMemory};

    ghost Value = { ShelfMemory };

    ghost view = { λ a. record {
      world = record {
        entries = a.entries.entries;
        calls = a.calls;
        fails = a.fails.items;
        late = a.late.items;
      };
      faults = a.faults;
    } };
}

impl MemoryShelf {
    /// An empty directory. The calls whose numbers, counted from 1, are in `fails` fail. A replace whose number is in
    /// `late` too stores its octets although it fails.
    pub fn new(alloc: Global, fails: Vec<u64>, late: Vec<u64>) -> MemoryShelf
        ensures { result ≡ record {
          world = record { entries = []; calls = 0; fails = fails.items; late = late.items };
          faults = 0;
        } }
    {
        MemoryShelf {
            alloc,
            entries: BTreeMap::new(alloc),
            calls: 0,
            fails,
            late,
            faults: 0,
        }
    }

    /// Sets an entry without counting a call. After `Memory` nothing changed.
    pub fn put(&mut self, name: Name, bytes: Vec<u8>) -> Result<(), Memory>
        ensures set { OnOk result (self.new ≡ entered self.old name bytes.items) }
        ensures kept { OnErr result (self.new ≡ self.old) }
    {
        put(&mut self.entries, name, bytes)
    }

    /// Counts a call, and returns whether it fails.
    fn call(&mut self) -> bool
        ensures fails { result ≡ fails_next self.old.world }
        ensures called { self.new ≡ record self.old { world = called self.old.world } }
    {
        self.calls = self.calls.saturating_add(1);
        self.fails.contains(&self.calls)
    }

    /// Whether the last counted call stores its octets although it fails.
    fn is_late(&self) -> bool
        ensures { result ≡ is_one_of self.now.world.late self.now.world.calls }
    {
        self.late.contains(&self.calls)
    }

    /// Counts a fault, and returns it.
    fn fault(&mut self) -> ShelfFault
        ensures reported { result ≡ ShelfFault.Failed }
        ensures counted { self.new ≡ faulted self.old }
        ensures later { self.old.faults ≤ self.new.faults }
    {
        self.faults = self.faults.saturating_add(1);
        ShelfFault::Failed
    }

    /// Reads the entry under a name.
    fn give(&self, name: &Name) -> Result<Given, ShelfFault>
        ensures gives { IfOk result (λ given.
            IsReadAs given (entry_answer (entry_at self.now.world.entries name.now))) }
        ensures within { IfOk result (λ given. FitsEntry given) }
        ensures wanting { IfErr result (λ fault. fault ≡ ShelfFault.Memory) }
    {
        let Some(entry) = find(&self.entries, name) else {
            return Ok(Given::Absent);
        };
        match copy_of(self.alloc, &entry.octets) {
            Ok(given) => Ok(given),
            Err(_) => Err(ShelfFault::Memory),
        }
    }

    /// Stores a copy of these octets under a name.
    fn put_copy(&mut self, name: &Name, bytes: &[u8]) -> Result<(), Memory>
        ensures set { OnOk result (self.new ≡ entered self.old name.now bytes.now) }
        ensures kept { OnErr result (self.new ≡ self.old) }
    {
        let copy = Vec::from_slice(self.alloc, bytes)?;
        self.put(*name, copy)
    }
}

impl Shelf for MemoryShelf {
    ghost world = { λ s. Some s.world };

    ghost faults = { λ s. s.faults };

    fn read(&mut self, name: &Name) -> Result<Given, ShelfFault>
        ensures within { IfOk result (λ given. FitsEntry given) }
        ensures answers { IfSome (Some self.old.world) (λ old. ReadReturns result (read_answer old name.now)) }
        ensures after { Becomes (Some self.old.world) called (Some self.new.world) }
        ensures later { self.old.faults ≤ self.new.faults }
        ensures cause { IsErrOf result ShelfFault.Failed → Rose self.old.faults self.new.faults }

        // The trait leaves this open: the count rises in these calls only.
        ensures counted { IsErrOf result ShelfFault.Failed → self.new.faults ≡ next_count self.old.faults }
        ensures given { OnOk result (self.new.faults ≡ self.old.faults) }
        ensures wanting { IsErrOf result ShelfFault.Memory → self.new.faults ≡ self.old.faults }
    {
        if self.call() {
            Err(self.fault())
        } else {
            self.give(name)
        }
    }

    fn replace(&mut self, name: &Name, bytes: &[u8]) -> Result<(), ShelfFault>
        ensures answers { IfSome (Some self.old.world) (λ old. ReplaceReturns result (fails_next old)) }
        ensures after { Replaces (Some self.old.world) name.now bytes.now result (Some self.new.world) }
        ensures later { self.old.faults ≤ self.new.faults }
        ensures cause { IsErrOf result ShelfFault.Failed → Rose self.old.faults self.new.faults }

        // The trait leaves this open: the count rises in these calls only, and out of memory changes no entry.
        ensures counted { IsErrOf result ShelfFault.Failed → self.new.faults ≡ next_count self.old.faults }
        ensures done { OnOk result (self.new.faults ≡ self.old.faults) }
        ensures wanting { IsErrOf result ShelfFault.Memory
            → self.new ≡ record self.old { world = called self.old.world } }
    {
        let fails = self.call();
        if fails && !self.is_late() {
            return Err(self.fault());
        }
        if self.put_copy(name, bytes).is_err() {
            return Err(ShelfFault::Memory);
        }
        if fails {
            return Err(self.fault());
        }
        Ok(())
    }
}
