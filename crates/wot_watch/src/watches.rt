//! All watches by name, at most 64, on the table of `wot_table`, which keeps cursors too.
//!
//! `wot_watch_commands` starts and removes them by the `watch` commands, and after each line goes through them and
//! records the amounts that it reports. `specs/Watches.antt` defines each change.
ghost use Rattle.std.specs.Prelude.{◌≡◌, [], is_some, OnOk, OnErr};
ghost use Rattle.std.specs.Option.{option_copied};
ghost use Rattle.std.specs.Iterator.{YieldsFirstBy, item_count};
ghost use Rattle.wot_table.specs.Table.{entry_at, with_entry, without_entry};
ghost use Rattle.wot_watch.specs.Watches.{is_full, with_told};
ghost use Rattle.wot_watch.specs.declared.watches.PutFault.TheVariants as faults;
ghost use Rattle.wot_watch.specs.Telling.{TellsFull};

use crate::watch::Watch;
use std::alloc::Global;
use std::collections::btree_map::Iter;
use std::marker::Model;
use wot_table::{Table, put};
use wot_types::{Memory, ViewName};

/// The limit on the number of watches.
const MOST: usize = 64;

/// Why a watch wasn't started.
#[derive(Clone, Copy)]
pub enum PutFault {
    /// The limit is reached, and no watch has this name.
    Full,
    /// Out of memory.
    Memory,
}

impl From<Memory> for PutFault {
    ghost from_gives = { λ _ e. e ≡ faults.Memory };

    fn from(_: Memory) -> PutFault {
        PutFault::Memory
    }
}

/// The watches by name.
#[derive(Drop)]
pub struct Watches {
    watches: Table<Watch>,
}

impl Model for Watches {
    ghost use Rattle.wot_watch.specs.Watches.{Watches as TheWatches};

    ghost Value = { TheWatches };

    ghost view = { λ a. a.watches.entries };
}

impl Watches {
    /// No watches.
    pub fn new(alloc: Global) -> Watches
        ensures none { result ≡ [] }
    {
        Watches {
            watches: Table::new(alloc),
        }
    }

    /// Starts or restarts a watch. On an error all watches are unchanged.
    pub fn put(&mut self, name: ViewName, watch: Watch) -> Result<(), PutFault>
        ensures full { TellsFull result (is_full self.old name) }
        ensures put { OnOk result (self.new ≡ with_entry self.old name watch) }
        ensures kept { OnErr result (self.new ≡ self.old) }
    {
        if put(&mut self.watches, MOST, name, watch)? {
            return Ok(());
        }
        Err(PutFault::Full)
    }

    /// The watch of a name. `None` if and only if there is none.
    pub fn get(&self, name: &ViewName) -> Option<&Watch>
        ensures found { option_copied result ≡ entry_at self.now name.now }
    {
        self.watches.get(name)
    }

    /// Records that this amount was reported for the watch. Returns whether the watch is there.
    pub fn tell(&mut self, name: &ViewName, amount: u32) -> bool
        ensures there { result ≡ is_some (entry_at self.old name.now) }
        ensures reported { self.new ≡ with_told self.old name.now amount }
    {
        match self.watches.get_mut(name) {
            Some(watch) => {
                watch.tell(amount);
                true
            }
            None => false,
        }
    }

    /// Removes a watch. Returns whether it was there.
    pub fn take(&mut self, name: &ViewName) -> bool
        ensures there { result ≡ is_some (entry_at self.old name.now) }
        ensures taken { self.new ≡ without_entry self.old name.now }
    {
        self.watches.remove(name).is_some()
    }

    /// The watches with their names, in the order of the names.
    pub fn iter(&self) -> WatchesIter<'_>
        ensures rest { result ≡ self.now }
    {
        WatchesIter {
            entries: self.watches.iter(),
        }
    }
}

/// An iterator over watches and their names, in the order of the names.
#[derive(Drop)]
pub struct WatchesIter<'a> {
    entries: Iter<'a, ViewName, Watch>,
}

impl<'a> Model for WatchesIter<'a> {
    ghost use Rattle.wot_watch.specs.Watches.{Watches as TheWatches};

    ghost Value = { TheWatches };

    ghost view = { λ iter. iter.entries };
}

impl<'a> Iterator for WatchesIter<'a> {
    type Item = (&'a ViewName, &'a Watch);

    ghost next_gives = { YieldsFirstBy (λ e. (e.0.now, e.1.now)) (λ rest. rest) };

    ghost remaining = { item_count (λ rest. rest) };

    fn next(&mut self) -> Option<(&'a ViewName, &'a Watch)> {
        self.entries.next()
    }
}
