//! All cursors by name, and the limit on their number. It uses the table that wot_watch keeps watches in too, and
//! adds what a cursor remembers.
ghost use Rattle.std.specs.Prelude.{◌≡◌, [], Err, true, is_some, OnOk, OnErr};
ghost use Rattle.std.specs.Option.{option_copied};
ghost use Rattle.wot_table.specs.Table.{entry_at, with_entry, without_entry};
ghost use Rattle.wot_cursor.specs.Cursors.{begun, is_full, with_place};
ghost use Rattle.wot_cursor.specs.declared.cursors.BeginFault.TheVariants as faults;
ghost use Rattle.wot_cursor.specs.Telling.{TellsFull};

use crate::cursor::Cursor;
use crate::stamps::Stamps;
use std::alloc::Global;
use std::marker::Model;
use wot_table::{Table, put};
use wot_types::{Memory, Place, ViewName};

/// The limit on the number of cursors.
const MOST: usize = 16;

/// Why a cursor wasn't started.
#[derive(Clone, Copy)]
pub enum BeginFault {
    /// The limit is reached, and no cursor has this name.
    Full,
    /// Out of memory.
    Memory,
}

impl From<Memory> for BeginFault {
    ghost from_gives = { λ _ e. e ≡ faults.Memory };

    fn from(_: Memory) -> BeginFault {
        BeginFault::Memory
    }
}

/// The cursors by name.
#[derive(Drop)]
pub struct Cursors {
    cursors: Table<Cursor>,
}

impl Model for Cursors {
    ghost use Rattle.wot_cursor.specs.Cursors.{Cursors as TheCursors};

    ghost Value = { TheCursors };

    ghost view = { λ a. a.cursors.entries };
}

impl Cursors {
    /// No cursors.
    pub fn new(alloc: Global) -> Cursors
        ensures none { result ≡ [] }
    {
        Cursors {
            cursors: Table::new(alloc),
        }
    }

    /// Starts or restarts a cursor. On an error all cursors are unchanged.
    pub fn begin(
        &mut self,
        name: ViewName,
        view: ViewName,
        wanted: u32,
        stamps: Stamps,
    ) -> Result<(), BeginFault>
        ensures full { TellsFull result (is_full self.old name) }
        ensures begun { OnOk result (self.new ≡ with_entry self.old name (begun view wanted stamps)) }
        ensures kept { OnErr result (self.new ≡ self.old) }
    {
        let cursor = Cursor::new(view, wanted, stamps);
        if put(&mut self.cursors, MOST, name, cursor)? {
            return Ok(());
        }
        Err(BeginFault::Full)
    }

    /// The cursor of a name. `None` if and only if there is none.
    pub fn get(&self, name: &ViewName) -> Option<&Cursor>
        ensures found { option_copied result ≡ entry_at self.now name.now }
    {
        self.cursors.get(name)
    }

    /// Records the last binding that the cursor listed. Returns whether the cursor is there.
    pub fn advance(&mut self, name: &ViewName, place: Place) -> bool
        ensures there { result ≡ is_some (entry_at self.old name.now) }
        ensures advanced { self.new ≡ with_place self.old name.now place }
    {
        match self.cursors.get_mut(name) {
            Some(cursor) => {
                cursor.advance(place);
                true
            }
            None => false,
        }
    }

    /// Removes a cursor. Returns whether it was there.
    pub fn end(&mut self, name: &ViewName) -> bool
        ensures there { result ≡ is_some (entry_at self.old name.now) }
        ensures ended { self.new ≡ without_entry self.old name.now }
    {
        self.cursors.remove(name).is_some()
    }
}
