//! The numbers of a table of reach while they are inserted.
//!
//! It uses std's map. `checking` fills it, and takes the map once all numbers are there.
ghost use Rattle.std.specs.Prelude.{◌≡◌, [], OnOk};
ghost use Rattle.std.specs.BTreeMap.{insert_entry};
ghost use Rattle.wot_types.specs.Fpr.{fpr_cmp};

use std::alloc::Global;
use std::collections::BTreeMap;
use std::marker::Model;
use wot_types::{Fpr, Memory};

/// Numbers by fingerprint.
#[derive(Drop)]
pub struct Numbers {
    table: BTreeMap<Fpr, u8, Global>,
}

impl Model for Numbers {
    ghost use Rattle.std.specs.Prelude.{List, ℕ};
    ghost use Rattle.wot_types.specs.declared.fpr.Fpr.{Fpr as Print};

    ghost Value = { List (Print × ℕ) };

    ghost view = { λ numbers. numbers.table.entries };
}

impl Numbers {
    /// No numbers.
    pub(crate) fn new(alloc: Global) -> Numbers
        ensures none { result ≡ [] }
    {
        Numbers {
            table: BTreeMap::new(alloc),
        }
    }

    /// Puts in the number of a fingerprint.
    pub(crate) fn put(&mut self, fpr: &Fpr, number: u8) -> Result<(), Memory>
        ensures entries { OnOk result (self.new ≡ insert_entry fpr_cmp self.old fpr.now number) }
    {
        self.table.insert(*fpr, number)?;
        Ok(())
    }

    /// The map of all numbers.
    pub(crate) fn into_table(self) -> BTreeMap<Fpr, u8, Global>
        ensures same { result.entries ≡ self }
    {
        let Numbers { table } = self;
        table
    }
}
