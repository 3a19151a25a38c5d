//! Tables of labels by fingerprint.
//!
//! They use std's map and `specs/Table.antt`. `making` makes one, `wot_command` reads one from the fields of
//! `check`, and `points` tests it.
ghost use Rattle.std.specs.Prelude.{◌≡◌, ◌≤◌, [], OnOk, OnErr};
ghost use Rattle.std.specs.BTreeMap.{insert_entry};
ghost use Rattle.std.specs.Iterator.{YieldsFirst, item_count};
ghost use Rattle.wot_types.specs.Fpr.{fpr_cmp};
ghost use Rattle.wot_check.specs.Table.{GivesLabel, IsTable, label_at};

use std::alloc::Global;
use std::collections::BTreeMap;
use std::collections::btree_map::Iter;
use std::marker::Model;
use wot_types::{Fpr, Memory};

/// Labels from 1 to 255 by fingerprint.
#[derive(Drop)]
pub struct Table {
    labels: BTreeMap<Fpr, u8, Global>,
}

impl Model for Table {
    ghost use Rattle.std.specs.Prelude.{List, ℕ};
    ghost use Rattle.wot_types.specs.declared.fpr.Fpr.{Fpr};
    ghost use Rattle.wot_check.specs.Table.{AreLabels};

    ghost Value = { List (Fpr × ℕ) };

    ghost view = { λ table. table.labels.entries };

    ghost invariant = { λ table. AreLabels table.labels.entries };
}

impl Table {
    /// No labels.
    pub fn new(alloc: Global) -> Table
        ensures none { result ≡ [] }
    {
        Table {
            labels: BTreeMap::new(alloc),
        }
    }

    /// Sets the label of a fingerprint, in place of an earlier one. After `Memory` the table is unchanged.
    pub fn set(&mut self, fpr: Fpr, label: u8) -> Result<(), Memory>
        requires some { 1 ≤ label }
        ensures set { OnOk result (self.new ≡ insert_entry fpr_cmp self.old fpr label) }
        ensures gets { OnOk result (GivesLabel self.old self.new fpr label) }
        ensures kept { OnErr result (self.new ≡ self.old) }
    {
        self.labels.insert(fpr, label)?;
        Ok(())
    }

    /// The label of a fingerprint, if it has one.
    pub fn get(&self, fpr: &Fpr) -> Option<u8>
        ensures label { result ≡ label_at self.now fpr.now }
    {
        match self.labels.get(fpr) {
            Some(label) => Some(*label),
            None => None,
        }
    }

    /// The labels, in the order of their fingerprints.
    pub fn iter(&self) -> TableIter<'_>
        ensures rest { result ≡ self.now }
        ensures table { IsTable self.now }
    {
        TableIter {
            entries: self.labels.iter(),
        }
    }
}

/// Iterates over labels, in the order of their fingerprints.
#[derive(Drop)]
pub struct TableIter<'a> {
    entries: Iter<'a, Fpr, u8>,
}

impl<'a> Model for TableIter<'a> {
    ghost use Rattle.std.specs.Prelude.{List, ℕ};
    ghost use Rattle.wot_types.specs.declared.fpr.Fpr.{Fpr};

    ghost Value = { List (Fpr × ℕ) };

    ghost view = { λ iter. iter.entries };
}

impl<'a> Iterator for TableIter<'a> {
    type Item = (Fpr, u8);

    ghost next_gives = { YieldsFirst (λ rest. rest) };

    ghost remaining = { item_count (λ rest. rest) };

    fn next(&mut self) -> Option<(Fpr, u8)> {
        match self.entries.next() {
            Some((fpr, label)) => Some((*fpr, *label)),
            None => None,
        }
    }
}
