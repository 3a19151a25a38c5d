//! The trust roots and their amounts.
//!
//! It uses std's map and `specs/Roots.antt`. Each view of `wot_cache` has its own; paths begin at them.
ghost use Rattle.std.specs.Prelude.{◌≡◌, ◌<◌, [], length, OnOk, OnErr, if◌then◌else◌, Ok};
ghost use Rattle.std.specs.BTreeMap.{insert_entry, is_at};
ghost use Rattle.std.specs.Map.{remove_entry};
ghost use Rattle.std.specs.Iterator.{YieldsFirst, item_count};
ghost use Rattle.wot_types.specs.declared.fpr.Fpr.{Fpr as TheFpr};
ghost use Rattle.wot_types.specs.Fpr.{fpr_cmp, same_fpr};
ghost use Rattle.wot_edge.specs.Roots.{IsRoots, root_amount};

use crate::maps::{put, take_out};
use std::alloc::Global;
use std::collections::BTreeMap;
use std::collections::btree_map::Iter;
use std::marker::Model;
use wot_types::{Fpr, Memory};

/// The trust roots with their amounts, in the order of their fingerprints. No root has the amount 0.
#[derive(Drop)]
pub struct Roots {
    amounts: BTreeMap<Fpr, u8, Global>,
}

impl Model for Roots {
    ghost use Rattle.std.specs.Prelude.{List, ℕ};
    ghost use Rattle.wot_types.specs.declared.fpr.Fpr.{Fpr};
    ghost use Rattle.wot_edge.specs.Roots.{AreAmounts};

    ghost Value = { List (Fpr × ℕ) };

    ghost view = { λ roots. roots.amounts.entries };

    ghost invariant = { λ roots. AreAmounts roots.amounts.entries };
}

impl Roots {
    /// No roots.
    pub fn new(alloc: Global) -> Roots
        ensures none { result ≡ [] }
    {
        Roots {
            amounts: BTreeMap::new(alloc),
        }
    }

    /// Sets the amount of a root. 0 removes the root, and takes no memory. After `Memory` the roots are unchanged.
    pub fn set(&mut self, fpr: Fpr, amount: u8) -> Result<(), Memory>
        ensures set { OnOk result (0 < amount → self.new ≡ insert_entry fpr_cmp self.old fpr amount) }
        ensures gets { OnOk result ((q : TheFpr)
            → root_amount self.new q ≡ (if same_fpr fpr q then amount else root_amount self.old q)) }
        ensures taken { amount ≡ 0 → (result ≡ Ok tt) × (self.new ≡ remove_entry (is_at (fpr_cmp fpr)) self.old) }
        ensures kept { OnErr result (self.new ≡ self.old) }
    {
        if amount == 0 {
            take_out(&mut self.amounts, &fpr);
            return Ok(());
        }
        put(&mut self.amounts, fpr, amount)?;
        Ok(())
    }

    /// The amount of a root; 0 if the key isn't one.
    pub fn get(&self, fpr: &Fpr) -> u8
        ensures amount { result ≡ root_amount self.now fpr.now }
    {
        match self.amounts.get(fpr) {
            Some(amount) => *amount,
            None => 0,
        }
    }

    /// How many roots there are.
    pub fn len(&self) -> usize
        ensures count { result ≡ length self.now }
        ensures roots { IsRoots self.now }
    {
        self.amounts.len()
    }

    /// The roots and their amounts, in order.
    pub fn iter(&self) -> RootsIter<'_>
        ensures rest { result ≡ self.now }
        ensures roots { IsRoots self.now }
    {
        RootsIter {
            entries: self.amounts.iter(),
        }
    }
}

/// Iterates over roots and their amounts, in order.
#[derive(Drop)]
pub struct RootsIter<'a> {
    entries: Iter<'a, Fpr, u8>,
}

impl<'a> Model for RootsIter<'a> {
    ghost use Rattle.std.specs.Prelude.{List, ℕ};
    ghost use Rattle.wot_types.specs.declared.fpr.Fpr.{Fpr};

    ghost Value = { List (Fpr × ℕ) };

    ghost view = { λ iter. iter.entries };
}

impl<'a> Iterator for RootsIter<'a> {
    type Item = (Fpr, u8);

    ghost next_gives = { YieldsFirst (λ rest. rest) };

    ghost remaining = { item_count (λ rest. rest) };

    fn next(&mut self) -> Option<(Fpr, u8)> {
        match self.entries.next() {
            Some((fpr, amount)) => Some((*fpr, *amount)),
            None => None,
        }
    }
}
