//! The set of fingerprints that a search looked at.
//!
//! It uses std's map. An answer depends on nothing else, so `wot_cache` keeps an answer for as long as none of
//! these changed.
ghost use Rattle.std.specs.Prelude.{◌≡◌, ◌≤◌, ◌⊎◌, ◌↔◌, ◌+◌, [], length, IsTrue, OnOk, OnErr};
ghost use Rattle.std.specs.Iterator.{YieldsFirst, item_count};
ghost use Rattle.std.specs.List.Sorted.{IsStrictlySortedBy};
ghost use Rattle.wot_types.specs.declared.fpr.Fpr.{Fpr as Print};
ghost use Rattle.wot_types.specs.Fpr.{fpr_cmp};
ghost use Rattle.wot_edge.specs.Record.{Has};
ghost use Rattle.wot_edge.specs.Leads.{Grows};

use std::alloc::Global;
use std::collections::BTreeSet;
use std::collections::btree_set::Iter;
use std::marker::Model;
use wot_types::{Fpr, Memory};

/// The fingerprints whose rows, validity or root amount a search looked at, in order.
#[derive(Drop)]
pub struct Consulted {
    fprs: BTreeSet<Fpr, Global>,
}

impl Model for Consulted {
    ghost use Rattle.std.specs.Prelude.{List};
    ghost use Rattle.wot_types.specs.declared.fpr.Fpr.{Fpr};

    ghost Value = { List Fpr };

    ghost view = { λ set. set.fprs.keys };
}

impl Consulted {
    /// An empty set.
    pub fn new(alloc: Global) -> Consulted
        ensures none { result ≡ [] }
    {
        Consulted {
            fprs: BTreeSet::new(alloc),
        }
    }

    /// Whether a fingerprint was looked at.
    pub fn has(&self, fpr: &Fpr) -> bool
        ensures has { IsTrue result ↔ Has self.now fpr.now }
    {
        self.fprs.contains(fpr)
    }

    /// Adds a fingerprint. After `Memory` the set is unchanged.
    pub(crate) fn add(&mut self, fpr: &Fpr) -> Result<(), Memory>
        ensures has { OnOk result (Has self.new fpr.now) }
        ensures grows { Grows self.old self.new }
        ensures only { (other : Print) → Has self.new other → Has self.old other ⊎ (other ≡ fpr.now) }
        ensures one { length self.new ≤ length self.old + 1 }
        ensures kept { OnErr result (self.new ≡ self.old) }
    {
        self.fprs.insert(*fpr)?;
        Ok(())
    }

    /// The fingerprints, in order.
    pub fn iter(&self) -> ConsultedIter<'_>
        ensures rest { result ≡ self.now }
        ensures order { IsStrictlySortedBy fpr_cmp self.now }
    {
        ConsultedIter {
            fprs: self.fprs.iter(),
        }
    }
}

/// Iterates over consulted fingerprints, in order.
#[derive(Drop)]
pub struct ConsultedIter<'a> {
    fprs: Iter<'a, Fpr>,
}

impl<'a> Model for ConsultedIter<'a> {
    ghost use Rattle.std.specs.Prelude.{List};
    ghost use Rattle.wot_types.specs.declared.fpr.Fpr.{Fpr};

    ghost Value = { List Fpr };

    ghost view = { λ iter. iter.fprs };
}

impl<'a> Iterator for ConsultedIter<'a> {
    type Item = Fpr;

    ghost next_gives = { YieldsFirst (λ rest. rest) };

    ghost remaining = { item_count (λ rest. rest) };

    fn next(&mut self) -> Option<Fpr> {
        match self.fprs.next() {
            Some(fpr) => Some(*fpr),
            None => None,
        }
    }
}
