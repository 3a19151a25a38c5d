//! The last steps of making a table of reach: its numbers go into the table, and each fingerprint is checked.
//!
//! It uses `reach` and `numbers`, and `making` takes the steps. If the check fails, a table that leaves nothing
//! out takes its place: wrong numbers can cost time but never an answer.
ghost use Rattle.std.specs.Prelude.{ℕ, List, IfOk};
ghost use Rattle.wot_types.specs.declared.fpr.Fpr.{Fpr as Print};
ghost use Rattle.wot_edge.specs.Record.{Record};
ghost use Rattle.wot_reach.specs.Making.{AreKeysOf, IsChecking, IsMaking};

use crate::making::Making;
use crate::numbers::Numbers;
use crate::reach::Reach;
use std::alloc::Global;
use std::collections::BTreeMap;
use wot_edge::{Roads, Roots};
use wot_types::{Fpr, Memory};

/// A table of the numbers of the fingerprints before one.
#[derive(Drop)]
pub struct Numbering {
    pub(crate) fprs: Vec<Fpr, Global>,
    pub(crate) numbers: Vec<u8, Global>,
    pub(crate) table: Numbers,
    pub(crate) next: usize,
}

/// A table of the numbers of these fingerprints. `slotted` of them have slots, and those before `next` have enough.
#[derive(Drop)]
pub struct Checking {
    pub(crate) fprs: Vec<Fpr, Global>,
    pub(crate) reach: Reach,
    pub(crate) slotted: usize,
    pub(crate) next: usize,
}

impl Numbering {
    /// An empty table. If there are fewer numbers than fingerprints, the last ones get 255.
    pub(crate) fn new(alloc: Global, fprs: Vec<Fpr>, numbers: Vec<u8>) -> Numbering
        ensures keys { AreKeysOf result.fprs.items result.table }
    {
        Numbering {
            fprs,
            numbers,
            table: Numbers::new(alloc),
            next: 0,
        }
    }

    /// Puts in the next number; after the last one the check begins.
    pub(crate) fn number(mut self, alloc: Global) -> Result<Making, Memory>
        requires keys { AreKeysOf self.fprs.items self.table }
        ensures making { (network : List ℕ → Record) (roots : List (Print × ℕ)) → IfOk result (IsMaking network roots) }
    {
        if self.next >= self.fprs.len() {
            return Ok(Making::Checking(Checking::new(alloc, self.fprs, self.table.into_table())));
        }
        let number = self.numbers.get(self.next).copied().unwrap_or(255);
        let fpr = self.fprs[self.next];
        self.table.put(&fpr, number)?;
        self.next += 1;
        Ok(Making::Numbering(self))
    }
}

impl Checking {
    /// A table of these numbers, none checked yet.
    pub(crate) fn new(alloc: Global, fprs: Vec<Fpr>, table: BTreeMap<Fpr, u8>) -> Checking
        requires keys { AreKeysOf fprs.items table.entries }
        ensures checking { (network : List ℕ → Record) (roots : List (Print × ℕ)) → IsChecking network roots result }
    {
        Checking {
            fprs,
            reach: Reach::of(alloc, table),
            slotted: 0,
            next: 0,
        }
    }

    /// Whether all slots are there, so that the check can begin.
    pub(crate) fn is_slotted(&self) -> bool {
        self.slotted >= self.fprs.len()
    }

    /// Adds the next slot.
    pub(crate) fn slot(mut self) -> Result<Checking, Memory>
        ensures checking { (net : List ℕ → Record) (roots : List (Print × ℕ)) → IsChecking net roots self
            → IfOk result (IsChecking net roots) }
    {
        let Some(fpr) = self.fprs.get(self.slotted) else {
            return Ok(self);
        };
        self.reach.add_slot(self.fprs.len(), fpr)?;
        self.slotted = self.slotted.saturating_add(1);
        Ok(self)
    }

    /// Checks the next fingerprint. If it doesn't have enough, a table that leaves nothing out takes the place of this
    /// one.
    pub(crate) fn check<R: Roads>(
        mut self,
        alloc: Global,
        roads: &R,
        roots: &Roots,
    ) -> Result<Making, Memory>
        requires checking { IsChecking (R.network roads.now) roots.now self }
        ensures making { IfOk result (IsMaking (R.network roads.now) roots.now) }
    {
        if self.next >= self.fprs.len() {
            return Ok(Making::Made(self.reach));
        }
        let fpr = self.fprs[self.next];
        if !self.reach.add(alloc, roads, roots, &fpr)? {
            // Sound whatever was given: this table has enough everywhere.
            return Ok(Making::Made(Reach::everywhere(alloc)));
        }
        self.next += 1;
        Ok(Making::Checking(self))
    }
}
