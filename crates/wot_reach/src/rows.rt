//! The numbers of a table in the order of edges: a search that walks over the edges into a fingerprint finds the
//! numbers of their issuers next to each other.
//!
//! It uses `slots`, and `reach` reads it through checks that compare fingerprints.
ghost use Rattle.std.specs.Prelude.{ℕ, List};
ghost use Rattle.wot_types.specs.declared.fpr.Fpr.{Fpr as Print};
ghost use Rattle.wot_reach.specs.Slots.{AreSlots, HasNumber, HasNumberIfSome};

use crate::slots::{Slot, Slots, number_by_place, number_from};
use std::alloc::Global;
use std::collections::BTreeMap;
use wot_edge::Roads;
use wot_types::{Fpr, Memory};

/// The slots of the issuers of edges, fingerprint after fingerprint, and where those of each fingerprint begin.
#[derive(Drop)]
pub(crate) struct Rows {
    pub(crate) slots: Vec<Slot, Global>,
    pub(crate) starts: Vec<u32, Global>,
}

impl Rows {
    pub(crate) fn none(alloc: Global) -> Rows
        ensures slots { (numbers : List (Print × ℕ)) → AreSlots numbers result.slots.items }
    {
        Rows {
            slots: Vec::new(alloc),
            starts: Vec::new(alloc),
        }
    }

    /// Whether there are no slots.
    pub(crate) fn is_empty(&self) -> bool {
        self.slots.is_empty()
    }

    /// Where the slots of the edges into the fingerprint at a place begin, if it has any.
    pub(crate) fn start(&self, place: usize) -> usize {
        match self.starts.get(place) {
            Some(start) => *start as usize,
            None => usize::MAX,
        }
    }

    /// The place of the issuer of the slot at a place, if that is known.
    pub(crate) fn issuer(&self, place: usize) -> Option<u32> {
        match self.slots.get(place) {
            Some(slot) => slot.place,
            None => None,
        }
    }

    /// The number in the slot at a place, if it is this fingerprint's.
    pub(crate) fn number(&self, place: usize, fpr: &Fpr) -> Option<u8>
        ensures tells { (numbers : List (Print × ℕ)) → AreSlots numbers self.now.slots.items
            → HasNumberIfSome numbers fpr.now result }
    {
        number_from(&self.slots, place, fpr)
    }
}

/// Adds the slots of the edges into one more fingerprint.
pub(crate) fn add_row<R: Roads>(
    roads: &R,
    fpr: &Fpr,
    slots: &Slots,
    numbers: &BTreeMap<Fpr, u8>,
    rows: &mut Rows,
) -> Result<(), Memory>
    requires slots { AreSlots numbers.now.entries slots.now.slots.items }
    requires rows { AreSlots numbers.now.entries rows.old.slots.items }
    ensures rows { AreSlots numbers.now.entries rows.new.slots.items }
{
    let start = u32::try_from(rows.slots.len()).unwrap_or(u32::MAX);
    rows.starts.push(start)?;
    put_row(roads, fpr, slots, numbers, &mut rows.slots)
}

/// Appends the slots of the issuers of the edges into a fingerprint.
fn put_row<R: Roads>(
    roads: &R,
    fpr: &Fpr,
    slots: &Slots,
    numbers: &BTreeMap<Fpr, u8>,
    rows: &mut Vec<Slot>,
) -> Result<(), Memory>
    requires slots { AreSlots numbers.now.entries slots.now.slots.items }
    requires rows { AreSlots numbers.now.entries rows.old.items }
    ensures rows { AreSlots numbers.now.entries rows.new.items }
{
    let edges = roads.rows(fpr);
    'edges: for edge in edges {
        let slot = slot_of(&edge.facts().issuer, slots, numbers);
        rows.push(slot)?;
    }
    Ok(())
}

/// The slot of an issuer.
fn slot_of(fpr: &Fpr, slots: &Slots, numbers: &BTreeMap<Fpr, u8>) -> Slot
    requires { AreSlots numbers.now.entries slots.now.slots.items }
    ensures { HasNumber numbers.now.entries result.fpr result.number }
{
    let place = slots.short_place(fpr);
    Slot {
        fpr: *fpr,
        number: number_by_place(slots, numbers, place, fpr),
        place,
    }
}
