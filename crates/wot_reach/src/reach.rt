//! A table of reach: how far before a target each key may come on a path from the current roots.
//!
//! It uses `slots`, `rows` and `onward`, and `specs/Reach.antt`. It serves every question of a view and changes
//! no answer, only the time; `docs/SEARCH.md` explains it.
ghost use Rattle.std.specs.Prelude.{◌≡◌, ◌<◌, ℕ, List, [], true, false, IfOk, OnOk};
ghost use Rattle.wot_types.specs.declared.fpr.Fpr.{Fpr as Print};
ghost use Rattle.wot_edge.specs.Record.{Record, Has, edges_into};
ghost use Rattle.wot_edge.specs.Roots.{root_amount};
ghost use Rattle.wot_reach.specs.Onward.{AreOnward, GivesOnward};
ghost use Rattle.wot_reach.specs.Reach.{Allows, HasEnough, IsReach, number_at};

use crate::onward::{Onward, onward_at, put_onward};
use crate::rows::{Rows, add_row};
use crate::slots::{Slots, number_in};
use std::alloc::Global;
use std::collections::BTreeMap;
use std::marker::Model;
use wot_edge::{Edge, Roads, Roots};
use wot_types::{Fpr, Memory};

/// How far before a target an issuer may come: a number of edges for each fingerprint. A search skips an issuer that
/// would come further. One without a number may come anywhere. For the fingerprints with a number it has the places of
/// the edges that lead on, so that a search looks only at those.
#[derive(Drop)]
pub struct Reach {
    numbers: BTreeMap<Fpr, u8, Global>,
    slots: Slots,
    rows: Rows,
    onward: Vec<Onward, Global>,
}

impl Model for Reach {
    ghost use Rattle.wot_reach.specs.Slots.{AreSlots};
    ghost use Rattle.wot_reach.specs.Reach.{Table};

    ghost Value = { Table };

    ghost view = { λ reach. record { numbers = reach.numbers.entries; onward = reach.onward.items } };

    ghost invariant = { λ reach. AreSlots reach.numbers.entries reach.slots.slots.items
        × AreSlots reach.numbers.entries reach.rows.slots.items };
}

impl Reach {
    /// A table that leaves nothing out.
    pub fn everywhere(alloc: Global) -> Reach
        ensures all { (fpr : Print) → number_at result fpr ≡ 255 }
        ensures reach { (network : List ℕ → Record) (roots : List (Print × ℕ)) → IsReach network roots result }
    {
        Reach {
            numbers: BTreeMap::new(alloc),
            slots: Slots::none(alloc),
            rows: Rows::none(alloc),
            onward: Vec::new(alloc),
        }
    }

    /// Whether it has no numbers, and so leaves nothing out.
    pub fn is_everywhere(&self) -> bool {
        self.rows.is_empty()
    }

    /// How many edges before a target a fingerprint may come at most.
    pub fn get(&self, fpr: &Fpr) -> u8
        ensures number { result ≡ number_at self.now fpr.now }
    {
        match self.slots.find(fpr) {
            Some(number) => number,
            None => number_in(&self.numbers, fpr),
        }
    }

    /// The place of a fingerprint in the table, if it is found.
    pub(crate) fn place(&self, fpr: &Fpr) -> Option<usize> {
        self.slots.place(fpr)
    }

    /// The place of a fingerprint, which may be known already.
    pub fn place_known(&self, known: Option<u32>, fpr: &Fpr) -> Option<usize> {
        match known {
            Some(place) => Some(place as usize),
            None => self.place(fpr),
        }
    }

    /// The place of the issuer whose number is at this place, if that is known.
    pub fn issuer_place(&self, place: usize) -> Option<u32> {
        self.rows.issuer(place)
    }

    /// Where the numbers of the issuers of the edges into the fingerprint at a place begin, for
    /// [`get_near`](Reach::get_near).
    pub fn start(&self, place: Option<usize>) -> usize {
        match place {
            Some(place) => self.rows.start(place),
            None => usize::MAX,
        }
    }

    /// The number of a fingerprint, found at once if it is at this place.
    pub fn get_near(&self, place: usize, fpr: &Fpr) -> u8
        ensures number { result ≡ number_at self.now fpr.now }
    {
        match self.rows.number(place, fpr) {
            Some(number) => number,
            None => self.get(fpr),
        }
    }

    /// The edges into a fingerprint that lead on, if it is at this place.
    pub fn onward(&self, place: Option<usize>, fpr: &Fpr) -> Option<&Onward>
        ensures leads { GivesOnward (number_at self.now) self.now.onward fpr.now result }
    {
        match place {
            Some(place) => onward_at(&self.onward, place, fpr),
            None => None,
        }
    }

    /// How many edges were looked at to make it, which is what making it again costs.
    pub fn edges(&self) -> usize {
        self.rows.slots.len()
    }

    /// A table of these numbers, without slots and places yet.
    pub(crate) fn of(alloc: Global, numbers: BTreeMap<Fpr, u8>) -> Reach
        ensures numbers { result.numbers ≡ numbers.entries }
        ensures onward { result.onward ≡ [] }
    {
        Reach {
            numbers,
            slots: Slots::none(alloc),
            rows: Rows::none(alloc),
            onward: Vec::new(alloc),
        }
    }

    /// Adds the slot of one more of `count` fingerprints.
    pub(crate) fn add_slot(&mut self, count: usize, fpr: &Fpr) -> Result<(), Memory>
        ensures same { self.new ≡ self.old }
    {
        self.slots.add(count, &self.numbers, fpr)
    }

    /// Appends the places of the edges into one more fingerprint. Returns whether it has enough.
    pub(crate) fn add<R: Roads>(
        &mut self,
        alloc: Global,
        roads: &R,
        roots: &Roots,
        fpr: &Fpr,
    ) -> Result<bool, Memory>
        requires onward { AreOnward (R.network roads.now) (number_at self.old) self.old.onward }
        ensures numbers { self.new.numbers ≡ self.old.numbers }
        ensures onward { OnOk result (AreOnward (R.network roads.now) (number_at self.new) self.new.onward) }
        ensures enough { IfOk result (λ yes. yes ≡ true →
            HasEnough (R.network roads.now) roots.now (number_at self.new) fpr.now) }
    {
        add_row(roads, fpr, &self.slots, &self.numbers, &mut self.rows)?;
        put_onward(
            alloc,
            roads,
            fpr,
            &self.slots,
            &self.numbers,
            &mut self.onward,
        )?;
        Ok(has_enough(roads, roots, self, fpr))
    }
}

/// Whether a root has less than 255.
fn is_low_root(roots: &Roots, number: u8, fpr: &Fpr) -> bool
    ensures low { result ≡ false → 0 < root_amount roots.now fpr.now → number ≡ 255 }
{
    number < 255 && roots.get(fpr) > 0
}

/// Whether a fingerprint has 255 if it is a root, and at least what each edge into it asks for.
fn has_enough<R: Roads>(roads: &R, roots: &Roots, reach: &Reach, fpr: &Fpr) -> bool
    ensures enough { result ≡ true → HasEnough (R.network roads.now) roots.now (number_at reach.now) fpr.now }
{
    let number = reach.get(fpr);
    if is_low_root(roots, number, fpr) {
        return false;
    }
    let edges = roads.rows(fpr);
    let mut place = reach.start(reach.place(fpr));
    'edges: for edge in edges {
        if !allows(roads, reach, place, number, edge) {
            return false;
        }
        place = place.saturating_add(1);
    }
    true
}

/// Whether an edge asks no more of its target than this number.
fn allows<R: Roads>(roads: &R, reach: &Reach, place: usize, number: u8, edge: &Edge) -> bool
    requires row { (id : List ℕ) → Has (edges_into (R.network roads.now id) edge.now.target) edge.now }
    ensures allows { result ≡ true → Allows (R.network roads.now) (number_at reach.now) number edge.now }
{
    let facts = edge.facts();
    // Most edges have depth 0.
    if facts.amount == 0 || facts.depth <= number {
        return true;
    }
    let passed_on = reach.get_near(place, &facts.issuer).saturating_sub(1);
    if facts.depth.min(passed_on) <= number {
        return true;
    }
    !roads.usable(edge)
}
