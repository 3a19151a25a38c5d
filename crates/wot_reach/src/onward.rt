//! The edges that lead on: those that can have another edge after them. A search looks only at these, and most
//! certifications make no introducer. They are part of a table of reach (`reach`), by `specs/Onward.antt`.
ghost use Rattle.std.specs.Prelude.{◌≡◌, ◌++◌, ◌∷◌, [], ℕ, List, true, IfOk, IfSome, OnOk};
ghost use Rattle.wot_types.specs.declared.fpr.Fpr.{Fpr as Print};
ghost use Rattle.wot_edge.specs.Record.{Has, edges_into};
ghost use Rattle.wot_reach.specs.Onward.{AddsLead, AreOnward, GivesOnward, IsUsableIf, LeadsOnInto, leads_on};
ghost use Rattle.wot_reach.specs.Reach.{number_of};
ghost use Rattle.wot_reach.specs.Slots.{AreSlots};

use crate::slots::{Slots, number_by};
use std::alloc::Global;
use std::collections::BTreeMap;
use wot_edge::{Edge, Roads};
use wot_types::{Fpr, Memory, Steps};

/// The edges into a fingerprint that can have another edge after them, by their depths and their issuers' reach.
/// They are kept with the table, so that a search finds them at once.
#[derive(Drop)]
pub struct Onward {
    pub fpr: Fpr,
    pub edges: Vec<Edge, Global>,
    /// The place of each among all edges into the fingerprint.
    pub places: Vec<usize, Global>,
    /// Whether these edges are known to be usable, so that a search doesn't have to ask.
    pub usable: bool,
    /// Whether all edges into the fingerprint are.
    pub all_usable: bool,
}

impl Onward {
    /// No edges yet.
    fn new(alloc: Global, fpr: &Fpr) -> Onward
        ensures fpr { result.fpr ≡ fpr.now }
        ensures edges { result.edges.items ≡ [] }
    {
        Onward {
            fpr: *fpr,
            edges: Vec::new(alloc),
            places: Vec::new(alloc),
            usable: true,
            all_usable: true,
        }
    }

    /// These edges, if they are those of this fingerprint.
    pub(crate) fn of_fpr(&self, fpr: &Fpr) -> Option<&Onward>
        ensures same { IfSome result (λ one. (one.now ≡ self.now) × (self.now.fpr ≡ fpr.now)) }
    {
        if self.fpr == *fpr { Some(self) } else { None }
    }
}

/// The edges at a place, if they are those of this fingerprint.
pub(crate) fn onward_at<'a>(onward: &'a [Onward], place: usize, fpr: &Fpr) -> Option<&'a Onward>
    ensures leads { (number : Print → ℕ) → GivesOnward number onward.now fpr.now result }
{
    if place >= onward.len() {
        return None;
    }
    onward[place].of_fpr(fpr)
}

/// Whether an edge leads on.
fn is_onward(slots: &Slots, numbers: &BTreeMap<Fpr, u8>, edge: &Edge) -> bool
    requires slots { AreSlots numbers.now.entries slots.now.slots.items }
    ensures onward { result ≡ leads_on (number_of numbers.now.entries) edge.now }
{
    let facts = edge.facts();
    1 <= facts.depth && 2 <= number_by(slots, numbers, &facts.issuer)
}

/// Whether an edge and those before it are usable.
fn is_usable_too<R: Roads>(roads: &R, usable: bool, edge: &Edge) -> bool
    requires row { (id : List ℕ) → Has (edges_into (R.network roads.now id) edge.now.target) edge.now }
    ensures usable { IsUsableIf (R.network roads.now) usable result edge.now }
{
    if !usable {
        return false;
    }
    roads.usable(edge)
}

/// Appends an edge.
fn put_edge<R: Roads>(
    roads: &R,
    edge: &Edge,
    place: usize,
    onward: &mut Onward,
) -> Result<(), Memory>
    requires row { (id : List ℕ) → Has (edges_into (R.network roads.now id) edge.now.target) edge.now }
    ensures fpr { onward.new.fpr ≡ onward.old.fpr }
    ensures all { onward.new.all_usable ≡ onward.old.all_usable }
    ensures edges { OnOk result (onward.new.edges.items ≡ onward.old.edges.items ++ edge.now ∷ []) }
    ensures usable { OnOk result (IsUsableIf (R.network roads.now) onward.old.usable onward.new.usable edge.now) }
{
    onward
        .edges
        .push(Edge::make(edge.facts(), &mut Steps::new()))?;
    onward.places.push(place)?;
    onward.usable = is_usable_too(roads, onward.usable, edge);
    Ok(())
}

/// Looks at an edge, and appends it if it leads on.
fn put_if<R: Roads>(
    roads: &R,
    slots: &Slots,
    numbers: &BTreeMap<Fpr, u8>,
    edge: &Edge,
    place: usize,
    onward: &mut Onward,
) -> Result<(), Memory>
    requires slots { AreSlots numbers.now.entries slots.now.slots.items }
    requires row { (id : List ℕ) → Has (edges_into (R.network roads.now id) edge.now.target) edge.now }
    ensures adds { OnOk result (AddsLead (R.network roads.now) (number_of numbers.now.entries) edge.now
        onward.old onward.new) }
{
    onward.all_usable = is_usable_too(roads, onward.all_usable, edge);
    if !is_onward(slots, numbers, edge) {
        return Ok(());
    }
    put_edge(roads, edge, place, onward)?;
    Ok(())
}

/// The edges into a fingerprint that lead on.
fn onward_of<R: Roads>(
    alloc: Global,
    roads: &R,
    fpr: &Fpr,
    slots: &Slots,
    numbers: &BTreeMap<Fpr, u8>,
) -> Result<Onward, Memory>
    requires slots { AreSlots numbers.now.entries slots.now.slots.items }
    ensures leads { IfOk result (λ one. LeadsOnInto (R.network roads.now) (number_of numbers.now.entries) one.fpr one) }
{
    let mut onward = Onward::new(alloc, fpr);
    let edges = roads.rows(fpr);
    'places: for place in 0..edges.len() {
        put_if(roads, slots, numbers, &edges[place], place, &mut onward)?;
    }
    Ok(onward)
}

/// Appends the edges of one fingerprint.
pub(crate) fn put_onward<R: Roads>(
    alloc: Global,
    roads: &R,
    fpr: &Fpr,
    slots: &Slots,
    numbers: &BTreeMap<Fpr, u8>,
    onward: &mut Vec<Onward>,
) -> Result<(), Memory>
    requires slots { AreSlots numbers.now.entries slots.now.slots.items }
    requires onward { AreOnward (R.network roads.now) (number_of numbers.now.entries) onward.old.items }
    ensures onward { OnOk result (AreOnward (R.network roads.now) (number_of numbers.now.entries) onward.new.items) }
{
    let one = onward_of(alloc, roads, fpr, slots, numbers)?;
    onward.push(one)?;
    Ok(())
}
