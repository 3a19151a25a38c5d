//! A network in memory, built line by line, for tests and benches of the crates above; the program doesn't use it.
//!
//! It implements `Roads` by `specs/Plain.antt`, and is the example of how that trait is met.
ghost use Rattle.std.specs.Prelude.{◌≡◌, ◌↔◌, ◌&&◌, ◌||◌, not, [], true, false, IfOk, OnErr};
ghost use Rattle.std.specs.BTreeMap.{is_at};
ghost use Rattle.std.specs.Map.{lookup};
ghost use Rattle.std.specs.Option.{option_copied};
ghost use Rattle.wot_types.specs.Fpr.{fpr_cmp};
ghost use Rattle.wot_edge.specs.Order.{edge_cmp};
ghost use Rattle.wot_edge.specs.Lawful.{AreRows};
ghost use Rattle.wot_edge.specs.Plain.{AreLines, MayPrecede, holds_inside, is_place, network_for, octet_place};
ghost use Rattle.wot_edge.specs.Plain.{with_line};

use crate::maps::{find, put};
use crate::{Edge, Roads};
use std::alloc::Global;
use std::cmp::Ordering;
use std::collections::BTreeMap;
use std::marker::Model;
use wot_types::{Fpr, Memory, compare_fprs};

/// The edges into a certificate, and whether it is a valid target.
#[derive(Drop)]
pub struct PlainLine {
    edges: Vec<Edge, Global>,
    in_order: bool,
}

impl Model for PlainLine {
    ghost use Rattle.wot_edge.specs.Plain.{Line};

    ghost Value = { Line };

    ghost view = { λ line. record { edges = line.edges.items; in_order = line.in_order } };
}

impl PlainLine {
    fn rows(&self) -> &[Edge]
        ensures rows { result.now ≡ self.now.edges }
    {
        self.edges.as_slice()
    }

    fn is_in_order(&self, place: Option<u32>) -> bool
        ensures in_order { result ≡ (self.now.in_order && is_place place) }
    {
        self.in_order && place.is_some()
    }
}

/// A network that is built line by line. A user ID is one octet, and that octet is its place. An edge created at 0
/// isn't usable. A limited scope holds for only one user ID.
#[derive(Drop)]
pub struct PlainRoads {
    lines: BTreeMap<Fpr, PlainLine, Global>,
    inside: u8,
}

impl Model for PlainRoads {
    ghost use Rattle.wot_edge.specs.Plain.{Plain, AreLines};

    ghost Value = { Plain };

    ghost view = { λ plain. record { lines = plain.lines.entries; inside = plain.inside } };

    ghost invariant = { λ plain. AreLines plain.lines.entries };
}

impl PlainRoads {
    /// An empty network. Limited scopes hold for the user ID `inside`.
    pub fn new(alloc: Global, inside: u8) -> PlainRoads
        ensures empty { result.lines ≡ [] }
        ensures inside { result.inside ≡ inside }
    {
        PlainRoads {
            lines: BTreeMap::new(alloc),
            inside,
        }
    }

    /// Sets the edges into a certificate. Returns `false` if and only if not all are into it, or they aren't in the
    /// order of issuer and user ID, one for each. After `false` and `Memory` the network is unchanged.
    pub fn put(&mut self, fpr: Fpr, in_order: bool, edges: Vec<Edge>) -> Result<bool, Memory>
        ensures rows { IfOk result (λ done. (done ≡ true) ↔ AreRows fpr edges.items) }
        ensures put { IfOk result (λ done. done ≡ true
            → self.new.lines ≡ with_line self.old.lines fpr in_order edges.items) }
        ensures inside { self.new.inside ≡ self.old.inside }
        ensures refused { IfOk result (λ done. done ≡ false → self.new.lines ≡ self.old.lines) }
        ensures kept { OnErr result (self.new ≡ self.old) }
    {
        if !are_rows(&fpr, &edges) {
            return Ok(false);
        }
        put(&mut self.lines, fpr, PlainLine { edges, in_order })?;
        Ok(true)
    }

    fn line_at(&self, fpr: &Fpr) -> Option<&PlainLine>
        ensures line { option_copied result ≡ lookup (is_at (fpr_cmp fpr.now)) self.now.lines }
        ensures lines { AreLines self.now.lines }
    {
        find(&self.lines, fpr)
    }

    fn holds(&self, scoped: bool, place: Option<u32>) -> bool
        ensures holds { result ≡ (not scoped || holds_inside self.now.inside place) }
    {
        !scoped || is_inside(self.inside, place)
    }
}

impl Roads for PlainRoads {
    ghost network = { λ plain uid. network_for plain uid };

    fn rows(&self, target: &Fpr) -> &[Edge] {
        match self.line_at(target) {
            Some(line) => line.rows(),
            None => &[],
        }
    }

    fn usable(&self, edge: &Edge) -> bool {
        edge.facts().made > 0
    }

    fn scope(&self, edge: &Edge, uid: &[u8]) -> Result<bool, Memory> {
        Ok(self.holds(edge.facts().scoped, place_in(uid)))
    }

    fn in_order(&self, target: &Fpr, uid: &[u8]) -> bool {
        match self.line_at(target) {
            Some(line) => line.is_in_order(place_in(uid)),
            None => false,
        }
    }

    fn place(&self, target: &Fpr, uid: &[u8]) -> Option<u32> {
        match self.line_at(target) {
            Some(_) => place_in(uid),
            None => None,
        }
    }
}

/// Whether edges are into a certificate, and in the order of issuer and user ID.
fn are_rows(fpr: &Fpr, edges: &[Edge]) -> bool
    ensures rows { (result ≡ true) ↔ AreRows fpr.now edges.now }
{
    let mut rest = edges;
    'rest: while let Some((edge, later)) = rest.split_first() {
        if !may_precede(fpr, edge, later) {
            return false;
        }
        rest = later;
    }
    true
}

/// Whether an edge is into a certificate, and before the first of the later ones in the order.
fn may_precede(fpr: &Fpr, edge: &Edge, later: &[Edge]) -> bool
    ensures may { (result ≡ true) ↔ MayPrecede fpr.now edge.now later.now }
{
    if !compare_fprs(&edge.facts().target, fpr).is_eq() {
        return false;
    }
    match later.first() {
        Some(next) => compare_edges(edge, next).is_lt(),
        None => true,
    }
}

fn is_inside(inside: u8, place: Option<u32>) -> bool
    ensures inside { result ≡ holds_inside inside place }
{
    match place {
        Some(place) => place == inside as u32,
        None => false,
    }
}

fn compare_edges(a: &Edge, b: &Edge) -> Ordering
    ensures order { result ≡ edge_cmp a.now b.now }
{
    let (a, b) = (a.facts(), b.facts());
    match compare_fprs(&a.issuer, &b.issuer) {
        Ordering::Less => Ordering::Less,
        Ordering::Greater => Ordering::Greater,
        Ordering::Equal => a.uid.cmp(&b.uid),
    }
}

/// The place of a user ID: its one octet.
fn place_in(uid: &[u8]) -> Option<u32>
    ensures place { result ≡ octet_place uid.now }
{
    match uid {
        [octet] => Some(*octet as u32),
        _ => None,
    }
}
