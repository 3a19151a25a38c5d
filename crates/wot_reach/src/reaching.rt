//! The numbers of a table of reach, found in steps by passing them along edges until none rises.
//!
//! No contract promises anything about them: `checking` checks them afterwards. So this file can be changed for speed
//! without a proof.
ghost use Rattle.wot_reach.specs.Making.{AreKeysOf};

use crate::checking::Numbering;
use crate::slots::Slots;
use std::alloc::Global;
use std::collections::BTreeMap;
use std::marker::Model;
use wot_edge::{Edge, Roads, Roots};
use wot_types::{Fpr, Memory};

/// An edge of positive amount that may pass a number on: the places of its issuer and of its target among the
/// fingerprints, and its own among the edges into the target.
#[derive(Clone, Copy)]
struct Link {
    issuer: u32,
    target: u32,
    row: u32,
    depth: u8,
}

/// How many links a step passes over.
const LINKS: usize = 1024;

/// What came of a link.
enum Passed {
    /// It raises nothing now.
    Nothing,
    /// Its edge isn't usable, so it never will.
    Never,
    /// It raised its target's number.
    Raised,
}

/// The places of fingerprints.
#[derive(Drop)]
struct Places {
    slots: Slots,
    // Those of all, for the few that aren't found by their slots.
    all: BTreeMap<Fpr, u32, Global>,
}

impl Model for Places {
    ghost use Rattle.std.specs.Prelude.{ℕ, length};

    ghost Value = { ℕ };

    ghost view = { λ places. length places.all.entries };
}

impl Places {
    /// No places.
    fn new(alloc: Global) -> Places {
        Places {
            slots: Slots::none(alloc),
            all: BTreeMap::new(alloc),
        }
    }

    /// Notes the place of one more of `count` fingerprints.
    fn add(&mut self, alloc: Global, count: usize, fpr: &Fpr, place: u32) -> Result<(), Memory> {
        self.all.insert(*fpr, place)?;
        self.slots.add(count, &BTreeMap::new(alloc), fpr)
    }

    /// The place of a fingerprint.
    fn find(&self, fpr: &Fpr) -> Option<u32> {
        if let Some(place) = self.slots.place(fpr) {
            return u32::try_from(place).ok();
        }
        match self.all.get(fpr) {
            Some(place) => Some(*place),
            None => None,
        }
    }
}

/// The places of the fingerprints before one.
#[derive(Drop)]
pub struct Placing {
    fprs: Vec<Fpr, Global>,
    places: Places,
    next: usize,
}

impl Placing {
    /// No places yet.
    pub(crate) fn new(alloc: Global, fprs: Vec<Fpr>) -> Placing {
        Placing {
            fprs,
            places: Places::new(alloc),
            next: 0,
        }
    }

    pub(crate) fn is_over(&self) -> bool {
        self.next >= self.fprs.len()
    }

    /// Notes the place of the next fingerprint.
    pub(crate) fn place(&mut self, alloc: Global) -> Result<(), Memory> {
        let Some(fpr) = self.fprs.get(self.next) else {
            return Ok(());
        };
        let place = u32::try_from(self.next).unwrap_or(u32::MAX);
        self.places.add(alloc, self.fprs.len(), fpr, place)?;
        self.next = self.next.saturating_add(1);
        Ok(())
    }

    /// Before the first links.
    pub(crate) fn link(self, alloc: Global) -> Linking {
        Linking {
            fprs: self.fprs,
            places: self.places,
            links: Vec::new(alloc),
            next: 0,
        }
    }
}

/// Appends the link of an edge, if it may pass something on. Most edges don't make their target an introducer.
fn put_link(
    places: &Places,
    edge: &Edge,
    target: u32,
    row: u32,
    links: &mut Vec<Link>,
) -> Result<(), Memory> {
    let facts = edge.facts();
    if facts.amount == 0 || facts.depth == 0 {
        return Ok(());
    }
    if let Some(issuer) = places.find(&facts.issuer) {
        links.push(Link {
            issuer,
            target,
            row,
            depth: facts.depth,
        })?;
    }
    Ok(())
}

/// Appends the links into a fingerprint.
fn put_links<R: Roads>(
    roads: &R,
    places: &Places,
    fpr: &Fpr,
    target: u32,
    links: &mut Vec<Link>,
) -> Result<(), Memory> {
    let edges = roads.rows(fpr);
    let mut row: u32 = 0;
    'edges: for edge in edges {
        put_link(places, edge, target, row, links)?;
        row = row.saturating_add(1);
    }
    Ok(())
}

/// The links into the fingerprints before one.
#[derive(Drop)]
pub struct Linking {
    fprs: Vec<Fpr, Global>,
    places: Places,
    links: Vec<Link, Global>,
    next: usize,
}

/// The numbers after some passes over the links and a part of the next pass.
#[derive(Drop)]
pub struct Passing {
    fprs: Vec<Fpr, Global>,
    links: Vec<Link, Global>,
    numbers: Vec<u8, Global>,
    next: usize,
    // Whether a number rose in this pass.
    rose: bool,
    // How many more passes there may be.
    passes: u8,
}

impl Linking {
    pub(crate) fn is_over(&self) -> bool {
        self.next >= self.fprs.len()
    }

    /// Appends the links into the next fingerprint.
    pub(crate) fn link<R: Roads>(&mut self, roads: &R) -> Result<(), Memory> {
        let Some(fpr) = self.fprs.get(self.next) else {
            return Ok(());
        };
        let target = u32::try_from(self.next).unwrap_or(u32::MAX);
        put_links(roads, &self.places, fpr, target, &mut self.links)?;
        self.next = self.next.saturating_add(1);
        Ok(())
    }

    /// Before the first pass.
    pub(crate) fn to_passing(self, alloc: Global, roots: &Roots) -> Result<Passing, Memory> {
        let numbers = first_numbers(alloc, roots, &self.fprs)?;
        Ok(Passing {
            fprs: self.fprs,
            links: self.links,
            numbers,
            next: 0,
            rose: false,
            passes: 255,
        })
    }
}

impl Passing {
    /// Whether a pass is done in which no number rose.
    pub(crate) fn is_over(&self) -> bool {
        self.next >= self.links.len() && (!self.rose || self.passes == 0)
    }

    /// A table for them, still empty.
    pub(crate) fn numbering(self, alloc: Global) -> Numbering
        ensures keys { AreKeysOf result.fprs.items result.table }
    {
        Numbering::new(alloc, self.fprs, self.numbers)
    }

    /// Passes numbers along some more links.
    pub(crate) fn pass_on<R: Roads>(&mut self, roads: &R) {
        if self.next >= self.links.len() {
            self.next = 0;
            self.rose = false;
            self.passes = self.passes.saturating_sub(1);
        }
        let to = self.next.saturating_add(LINKS).min(self.links.len());
        if raise_some(
            roads,
            &self.fprs,
            &mut self.links,
            &mut self.numbers,
            self.next,
            to,
        ) {
            self.rose = true;
        }
        self.next = to;
    }
}

/// Whether the edge at a place among those into a fingerprint is usable.
fn is_usable_at<R: Roads>(roads: &R, fpr: &Fpr, row: usize) -> bool {
    let edges = roads.rows(fpr);
    if row >= edges.len() {
        return false;
    }
    roads.usable(&edges[row])
}

/// Whether the edge of a link is usable.
fn carries<R: Roads>(roads: &R, fprs: &[Fpr], link: &Link) -> bool {
    match fprs.get(link.target as usize) {
        Some(fpr) => is_usable_at(roads, fpr, link.row as usize),
        None => false,
    }
}

/// Before anything is passed on, a root has 255, and any other fingerprint 0.
fn first_numbers(alloc: Global, roots: &Roots, fprs: &[Fpr]) -> Result<Vec<u8>, Memory> {
    let mut numbers = Vec::new(alloc);
    for fpr in fprs {
        numbers.push(if roots.get(fpr) > 0 { 255 } else { 0 })?;
    }
    Ok(numbers)
}

/// The number that a link passes on, if that is more than its target has.
fn passed_on(link: &Link, numbers: &[u8]) -> Option<u8> {
    let Some(number) = numbers.get(link.issuer as usize) else {
        return None;
    };
    let Some(target) = numbers.get(link.target as usize) else {
        return None;
    };
    let passed_on = link.depth.min(number.saturating_sub(1));
    if passed_on > *target {
        Some(passed_on)
    } else {
        None
    }
}

/// Raises the target's number to what a link passes on. The edge is looked up only here, since few links raise a
/// number.
fn pass_on<R: Roads>(roads: &R, fprs: &[Fpr], link: &Link, numbers: &mut [u8]) -> Passed {
    let Some(passed_on) = passed_on(link, numbers) else {
        return Passed::Nothing;
    };
    if !carries(roads, fprs, link) {
        return Passed::Never;
    }
    if let Some(target) = numbers.get_mut(link.target as usize) {
        *target = passed_on;
    }
    Passed::Raised
}

/// Passes numbers along the links from one place to another. Returns whether a number rose.
fn raise_some<R: Roads>(
    roads: &R,
    fprs: &[Fpr],
    links: &mut [Link],
    numbers: &mut [u8],
    from: usize,
    to: usize,
) -> bool {
    let mut rose = false;
    for place in from..to.min(links.len()) {
        let link = links[place];
        match pass_on(roads, fprs, &link, numbers) {
            Passed::Nothing => {}
            Passed::Never => links[place] = Link { depth: 0, ..link },
            Passed::Raised => rose = true,
        }
    }
    rose
}
