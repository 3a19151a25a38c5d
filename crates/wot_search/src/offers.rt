//! Offers: the next paths of several roots, found by one search.
//!
//! It uses `widest`, the searches of `wot_first_path`, and `specs/Offers.antt`. `offered` takes paths from
//! them while their amounts last.
ghost use Rattle.std.specs.Prelude.{◌≡◌, ◌≤◌, ℕ, List, nat_le, true, IfOk, IfSome, OnOk};
ghost use Rattle.std.specs.List.{list_all};
ghost use Rattle.std.specs.Map.{values_of};
ghost use Rattle.wot_edge.specs.Record.{IsRecord};
ghost use Rattle.wot_edge.specs.Roots.{NoneOver};
ghost use Rattle.wot_edge.specs.Sums.{use_in};
ghost use Rattle.wot_search.specs.Asked.{AreNextIfSome, AreNextLocally, AreNextLocallyIfSome};
ghost use Rattle.wot_first_path.specs.Asked.{LeadsToAsked};
ghost use Rattle.wot_search.specs.Asked.{HasItsReach, question_of};
ghost use Rattle.wot_first_path.specs.Growth.{IsAfter};
ghost use Rattle.wot_first_path.specs.Looked.{Gains, Widens};
ghost use Rattle.wot_search.specs.Offers.{AddsOffer, AreFoundOffers, AreNextFor, AreOfferedBy, AreWide, IsOfferIf};
ghost use Rattle.wot_search.specs.Widest.{AreNextByWidest, IsWidest};
ghost use Rattle.wot_first_path.specs.Quest.{LeadsOn, WhateverTold, quest_of};
ghost use Rattle.wot_first_path.specs.Reached.{look};

use crate::next::bound_amounts;
use crate::widest::widest;
use std::alloc::Global;
use std::collections::BTreeMap;
use wot_edge::{Path, Roads, Roots, Used};
use wot_first_path::{
    Asked, Choice, Goal, Node, Notes, Quest, Reached, Unnoted, advance, begin, first_from,
    left_of_root, node_at, path_from,
};
use wot_types::{Fpr, Memory};

/// What a search finds in this many layers. What it looks at isn't noted.
fn layers_of<R: Roads>(
    alloc: Global,
    roads: &R,
    quest: &Quest,
    count: u8,
) -> Result<Reached, Memory>
    requires lawful { (id : List ℕ) → IsRecord (R.network roads.now id) }
    requires onward { LeadsOn (R.network roads.now) quest.now }
    ensures after { IfOk result (λ reached. IsAfter (quest_of (R.network roads.now) quest.now) count reached
        (λ fpr. Unit {0})) }
{
    let mut reached = begin(alloc, quest.asked.target)?;
    'layers: for size in 0..count {
        advance(alloc, roads, quest, size, &mut reached, &mut Unnoted)?;
    }
    Ok(reached)
}

/// The path of `size` edges that was found from a root. `None` if there is none, or too little is left of the root.
fn offer_of(
    alloc: Global,
    quest: &Quest,
    nodes: &BTreeMap<Fpr, Node>,
    size: u8,
    fpr: &Fpr,
) -> Result<Option<Path>, Memory>
    ensures { IfOk result (λ offer. WhateverTold quest.now (λ q. IsOfferIf q (look nodes.now) size fpr.now offer)) }
{
    let Some(node) = node_at(nodes, fpr) else {
        return Ok(None);
    };
    if node.size != size {
        return Ok(None);
    }
    if left_of_root(quest, fpr) < quest.least {
        return Ok(None);
    }
    let choice = Choice {
        fpr: *fpr,
        width: quest.least,
    };
    let path = path_from(alloc, nodes, &choice, size)?;
    Ok(Some(path))
}

/// Appends the offer of a root, if it has one.
fn put_offer(
    alloc: Global,
    quest: &Quest,
    nodes: &BTreeMap<Fpr, Node>,
    size: u8,
    fpr: &Fpr,
    paths: &mut Vec<Path>,
) -> Result<(), Memory>
    ensures { OnOk result (WhateverTold quest.now (λ q. AddsOffer q (look nodes.now) size fpr.now
        paths.old.items paths.new.items)) }
{
    match offer_of(alloc, quest, nodes, size, fpr)? {
        None => Ok(()),
        Some(path) => {
            paths.push(path)?;
            Ok(())
        }
    }
}

/// The offers of all roots, in order.
fn offers_of(
    alloc: Global,
    quest: &Quest,
    nodes: &BTreeMap<Fpr, Node>,
    size: u8,
) -> Result<Vec<Path>, Memory>
    ensures { IfOk result (λ paths. WhateverTold quest.now (λ q. AreOfferedBy q (look nodes.now) size
        quest.now.asked.roots.now paths.items)) }
{
    let mut paths = Vec::new(alloc);
    'roots: for (fpr, _amount) in quest.asked.roots.iter() {
        put_offer(alloc, quest, nodes, size, &fpr, &mut paths)?;
    }
    Ok(paths)
}

/// The offers of all roots, by a search in this many layers.
pub(crate) fn offers_by<R: Roads>(
    alloc: Global,
    roads: &R,
    quest: &Quest,
    size: u8,
) -> Result<Vec<Path>, Memory>
    requires lawful { (id : List ℕ) → IsRecord (R.network roads.now id) }
    requires onward { LeadsOn (R.network roads.now) quest.now }
    ensures { IfOk result (λ paths. AreFoundOffers (quest_of (R.network roads.now) quest.now) size
        quest.now.asked.roots.now paths.items) }
{
    let reached = layers_of(alloc, roads, quest, size)?;
    let paths = offers_of(alloc, quest, &reached.nodes, size)?;
    Ok(paths)
}

/// Next paths by a search for the least lists of the greatest amount, once a path of this amount was found.
pub(crate) fn offers_after<R: Roads>(
    alloc: Global,
    roads: &R,
    asked: &Asked,
    used: &Used,
    wide: &Path,
) -> Result<Vec<Path>, Memory>
    requires reach { HasItsReach (R.network roads.now) asked.now }
    requires lawful { (id : List ℕ) → IsRecord (R.network roads.now id) }
    requires widest { IsWidest (R.network roads.now) asked.now used.now wide.now }
    ensures next { IfOk result (λ paths. AreNextFor (question_of (R.network roads.now) asked.now) (use_in used.now)
        paths.items) }
    ensures local { IfOk result
        (λ paths. AreNextByWidest (R.network roads.now) asked.now used.now wide.now paths.items) }
{
    bound_amounts(asked.roots);
    // The order of the roots, as a fact.
    let _count = asked.roots.len();
    let quest = Quest {
        asked: *asked,
        used,
        goal: Goal::Least,
        least: wide.amount,
    };
    let size = wide.steps.as_slice().len() as u8;
    let paths = offers_by(alloc, roads, &quest, size)?;
    Ok(paths)
}

/// Whether no root has more.
fn is_most(roots: &Roots, amount: u8) -> bool
    ensures most { result ≡ true → NoneOver amount roots.now }
{
    'roots: for (_fpr, most) in roots.iter() {
        if amount < most {
            return false;
        }
    }
    true
}

/// Whether each node has at least this width.
fn are_wide(nodes: &BTreeMap<Fpr, Node>, amount: u8) -> bool
    ensures wide { result ≡ list_all (λ node. nat_le amount node.width) (values_of nodes.now.entries) }
{
    nodes.values().all(|node| amount <= node.width)
}

/// Whether this amount is the greatest, and everything that was found has it.
fn serves(roots: &Roots, nodes: &BTreeMap<Fpr, Node>, amount: u8) -> bool
    ensures most { result ≡ true → NoneOver amount roots.now }
    ensures wide { result ≡ true → AreWide amount (look nodes.now) }
{
    if !is_most(roots, amount) {
        return false;
    }
    are_wide(nodes, amount)
}

/// Next paths by one search, which finds both the greatest amount and the least lists if all amounts are equal, as most
/// are. `None` if it doesn't: then two searches have to. It isn't tried if the table leaves nothing out.
fn next_paths_by_one<R: Roads, N: Notes>(
    alloc: Global,
    roads: &R,
    asked: &Asked,
    used: &Used,
    notes: &mut N,
) -> Result<Option<Vec<Path>>, Memory>
    requires reach { HasItsReach (R.network roads.now) asked.now }
    ensures next { IfOk result (AreNextIfSome (R.network roads.now) asked.now used.now) }
    ensures local { IfOk result (AreNextLocallyIfSome (R.network roads.now) asked.now used.now (N.noted notes.new)) }
    ensures grows { Widens (N.noted notes.old) (N.noted notes.new) }
    ensures falls { N.budget notes.new ≤ N.budget notes.old }
    ensures paid { N.total notes.new ≤ N.total notes.old }
    ensures leads { Gains (LeadsToAsked (R.network roads.now) asked.now) (N.noted notes.old) (N.noted notes.new) }
    ensures lawful { IfOk result (λ found. IfSome found (λ paths. IsRecord (R.network roads.now asked.now.uid.now))) }
{
    if asked.reach.is_everywhere() {
        return Ok(None);
    }
    notes.note(asked.target)?;
    if !roads.in_order(asked.target, asked.uid) {
        return Ok(Some(Vec::new(alloc)));
    }
    bound_amounts(asked.roots);
    // The order of the roots, as a fact.
    let _count = asked.roots.len();
    let any = Quest {
        asked: *asked,
        used,
        goal: Goal::Least,
        least: 1,
    };
    let mut reached = begin(alloc, asked.target)?;
    match first_from(alloc, roads, &any, &mut reached, notes)? {
        None => Ok(Some(Vec::new(alloc))),
        Some(path) => {
            if !serves(asked.roots, &reached.nodes, path.amount) {
                return Ok(None);
            }
            let least = Quest {
                least: path.amount,
                ..any
            };
            let size = path.steps.as_slice().len() as u8;
            let paths = offers_of(alloc, &least, &reached.nodes, size)?;
            Ok(Some(paths))
        }
    }
}

/// Finds several next paths at once: the next one, and for each later root the one that is next once the roots
/// before it have less left, as long as its own root and edges still have its amount. None if no valid path of positive
/// amount is left. The search skips issuers beyond their reach. Every fingerprint that was looked at is noted.
pub fn next_paths_within<R: Roads, N: Notes>(
    alloc: Global,
    roads: &R,
    asked: &Asked,
    used: &Used,
    notes: &mut N,
) -> Result<Vec<Path>, Memory>
    requires reach { HasItsReach (R.network roads.now) asked.now }
    ensures next { IfOk result (λ paths. AreNextFor (question_of (R.network roads.now) asked.now) (use_in used.now)
        paths.items) }
    ensures grows { Widens (N.noted notes.old) (N.noted notes.new) }
    ensures falls { N.budget notes.new ≤ N.budget notes.old }
    ensures paid { N.total notes.new ≤ N.total notes.old }
    ensures leads { Gains (LeadsToAsked (R.network roads.now) asked.now) (N.noted notes.old) (N.noted notes.new) }

    // If the table leaves nothing out, every question that agrees on a set with all that was noted has them too.
    ensures local { IfOk result (λ paths. AreNextLocally (R.network roads.now) asked.now used.now (N.noted notes.new)
        paths.items) }
    ensures lawful { IfOk result (λ paths. IsRecord (R.network roads.now asked.now.uid.now)) }
{
    match next_paths_by_one(alloc, roads, asked, used, notes)? {
        Some(paths) => Ok(paths),
        None => match widest(alloc, roads, asked, used, notes)? {
            None => Ok(Vec::new(alloc)),
            Some(path) => {
                let paths = offers_after(alloc, roads, asked, used, &path)?;
                Ok(paths)
            }
        },
    }
}
