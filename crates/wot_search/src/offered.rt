//! Next paths from offers: which offer of an earlier search is the next path now.
//!
//! It uses `offers` and `specs/Offers.antt`. `wot_auth` asks it for each path after the first, which saves a
//! search most of the time.
ghost use Rattle.std.specs.Prelude.{◌≡◌, ◌≤◌, nat_le, IfOk, OnOk};
ghost use Rattle.wot_edge.specs.Answer.{IsNextOrSpent};
ghost use Rattle.wot_edge.specs.Path.{step_left};
ghost use Rattle.wot_edge.specs.Sums.{use_in};
ghost use Rattle.wot_first_path.specs.Asked.{LeadsToAsked};
ghost use Rattle.wot_search.specs.Asked.{HasItsReach, TakesLocally, question_of};
ghost use Rattle.wot_first_path.specs.Looked.{Gains, Widens};
ghost use Rattle.wot_search.specs.Offers.{AreOffersFor, IsOpenOffer, KeepsOffers};
ghost use Rattle.wot_search.specs.Offers.{first_path, is_first_spent, is_left, left_at};

use crate::offers::next_paths_within;
use std::alloc::Global;
use wot_edge::{Path, Roads, Roots, Step, Used, left_of_step, remaining};
use wot_first_path::{Asked, Notes};
use wot_types::{Fpr, Memory};

/// The residual amount of a root.
fn left_of(roots: &Roots, used: &Used, fpr: &Fpr) -> u8
    ensures { result ≡ left_at roots.now (use_in used.now) fpr.now }
{
    remaining(roots.get(fpr), used.root(fpr))
}

fn has_left(used: &Used, amount: u8, step: &Step) -> bool
    ensures { result ≡ nat_le amount (step_left (use_in used.now) step.now) }
{
    amount <= left_of_step(used, step)
}

/// Whether each of these edges has at least this residual amount.
fn have_left(used: &Used, amount: u8, steps: &[Step]) -> bool
    ensures { result ≡ is_left (use_in used.now) amount steps.now }
{
    steps.iter().all(|step| has_left(used, amount, step))
}

/// Whether the first offer's root has less left than the offer's amount.
fn is_spent(roots: &Roots, used: &Used, offers: &[Path]) -> bool
    ensures { result ≡ is_first_spent roots.now (use_in used.now) offers.now }
{
    match offers.first() {
        None => false,
        Some(path) => left_of(roots, used, &path.root) < path.amount,
    }
}

/// Drops the first offers whose roots have too little left.
pub(crate) fn drop_spent(roots: &Roots, used: &Used, offers: &mut Vec<Path>)
    ensures { KeepsOffers roots.now (use_in used.now) offers.old.items offers.new.items }
{
    'spent: while is_spent(roots, used, offers.as_slice()) {
        let _spent = offers.remove(0);
    }
}

/// The first offer.
pub(crate) fn first_of(offers: &[Path]) -> Result<Option<Path>, Memory>
    ensures { IfOk result (λ found. found ≡ first_path offers.now) }
{
    match offers.first() {
        None => Ok(None),
        Some(path) => {
            let path = path.duplicate()?;
            Ok(Some(path))
        }
    }
}

/// The first offer, if its amount is left of its root and of its edges.
pub(crate) fn open_offer(
    roots: &Roots,
    used: &Used,
    offers: &[Path],
) -> Result<Option<Path>, Memory>
    ensures { IfOk result (IsOpenOffer roots.now (use_in used.now) offers.now) }
{
    let Some(path) = first_of(offers)? else {
        return Ok(None);
    };
    if left_of(roots, used, &path.root) < path.amount {
        return Ok(None);
    }
    if !have_left(used, path.amount, path.steps.as_slice()) {
        return Ok(None);
    }
    Ok(Some(path))
}

/// Finds the next path: from the offers of an earlier search if it is one of them, otherwise by a search that leaves
/// its own. `None` if no valid path of positive amount is left.
pub fn next_offered<R: Roads, N: Notes>(
    alloc: Global,
    roads: &R,
    asked: &Asked,
    used: &Used,
    offers: &mut Vec<Path>,
    notes: &mut N,
) -> Result<Option<Path>, Memory>
    requires reach { HasItsReach (R.network roads.now) asked.now }
    requires offers { AreOffersFor (question_of (R.network roads.now) asked.now) (use_in used.now) offers.old.items }
    ensures next { IfOk result (IsNextOrSpent (question_of (R.network roads.now) asked.now) (use_in used.now)) }
    ensures offers { OnOk result (AreOffersFor (question_of (R.network roads.now) asked.now) (use_in used.now)
        offers.new.items) }
    ensures grows { Widens (N.noted notes.old) (N.noted notes.new) }
    ensures falls { N.budget notes.new ≤ N.budget notes.old }
    ensures paid { N.total notes.new ≤ N.total notes.old }
    ensures leads { Gains (LeadsToAsked (R.network roads.now) asked.now) (N.noted notes.old) (N.noted notes.new) }

    // If the table leaves nothing out, this holds for every question that agrees on a set that contains what was noted
    // and that had the earlier offers.
    ensures local { IfOk result (TakesLocally (R.network roads.now) asked.now used.now (N.noted notes.new)
        offers.old.items offers.new.items) }
{
    drop_spent(asked.roots, used, offers);
    if let Some(path) = open_offer(asked.roots, used, offers.as_slice())? {
        return Ok(Some(path));
    }
    *offers = next_paths_within(alloc, roads, asked, used, notes)?;
    let found = first_of(offers.as_slice())?;
    Ok(found)
}
