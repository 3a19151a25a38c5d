//! A table of reach, made in steps, so that many questions share its cost.
//!
//! It uses `reaching`, which finds the numbers, and `checking`, which checks them. `wot_answers` takes some
//! steps with each question to a view.
ghost use Rattle.std.specs.Prelude.{ℕ, List, IfOk};
ghost use Rattle.wot_types.specs.declared.fpr.Fpr.{Fpr as Print};
ghost use Rattle.wot_edge.specs.Record.{Record};
ghost use Rattle.wot_reach.specs.Making.{GivesReach, IsChecking, IsMaking};
ghost use Rattle.wot_reach.specs.Reach.{IsReach};

use crate::checking::{Checking, Numbering};
use crate::reach::Reach;
use crate::reaching::{Linking, Passing, Placing};
use std::alloc::Global;
use wot_edge::{Roads, Roots};
use wot_types::{Fpr, Memory};

/// How far a table of reach has been made.
#[derive(Drop)]
pub enum Making {
    /// The fingerprints are there: those with edges into them. If some are missing, the table may end up leaving
    /// nothing out.
    Begun(Vec<Fpr, Global>),
    /// Their places are being noted.
    Placing(Placing),
    /// The links between them are being collected.
    Linking(Linking),
    /// Numbers are being passed on along the links.
    Passing(Passing),
    /// The numbers are being put into a table.
    Numbering(Numbering),
    /// The table is being filled and checked.
    Checking(Checking),
    /// The table is made.
    Made(Reach),
}

impl Making {
    /// The table, once it is made.
    pub fn reach(&self) -> Option<&Reach>
        ensures reach { GivesReach self.now result }
    {
        match self {
            Making::Made(reach) => Some(reach),
            Making::Begun(_) => None,
            Making::Placing(_) => None,
            Making::Linking(_) => None,
            Making::Passing(_) => None,
            Making::Numbering(_) => None,
            Making::Checking(_) => None,
        }
    }

    /// How long the next step takes, in units of one look at an edge.
    fn weight(&self) -> u64 {
        match self {
            Making::Linking(_) => 4,
            Making::Passing(_) => 32,
            Making::Checking(checking) => if checking.is_slotted() { 8 } else { 1 },
            Making::Begun(_) => 1,
            Making::Placing(_) => 1,
            Making::Numbering(_) => 1,
            Making::Made(_) => 1,
        }
    }

    /// Takes one step: one fingerprint, or some links, of the current phase.
    fn step<R: Roads>(self, alloc: Global, roads: &R, roots: &Roots) -> Result<Making, Memory>
        requires making { IsMaking (R.network roads.now) roots.now self }
        ensures making { IfOk result (IsMaking (R.network roads.now) roots.now) }
    {
        match self {
            Making::Begun(fprs) => Ok(Making::Placing(Placing::new(alloc, fprs))),
            Making::Placing(placing) => placed(alloc, placing),
            Making::Linking(linking) => linked(alloc, roads, roots, linking),
            Making::Passing(passing) => passed(alloc, roads, passing),
            Making::Numbering(numbering) => numbering.number(alloc),
            Making::Checking(checking) => checked(alloc, roads, roots, checking),
            Making::Made(reach) => Ok(Making::Made(reach)),
        }
    }

    /// Goes on, with the network and the roots that it was begun with, for about as long as this many looks at edges
    /// take.
    pub fn advanced<R: Roads>(
        self,
        alloc: Global,
        roads: &R,
        roots: &Roots,
        looks: u64,
    ) -> Result<Making, Memory>
        requires making { IsMaking (R.network roads.now) roots.now self }
        ensures making { IfOk result (IsMaking (R.network roads.now) roots.now) }
    {
        let mut making = self;
        let mut left = looks;
        'steps: for _step in 0..looks {
            if left == 0 || making.reach().is_some() {
                return Ok(making);
            }
            left = left.saturating_sub(making.weight());
            making = making.step(alloc, roads, roots)?;
        }
        Ok(making)
    }
}

/// Notes one more place; after the last one, links are collected.
fn placed(alloc: Global, placing: Placing) -> Result<Making, Memory>
    ensures making { (network : List ℕ → Record) (amounts : List (Print × ℕ)) → IfOk result (IsMaking network amounts) }
{
    if placing.is_over() {
        return Ok(Making::Linking(placing.link(alloc)));
    }
    let mut placing = placing;
    placing.place(alloc)?;
    Ok(Making::Placing(placing))
}

/// Collects the links of one more fingerprint; after the last one, numbers are passed on.
fn linked<R: Roads>(
    alloc: Global,
    roads: &R,
    roots: &Roots,
    linking: Linking,
) -> Result<Making, Memory>
    ensures making { (network : List ℕ → Record) (amounts : List (Print × ℕ)) → IfOk result (IsMaking network amounts) }
{
    if linking.is_over() {
        return Ok(Making::Passing(linking.to_passing(alloc, roots)?));
    }
    let mut linking = linking;
    linking.link(roads)?;
    Ok(Making::Linking(linking))
}

/// Passes numbers along some links; after the last pass, the numbers are put into a table.
fn passed<R: Roads>(alloc: Global, roads: &R, passing: Passing) -> Result<Making, Memory>
    ensures making { (network : List ℕ → Record) (amounts : List (Print × ℕ)) → IfOk result (IsMaking network amounts) }
{
    if passing.is_over() {
        return Ok(Making::Numbering(passing.numbering(alloc)));
    }
    let mut passing = passing;
    passing.pass_on(roads);
    Ok(Making::Passing(passing))
}

/// Adds one slot; after the last one, checks one fingerprint.
fn checked<R: Roads>(
    alloc: Global,
    roads: &R,
    roots: &Roots,
    checking: Checking,
) -> Result<Making, Memory>
    requires checking { IsChecking (R.network roads.now) roots.now checking }
    ensures making { IfOk result (IsMaking (R.network roads.now) roots.now) }
{
    if checking.is_slotted() {
        return checking.check(alloc, roads, roots);
    }
    Ok(Making::Checking(checking.slot()?))
}

/// Makes a whole table: how far before any target each fingerprint may come on a path from these roots, whatever user
/// ID is asked for. The fingerprints are those with edges into them. If some are missing, the table may leave nothing
/// out.
pub fn make_reach<R: Roads>(
    alloc: Global,
    roads: &R,
    roots: &Roots,
    fprs: &[Fpr],
) -> Result<Reach, Memory>
    ensures reach { IfOk result (λ reach. IsReach (R.network roads.now) roots.now reach) }
{
    let mut all = Vec::new(alloc);
    all.extend_from_slice(fprs)?;
    match Making::Begun(all).advanced(alloc, roads, roots, u64::MAX)? {
        Making::Made(reach) => Ok(reach),
        _ => Ok(Reach::everywhere(alloc)),
    }
}
