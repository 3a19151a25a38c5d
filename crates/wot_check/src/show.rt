//! From claims to paths: whether each claimed path is valid and has its residual amount.
//!
//! It uses `trace` for the steps and `using` for what earlier paths use, and `specs/Claim.antt`. `check`
//! calls it first.
ghost use Rattle.std.specs.Prelude.{◌≡◌, ◌↔◌, ◌<◌, ◌^◌, ℕ, List, true, length, IfOk};
ghost use Rattle.wot_edge.specs.Path.{asks, Distinct, issuers};
ghost use Rattle.wot_edge.specs.Record.{Has, IsRecord, Record};
ghost use Rattle.wot_check.specs.Absence.{is_in_order};
ghost use Rattle.wot_check.specs.Asked.{question_of, used_in};
ghost use Rattle.wot_check.specs.Trace.{AreUsedBy, IsPathBy, IsShown};

use crate::asked::Asked;
use crate::claimed::Claimed;
use crate::left::left_of_path;
use crate::trace::trace;
use crate::using::{add, unused};
use std::alloc::Global;
use wot_edge::{Path, Roads, Roots, Step, StepList, Used, is_same};
use wot_types::{Fpr, Memory};

/// Whether a step has this issuer.
fn has_issuer(steps: &[Step], fpr: &Fpr) -> bool
    ensures { (result ≡ true) ↔ Has (issuers steps.now) fpr.now }
{
    let mut rest = steps;
    'rest: while let Some((step, later)) = rest.split_first() {
        if is_same(fpr, &step.issuer) {
            return true;
        }
        rest = later;
    }
    false
}

/// Whether no issuer occurs twice.
fn are_distinct(steps: &[Step]) -> bool
    ensures { (result ≡ true) ↔ Distinct (issuers steps.now) }
{
    let mut rest = steps;
    'rest: while let Some((step, later)) = rest.split_first() {
        if has_issuer(later, &step.issuer) {
            return false;
        }
        rest = later;
    }
    true
}

/// The path by these steps, if no issuer occurs twice and this is its residual amount.
fn path_by(asked: &Asked, amount: u8, steps: Vec<Step>) -> Option<Path>
    ensures { (network : List ℕ → Record)
        → IsPathBy (question_of network asked.now) (used_in asked.now) amount steps.items result }
{
    let root = match steps.split_first() {
        Some((step, _)) => step.issuer,
        None => return None,
    };
    let left = left_of_path(asked, &root, &steps);
    if left == 0 {
        return None;
    }
    if left != amount {
        return None;
    }
    if !are_distinct(&steps) {
        return None;
    }
    Some(Path {
        amount,
        root,
        steps: StepList::new(steps),
    })
}

/// The path that a claim shows, if it shows one.
fn show<R: Roads>(
    alloc: Global,
    roads: &R,
    asked: &Asked,
    claim: &Claimed,
) -> Result<Option<Path>, Memory>
    requires in_order { is_in_order (question_of (R.network roads.now) asked.now) ≡ true }
    requires lawful { IsRecord (R.network roads.now asked.now.uid.now) }
    ensures shown { IfOk result
        (λ found. IsShown (question_of (R.network roads.now) asked.now) (used_in asked.now) claim.now found) }
{
    if claim.steps().is_empty() || claim.steps().len() > 255 {
        return Ok(None);
    }
    match trace(alloc, roads, asked, claim.steps())? {
        None => Ok(None),
        Some(steps) => Ok(path_by(asked, claim.amount(), steps)),
    }
}

/// What the claimed paths use, if each claim shows a path after those before it.
pub fn show_all<R: Roads>(
    alloc: Global,
    roads: &R,
    roots: &Roots,
    claims: &[Claimed],
    target: &Fpr,
    uid: &[u8],
) -> Result<Option<Used>, Memory>
    requires few { length claims.now < 2 ^ 24 }
    requires in_order { is_in_order (asks (R.network roads.now uid.now) roots.now target.now) ≡ true }
    requires lawful { IsRecord (R.network roads.now uid.now) }
    ensures used { IfOk result
        (λ used. AreUsedBy (asks (R.network roads.now uid.now) roots.now target.now) claims.now used) }
{
    let mut used = unused(alloc);
    let mut rest = claims;
    'rest: while let Some((claim, later)) = rest.split_first() {
        let asked = Asked {
            roots,
            used: &used,
            target,
            uid,
        };
        match show(alloc, roads, &asked, claim)? {
            None => return Ok(None),
            Some(path) => add(&mut used, &path)?,
        }
        rest = later;
    }
    Ok(Some(used))
}
