//! The reply to `check`: whether claimed paths and a table show that the amount isn't higher. It reads the claims and
//! asks wot_check. Nothing is searched.
ghost use Rattle.std.specs.Prelude.{◌≡◌, ◌<◌, ◌^◌, length, map, IfOk};
ghost use Rattle.wot_check.specs.Table.{IsTable};
ghost use Rattle.wot_reply_lines.specs.Claims.{IsClaimSpelled};
ghost use Rattle.wot_cache.specs.Marks.{IsRefreshed};
ghost use Rattle.wot_command.specs.Claimed.{ChecksFor, ChecksOver};
ghost use Rattle.wot_plain.specs.Absent.{claim_in, sum_in, table_in, verdict_on};

use std::alloc::Global;
use wot_cache::{Engine, Parts};
use wot_check::{Checked, Claimed, Table};
use wot_plain::{Refused, reply_to};
use wot_script::{ClaimLine, ClaimLines, LabelLine, LabelLines, Reply};
use wot_types::{Fpr, Memory, Steps, ViewName};

/// What `check` is given: the user ID of a key, the paths that are claimed for it, and the labels of the table.
#[derive(Clone, Copy)]
pub struct ClaimedAbsence<'a> {
    pub target: &'a Fpr,
    pub claims: &'a ClaimLines,
    pub labels: &'a LabelLines,
    pub uid: &'a [u8],
}

/// The reply to `check`: whether claimed paths and a table prove, from a view, that the amount isn't higher. Nothing is
/// searched. Refused if the view isn't open.
pub fn check(
    alloc: Global,
    engine: &mut Engine,
    steps: &mut Steps,
    view: &ViewName,
    claim: &ClaimedAbsence<'_>,
) -> Result<Reply, Memory>
    requires few { length claim.now.claims.now < 2 ^ 24 }
    requires spelled { IsClaimSpelled claim.now.claims.now claim.now.labels.now }
    ensures checks { IfOk result (ChecksFor engine.old view.now claim.now) }
    ensures keyring { engine.new.keyring ≡ engine.old.keyring }
    ensures views { engine.new.views ≡ engine.old.views }
    ensures refreshed { IsRefreshed result view.now engine.old engine.new steps.old.made steps.new.made }
{
    match engine.parts(view, steps) {
        Ok(parts) => check_from(alloc, &parts, claim),
        Err(fault) => reply_to(Refused::from(fault)),
    }
}

/// The reply over the parts of the view.
fn check_from(alloc: Global, parts: &Parts<'_>, claim: &ClaimedAbsence<'_>) -> Result<Reply, Memory>
    requires few { length claim.now.claims.now < 2 ^ 24 }
    requires spelled { IsClaimSpelled claim.now.claims.now claim.now.labels.now }
    ensures checks { IfOk result (ChecksOver parts.now claim.now) }
{
    let claims = claim.claims.items();
    let paths = claimed_paths(alloc, claims)?;
    let table = claimed_table(alloc, claim.labels.items())?;
    let (roads, roots) = (&parts.roads, parts.roots);
    let (paths, target, uid) = (paths.as_slice(), claim.target, claim.uid);
    let checked = wot_check::check(alloc, roads, roots, paths, &table, target, uid)?;
    Ok(verdict(claims, checked))
}

/// The reply to claims, by the result of their check.
fn verdict(claims: &[ClaimLine], checked: Checked) -> Reply
    requires few { length claims.now < 2 ^ 24 }
    ensures verdict { result ≡ verdict_on claims.now checked }
{
    match checked {
        Checked::Yes => Reply::CheckedYes(sum(claims)),
        Checked::BadPaths => Reply::CheckedNoPaths,
        Checked::BadTable => Reply::CheckedNoTable,
    }
}

/// The sum of the claimed amounts.
fn sum(claims: &[ClaimLine]) -> u32
    requires few { length claims.now < 2 ^ 24 }
    ensures sum { result ≡ sum_in claims.now }
{
    let mut sum: u32 = 0;
    let mut left = claims;
    'claims: while let Some((claim, others)) = left.split_first() {
        sum += u32::from(claim.0);
        left = others;
    }
    sum
}

/// The claimed paths.
fn claimed_paths(alloc: Global, claims: &[ClaimLine]) -> Result<Vec<Claimed>, Memory>
    ensures paths { IfOk result (λ paths. paths.items ≡ map claim_in claims.now) }
{
    let mut paths: Vec<Claimed> = Vec::new(alloc);
    let mut left = claims;
    'claims: while let Some((claim, others)) = left.split_first() {
        paths.push(claimed_path(alloc, claim)?)?;
        left = others;
    }
    Ok(paths)
}

fn claimed_path(alloc: Global, claim: &ClaimLine) -> Result<Claimed, Memory>
    ensures path { IfOk result (λ path. path ≡ claim_in claim.now) }
{
    let mut path = Claimed::new(alloc, claim.0);
    let mut left = claim.1.items();
    'steps: while let Some((step, others)) = left.split_first() {
        path.push(step.0, step.1)?;
        left = others;
    }
    Ok(path)
}

/// The claimed table.
fn claimed_table(alloc: Global, labels: &[LabelLine]) -> Result<Table, Memory>
    requires table { IsTable (table_in labels.now) }
    ensures table { IfOk result (λ table. table ≡ table_in labels.now) }
{
    let mut table = Table::new(alloc);
    let mut left = labels;
    'labels: while let Some((label, others)) = left.split_first() {
        table.set(label.0, label.1)?;
        left = others;
    }
    Ok(table)
}
