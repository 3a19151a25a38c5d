//! The reply to `absence`: the paths of the answer, and the least table that proves that no path is left. It uses
//! wot_cache for the parts and wot_check for the table. `checking` has to accept what is printed here.
ghost use Rattle.std.specs.Prelude.{◌≡◌, ◌≤◌, length, map, IfOk};
ghost use Rattle.wot_edge.specs.Answer.{amount_of};
ghost use Rattle.wot_cache.specs.Marks.{IsRefreshed};
ghost use Rattle.wot_command.specs.Questions.{MissesFor};
ghost use Rattle.wot_plain.specs.Absent.{MissesBy, asked_from, claim_line, claim_step, label_line, missed};

use std::alloc::Global;
use wot_auth::authenticate;
use wot_cache::{Asked, Engine, Parts};
use wot_check::Table;
use wot_check::laws::answers_are_few;
use wot_edge::{Path, Step};
use wot_plain::{Refused, reply_to};
use wot_script::{
    ClaimLine, ClaimLines, ClaimStepLine, ClaimStepLines, LabelLine, LabelLines, Reply,
};
use wot_search::Consulted;
use wot_types::{Fpr, Memory, Steps, ViewName};

/// The reply to `absence`: why the answer to a question doesn't reach the amount `wanted`, from a view: its paths, and
/// the least table after them. If the answer does reach it, the reply is its sum. Refused if the view isn't open.
pub fn absence(
    alloc: Global,
    engine: &mut Engine,
    steps: &mut Steps,
    view: &ViewName,
    asked: &Asked<'_>,
) -> Result<Reply, Memory>
    requires wanted { 1 ≤ asked.now.wanted }
    ensures misses { IfOk result (MissesFor engine.old view.now asked.now) }
    ensures keyring { engine.new.keyring ≡ engine.old.keyring }
    ensures views { engine.new.views ≡ engine.old.views }
    ensures refreshed { IsRefreshed result view.now engine.old engine.new steps.old.made steps.new.made }
{
    match engine.parts(view, steps) {
        Ok(parts) => absence_from(alloc, &parts, asked.target, asked.wanted, asked.uid),
        Err(fault) => reply_to(Refused::from(fault)),
    }
}

/// The reply over the parts of the view.
fn absence_from(
    alloc: Global,
    parts: &Parts<'_>,
    target: &Fpr,
    wanted: u32,
    uid: &[u8],
) -> Result<Reply, Memory>
    requires wanted { 1 ≤ wanted }
    requires few { length parts.now.roots.now ≤ 64 }
    ensures misses { IfOk result (MissesBy (asked_from parts.now target.now uid.now) wanted) }
{
    let mut consulted = Consulted::new(alloc);
    let (roads, roots) = (&parts.roads, parts.roots);
    let answer = authenticate(alloc, roads, roots, target, uid, wanted, &mut consulted)?;
    if wanted <= answer.sum {
        return Ok(Reply::Reached(answer.sum));
    }
    // The contracts of these calls bound the number of paths.
    let _count = roots.len();
    answers_are_few();
    let paths = answer.paths.as_slice();
    match wot_check::absence(alloc, roads, roots, paths, target, uid)? {
        Some(table) => absence_reply(alloc, answer.sum, paths, &table),
        None => unreachable!(),
    }
}

/// The sum of the paths, the paths and the table.
fn absence_reply(alloc: Global, sum: u32, paths: &[Path], table: &Table) -> Result<Reply, Memory>
    requires sum { sum ≡ amount_of paths.now }
    ensures reported { IfOk result (λ reply. reply ≡ missed paths.now table.now) }
{
    let claims = claim_lines(alloc, paths)?;
    let labels = label_lines(alloc, table)?;
    Ok(Reply::Missed(sum, claims, labels))
}

/// A claim for each path.
fn claim_lines(alloc: Global, paths: &[Path]) -> Result<ClaimLines, Memory>
    ensures claims { IfOk result (λ claims. claims ≡ map claim_line paths.now) }
{
    let mut claims = ClaimLines::new(alloc);
    let mut left = paths;
    'paths: while let Some((path, others)) = left.split_first() {
        claims.push(ClaimLine(path.amount, step_lines(alloc, path.steps.as_slice())?))?;
        left = others;
    }
    Ok(claims)
}

fn claim_step_of(step: &Step) -> ClaimStepLine
    ensures line { result ≡ claim_step step.now }
{
    ClaimStepLine(step.issuer, step.uid)
}

/// A claimed step for each step.
fn step_lines(alloc: Global, steps: &[Step]) -> Result<ClaimStepLines, Memory>
    ensures lines { IfOk result (λ lines. lines ≡ map claim_step steps.now) }
{
    let mut lines = ClaimStepLines::new(alloc);
    let mut left = steps;
    'steps: while let Some((step, others)) = left.split_first() {
        lines.push(claim_step_of(step))?;
        left = others;
    }
    Ok(lines)
}

/// The labels of a table.
fn label_lines(alloc: Global, table: &Table) -> Result<LabelLines, Memory>
    ensures lines { IfOk result (λ lines. lines ≡ map label_line table.now) }
{
    let mut lines = LabelLines::new(alloc);
    let mut rest = table.iter();
    'rest: while let Some((fpr, label)) = rest.next() {
        lines.push(LabelLine(fpr, label))?;
    }
    Ok(lines)
}
