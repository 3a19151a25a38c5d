//! The reply to `ask`: the amount, and each path with its steps. It uses `Engine::ask`, and prints user IDs from
//! the keyring.
ghost use Rattle.std.specs.Prelude.{◌≡◌, ◌≤◌, ◌++◌, length, IfOk, OnOk};
ghost use Rattle.std.specs.List.{AllByRecursion};
ghost use Rattle.wot_edge.specs.declared.path.Path.{Path as ThePath};
ghost use Rattle.wot_edge.specs.Answer.{amount_of};
ghost use Rattle.wot_cache.specs.Marks.{IsRefreshed};
ghost use Rattle.wot_cache.specs.State.{state_of};
ghost use Rattle.wot_command.specs.Questions.{AsksFor};
ghost use Rattle.wot_plain.specs.Answer.{uid_at, step_line, path_lines, amount_reply as amount_reply_of};

use crate::listing::cert_of;
use std::alloc::Global;
use wot_auth::Answer;
use wot_cache::{Asked, Engine};
use wot_edge::{Path, Step};
use wot_plain::{Refused, reply_to};
use wot_script::{AnswerLine, AnswerLines, Reply};
use wot_types::{Fpr, Memory, Steps, UserId, ViewName};

/// The reply to `ask`: how confident one can be that a user ID belongs to a target, from a view. `wanted` is the amount
/// at which no further path is needed. Refused if the view isn't open.
pub fn ask(
    alloc: Global,
    engine: &mut Engine,
    view: &ViewName,
    asked: &Asked<'_>,
    steps: &mut Steps,
) -> Result<Reply, Memory>
    requires wanted { 1 ≤ asked.now.wanted }
    ensures asks { IfOk result (AsksFor engine.old view.now asked.now) }
    ensures keyring { engine.new.keyring ≡ engine.old.keyring }
    ensures views { engine.new.views ≡ engine.old.views }
    ensures refreshed { IsRefreshed result view.now engine.old engine.new steps.old.made steps.new.made }
{
    match engine.ask(view, asked.target, asked.wanted, asked.uid, steps) {
        Ok(answer) => amount_reply(alloc, engine, &answer),
        Err(fault) => reply_to(Refused::from(fault)),
    }
}

/// The sum of the amounts, the number of paths, and each path with its steps.
fn amount_reply(alloc: Global, engine: &Engine, answer: &Answer) -> Result<Reply, Memory>
    requires sum { answer.now.sum ≡ amount_of answer.now.paths }
    requires few { AllByRecursion (λ (p : ThePath). length p.steps ≤ 255) answer.now.paths }
    ensures reported { IfOk result (λ reply. reply ≡ amount_reply_of (state_of engine.now) answer.now.paths) }
{
    let paths = answer.paths.as_slice();
    let mut lines = AnswerLines::new(alloc);
    let mut left = paths;
    'paths: while let Some((path, others)) = left.split_first() {
        push_path(alloc, engine, path, &mut lines)?;
        left = others;
    }
    Ok(Reply::Amount(answer.sum, paths.len() as u64, lines))
}

/// Appends a line for the path, and one for each of its steps.
fn push_path(
    alloc: Global,
    engine: &Engine,
    path: &Path,
    lines: &mut AnswerLines,
) -> Result<(), Memory>
    requires few { length path.now.steps ≤ 255 }
    ensures pushed { OnOk result (lines.new ≡ lines.old ++ path_lines (state_of engine.now) path.now) }
{
    let steps = path.steps.as_slice();
    lines.push(AnswerLine::Path(path.amount, steps.len() as u8, path.root))?;
    let mut left = steps;
    'steps: while let Some((step, others)) = left.split_first() {
        lines.push(step_line_of(alloc, engine, step)?)?;
        left = others;
    }
    Ok(())
}

/// A step's line.
fn step_line_of(alloc: Global, engine: &Engine, step: &Step) -> Result<AnswerLine, Memory>
    ensures line { IfOk result (λ line. line ≡ step_line (state_of engine.now) step.now) }
{
    let uid = UserId::new(alloc, uid_at(engine, &step.target, step.uid))?;
    Ok(AnswerLine::Step(step.issuer, step.target, step.depth, step.amount, uid))
}

/// The user ID at an index of a certificate.
fn uid_at<'a>(engine: &'a Engine, target: &Fpr, place: u32) -> &'a [u8]
    ensures uid { result.now ≡ uid_at (state_of engine.now) target.now place }
{
    let Some(cert) = cert_of(engine, target) else {
        return &[];
    };
    match cert.user_ids().get(place as usize) {
        Some(uid) => uid.body(),
        None => &[],
    }
}
