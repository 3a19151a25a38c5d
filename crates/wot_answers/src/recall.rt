//! The kept answers of all views, by name, and the steps that keep or forget one. Running out of memory only means that
//! an answer isn't kept.
ghost use Rattle.std.specs.Prelude.{◌≡◌, IfOk, OnErr, OnOk, Some};
ghost use Rattle.std.specs.Map.{lookup, remove_entry};
ghost use Rattle.wot_keyring_spec.specs.Keyring.{Keyring as Held};
ghost use Rattle.wot_answers.specs.Answers.{AreAllRight, AreRightIn, IsFound, IsRight, OthersKept, WereKeptOr};
ghost use Rattle.wot_answers.specs.Names.{IsForgotten, is_name};
ghost use Rattle.wot_answers.specs.Asked.{AreSettled, IsAnswered, IsConsulted, IsFoundOver, IsKeptNow};

use crate::answers::{Answers, KeptAnswer};
use crate::asked::Asked;
use crate::key::key_of;
use crate::looked::{Looked, look_at};
use crate::parts::Parts;
use std::alloc::Global;
use std::collections::BTreeMap;
use wot_auth::Answer;
use wot_keyring::laws::later_is_order;
use wot_network::laws::records_agree;
use wot_search::Consulted;
use wot_types::{Memory, UserId, ViewName};

pub type AllAnswers = BTreeMap<ViewName, Answers, Global>;

/// An answer with its question, found valid now. It depends on the fingerprints of `looked`, or on the whole keyring if
/// that is None.
fn kept_now(
    alloc: Global,
    parts: &Parts<'_>,
    asked: &Asked<'_>,
    answer: &Answer,
    looked: Option<Vec<Looked>>,
) -> Result<KeptAnswer, Memory>
    ensures kept { IfOk result (IsKeptNow parts.now asked.now answer.now looked) }
{
    let key = key_of(asked);
    let uid = UserId::new(alloc, asked.uid)?;
    let answer = answer.duplicate()?;
    Ok(KeptAnswer {
        key,
        target: *asked.target,
        wanted: asked.wanted,
        uid,
        time: parts.t,
        looked,
        answer,
        count: parts.keyring.changes(),
        revision: 0,
    })
}

/// An answer with its question and the fingerprints that it depends on.
fn with_grounds(
    alloc: Global,
    parts: &Parts<'_>,
    asked: &Asked<'_>,
    consulted: &Consulted,
    answer: &Answer,
) -> Result<KeptAnswer, Memory>
    requires answered { IsAnswered parts.now asked.now answer.now }
    requires consulted { IsConsulted parts.now asked.now answer.now consulted.now }
    ensures right { IfOk result (λ kept. IsRight parts.now.keyring.now kept) }
    ensures found { IfOk result (λ kept. IsFound parts.now.keyring.now parts.now.roots.now kept) }
    ensures by { IfOk result (IsFoundOver parts.now asked.now) }
{
    records_agree();
    later_is_order();
    // Its contract says what holds for every keyring.
    let _count = parts.keyring.len();
    let looked = look_at(alloc, consulted, parts.keyring, parts.roots)?;
    kept_now(alloc, parts, asked, answer, Some(looked))
}

/// An answer with its question, which depends on the whole keyring.
fn without_grounds(
    alloc: Global,
    parts: &Parts<'_>,
    asked: &Asked<'_>,
    answer: &Answer,
) -> Result<KeptAnswer, Memory>
    requires answered { IsAnswered parts.now asked.now answer.now }
    ensures right { IfOk result (λ kept. IsRight parts.now.keyring.now kept) }
    ensures found { IfOk result (λ kept. IsFound parts.now.keyring.now parts.now.roots.now kept) }
    ensures by { IfOk result (IsFoundOver parts.now asked.now) }
{
    kept_now(alloc, parts, asked, answer, None)
}

/// Keeps the answer to a question, unless memory runs out.
pub fn remember(
    alloc: Global,
    of_view: &mut Answers,
    parts: &Parts<'_>,
    asked: &Asked<'_>,
    consulted: &Consulted,
    answer: &Answer,
)
    requires answered { IsAnswered parts.now asked.now answer.now }
    requires consulted { IsConsulted parts.now asked.now answer.now consulted.now }
    requires settled { AreSettled parts.now of_view.old }
    ensures settled { AreSettled parts.now of_view.new }
    ensures kept { WereKeptOr (IsFoundOver parts.now asked.now) of_view.old.entries of_view.new.entries }
{
    match with_grounds(alloc, parts, asked, consulted, answer) {
        Ok(kept) => of_view.keep(kept),
        Err(Memory) => {}
    }
}

/// Keeps the answer to a question until the next change, unless memory runs out.
pub fn remember_now(
    alloc: Global,
    of_view: &mut Answers,
    parts: &Parts<'_>,
    asked: &Asked<'_>,
    answer: &Answer,
)
    requires answered { IsAnswered parts.now asked.now answer.now }
    requires settled { AreSettled parts.now of_view.old }
    ensures settled { AreSettled parts.now of_view.new }
    ensures kept { WereKeptOr (IsFoundOver parts.now asked.now) of_view.old.entries of_view.new.entries }
{
    match without_grounds(alloc, parts, asked, answer) {
        Ok(kept) => of_view.keep(kept),
        Err(Memory) => {}
    }
}

fn put(answers: &mut AllAnswers, view: ViewName, of_view: Answers) -> Result<(), Memory>
    ensures right { (k : Held) → AreAllRight k answers.old.entries → AreRightIn k of_view →
        AreAllRight k answers.new.entries }
    ensures put { OnOk result (lookup (is_name view) answers.new.entries ≡ Some of_view) }
    ensures kept { OnErr result (answers.new.entries ≡ answers.old.entries) }
    ensures others { OthersKept view answers.old.entries answers.new.entries }
{
    match answers.insert(view, of_view) {
        Ok(_) => Ok(()),
        Err(_) => Err(Memory),
    }
}

/// Begins to keep the answers of a view.
pub fn begin(
    alloc: Global,
    answers: &mut AllAnswers,
    view: &ViewName,
    of_view: Answers,
) -> Result<(), Memory>
    ensures right { (k : Held) → AreAllRight k answers.old.entries → AreRightIn k of_view →
        AreAllRight k answers.new.entries }
    ensures put { OnOk result (lookup (is_name view.now) answers.new.entries ≡ Some of_view) }
    ensures kept { OnErr result (answers.new.entries ≡ answers.old.entries) }
    ensures others { OthersKept view.now answers.old.entries answers.new.entries }
{
    match view.duplicate(alloc) {
        Ok(name) => put(answers, name, of_view),
        Err(Memory) => Err(Memory),
    }
}

/// Forgets the answers of a view.
pub fn forget(answers: &mut AllAnswers, view: &ViewName)
    ensures forgotten { answers.new.entries ≡ remove_entry (is_name view.now) answers.old.entries }
    ensures gone { IsForgotten view.now answers.old.entries answers.new.entries }
{
    let _ = answers.remove(view);
}
