//! The answer to a question: a kept one, or by a new search. Searches first look only at what leads to the target; when
//! that costs more than a table of reach, the table is made and used. `Engine::ask` is the caller: it calls `answer`,
//! which calls `find`, which calls `answer_from_kept` and `search_near`. wot_search and wot_auth do the searching.
ghost use Rattle.std.specs.Prelude.{◌≡◌, ℕ, List, IfOk, IfSome, OnErr};
ghost use Rattle.wot_edge.specs.Record.{IsRecord};
ghost use Rattle.wot_network.specs.Net.{network_for};
ghost use Rattle.wot_network.specs.Roads.{present_of};
ghost use Rattle.wot_reach.specs.Reach.{IsReach};
ghost use Rattle.wot_answers.specs.Answers.{AnswersKeptOr, AreAllRight, AreRightIn, OthersKept, WereKeptOr};
ghost use Rattle.wot_answers.specs.Asked.{question_of, AreSettled, IsAnswered, IsAskable, IsFoundOver};
ghost use Rattle.wot_answers.specs.Question.{present_in, IsTold};

use crate::answers::Answers;
use crate::asked::Asked;
use crate::fault::AskFault;
use crate::making::{fprs_of, spend};
use crate::parts::Parts;
use crate::recall::{AllAnswers, begin, remember, remember_now};
use std::alloc::Global;
use wot_auth::{Answer, authenticate_metered, authenticate_within};
use wot_edge::laws::{answer_is_one, paths_fit, zero_is_no_path};
use wot_search::{LookFault, Making, Metered, Reach, make_reach};
use wot_types::{Memory, ViewName};

/// The reach of issuers over these parts.
fn made_reach(alloc: Global, parts: &Parts<'_>) -> Result<Reach, Memory>
    requires present { present_of parts.now.roads ≡ present_in parts.now }
    ensures reach { IfOk result (λ reach. IsReach (network_for (present_in parts.now)) parts.now.roots.now reach) }
{
    let fprs = fprs_of(alloc, parts.keyring)?;
    make_reach(alloc, &parts.roads, parts.roots, &fprs)
}

/// The answer, by a search within a table of reach.
fn search_within(
    alloc: Global,
    parts: &Parts<'_>,
    reach: &Reach,
    asked: &Asked<'_>,
) -> Result<Answer, Memory>
    requires askable { IsAskable parts.now asked.now }
    requires reach { IsReach (network_for (present_in parts.now)) parts.now.roots.now reach.now }
    ensures answered { IfOk result (IsAnswered parts.now asked.now) }
{
    let question = wot_search::Asked {
        roots: parts.roots,
        reach,
        target: asked.target,
        uid: asked.uid,
    };
    authenticate_within(alloc, &parts.roads, &question, asked.wanted)
}

/// The answer, by a search within the table that is kept for the view. None if no current table is kept, or when out of
/// memory.
fn search_kept(
    alloc: Global,
    of_view: &Answers,
    parts: &Parts<'_>,
    asked: &Asked<'_>,
) -> Option<Answer>
    requires askable { IsAskable parts.now asked.now }
    requires settled { AreSettled parts.now of_view.now }
    ensures answered { IfSome result (IsAnswered parts.now asked.now) }
{
    let Some(reach) = of_view.reach(parts) else {
        return None;
    };
    match search_within(alloc, parts, reach, asked) {
        Ok(answer) => Some(answer),
        Err(Memory) => None,
    }
}

/// The answer, by a search within a table of reach that is made now. The table and the answer are kept for the view.
fn search_far(
    alloc: Global,
    of_view: &mut Answers,
    parts: &Parts<'_>,
    asked: &Asked<'_>,
) -> Result<Answer, Memory>
    requires askable { IsAskable parts.now asked.now }
    requires settled { AreSettled parts.now of_view.old }
    ensures answered { IfOk result (IsAnswered parts.now asked.now) }
    ensures right { AreRightIn parts.now.keyring.now of_view.new }
    ensures kept { WereKeptOr (IsFoundOver parts.now asked.now) of_view.old.entries of_view.new.entries }
{
    let reach = made_reach(alloc, parts)?;
    let answer = search_within(alloc, parts, &reach, asked)?;
    of_view.keep_making(parts, Making::Made(reach));
    remember_now(alloc, of_view, parts, asked, &answer);
    Ok(answer)
}

/// The answer over these parts, by a search that looks only at what leads to the target, or within a table of reach if
/// that search would look at more than making a table takes. The answer is kept for the view. Looks and made edges are
/// counted, and once a table pays off, each search makes a part of it. The edges don't count against this search:
/// otherwise a view's first question, which makes all edges, would make a table that no later question may need.
fn search_near(
    alloc: Global,
    of_view: &mut Answers,
    parts: &Parts<'_>,
    asked: &Asked<'_>,
    made: u64,
) -> Result<Answer, Memory>
    requires askable { IsAskable parts.now asked.now }
    requires settled { AreSettled parts.now of_view.old }
    ensures answered { IfOk result (IsAnswered parts.now asked.now) }
    ensures right { AreRightIn parts.now.keyring.now of_view.new }
    ensures kept { WereKeptOr (IsFoundOver parts.now asked.now) of_view.old.entries of_view.new.entries }
{
    let most = of_view.most_looks(parts);
    let mut metered = Metered::new(alloc, most);
    match authenticate_metered(
        alloc,
        &parts.roads,
        parts.roots,
        asked.target,
        asked.uid,
        asked.wanted,
        &mut metered,
    ) {
        Ok(answer) => {
            remember(alloc, of_view, parts, asked, &metered.consulted, &answer);
            let left = metered.left.unwrap_or(0);
            let looked = most.saturating_sub(left).saturating_add(made);
            spend(alloc, of_view, parts, looked);
            Ok(answer)
        }
        Err(LookFault::Memory) => Err(Memory),
        Err(LookFault::Spent) => search_far(alloc, of_view, parts, asked),
    }
}

/// The answer from what the view keeps: a kept one, or by a search within the kept table of reach if that is current.
/// None if the view keeps neither, or when out of memory.
fn answer_from_kept(
    alloc: Global,
    of_view: &mut Answers,
    parts: &Parts<'_>,
    asked: &Asked<'_>,
) -> Option<Answer>
    requires askable { IsAskable parts.now asked.now }
    requires settled { AreSettled parts.now of_view.old }
    ensures answered { IfSome result (IsAnswered parts.now asked.now) }
    ensures settled { AreSettled parts.now of_view.new }
    ensures kept { WereKeptOr (IsFoundOver parts.now asked.now) of_view.old.entries of_view.new.entries }
{
    if let Some(answer) = of_view.give(parts, asked) {
        return Some(answer);
    }
    let Some(answer) = search_kept(alloc, of_view, parts, asked) else {
        return None;
    };
    remember_now(alloc, of_view, parts, asked, &answer);
    Some(answer)
}

/// The answer: from what the view keeps, or by a new search.
fn find(
    alloc: Global,
    of_view: &mut Answers,
    parts: &Parts<'_>,
    asked: &Asked<'_>,
    made: u64,
) -> Result<Answer, AskFault>
    requires askable { IsAskable parts.now asked.now }
    requires right { AreRightIn parts.now.keyring.now of_view.old }
    ensures answered { IfOk result (IsAnswered parts.now asked.now) }
    ensures memory { OnErr result (result ≡ Err AskFault.Memory) }
    ensures right { AreRightIn parts.now.keyring.now of_view.new }
    ensures kept { WereKeptOr (IsFoundOver parts.now asked.now) of_view.old.entries of_view.new.entries }
{
    if !of_view.take_roots(alloc, parts.roots) {
        return Err(AskFault::Memory);
    }
    if let Some(answer) = answer_from_kept(alloc, of_view, parts, asked) {
        return Ok(answer);
    }
    match search_near(alloc, of_view, parts, asked, made) {
        Ok(answer) => Ok(answer),
        Err(Memory) => Err(AskFault::Memory),
    }
}

/// The answer from a view, over the parts that it shows. `made` edges were made for this question. From the first
/// question on, the view's answers are kept, unless memory runs out.
pub fn answer(
    alloc: Global,
    answers: &mut AllAnswers,
    parts: &Parts<'_>,
    view: &ViewName,
    asked: &Asked<'_>,
    made: u64,
) -> Result<Answer, AskFault>
    requires askable { IsAskable parts.now asked.now }
    requires lawful { (u : List ℕ) → IsRecord (network_for (present_of parts.now.roads) u) }
    requires right { AreAllRight parts.now.keyring.now answers.old.entries }
    ensures reported { IfOk result (IsTold (question_of parts.now asked.now) asked.now.wanted) }
    ensures memory { OnErr result (result ≡ Err AskFault.Memory) }
    ensures right { AreAllRight parts.now.keyring.now answers.new.entries }
    ensures found { AnswersKeptOr (IsFoundOver parts.now asked.now) view.now answers.old.entries
        answers.new.entries }
    ensures others { OthersKept view.now answers.old.entries answers.new.entries }
{
    answer_is_one();
    zero_is_no_path();
    paths_fit();
    match answers.get_mut(view) {
        Some(of_view) => find(alloc, of_view, parts, asked, made),
        None => {
            let mut of_view = Answers::new(alloc);
            let found = find(alloc, &mut of_view, parts, asked, made);
            // When out of memory, nothing is kept.
            let _kept = begin(alloc, answers, view, of_view);
            found
        }
    }
}
