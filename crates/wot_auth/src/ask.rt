//! The calls for an answer: plain, metered, and within a table of reach.
//!
//! They use `take` and `specs/Agreed.antt`. All three return the one answer of `wot_edge/specs/Answer.antt`;
//! they differ in cost and in what they note.
ghost use Rattle.std.specs.Prelude.{◌≡◌, ◌≤◌, ◌↔◌, ◌+◌, [], length, true, Err, None, is_some, IfOk};
ghost use Rattle.wot_types.specs.declared.fpr.Fpr.{Fpr as TheFpr};
ghost use Rattle.wot_edge.specs.Roots.{root_amount};
ghost use Rattle.wot_edge.specs.Path.{asks, use_of, IsSpent};
ghost use Rattle.wot_edge.specs.Answer.{IsAnswer, amount_of};
ghost use Rattle.wot_edge.specs.Capacity.{AllFit};
ghost use Rattle.wot_edge.specs.Leads.{Grows, GainsLeads};
ghost use Rattle.wot_first_path.specs.Metered.{looks_in};
ghost use Rattle.wot_search.specs.Asked.{HasItsReach, question_of};
ghost use Rattle.wot_auth.specs.Agreed.{IsOnlyAnswer, IsAnswerOfAgreeing, IsOnlyOfAgreeing};

use crate::Answer;
use crate::take::take;
use std::alloc::Global;
use wot_edge::laws::{answer_is_one, paths_fit, zero_is_no_path};
use wot_edge::{Roads, Roots};
use wot_search::{Asked, Consulted, LookFault, Metered, Reach, Unnoted};
use wot_types::{Fpr, Memory};

/// Computes to which amount a user ID of the target is authenticated: next paths until their sum reaches the wanted
/// amount or no valid path of positive amount is left. The last path isn't cut, and the sum isn't claimed to be a
/// maximum flow. An absent target or user ID has the amount 0. What was looked at is added to `consulted`: every
/// network that agrees on it has this answer.
pub fn authenticate<R: Roads>(
    alloc: Global,
    roads: &R,
    roots: &Roots,
    target: &Fpr,
    uid: &[u8],
    wanted: u32,
    consulted: &mut Consulted,
) -> Result<Answer, Memory>
    requires wanted { 1 ≤ wanted }
    requires few { length roots.now ≤ 64 }
    ensures answer { IfOk result (λ answer. IsAnswer (asks (R.network roads.now uid.now) roots.now target.now) wanted
        answer.paths) }
    ensures one { IfOk result (IsOnlyAnswer (asks (R.network roads.now uid.now) roots.now target.now) wanted) }
    ensures sum { IfOk result (λ answer. answer.sum ≡ amount_of answer.paths) }
    ensures zero { IfOk result (λ answer. (answer.sum ≡ 0)
        ↔ IsSpent (asks (R.network roads.now uid.now) roots.now target.now) (use_of [])) }
    ensures pairs { IfOk result (λ answer. AllFit [] answer.paths) }
    ensures roots { IfOk result (λ answer. (fpr : TheFpr)
        → (use_of answer.paths).root fpr ≤ root_amount roots.now fpr) }
    ensures grows { Grows consulted.old consulted.new }
    ensures leads { GainsLeads (R.network roads.now uid.now) target.now consulted.old consulted.new }
    ensures local { IfOk result (IsAnswerOfAgreeing (asks (R.network roads.now uid.now) roots.now target.now) wanted
        consulted.new) }
    ensures local_one { IfOk result (IsOnlyOfAgreeing (asks (R.network roads.now uid.now) roots.now target.now) wanted
        consulted.new) }
{
    let reach = Reach::everywhere(alloc);
    let asked = Asked {
        roots,
        reach: &reach,
        target,
        uid,
    };
    let answer = take(alloc, roads, &asked, wanted, consulted)?;
    // The laws that the clauses on the answer depend on.
    answer_is_one();
    zero_is_no_path();
    paths_fit();
    Ok(answer)
}

/// Computes the answer, or returns `Spent` if that takes more looks than the meter has left. What was looked at is
/// noted, and leads to the target.
pub fn authenticate_metered<R: Roads>(
    alloc: Global,
    roads: &R,
    roots: &Roots,
    target: &Fpr,
    uid: &[u8],
    wanted: u32,
    metered: &mut Metered,
) -> Result<Answer, LookFault>
    requires wanted { 1 ≤ wanted }
    requires few { length roots.now ≤ 64 }
    ensures answer { IfOk result (λ answer. IsAnswer (asks (R.network roads.now uid.now) roots.now target.now) wanted
        answer.paths) }
    ensures sum { IfOk result (λ answer. answer.sum ≡ amount_of answer.paths) }
    ensures local { IfOk result (IsAnswerOfAgreeing (asks (R.network roads.now uid.now) roots.now target.now) wanted
        metered.new.consulted) }

    // An error is `Spent` if and only if the search asked for one look too many.
    ensures spent { result ≡ Err LookFault.Spent → metered.new.left ≡ None }
    ensures wanting { result ≡ Err LookFault.Memory → is_some metered.new.left ≡ true }

    // The looks that are left never become more, and each fingerprint that is new among the noted took one of them.
    ensures falls { looks_in metered.new.left ≤ looks_in metered.old.left }
    ensures paid { length metered.new.consulted + looks_in metered.new.left
        ≤ length metered.old.consulted + looks_in metered.old.left }
    ensures grows { Grows metered.old.consulted metered.new.consulted }
    ensures leads { GainsLeads (R.network roads.now uid.now) target.now metered.old.consulted
        metered.new.consulted }
{
    let reach = Reach::everywhere(alloc);
    let asked = Asked {
        roots,
        reach: &reach,
        target,
        uid,
    };
    match take(alloc, roads, &asked, wanted, metered) {
        Ok(answer) => Ok(answer),
        Err(Memory) => Err(look_fault(metered.left)),
    }
}

/// Why a metered search ended, by the looks that are left.
fn look_fault(left: Option<u64>) -> LookFault
    ensures spent { result ≡ LookFault.Spent → left ≡ None }
    ensures wanting { result ≡ LookFault.Memory → is_some left ≡ true }
{
    match left {
        Some(_) => LookFault::Memory,
        None => LookFault::Spent,
    }
}

/// Computes the answer by searches that skip issuers beyond their reach. What they look at isn't noted.
pub fn authenticate_within<R: Roads>(
    alloc: Global,
    roads: &R,
    asked: &Asked,
    wanted: u32,
) -> Result<Answer, Memory>
    requires wanted { 1 ≤ wanted }
    requires few { length asked.now.roots.now ≤ 64 }
    requires reach { HasItsReach (R.network roads.now) asked.now }
    ensures answer { IfOk result
        (λ answer. IsAnswer (question_of (R.network roads.now) asked.now) wanted answer.paths) }
    ensures one { IfOk result (IsOnlyAnswer (question_of (R.network roads.now) asked.now) wanted) }
    ensures sum { IfOk result (λ answer. answer.sum ≡ amount_of answer.paths) }
{
    let answer = take(alloc, roads, asked, wanted, &mut Unnoted)?;
    answer_is_one();
    Ok(answer)
}
