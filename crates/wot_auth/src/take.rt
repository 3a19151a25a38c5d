//! The loop that takes next paths until an answer is complete.
//!
//! It uses `next_offered` of `wot_search` and `Used` of `wot_edge`. `ask` wraps it for each kind of call.
ghost use Rattle.std.specs.Prelude.{◌≡◌, ◌≤◌, length, IfOk};
ghost use Rattle.wot_edge.specs.Record.{IsRecord};
ghost use Rattle.wot_edge.specs.Answer.{IsAnswer, amount_of};
ghost use Rattle.wot_first_path.specs.Looked.{Gains, Widens};
ghost use Rattle.wot_first_path.specs.Asked.{LeadsToAsked};
ghost use Rattle.wot_search.specs.Asked.{HasItsReach, question_of};
ghost use Rattle.wot_auth.specs.Agreed.{IsAnswerLocally};

use crate::Answer;
use std::alloc::Global;
use wot_edge::laws::paths_fit;
use wot_edge::{Path, PathList, Roads, Used};
use wot_search::{Asked, Notes, next_offered};
use wot_types::Memory;

/// Takes next paths until their sum reaches the wanted amount, or none is left.
pub fn take<R: Roads, N: Notes>(
    alloc: Global,
    roads: &R,
    asked: &Asked,
    wanted: u32,
    notes: &mut N,
) -> Result<Answer, Memory>
    requires wanted { 1 ≤ wanted }
    requires few { length asked.now.roots.now ≤ 64 }
    requires reach { HasItsReach (R.network roads.now) asked.now }
    ensures answer { IfOk result
        (λ answer. IsAnswer (question_of (R.network roads.now) asked.now) wanted answer.paths) }
    ensures sum { IfOk result (λ answer. answer.sum ≡ amount_of answer.paths) }
    ensures lawful { IfOk result (λ answer. IsRecord (R.network roads.now asked.now.uid.now)) }
    ensures grows { Widens (N.noted notes.old) (N.noted notes.new) }
    ensures falls { N.budget notes.new ≤ N.budget notes.old }
    ensures paid { N.total notes.new ≤ N.total notes.old }
    ensures leads { Gains (LeadsToAsked (R.network roads.now) asked.now) (N.noted notes.old) (N.noted notes.new) }
    ensures local { IfOk result (IsAnswerLocally asked.now.reach.now
        (question_of (R.network roads.now) asked.now) wanted
        (N.noted notes.new)) }
{
    // Laws for the bounds: no root has more than 255, and next paths use no more than there is.
    let _count = asked.roots.len();
    paths_fit();
    // The record is lawful.
    let _rows = roads.rows(asked.target);
    let mut used = Used::new(alloc);
    let mut paths: Vec<Path> = Vec::new(alloc);
    let mut offers: Vec<Path> = Vec::new(alloc);
    let mut sum: u32 = 0;
    'paths: while sum < wanted {
        let next = next_offered(alloc, roads, asked, &used, &mut offers, notes)?;
        match next {
            None => {
                let paths = PathList::new(paths);
                return Ok(Answer { sum, paths });
            }
            Some(path) => {
                used.add(&path)?;
                sum += path.amount as u32;
                paths.push(path)?;
            }
        }
    }
    let paths = PathList::new(paths);
    Ok(Answer { sum, paths })
}
