//! From claimed steps to steps: the edge that each claimed step names, if that edge may come there.
//!
//! It uses `demand` and `specs/Trace.antt`. `show` makes paths of the steps.
ghost use Rattle.std.specs.Prelude.{◌≡◌, ◌≤◌, ◌<◌, length, IfOk, MatchOption};
ghost use Rattle.wot_edge.specs.Record.{IsRecord};
ghost use Rattle.wot_check.specs.Asked.{question_of, used_in};
ghost use Rattle.wot_check.specs.Trace.{IsFollower, IsFound, IsTrace, NoneNamed, begin_of, has_name};

use crate::asked::Asked;
use crate::claimed::ClaimedStep;
use crate::demand::{carries, demanded};
use std::alloc::Global;
use wot_edge::{Edge, Roads, Step, is_same, step_from};
use wot_types::{Fpr, Memory};

fn names(item: &ClaimedStep, edge: &Edge) -> bool
    ensures { result ≡ has_name item.now edge.now }
{
    let facts = edge.facts();
    is_same(&facts.issuer, &item.issuer) && facts.uid == item.place
}

/// The edge of this issuer on the user ID at this place.
fn find<'a>(edges: &'a [Edge], item: &ClaimedStep) -> Option<&'a Edge>
    ensures { MatchOption result (NoneNamed item.now edges.now) (λ edge. IsFound item.now edges.now edge.now) }
{
    let mut rest = edges;
    'rest: while let Some((edge, later)) = rest.split_first() {
        if names(item, edge) {
            return Some(edge);
        }
        rest = later;
    }
    None
}

/// Where claimed steps begin: at the first issuer, or at the target itself.
fn begin(target: &Fpr, later: &[ClaimedStep]) -> Fpr
    ensures { result ≡ begin_of target.now later.now }
{
    match later.first() {
        Some(item) => item.issuer,
        None => *target,
    }
}

/// The step that is claimed in front of the later ones, if it may come there.
fn follow<R: Roads>(
    roads: &R,
    asked: &Asked,
    item: &ClaimedStep,
    later: &[ClaimedStep],
) -> Result<Option<Step>, Memory>
    requires few { length later.now < 255 }
    ensures found { IfOk result (λ step.
        IsFollower (question_of (R.network roads.now) asked.now) (used_in asked.now) item.now later.now step) }
{
    let target = begin(asked.target, later);
    match find(roads.rows(&target), item) {
        None => Ok(None),
        Some(edge) => {
            let demand = demanded(roads, asked, later.len() as u8);
            if carries(roads, asked, demand, edge)? {
                Ok(Some(step_from(&edge.facts())))
            } else {
                Ok(None)
            }
        }
    }
}

/// The claimed steps, if each of them may come before those after it.
pub fn trace<R: Roads>(
    alloc: Global,
    roads: &R,
    asked: &Asked,
    items: &[ClaimedStep],
) -> Result<Option<Vec<Step>>, Memory>
    requires few { length items.now ≤ 255 }
    requires lawful { IsRecord (R.network roads.now asked.now.uid.now) }
    ensures traced { IfOk result
        (λ found. IsTrace (question_of (R.network roads.now) asked.now) (used_in asked.now) items.now found) }
{
    let mut steps: Vec<Step> = Vec::new(alloc);
    let mut rest = items;
    'rest: while let Some((item, later)) = rest.split_first() {
        match follow(roads, asked, item, later)? {
            None => return Ok(None),
            Some(step) => steps.push(step)?,
        }
        rest = later;
    }
    Ok(Some(steps))
}
