//! A path of the greatest amount. A search for next paths begins with it, unless one search finds both.
//!
//! It uses the searches of `wot_first_path` and `specs/Widest.antt`. `next`, `offers` and `below` call it.
ghost use Rattle.std.specs.Prelude.{◌≤◌, ℕ, List, IfOk};
ghost use Rattle.wot_edge.specs.Record.{IsRecord};
ghost use Rattle.wot_first_path.specs.Looked.{Gains, Widens};
ghost use Rattle.wot_first_path.specs.Asked.{LeadsToAsked};
ghost use Rattle.wot_search.specs.Asked.{HasItsReach};
ghost use Rattle.wot_search.specs.Widest.{IsWidestNoted, IsWidestOrSpent};

use crate::next::bound_amounts;
use std::alloc::Global;
use wot_edge::{Path, Roads, Used};
use wot_first_path::{Asked, Goal, Notes, Quest, first};
use wot_types::Memory;

/// Finds a path of the greatest amount, one with the fewest edges. `None` if no valid path of positive amount is left.
/// Every fingerprint that was looked at is noted.
pub(crate) fn widest<R: Roads, N: Notes>(
    alloc: Global,
    roads: &R,
    asked: &Asked,
    used: &Used,
    notes: &mut N,
) -> Result<Option<Path>, Memory>
    requires { HasItsReach (R.network roads.now) asked.now }
    ensures widest { IfOk result (IsWidestOrSpent (R.network roads.now) asked.now used.now) }
    ensures noted { IfOk result (IsWidestNoted (R.network roads.now) asked.now used.now (N.noted notes.new)) }
    ensures grows { Widens (N.noted notes.old) (N.noted notes.new) }
    ensures falls { N.budget notes.new ≤ N.budget notes.old }
    ensures paid { N.total notes.new ≤ N.total notes.old }
    ensures leads { Gains (LeadsToAsked (R.network roads.now) asked.now) (N.noted notes.old) (N.noted notes.new) }
    ensures lawful { IfOk result (λ found. (id : List ℕ) → IsRecord (R.network roads.now id)) }
{
    notes.note(asked.target)?;
    if !roads.in_order(asked.target, asked.uid) {
        return Ok(None);
    }
    bound_amounts(asked.roots);
    let quest = Quest {
        asked: *asked,
        used,
        goal: Goal::Widest,
        least: 1,
    };
    let found = first(alloc, roads, &quest, notes)?;
    Ok(found)
}
