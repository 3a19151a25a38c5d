//! `next_path`: the next path after what earlier paths use.
//!
//! It uses `widest` and the searches of `wot_first_path`, and its contract is the definition in
//! `wot_edge/specs/Path.antt`. `wot_auth` makes answers of it; a faster search has to keep these clauses.
ghost use Rattle.std.specs.Prelude.{◌≤◌, IfOk};
ghost use Rattle.wot_types.specs.declared.fpr.Fpr.{Fpr as Print};
ghost use Rattle.wot_edge.specs.Answer.{IsNextOrSpent};
ghost use Rattle.wot_edge.specs.Leads.{Grows, GainsLeads};
ghost use Rattle.wot_edge.specs.Path.{asks};
ghost use Rattle.wot_edge.specs.Record.{IsRecord};
ghost use Rattle.wot_edge.specs.Roots.{root_amount};
ghost use Rattle.wot_edge.specs.Sums.{use_in};
ghost use Rattle.wot_first_path.specs.Looked.{Gains, Widens};
ghost use Rattle.wot_first_path.specs.Asked.{LeadsToAsked};
ghost use Rattle.wot_search.specs.Asked.{IsNextLocally, HasItsReach, question_of};
ghost use Rattle.wot_search.specs.Nexting.{IsNextOfAgreeing};

use crate::widest::widest;
use std::alloc::Global;
use wot_edge::{Path, Roads, Roots, Used};
use wot_first_path::{Asked, Consulted, Goal, Notes, Quest, first};
use wot_reach::Reach;
use wot_types::{Fpr, Memory};

/// A law: no root has more than 255.
pub(crate) fn bound_amounts(roots: &Roots)
    ensures { (fpr : Print) → root_amount roots.now fpr ≤ 255 }
{
    let _count = roots.len();
}

/// Finds the next path after what earlier ones use. Returns `None` if and only if no valid path of positive amount is
/// left. Every fingerprint whose rows, validity or root amount was looked at is added to `consulted`.
///
/// The search goes backwards from the target, a layer for each further edge, and stops at the first layer with a root:
///
/// ```text
///   layer 2         layer 1         the target
///   Alice ────80───▶ Bob ────120──┐
///   (a root: 120)                 ├──▶ Carol, user ID U
///   Dave  ────60───▶ Eve ─────40──┘
/// ```
///
/// The next path is Alice, Bob, Carol with 80, the least of 120 (Alice's own), 80 and 120.
pub fn next_path<R: Roads>(
    alloc: Global,
    roads: &R,
    roots: &Roots,
    used: &Used,
    target: &Fpr,
    uid: &[u8],
    consulted: &mut Consulted,
) -> Result<Option<Path>, Memory>
    // The next path, or none if there is none.
    ensures next { IfOk result (IsNextOrSpent (asks (R.network roads.now uid.now) roots.now target.now)
        (use_in used.now)) }

    // `consulted` only grows, and only by what leads to the target by rows.
    ensures grows { Grows consulted.old consulted.new }
    ensures leads { GainsLeads (R.network roads.now uid.now) target.now consulted.old consulted.new }

    // It is also the next path of every question that agrees on what was looked at.
    ensures local { IfOk result (IsNextOfAgreeing (asks (R.network roads.now uid.now) roots.now target.now)
        (use_in used.now) consulted.new) }
    ensures lawful { IfOk result (λ found. IsRecord (R.network roads.now uid.now)) }
{
    let reach = Reach::everywhere(alloc);
    let asked = Asked {
        roots,
        reach: &reach,
        target,
        uid,
    };
    let found = next_path_within(alloc, roads, &asked, used, consulted)?;
    Ok(found)
}

/// Finds the next path by a search that skips issuers beyond their reach. Every fingerprint that was looked at is
/// noted.
pub fn next_path_within<R: Roads, N: Notes>(
    alloc: Global,
    roads: &R,
    asked: &Asked,
    used: &Used,
    notes: &mut N,
) -> Result<Option<Path>, Memory>
    requires reach { HasItsReach (R.network roads.now) asked.now }
    ensures next { IfOk result (IsNextOrSpent (question_of (R.network roads.now) asked.now) (use_in used.now)) }
    ensures grows { Widens (N.noted notes.old) (N.noted notes.new) }
    ensures falls { N.budget notes.new ≤ N.budget notes.old }
    ensures paid { N.total notes.new ≤ N.total notes.old }
    ensures leads { Gains (LeadsToAsked (R.network roads.now) asked.now) (N.noted notes.old) (N.noted notes.new) }

    // If the table leaves nothing out, it is also the next path of every question that agrees on a set that contains
    // what was noted.
    ensures local { IfOk result (IsNextLocally (R.network roads.now) asked.now used.now (N.noted notes.new)) }
    ensures lawful { IfOk result (λ found. IsRecord (R.network roads.now asked.now.uid.now)) }
{
    let amount = match widest(alloc, roads, asked, used, notes)? {
        None => return Ok(None),
        Some(path) => path.amount,
    };
    bound_amounts(asked.roots);
    let least = Quest {
        asked: *asked,
        used,
        goal: Goal::Least,
        least: amount,
    };
    let found = first(alloc, roads, &least, notes)?;
    Ok(found)
}
