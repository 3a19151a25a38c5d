//! The edges into one fingerprint of a layer, considered one after another.
//!
//! It uses `consider`, and `wot_reach` for the edges that lead on. `grow` calls it for each fingerprint.
ghost use Rattle.std.specs.Prelude.{◌≡◌, ◌≤◌, ◌<◌, ℕ, List, OnOk};
ghost use Rattle.wot_edge.specs.Record.{IsRecord};
ghost use Rattle.wot_reach.specs.Onward.{AreAllUsableIf, AreUsableIf, LeadsOnInto, MatterBefore};
ghost use Rattle.wot_first_path.specs.Quest.{LeadsOn, reach_in};
ghost use Rattle.wot_first_path.specs.Looked.{Gains, IsNear, Widens};
ghost use Rattle.wot_first_path.specs.Growth.{ConsidersInto};
ghost use Rattle.wot_first_path.specs.Search.{record_in};

use crate::consider::consider;
use crate::demand::demand;
use crate::node::Hint;
use crate::notes::Notes;
use crate::reached::{Reached, width_at};
use crate::search::{Rest, Search};
use wot_edge::{Edge, Roads};
use wot_reach::Onward;
use wot_types::{Fpr, Memory};

/// What a table of reach says about edges into a fingerprint.
#[derive(Clone, Copy)]
struct Hints<'a> {
    /// Where the numbers of the issuers of all edges into the fingerprint begin.
    start: usize,
    /// The places of these edges among all; if there are none, these are all edges.
    places: &'a [usize],
    /// Whether they are known to be usable.
    usable: bool,
}

/// What it says about one of them.
fn hint_of(hints: Hints<'_>, index: usize) -> Hint
    ensures usable { result.usable ≡ hints.entry.usable }
{
    let place = hints.places.get(index).copied().unwrap_or(index);
    Hint {
        place: hints.start.saturating_add(place),
        usable: hints.usable,
    }
}

/// Considers the edges into a fingerprint of the last layer that may come there. Its place in the table of reach may be
/// known.
pub fn extend<R: Roads, N: Notes>(
    search: &Search<'_, R>,
    at: &Fpr,
    known: Option<u32>,
    reached: &mut Reached,
    notes: &mut N,
) -> Result<(), Memory>
    requires size { search.now.size < 255 }
    requires lawful { (id : List ℕ) → IsRecord (R.network search.now.roads.now id) }
    requires onward { LeadsOn (R.network search.now.roads.now) search.now.quest.now }
    ensures all { OnOk result (ConsidersInto N.noted R.network search.now at.now
        reached.old reached.new notes.old notes.new) }
    ensures grows { Widens (N.noted notes.old) (N.noted notes.new) }
    ensures falls { N.budget notes.new ≤ N.budget notes.old }
    ensures paid { N.total notes.new ≤ N.total notes.old }
    ensures gains { Gains (IsNear (record_in R.network search.now) at.now) (N.noted notes.old) (N.noted notes.new) }
{
    let quest = search.quest;
    let place = quest.asked.reach.place_known(known, at);
    let start = quest.asked.reach.start(place);
    match quest.asked.reach.onward(place, at) {
        Some(onward) => {
            if search.size == 0 {
                extend_all(search, at, start, onward.all_usable, reached, notes)
            } else {
                extend_onward(search, at, start, onward, reached, notes)
            }
        }
        None => extend_all(search, at, start, false, reached, notes),
    }
}

/// Considers the edges that lead on into a fingerprint.
fn extend_onward<R: Roads, N: Notes>(
    search: &Search<'_, R>,
    at: &Fpr,
    start: usize,
    onward: &Onward,
    reached: &mut Reached,
    notes: &mut N,
) -> Result<(), Memory>
    requires some { 0 < search.now.size }
    requires size { search.now.size < 255 }
    requires lawful { (id : List ℕ) → IsRecord (R.network search.now.roads.now id) }
    requires leads { LeadsOnInto (R.network search.now.roads.now) (reach_in search.now.quest.now) at.now onward.now }
    ensures all { OnOk result (ConsidersInto N.noted R.network search.now at.now
        reached.old reached.new notes.old notes.new) }
    ensures grows { Widens (N.noted notes.old) (N.noted notes.new) }
    ensures falls { N.budget notes.new ≤ N.budget notes.old }
    ensures paid { N.total notes.new ≤ N.total notes.old }
    ensures gains { Gains (IsNear (record_in R.network search.now) at.now) (N.noted notes.old) (N.noted notes.new) }
{
    let edges = onward.edges.as_slice();
    let places = onward.places.as_slice();
    let hints = Hints {
        start,
        places,
        usable: onward.usable,
    };
    extend_by(search, at, edges, hints, reached, notes)
}

/// Considers each edge into a fingerprint. All of them may be known to be usable. Their numbers begin at `start` in the
/// table.
fn extend_all<R: Roads, N: Notes>(
    search: &Search<'_, R>,
    at: &Fpr,
    start: usize,
    usable: bool,
    reached: &mut Reached,
    notes: &mut N,
) -> Result<(), Memory>
    requires size { search.now.size < 255 }
    requires usable { AreAllUsableIf (R.network search.now.roads.now) usable at.now }
    ensures all { OnOk result (ConsidersInto N.noted R.network search.now at.now
        reached.old reached.new notes.old notes.new) }
    ensures grows { Widens (N.noted notes.old) (N.noted notes.new) }
    ensures falls { N.budget notes.new ≤ N.budget notes.old }
    ensures paid { N.total notes.new ≤ N.total notes.old }
    ensures gains { Gains (IsNear (record_in R.network search.now) at.now) (N.noted notes.old) (N.noted notes.new) }
{
    let edges = search.roads.rows(at);
    let hints = Hints {
        start,
        places: &[],
        usable,
    };
    extend_by(search, at, edges, hints, reached, notes)
}

/// Considers these edges into a fingerprint, which are all that matter.
fn extend_by<R: Roads, N: Notes>(
    search: &Search<'_, R>,
    at: &Fpr,
    edges: &[Edge],
    hints: Hints<'_>,
    reached: &mut Reached,
    notes: &mut N,
) -> Result<(), Memory>
    requires size { search.now.size < 255 }
    requires lawful { (id : List ℕ) → IsRecord (R.network search.now.roads.now id) }
    requires needs { MatterBefore (R.network search.now.roads.now) (reach_in search.now.quest.now)
        search.now.size at.now edges.now }
    requires usable { AreUsableIf (R.network search.now.roads.now) hints.usable edges.now }
    ensures all { OnOk result (ConsidersInto N.noted R.network search.now at.now
        reached.old reached.new notes.old notes.new) }
    ensures grows { Widens (N.noted notes.old) (N.noted notes.new) }
    ensures falls { N.budget notes.new ≤ N.budget notes.old }
    ensures paid { N.total notes.new ≤ N.total notes.old }
    ensures gains { Gains (IsNear (record_in R.network search.now) at.now) (N.noted notes.old) (N.noted notes.new) }
{
    let demand = demand(search.roads, search.quest, search.size);
    let width = width_at(reached, search.size, at);
    let rest = Rest { demand, width };
    let mut index: usize = 0;
    notes.note(at)?;
    'edges: for edge in edges {
        let hint = hint_of(hints, index);
        consider(search, rest, hint, edge, reached, notes)?;
        index = index.saturating_add(1);
    }
    Ok(())
}
