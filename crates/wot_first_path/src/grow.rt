//! One layer more: the edges into every fingerprint of the last layer.
//!
//! It uses `extend` and `specs/Growth.antt`. `first_path` calls it until it finds a root,
//! and `wot_search` for a number of layers.
ghost use Rattle.std.specs.Prelude.{◌≤◌, ◌<◌, ℕ, List, OnOk};
ghost use Rattle.wot_edge.specs.Record.{IsRecord};
ghost use Rattle.wot_first_path.specs.Quest.{LeadsOn};
ghost use Rattle.wot_first_path.specs.Looked.{Gains, IsNearOne, Widens};
ghost use Rattle.wot_first_path.specs.Growth.{ConsidersLayer, GoesOn, StaysUnrooted, GainsAfter};
ghost use Rattle.wot_first_path.specs.Search.{record_in};

use crate::extend::extend;
use crate::notes::Notes;
use crate::quest::Quest;
use crate::reached::Reached;
use crate::search::Search;
use std::alloc::Global;
use std::mem;
use wot_edge::Roads;
use wot_types::{Fpr, Memory};

/// Considers the edges into each fingerprint of a layer. Their places in the table of reach may be known.
fn grow<R: Roads, N: Notes>(
    search: &Search<'_, R>,
    layer: &[Fpr],
    places: &[Option<u32>],
    reached: &mut Reached,
    notes: &mut N,
) -> Result<(), Memory>
    requires size { search.now.size < 255 }
    requires lawful { (id : List ℕ) → IsRecord (R.network search.now.roads.now id) }
    requires onward { LeadsOn (R.network search.now.roads.now) search.now.quest.now }
    ensures all { OnOk result (ConsidersLayer N.noted R.network search.now layer.now
        reached.old reached.new notes.old notes.new) }
    ensures grows { Widens (N.noted notes.old) (N.noted notes.new) }
    ensures falls { N.budget notes.new ≤ N.budget notes.old }
    ensures paid { N.total notes.new ≤ N.total notes.old }
    ensures gains { Gains (IsNearOne (record_in R.network search.now) layer.now) (N.noted notes.old)
        (N.noted notes.new) }
{
    let mut index: usize = 0;
    'layer: for at in layer {
        let known = places.get(index).copied().unwrap_or(None);
        extend(search, at, known, reached, notes)?;
        index = index.saturating_add(1);
    }
    Ok(())
}

/// Adds one layer.
pub fn advance<R: Roads, N: Notes>(
    alloc: Global,
    roads: &R,
    quest: &Quest,
    size: u8,
    reached: &mut Reached,
    notes: &mut N,
) -> Result<(), Memory>
    requires size { size < 255 }
    requires lawful { (id : List ℕ) → IsRecord (R.network roads.now id) }
    requires onward { LeadsOn (R.network roads.now) quest.now }
    ensures after { OnOk result (GoesOn (R.network roads.now) quest.now size reached.old reached.new
        (N.noted notes.old) (N.noted notes.new)) }
    ensures unrooted { OnOk result (StaysUnrooted (R.network roads.now) quest.now size reached.old reached.new
        (N.noted notes.old)) }
    ensures grows { Widens (N.noted notes.old) (N.noted notes.new) }
    ensures falls { N.budget notes.new ≤ N.budget notes.old }
    ensures paid { N.total notes.new ≤ N.total notes.old }
    ensures leads { GainsAfter (R.network roads.now) quest.now size reached.old (N.noted notes.old)
        (N.noted notes.new) }
{
    let layer = mem::replace(&mut reached.layer, Vec::new(alloc));
    let places = mem::replace(&mut reached.places, Vec::new(alloc));
    let search = Search { roads, quest, size };
    grow(&search, &layer, &places, reached, notes)?;
    Ok(())
}
