//! The three points that make a table a proof of absence, tested edge by edge.
//!
//! It uses `demand` and `table`, and `specs/Absence.antt`. A wrong test here would accept a false proof; the
//! contract of `excludes` rules that out.
ghost use Rattle.std.specs.Prelude.{◌≡◌, ◌↔◌, ◌<◌, ◌+◌, ℕ, List, Option, true, IfOk};
ghost use Rattle.wot_edge.specs.Record.{Has, Record, edges_into};
ghost use Rattle.wot_check.specs.Absence.{Excludes, OthersLabelled};
ghost use Rattle.wot_check.specs.Asked.{Asking, TellsEach};
ghost use Rattle.wot_check.specs.Demand.{Covers, CoversBelow, is_covered_by, is_within};
ghost use Rattle.wot_check.specs.Growth.{AreRootsSpent};

use crate::asked::Asked;
use crate::demand::{carries, demanded};
use crate::left::left_of_root;
use crate::table::Table;
use wot_edge::{Demand, Edge, Roads};
use wot_types::{Fpr, Memory};

fn within(most: u8, label: Option<u8>) -> bool
    ensures { result ≡ is_within most label }
{
    match label {
        Some(label) => label <= most,
        None => false,
    }
}

/// Whether the issuer of an edge has a label of at most this, or the edge may not come there.
fn covers_edge<R: Roads>(
    roads: &R,
    asked: &Asked,
    demand: Demand,
    most: u8,
    table: &Table,
    edge: &Edge,
) -> Result<bool, Memory>
    requires row { (id : List ℕ) → Has (edges_into (R.network roads.now id) edge.now.target) edge.now }
    ensures { IfOk result (λ covered. TellsEach (R.network roads.now) asked.now edge.now
        (is_covered_by demand most table.now) covered) }
{
    if within(most, table.get(&edge.facts().issuer)) {
        return Ok(true);
    }
    let carries = carries(roads, asked, demand, edge)?;
    Ok(!carries)
}

/// Whether that holds for each edge into a fingerprint that is `size` edges from the target.
fn covers<R: Roads>(
    roads: &R,
    asked: &Asked,
    size: u8,
    table: &Table,
    at: &Fpr,
) -> Result<bool, Memory>
    requires size { size < 255 }
    ensures { IfOk result (λ it. (it ≡ true)
        ↔ Asking (R.network roads.now) asked.now (λ q used. Covers q used size table.now at.now)) }
{
    let demand = demanded(roads, asked, size);
    let mut rest = roads.rows(at);
    'rest: while let Some((edge, later)) = rest.split_first() {
        if !covers_edge(roads, asked, demand, size + 1, table, edge)? {
            return Ok(false);
        }
        rest = later;
    }
    Ok(true)
}

/// Whether it holds for the edges into a fingerprint with this label. The greatest label demands nothing.
fn covers_below<R: Roads>(
    roads: &R,
    asked: &Asked,
    label: u8,
    table: &Table,
    at: &Fpr,
) -> Result<bool, Memory>
    ensures { IfOk result (λ covered. (covered ≡ true)
        ↔ Asking (R.network roads.now) asked.now (CoversBelow label table.now at.now)) }
{
    if label == 255 {
        return Ok(true);
    }
    covers(roads, asked, label, table, at)
}

/// Whether it holds for the edges into each labelled fingerprint.
fn covers_all<R: Roads>(roads: &R, asked: &Asked, table: &Table) -> Result<bool, Memory>
    ensures { IfOk result (λ covered. (covered ≡ true)
        ↔ Asking (R.network roads.now) asked.now (λ q used. OthersLabelled q used table.now)) }
{
    let mut rest = table.iter();
    'rest: while let Some((fpr, label)) = rest.next() {
        if !covers_below(roads, asked, label, table, &fpr)? {
            return Ok(false);
        }
    }
    Ok(true)
}

/// Whether no labelled fingerprint is a root with a residual amount.
pub fn roots_spent(asked: &Asked, table: &Table) -> bool
    ensures { (network : List ℕ → Record) → Asking network asked.now (λ q used. AreRootsSpent result q used table.now) }
{
    let mut rest = table.iter();
    'rest: while let Some((fpr, _)) = rest.next() {
        if left_of_root(asked, &fpr) > 0 {
            return false;
        }
    }
    true
}

/// Whether a table meets the three points.
pub fn excludes<R: Roads>(roads: &R, asked: &Asked, table: &Table) -> Result<bool, Memory>
    ensures { IfOk result (λ meets. (meets ≡ true)
        ↔ Asking (R.network roads.now) asked.now (λ q used. Excludes q used table.now)) }
{
    // The invariant of a table.
    let _labels = table.iter();
    if !roots_spent(asked, table) {
        return Ok(false);
    }
    if !covers(roads, asked, 0, table, asked.target)? {
        return Ok(false);
    }
    covers_all(roads, asked, table)
}
