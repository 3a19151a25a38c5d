//! `absence`: the least table after the paths of an answer.
//!
//! It uses `extend` and `points`, and `specs/Absence.antt`. Its table is the one that the reply to `absence`
//! prints.
ghost use Rattle.std.specs.Prelude.{◌≡◌, ◌↔◌, ◌<◌, ◌^◌, [], ◌∷◌, None, length, IfOk};
ghost use Rattle.wot_edge.specs.Path.{asks, use_of};
ghost use Rattle.wot_check.specs.Absence.{AcceptsMissed, IsLeft, IsMade};
ghost use Rattle.wot_check.specs.Asked.{question_of, used_in};
ghost use Rattle.wot_check.specs.Growth.{IsSettled};

use crate::asked::Asked;
use crate::extend::advance;
use crate::growth::Growth;
use crate::points::roots_spent;
use crate::table::Table;
use crate::using::used_by;
use std::alloc::Global;
use wot_edge::{Path, Roads, Roots};
use wot_types::{Fpr, Memory};

/// Before the first layer: only the target, and no labels.
fn begin(alloc: Global, target: &Fpr) -> Result<Growth, Memory>
    ensures table { IfOk result (λ growth. growth.table ≡ []) }
    ensures layer { IfOk result (λ growth. growth.layer.items ≡ target.now ∷ []) }
{
    let mut layer: Vec<Fpr> = Vec::new(alloc);
    layer.push(*target)?;
    Ok(Growth {
        table: Table::new(alloc),
        layer,
    })
}

/// The labels of the least table: for each fingerprint, the least number of edges from there to the target.
fn table_at_rest<R: Roads>(alloc: Global, roads: &R, asked: &Asked) -> Result<Table, Memory>
    ensures settled { IfOk result
        (λ table. IsSettled (question_of (R.network roads.now) asked.now) (used_in asked.now) table) }
{
    let mut growth = begin(alloc, asked.target)?;
    'layers: for size in 0..255u8 {
        advance(alloc, roads, asked, size, &mut growth)?;
        if growth.layer.is_empty() {
            return Ok(growth.table);
        }
    }
    Ok(growth.table)
}

/// Makes the least table that proves absence after these paths. `None` if and only if a valid path of positive amount
/// is left after them. The table is empty if the key isn't a valid target for the user ID.
pub fn absence<R: Roads>(
    alloc: Global,
    roads: &R,
    roots: &Roots,
    paths: &[Path],
    target: &Fpr,
    uid: &[u8],
) -> Result<Option<Table>, Memory>
    requires few { length paths.now < 2 ^ 24 }
    // The least table, and no path is left; or none, and a path is left.
    ensures made { IfOk result
        (λ made. IsMade (asks (R.network roads.now uid.now) roots.now target.now) (use_of paths.now) made) }
    ensures none { IfOk result
        (λ made. (made ≡ None) ↔ IsLeft (asks (R.network roads.now uid.now) roots.now target.now) (use_of paths.now)) }

    // For an answer that misses its wanted amount there is a table, and `check` accepts it.
    ensures accepted { IfOk result
        (λ made. AcceptsMissed (asks (R.network roads.now uid.now) roots.now target.now) paths.now made) }
{
    let used = used_by(alloc, paths)?;
    if !roads.in_order(target, uid) {
        let empty = Table::new(alloc);
        let _labels = empty.iter();
        return Ok(Some(empty));
    }
    let asked = Asked {
        roots,
        used: &used,
        target,
        uid,
    };
    let table = table_at_rest(alloc, roads, &asked)?;
    let _labels = table.iter();
    if roots_spent(&asked, &table) {
        Ok(Some(table))
    } else {
        Ok(None)
    }
}
