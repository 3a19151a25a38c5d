//! One layer more of the least table: labels for the issuers of edges into the last layer.
//!
//! It uses `demand` and `growth`, and `specs/Growth.antt`. `making` calls `advance` until no label is added.
ghost use Rattle.std.specs.Prelude.{◌<◌, ◌+◌, ℕ, List, OnOk};
ghost use Rattle.wot_edge.specs.Record.{Has, edges_into};
ghost use Rattle.wot_check.specs.Asked.{Asking, EachAsked};
ghost use Rattle.wot_check.specs.Growth.{GivesIfNew, GoesOn, GrowsByLayer, GrowsInto};

use crate::asked::Asked;
use crate::demand::{carries, demanded};
use crate::growth::{Growth, give};
use std::alloc::Global;
use std::mem;
use wot_edge::{Demand, Edge, Roads};
use wot_types::{Fpr, Memory};

/// Labels the issuer of an edge, if the edge may come there and its issuer has no label yet.
fn consider<R: Roads>(
    roads: &R,
    asked: &Asked,
    demand: Demand,
    size: u8,
    edge: &Edge,
    growth: &mut Growth,
) -> Result<(), Memory>
    requires row { (id : List ℕ) → Has (edges_into (R.network roads.now id) edge.now.target) edge.now }
    requires size { size < 255 }
    ensures given { OnOk result (EachAsked (R.network roads.now) asked.now edge.now
        (GivesIfNew demand (size + 1) growth.old growth.new)) }
{
    let issuer = edge.facts().issuer;
    if growth.table.get(&issuer).is_some() {
        return Ok(());
    }
    if carries(roads, asked, demand, edge)? {
        return give(growth, &issuer, size + 1);
    }
    Ok(())
}

/// Considers the edges into a fingerprint that is `size` edges from the target.
fn extend<R: Roads>(
    roads: &R,
    asked: &Asked,
    size: u8,
    at: &Fpr,
    growth: &mut Growth,
) -> Result<(), Memory>
    requires size { size < 255 }
    ensures grown { OnOk result
        (Asking (R.network roads.now) asked.now (λ q used. GrowsInto q used size at.now growth.old growth.new)) }
{
    let demand = demanded(roads, asked, size);
    let mut rest = roads.rows(at);
    'rest: while let Some((edge, later)) = rest.split_first() {
        consider(roads, asked, demand, size, edge, growth)?;
        rest = later;
    }
    Ok(())
}

/// Considers the edges into each fingerprint of a layer.
fn extend_all<R: Roads>(
    roads: &R,
    asked: &Asked,
    size: u8,
    layer: &[Fpr],
    growth: &mut Growth,
) -> Result<(), Memory>
    requires size { size < 255 }
    ensures grown { OnOk result
        (Asking (R.network roads.now) asked.now (λ q used. GrowsByLayer q used size layer.now growth.old growth.new)) }
{
    let mut rest = layer;
    'rest: while let Some((at, later)) = rest.split_first() {
        extend(roads, asked, size, at, growth)?;
        rest = later;
    }
    Ok(())
}

/// Adds one layer.
pub fn advance<R: Roads>(
    alloc: Global,
    roads: &R,
    asked: &Asked,
    size: u8,
    growth: &mut Growth,
) -> Result<(), Memory>
    requires size { size < 255 }
    ensures after { OnOk result
        (Asking (R.network roads.now) asked.now (λ q used. GoesOn q used size growth.old growth.new)) }
{
    let layer = mem::replace(&mut growth.layer, Vec::new(alloc));
    extend_all(roads, asked, size, &layer, growth)
}
