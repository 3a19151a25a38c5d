//! The least table while it is made: the labels so far, and the last layer. `extend` adds to it.
ghost use Rattle.std.specs.Prelude.{◌≤◌, OnOk};
ghost use Rattle.wot_check.specs.Growth.{IsGiven};

use crate::table::Table;
use std::alloc::Global;
use wot_types::{Fpr, Memory};

/// The labels so far, and the fingerprints with the greatest one.
#[derive(Drop)]
pub struct Growth {
    pub table: Table,
    pub layer: Vec<Fpr, Global>,
}

/// Labels a fingerprint that has no label.
pub fn give(growth: &mut Growth, fpr: &Fpr, label: u8) -> Result<(), Memory>
    requires some { 1 ≤ label }
    ensures given { OnOk result (IsGiven growth.old growth.new fpr.now label) }
{
    growth.table.set(*fpr, label)?;
    growth.layer.push(*fpr)?;
    Ok(())
}
