//! Copies of a view's roots, and whether they are unchanged. `answers` compares them, since an answer depends on
//! amounts.
ghost use Rattle.std.specs.Prelude.{◌≡◌, true, IfOk};

use std::alloc::Global;
use wot_edge::Roots;
use wot_types::{Fpr, Memory};

/// Whether these are the roots, with their amounts.
pub fn are_same(known: &[(Fpr, u8)], roots: &Roots) -> bool
    ensures same { result ≡ true → known.now ≡ roots.now }
{
    let mut rest = known;
    'roots: for (fpr, amount) in roots.iter() {
        let Some((first, later)) = rest.split_first() else {
            return false;
        };
        if first.0 != fpr || first.1 != amount {
            return false;
        }
        rest = later;
    }
    rest.is_empty()
}

/// The roots with their amounts, in order.
pub fn listed(alloc: Global, roots: &Roots) -> Result<Vec<(Fpr, u8)>, Memory>
    ensures same { IfOk result (λ listed. listed.items ≡ roots.now) }
{
    let mut listed = Vec::new(alloc);
    'roots: for (fpr, amount) in roots.iter() {
        listed.push((fpr, amount))?;
    }
    Ok(listed)
}
