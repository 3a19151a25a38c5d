//! What earlier paths use, computed from a list of paths.
//!
//! It uses `Used` of `wot_edge`; its laws bound the sums, so that none overflows. `making` and `show` start from
//! it.
ghost use Rattle.std.specs.Prelude.{◌≡◌, ◌<◌, ◌+◌, ◌*◌, ◌^◌, ◌∷◌, ◌++◌, ℕ, List, [], length, IfOk, OnOk};
ghost use Rattle.wot_edge.specs.declared.path.Path.{Path as ThePath};
ghost use Rattle.wot_edge.specs.Path.{use_of};
ghost use Rattle.wot_edge.specs.Sums.{use_in};
ghost use Rattle.wot_check.specs.Using.{AreBelow};

use std::alloc::Global;
use wot_edge::{Path, Used};
use wot_types::Memory;

/// Nothing used yet.
pub fn unused(alloc: Global) -> Used
    ensures none { use_in result ≡ use_of [] }
    ensures below { AreBelow 0 result }
{
    Used::new(alloc)
}

/// Adds what one more path uses.
pub fn add(used: &mut Used, path: &Path) -> Result<(), Memory>
    requires small { AreBelow (255 * 2 ^ 24) used.old }
    ensures used { OnOk result ((paths : List ThePath) → use_in used.old ≡ use_of paths
        → use_in used.new ≡ use_of (paths ++ path.now ∷ [])) }
    ensures below { OnOk result ((most : ℕ) → AreBelow most used.old → AreBelow (most + 255) used.new) }
{
    // A law for the bounds: an amount is an octet.
    let _amount = path.amount;
    used.add(path)?;
    Ok(())
}

/// What these paths use.
pub fn used_by(alloc: Global, paths: &[Path]) -> Result<Used, Memory>
    requires few { length paths.now < 2 ^ 24 }
    ensures used { IfOk result (λ used. use_in used ≡ use_of paths.now) }
{
    let mut used = unused(alloc);
    let mut rest = paths;
    'rest: while let Some((path, later)) = rest.split_first() {
        add(&mut used, path)?;
        rest = later;
    }
    Ok(used)
}
