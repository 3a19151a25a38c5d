//! The sum of an answer without its last path.
//!
//! It uses `next_below` of `wot_search` and `specs/Sum.antt`. Lists and cursors, which print sums only, ask it
//! for each binding.
ghost use Rattle.std.specs.Prelude.{◌≤◌, length, IfOk};
ghost use Rattle.wot_search.specs.Asked.{HasItsReach, question_of};
ghost use Rattle.wot_auth.specs.Sum.{IsSumOf};

use std::alloc::Global;
use wot_edge::laws::{answer_is_one, next_path_is_one, paths_fit};
use wot_edge::{Path, Roads, Used};
use wot_search::{Asked, Next, next_below};
use wot_types::Memory;

/// The sum of the answer. Of its last path only the amount is looked for if that suffices.
pub fn sum_within<R: Roads>(
    alloc: Global,
    roads: &R,
    asked: &Asked,
    wanted: u32,
) -> Result<u32, Memory>
    requires wanted { 1 ≤ wanted }
    requires few { length asked.now.roots.now ≤ 64 }
    requires reach { HasItsReach (R.network roads.now) asked.now }
    ensures sum { IfOk result (λ sum. IsSumOf (question_of (R.network roads.now) asked.now) wanted sum) }
{
    // Laws for the bounds: no root has more than 255, and next paths use no more than there is.
    let _count = asked.roots.len();
    paths_fit();
    answer_is_one();
    next_path_is_one();
    // The record is lawful.
    let _rows = roads.rows(asked.target);
    let mut used = Used::new(alloc);
    let mut paths: Vec<Path> = Vec::new(alloc);
    let mut offers: Vec<Path> = Vec::new(alloc);
    let mut sum: u32 = 0;
    'paths: while sum < wanted {
        let rest = wanted - sum;
        let next = next_below(alloc, roads, asked, &used, rest, &mut offers)?;
        match next {
            Next::Spent => return Ok(sum),
            Next::Enough(amount) => return Ok(sum + u32::from(amount)),
            Next::Path(path) => {
                used.add(&path)?;
                sum += path.amount as u32;
                paths.push(path)?;
            }
        }
    }
    Ok(sum)
}
