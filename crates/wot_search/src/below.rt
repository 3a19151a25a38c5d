//! The next path, or only its amount if that is enough: then the least path of this amount isn't looked for.
//!
//! It uses `widest`, `offered` and `offers`. `wot_auth` uses it when only the sum of an answer is wanted.
ghost use Rattle.std.specs.Prelude.{◌≡◌, IfOk, OnOk};
ghost use Rattle.wot_edge.specs.Sums.{use_in};
ghost use Rattle.wot_search.specs.Asked.{HasItsReach, question_of};
ghost use Rattle.wot_search.specs.Below.{IsNextBelow, next_of};
ghost use Rattle.wot_search.specs.Offers.{AreOffersFor, first_path};

use crate::offered::{drop_spent, first_of, open_offer};
use crate::offers::offers_after;
use crate::widest::widest;
use std::alloc::Global;
use wot_edge::{Path, Roads, Used};
use wot_first_path::{Asked, Unnoted};
use wot_types::Memory;

/// What comes next.
#[derive(Drop)]
pub enum Next {
    /// No valid path of positive amount is left.
    Spent,
    /// The next path has this amount, which is enough.
    Enough(u8),
    /// The next path.
    Path(Path),
}

/// The first of these paths comes next.
fn first_next(paths: &[Path]) -> Result<Next, Memory>
    ensures { IfOk result (λ next. next ≡ next_of (first_path paths.now)) }
{
    match first_of(paths)? {
        None => Ok(Next::Spent),
        Some(path) => Ok(Next::Path(path)),
    }
}

/// Finds what comes next: from the offers of an earlier search if the next path is one of them, otherwise by a search.
/// Returns only the next path's amount if a search finds one of at least `enough`.
pub fn next_below<R: Roads>(
    alloc: Global,
    roads: &R,
    asked: &Asked,
    used: &Used,
    enough: u32,
    offers: &mut Vec<Path>,
) -> Result<Next, Memory>
    requires reach { HasItsReach (R.network roads.now) asked.now }
    requires offers { AreOffersFor (question_of (R.network roads.now) asked.now) (use_in used.now) offers.old.items }
    ensures next { IfOk result (IsNextBelow (question_of (R.network roads.now) asked.now) (use_in used.now) enough) }
    ensures offers { OnOk result (AreOffersFor (question_of (R.network roads.now) asked.now) (use_in used.now)
        offers.new.items) }
{
    drop_spent(asked.roots, used, offers);
    if let Some(path) = open_offer(asked.roots, used, offers.as_slice())? {
        return Ok(Next::Path(path));
    }
    match widest(alloc, roads, asked, used, &mut Unnoted)? {
        None => Ok(Next::Spent),
        Some(wide) => {
            if enough <= u32::from(wide.amount) {
                return Ok(Next::Enough(wide.amount));
            }
            *offers = offers_after(alloc, roads, asked, used, &wide)?;
            let next = first_next(offers.as_slice())?;
            Ok(next)
        }
    }
}
