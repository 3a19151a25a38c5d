//! `check`: claimed paths and a table are right or not.
//!
//! It uses `show` for the paths and `points` for the table, and `specs/Absence.antt`. It looks at nothing
//! but the network and the roots, so a reply to `check` doesn't depend on how a path was found.
ghost use Rattle.std.specs.Prelude.{◌≡◌, ◌<◌, ◌^◌, length, IfOk};
ghost use Rattle.wot_edge.specs.Path.{asks};
ghost use Rattle.wot_edge.specs.Record.{IsRecord};
ghost use Rattle.wot_check.specs.declared.checking.Checked.TheVariants as answers;
ghost use Rattle.wot_check.specs.Absence.{Accepts, AreCheckedClaims, AreSpent, IsChecked, Rejects, SaysIff};
ghost use Rattle.wot_check.specs.Claim.{AreGood};

use crate::asked::Asked;
use crate::claimed::Claimed;
use crate::points::excludes;
use crate::show::show_all;
use crate::table::Table;
use std::alloc::Global;
use wot_edge::{Roads, Roots};
use wot_types::{Fpr, Memory};

/// The result of checking claimed paths and a table.
#[derive(Clone, Copy, Debug, PartialEq, Eq)]
pub enum Checked {
    /// The paths are valid, each with its residual amount after those before it, and the table shows that no path is
    /// left after them.
    Yes,
    /// A path isn't valid, or has another amount.
    BadPaths,
    /// The paths are right, but the table doesn't show that.
    BadTable,
}

/// What a client claims: paths, and a table that proves absence after them.
#[derive(Clone, Copy)]
pub struct Claims<'a> {
    pub paths: &'a [Claimed],
    pub table: &'a Table,
}

fn check_claims<R: Roads>(
    alloc: Global,
    roads: &R,
    roots: &Roots,
    claims: &Claims,
    target: &Fpr,
    uid: &[u8],
) -> Result<Checked, Memory>
    requires few { length claims.now.paths.now < 2 ^ 24 }
    ensures checked { IfOk result
        (λ checked. AreCheckedClaims (asks (R.network roads.now uid.now) roots.now target.now) claims.now checked) }
    ensures lawful { IfOk result (λ checked. IsRecord (R.network roads.now uid.now)) }
{
    if !roads.in_order(target, uid) {
        if claims.paths.is_empty() {
            return Ok(Checked::Yes);
        }
        return Ok(Checked::BadPaths);
    }
    match show_all(alloc, roads, roots, claims.paths, target, uid)? {
        None => Ok(Checked::BadPaths),
        Some(used) => {
            let asked = Asked {
                roots,
                used: &used,
                target,
                uid,
            };
            if excludes(roads, &asked, claims.table)? {
                Ok(Checked::Yes)
            } else {
                Ok(Checked::BadTable)
            }
        }
    }
}

/// Checks claimed paths, and a table that proves absence after them. Only the network and the roots are looked at;
/// nothing is searched.
///
/// ```text
/// paths: Alice ─40─▶ Carol        table: Bob 1, Dave 2
/// ```
///
/// A label is the least number of edges from a key to the target, as far as depth, scope and what is left go. The proof
/// is accepted if the paths are valid and have their amounts, every edge that could still be used comes from a key with
/// a label, and no root with a label has anything left.
pub fn check<R: Roads>(
    alloc: Global,
    roads: &R,
    roots: &Roots,
    paths: &[Claimed],
    table: &Table,
    target: &Fpr,
    uid: &[u8],
) -> Result<Checked, Memory>
    requires few { length paths.now < 2 ^ 24 }
    ensures checked { IfOk result (λ checked.
        IsChecked (asks (R.network roads.now uid.now) roots.now target.now) paths.now table.now checked) }
    ensures yes { SaysIff result answers.Yes
        (Accepts (asks (R.network roads.now uid.now) roots.now target.now) paths.now table.now) }
    ensures bad_paths { SaysIff result answers.BadPaths
        (AreGood (asks (R.network roads.now uid.now) roots.now target.now) paths.now → ⊥) }
    ensures rejects { SaysIff result answers.BadTable
        (Rejects (asks (R.network roads.now uid.now) roots.now target.now) paths.now table.now) }

    // After paths and a table that are accepted, no valid path of positive amount is left.
    ensures spent { IfOk result (λ it. it ≡ answers.Yes
        → AreSpent (asks (R.network roads.now uid.now) roots.now target.now) paths.now) }
{
    let claims = Claims { paths, table };
    let checked = check_claims(alloc, roads, roots, &claims, target, uid)?;
    Ok(checked)
}
