//! Laws of proofs of absence. Each function does nothing: its contract is the law. They use `specs/Absence.antt`
//! and `specs/Leading.antt`. The laws of `wot_laws` call them, and `wot_command` calls `answers_are_few`
//! before it makes the reply to `absence`.
ghost use Rattle.std.specs.Prelude.{◌≡◌, ◌≤◌, ◌<◌, ◌^◌, ℕ, List, [], length};
ghost use Rattle.wot_edge.specs.declared.path.Path.{Path};
ghost use Rattle.wot_edge.specs.Answer.{EachNext};
ghost use Rattle.wot_edge.specs.Path.{Question, Use};
ghost use Rattle.wot_edge.specs.Record.{IsRecord};
ghost use Rattle.wot_edge.specs.Roots.{IsRoots};
ghost use Rattle.wot_check.specs.declared.checking.Checked.{Checked};
ghost use Rattle.wot_check.specs.Absence.{Accepts, AcceptsLeast, AreOne, AreSpent, HasAnswer, IsLeastTable};
ghost use Rattle.wot_check.specs.Claim.{Claim};
ghost use Rattle.wot_check.specs.Leading.{DoChecksAgree, DoPathsLead, DoTablesAgree, IsLeadingShared};
ghost use Rattle.wot_check.specs.Table.{IsTable, Labels};

use wot_edge::laws::paths_fit;

/// Whatever is used, there is exactly one least table.
pub fn least_table_is_one()
    ensures some { (q : Question) (used : Use) → (table : Labels) × IsTable table × IsLeastTable q used table }
    ensures one { (q : Question) (used : Use) (a b : Labels) → IsTable a → IsTable b
        → IsLeastTable q used a → IsLeastTable q used b → a ≡ b }
{}

/// If an answer misses its wanted amount, its paths and the least table after them are accepted.
pub fn least_tables_are_accepted()
    ensures accepted { (q : Question) (wanted : ℕ) (paths : List Path) (table : Labels) → IsTable table
        → AcceptsLeast q wanted paths table }
{}

/// Each check of claims and a table has exactly one result.
pub fn check_is_one()
    ensures some { (q : Question) (claims : List Claim) (table : Labels) → IsTable table
        → HasAnswer q claims table }
    ensures one { (q : Question) (claims : List Claim) (table : Labels) (a b : Checked) → IsRecord q.network
        → AreOne q claims table a b }
{}

/// The paths of an answer are fewer than `absence` and `check` accept: each has a positive amount, and together they
/// have at most that of 64 roots of 255.
pub fn answers_are_few()
    ensures few { (q : Question) (paths : List Path) → EachNext q [] paths → IsRoots q.roots → length q.roots ≤ 64
        → length paths < 2 ^ 24 }
{
    paths_fit();
}

/// After paths that are accepted with a table, no valid path of positive amount is left.
pub fn accepted_paths_leave_nothing()
    ensures spent { (q : Question) (claims : List Claim) (table : Labels) → IsRecord q.network → Accepts q claims table
        → AreSpent q claims }
{}

/// The least table depends only on the target and on all that leads to it: questions that agree on these have the same
/// table. All issuers on valid paths are among these.
pub fn tables_rest_on_what_leads()
    ensures within { DoPathsLead }
    ensures shared { IsLeadingShared }
    ensures tables { DoTablesAgree }
{}

/// The result of a check depends only on the target, the keys that certified it, the claimed issuers, the fingerprints
/// with a label, and their introducers: questions that agree on these have the same result.
pub fn checks_rest_on_what_they_name()
    ensures { DoChecksAgree }
{}
