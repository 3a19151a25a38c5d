//! A law of the definition of a scope. The function does nothing: its contract is the law, which depends on the laws of
//! `wot_pattern`.
ghost use Rattle.std.specs.Prelude.{◌↔◌, ℕ, List, IsTrue};
ghost use Rattle.wot_scope.specs.Scope.{ScopeHolds};
ghost use Rattle.wot_scope.specs.Deciding.{scope_holds};

use wot_pattern::laws::{matching_is_told, reading_is_told};

/// Whether a scope holds for a user ID is a function of both.
pub fn scope_is_told()
    ensures reported { (texts : List (List ℕ)) (uid : List ℕ) → IsTrue (scope_holds texts uid) ↔ ScopeHolds texts uid }
{
    reading_is_told();
    matching_is_told();
}
