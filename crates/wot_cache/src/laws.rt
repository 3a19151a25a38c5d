//! Laws of the definitions. Each function does nothing: its contract is the law. wot_machine and wot_watch_commands
//! call them for cursors and watches: what a change leaves alone, and what an answer depends on.
ghost use Rattle.std.specs.Prelude.{◌≤◌, ℕ, List, length};
ghost use Rattle.wot_types.specs.declared.fpr.Fpr.{Fpr};
ghost use Rattle.wot_keyring_spec.specs.Import.{IsOneChange};
ghost use Rattle.wot_keyring_spec.specs.Keyring.{Keyring};
ghost use Rattle.wot_cache.specs.Basis.{ClosingGoesOn, IsKeptOn, IsKeyringOn, OtherViewsStay, RevisionGoesOn};
ghost use Rattle.wot_cache.specs.Basis.{RestsOnLater, RestsOnMore};
ghost use Rattle.wot_cache.specs.Inside.{FitLater};
ghost use Rattle.wot_cache.specs.State.{Engine, StaysButMarks};
ghost use Rattle.wot_cache.specs.Views.{Views, with_root, with_time};
ghost use Rattle.wot_answers.specs.RightLaws.{LaterStill};

use wot_keyring::laws::later_is_order;
use wot_network::laws::fits_later;

/// If only marks change, the engine only develops; and developing is transitive.
pub fn kept_on_is_order()
    ensures itself { (engine : Engine) → IsKeptOn engine engine }
    ensures still { (old new : Engine) → StaysButMarks old new → IsKeptOn old new }
    ensures further { (old mid new : Engine) → IsKeptOn old mid → IsKeptOn mid new → IsKeptOn old new }
{}

/// A change that doesn't reduce the number of certificates removes none.
pub fn change_goes_on()
    ensures { (old new : Keyring) → IsOneChange old new → length old.certs ≤ length new.certs → IsKeyringOn old new }
{}

/// A view that is opened or changed gets a revision, and a closed view is no longer open.
pub fn views_go_on()
    ensures turned { RevisionGoesOn }
    ensures closed { ClosingGoesOn }
    ensures timed { (name : List ℕ) (views : Views) (t : ℕ) → OtherViewsStay name views (with_time views name t) }
    ensures rooted { (name : List ℕ) (views : Views) (fpr : Fpr) (amount : ℕ) →
        OtherViewsStay name views (with_root views name fpr amount) }
{}

/// What depends on a basis still does after the basis grows, and later.
pub fn rests_on()
    ensures grown { RestsOnMore }
    ensures later { RestsOnLater }
{}

/// What is kept for a keyring fits every later one: each network does, and what is later than a later one is later.
/// Every change of the engine's keyring calls it.
pub(crate) fn kept_fits_later()
    ensures fits { FitLater }
    ensures further { LaterStill }
{
    fits_later();
    later_is_order();
}
