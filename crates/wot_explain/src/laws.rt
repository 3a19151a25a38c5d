//! Laws of the definitions. Each function does nothing: its contract is the law. They link the words of reasons to
//! usable edges, and say that a list of bindings is unique. wot_laws calls them.
ghost use Rattle.std.specs.Prelude.{ℕ, Bool};
ghost use Rattle.wot_explain.specs.Around.{AreExplainedAlike};
ghost use Rattle.wot_explain.specs.Listing.{HasList, HasOneList, IsOfEachList};
ghost use Rattle.wot_explain.specs.Target.{IsZeroInOrder};
ghost use Rattle.wot_explain.specs.Usable.{IsOfEachUserId, TellsStep, ZeroIsUsable};
ghost use Rattle.wot_standing.specs.declared.status.Standing.{Standing};

use wot_edge::laws::answer_is_one;
use wot_network::laws::own_verdicts_decide;

/// The target's word is 0 if and only if its key is in order and didn't revoke the user ID.
pub fn zero_is_in_order()
    ensures zero { (target : Standing) (t : ℕ) (revoked : Bool) → IsZeroInOrder target t revoked }
{}

/// A certification's word is 0 if and only if it is a usable edge, and its step is then that edge's.
pub fn zero_is_usable()
    ensures zero { IsOfEachUserId ZeroIsUsable }
    ensures step { IsOfEachUserId TellsStep }
{}

/// Each of the pairs has exactly one answer, so there is exactly one list of bindings.
pub fn list_is_one()
    ensures some { IsOfEachList HasList }
    ensures one { IsOfEachList HasOneList }
{
    answer_is_one();
}

/// An explanation depends on the certificate, on those of the issuers of its signatures by their verdicts, and on the
/// verdicts on all their signatures.
pub fn explanations_rest_on_issuers()
    ensures alike { AreExplainedAlike }
{
    own_verdicts_decide();
}
