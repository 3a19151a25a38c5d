//! The law of cursors: the pieces of a cursor join to the list, whatever lines come between. The function does nothing:
//! its contract is the law. docs/PROOF.md explains it.
//!
//! Its definitions are in `specs/Joined.antt`, its lemmas in `proofs/Begun.antt` and in the files that this imports.
ghost use Rattle.wot_policy.specs.declared.rows.PolicyRows.{PolicyRows};
ghost use Rattle.wot_laws.specs.Joined.{NextsAreTold, PiecesJoin, StaleNumbersDiffer};
ghost use Rattle.wot_laws.specs.Exchanges.{RunsAreExchanges};

use wot_explain::laws::list_is_one;
use wot_network::laws::record_is_lawful;
use wot_script::laws::lines_spell_commands;

/// The pieces of a cursor join to the list. Whatever lines come between, from any client, the concatenated pieces since
/// the cursor began are what `list` replied in the state in which it began, from the first binding on, and all of that
/// once a piece was shorter than asked for. Any other reply to `next` says that the view isn't open, or that the cursor
/// is stale, with the number at its beginning and the current one. Such numbers differ in every state.
pub fn pieces_join_to_the_list()
    ensures runs { (rows : PolicyRows) → RunsAreExchanges rows }
    ensures join { (rows : PolicyRows) → PiecesJoin rows }
    ensures next { (rows : PolicyRows) → NextsAreTold rows }
    ensures differ { (rows : PolicyRows) → StaleNumbersDiffer rows }
{
    record_is_lawful();
    list_is_one();
    lines_spell_commands();
}
