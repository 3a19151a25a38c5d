//! The laws of questions: what a reply to `ask`, `explain`, `absence` or `check` depends on, and what a claim of
//! absence is worth. Each function does nothing: its contract is the law. docs/PROOF.md explains each.
//!
//! Their definitions are in `specs/Depends.antt`, `specs/Slices.antt` and `specs/Leading.antt`, and for claims of
//! absence in wot_plain. Their lemmas are in `proofs/Alike.antt`, `proofs/Slices.antt`, `proofs/Explained.antt`,
//! `proofs/ProofsRestOnLeads.antt`, `proofs/ClaimsAccepted.antt` and `proofs/SentBack.antt`.
ghost use Rattle.wot_policy.specs.declared.rows.PolicyRows.{PolicyRows};
ghost use Rattle.wot_script.specs.Spelling.{HasSpelling};
ghost use Rattle.wot_plain.specs.Absent.{AreClaimsAccepted, DoClaimsLeaveNothing};
ghost use Rattle.wot_laws.specs.Depends.{DependsOnWhatIsPresent};
ghost use Rattle.wot_laws.specs.Leading.{DoAbsencesRestOnLeading, DoChecksRestOnLookedAt};
ghost use Rattle.wot_laws.specs.SentBack.{AreClaimsSpelled, ComesBack};
ghost use Rattle.wot_laws.specs.Slices.{DoAnswersRestOnSlices, DoExplanationsRestOnIssuers};
ghost use Rattle.wot_laws.specs.Slices.{DoRepliesRestOnSlices};

use crate::lines::{each_line_has_one_outcome, reached_states_are_judged};
use wot_auth::laws::{answers_rest_on_paths, answers_rest_on_slices};
use wot_cert::laws::judging;
use wot_check::laws::{
    accepted_paths_leave_nothing, check_is_one, checks_rest_on_what_they_name,
    least_tables_are_accepted, tables_rest_on_what_leads,
};
use wot_explain::laws::explanations_rest_on_issuers;
use wot_network::laws::{edges_rest_on_trust, record_is_lawful, records_agree};
use wot_script::Command;
use wot_script::laws::{lines_spell_commands, printed_claim_is_read};

/// Each answer depends only on the current certificates and verdicts, and on the roots and the time of the asking view.
/// Whatever else two histories did, and whatever other views are open, equal questions get equal replies.
pub fn answers_depend_on_what_is_present()
    ensures present { (rows : PolicyRows) → DependsOnWhatIsPresent rows }
{
    judging();
    reached_states_are_judged();
    each_line_has_one_outcome();
}

/// The reply to `ask` depends only on a slice of what is held: the certificates of the roots, of every key that a
/// member certified with a depth of at least 1, and of the target, with the verdicts on their signatures. Two states
/// that agree on these and on the asking view give the same reply and the same answer.
pub fn questions_rest_on_slices()
    ensures replies { (rows : PolicyRows) → DoRepliesRestOnSlices rows }
    ensures answers { (rows : PolicyRows) → DoAnswersRestOnSlices rows }
{
    answers_rest_on_slices();
    edges_rest_on_trust();
    records_agree();
    record_is_lawful();
    judging();
    reached_states_are_judged();
    each_line_has_one_outcome();
}

/// The reply to `explain` depends only on the explained certificate, on the certificates of the issuers that verdicts
/// name for its signatures, and on the verdicts on all their signatures. Two states that agree on these and on the
/// asking view give the same reply.
pub fn explanations_rest_on_slices()
    ensures { (rows : PolicyRows) → DoExplanationsRestOnIssuers rows }
{
    explanations_rest_on_issuers();
    judging();
    reached_states_are_judged();
    each_line_has_one_outcome();
}

/// The reply to `absence` depends only on the certificates that lead to the target, and on the verdicts on their
/// signatures: the target, every key that certified it, and with each of these every key that certified it with a depth
/// of at least 1. Two states that agree on these and on the asking view give the same reply.
pub fn absences_rest_on_slices()
    ensures { (rows : PolicyRows) → DoAbsencesRestOnLeading rows }
{
    answers_rest_on_paths();
    tables_rest_on_what_leads();
    edges_rest_on_trust();
    records_agree();
    judging();
    reached_states_are_judged();
    each_line_has_one_outcome();
}

/// The reply to `check` depends only on the certificates that the check looks at, and on the verdicts on their
/// signatures: the target, every key that certified it, the issuers on the claimed paths, each key with a label, and
/// every key that certified one with a depth of at least 1. Two states that agree on these and on the asking view give
/// the same reply.
pub fn checks_rest_on_slices()
    ensures { (rows : PolicyRows) → DoChecksRestOnLookedAt rows }
{
    checks_rest_on_what_they_name();
    edges_rest_on_trust();
    records_agree();
    judging();
    reached_states_are_judged();
    each_line_has_one_outcome();
    lines_spell_commands();
}

/// Claims of absence hold. A claim from a reply `absence missed` is accepted by `check` from the same view in the same
/// state, and can be printed in such a line. After the paths of an accepted claim, no valid path of positive amount is
/// left.
pub fn claims_of_absence_hold()
    ensures accepted { AreClaimsAccepted }
    ensures spelled { AreClaimsSpelled }
    ensures nothing { DoClaimsLeaveNothing }
{
    least_tables_are_accepted();
    accepted_paths_leave_nothing();
    record_is_lawful();
}

/// A printed claim comes back: what `absence` printed after `claim `, put into a line `check` with the same view,
/// target and user ID, is read and accepted with the same sum, if that line isn't too long and the state is the same.
/// The claim of each reply `absence missed` has a spelling (`spelled` of [`claims_of_absence_hold`]).
pub fn printed_claims_come_back(check: &Command)
    requires spelled { HasSpelling check.now }
    ensures back { ComesBack check.now }
{
    printed_claim_is_read(check);
    least_tables_are_accepted();
    check_is_one();
    record_is_lawful();
}
