//! The laws of one line, and of any lines. Each function does nothing: its contract is the law. wot_engine calls the
//! first in its top call, and the other laws cite them. docs/PROOF.md explains each.
//!
//! Their definitions are in `specs/OneLine.antt` and `specs/Judged.antt`, their lemmas in `proofs/Outcomes.antt`,
//! `proofs/Refusals.antt`, `proofs/Runs.antt` and `proofs/Marked.antt`, and in the files that these import. Other laws
//! also use `specs/Exchanges.antt`, `specs/Numbers.antt`, `proofs/Reached.antt` and `proofs/StaleTold.antt`.
ghost use Rattle.std.specs.Prelude.{ℕ, List};
ghost use Rattle.wot_policy.specs.declared.rows.PolicyRows.{PolicyRows};
ghost use Rattle.wot_script.specs.declared.reply.Reply.{Reply};
ghost use Rattle.wot_certd.specs.World.{World};
ghost use Rattle.wot_laws.specs.OneLine.{HaveOneOutcome, HaveOnlyWatchLines, HaveOutcomes, HaveWatchLines};
ghost use Rattle.wot_laws.specs.OneLine.{LeadToStates, RefusalsLeaveAll};
ghost use Rattle.wot_plain.specs.Transcript.{HasOneTranscript, Transcript};
ghost use Rattle.wot_laws.specs.Judged.{StayJudged};

use wot_cert::laws::judging;
use wot_check::laws::{check_is_one, least_table_is_one};
use wot_edge::laws::answer_is_one;
use wot_explain::laws::list_is_one;
use wot_network::laws::record_is_lawful;
use wot_script::laws::lines_spell_commands;

/// Whatever the certificate directory returns, each line has an outcome: a reply or none, and a new state. From a
/// well-formed state, as the one before the first line is, there is only one, and the new state is well-formed too. The
/// watch lines of a state exist too, and those of a well-formed state are unique.
pub fn each_line_has_one_outcome()
    ensures some { (rows : PolicyRows) → HaveOutcomes rows }
    ensures one { (rows : PolicyRows) → HaveOneOutcome rows }
    ensures stays { (rows : PolicyRows) → LeadToStates rows }
    ensures tells { HaveWatchLines }
    ensures tells_one { HaveOnlyWatchLines }
{
    answer_is_one();
    record_is_lawful();
    list_is_one();
    least_table_is_one();
    check_is_one();
    lines_spell_commands();
}

/// A line that is refused, or in which the certificate directory failed, leaves certificates, verdicts, views, counts,
/// cursors and watches unchanged.
pub fn refused_lines_leave_the_state()
    ensures { (rows : PolicyRows) → RefusalsLeaveAll rows }
{}

/// With a certificate directory in any world, each input has exactly one transcript.
pub fn each_input_has_one_transcript()
    ensures some { (rows : PolicyRows) (world : World) (input : List ℕ)
        → (replies : List Reply) × Transcript rows world input replies }
    ensures one { (rows : PolicyRows) (world : World) (input : List ℕ) → HasOneTranscript rows world input }
{
    each_line_has_one_outcome();
}

/// In each state to which lines lead from a fresh machine, every signature has the mark that the policy rows give it.
/// So judging the signatures again changes nothing, and the lines of a dump restore exactly this state.
pub fn reached_states_are_judged()
    ensures { (rows : PolicyRows) → StayJudged rows }
{
    judging();
}
