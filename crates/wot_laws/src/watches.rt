//! The law of watches: after each line, the last amount reported for a watch is the current one. The function does
//! nothing: its contract is the law. docs/PROOF.md explains it.
//!
//! Its definitions are in `specs/TrueWatches.antt`, its lemmas in `proofs/TrueWatches.antt`,
//! `proofs/QuietWatches.antt` and `proofs/WatchLines.antt`.
ghost use Rattle.wot_policy.specs.declared.rows.PolicyRows.{PolicyRows};
ghost use Rattle.wot_laws.specs.TrueWatches.{QuietLinesTellNothing, WatchLinesAreNews, WatchesAreTrue};

use wot_edge::laws::answer_is_one;
use wot_network::laws::record_is_lawful;
use wot_script::laws::lines_spell_commands;

/// Watches are true. After each line, from any client, the view of each watch is open, and the last amount reported for
/// it, including the first one, is the current amount of the answer to its question. The watch lines after a line are
/// in the order of the names, and each reports an amount that differs from the last one, or that the watch is gone. No
/// watch line follows a line that changes no certificate, no verdict and no view.
pub fn watches_are_true()
    ensures now { (rows : PolicyRows) → WatchesAreTrue rows }
    ensures news { (rows : PolicyRows) → WatchLinesAreNews rows }
    ensures quiet { (rows : PolicyRows) → QuietLinesTellNothing rows }
{
    answer_is_one();
    record_is_lawful();
    lines_spell_commands();
}
