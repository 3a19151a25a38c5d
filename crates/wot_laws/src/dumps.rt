//! The law of a restored machine: it answers as the machine that dumped would. The function does nothing: its contract
//! is the law. docs/PROOF.md explains it.
//!
//! Its definition is in `specs/GoesOn.antt`, its lemmas in `proofs/GoingOn.antt`.
ghost use Rattle.wot_policy.specs.declared.rows.PolicyRows.{PolicyRows};
ghost use Rattle.wot_laws.specs.GoesOn.{FreshMachinesGoOn};

use crate::lines::{each_line_has_one_outcome, reached_states_are_judged};
use wot_check::laws::{check_is_one, least_table_is_one};
use wot_edge::laws::answer_is_one;
use wot_explain::laws::list_is_one;
use wot_network::laws::record_is_lawful;
use wot_script::laws::lines_spell_commands;

/// A machine that was restored from a dump behaves like the one that dumped: whatever lines follow, with the same
/// certificate directory, each reply is the same, except those to commands of cursors and watches.
pub fn fresh_machines_go_on()
    ensures { (rows : PolicyRows) → FreshMachinesGoOn rows }
{
    reached_states_are_judged();
    each_line_has_one_outcome();
    answer_is_one();
    record_is_lawful();
    list_is_one();
    least_table_is_one();
    check_is_one();
    lines_spell_commands();
}
