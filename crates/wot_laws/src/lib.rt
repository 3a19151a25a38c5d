//! The laws of the machine, proved beside it. Each is a function that does nothing: its contract is the law. A file for
//! each subject says which definitions and which lemmas its laws have: `lines`, on which the others stand, `cursors`,
//! `watches`, `dumps` and `questions`. They use wot_plain. wot_engine cites the first in its top call, and hands
//! all of them on.
#![tactic(auto)]

mod cursors;
mod dumps;
mod lines;
mod questions;
mod watches;

pub use cursors::pieces_join_to_the_list;
pub use dumps::fresh_machines_go_on;
pub use lines::{
    each_input_has_one_transcript, each_line_has_one_outcome, reached_states_are_judged,
    refused_lines_leave_the_state,
};
pub use questions::{
    absences_rest_on_slices, answers_depend_on_what_is_present, checks_rest_on_slices,
    claims_of_absence_hold, explanations_rest_on_slices, printed_claims_come_back,
    questions_rest_on_slices,
};
pub use watches::watches_are_true;
