//! The program's top call: a run of the machine over a source and a sink, with its exit status. wot_cli calls
//! `run_words` and does nothing else; the tests of whole runs call it too.
#![tactic(auto)]

mod form;
mod generated;
mod run;
mod words;

pub use words::run_words;
pub use wot_laws::{
    absences_rest_on_slices, answers_depend_on_what_is_present, checks_rest_on_slices,
    claims_of_absence_hold, each_input_has_one_transcript, each_line_has_one_outcome,
    explanations_rest_on_slices, fresh_machines_go_on, pieces_join_to_the_list,
    printed_claims_come_back, questions_rest_on_slices, reached_states_are_judged,
    refused_lines_leave_the_state, watches_are_true,
};
pub use wot_machine::{Machine, dump_makes_the_state_anew};
