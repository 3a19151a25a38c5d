//! Parts of lines that no command and no reply has alone: names of entries, questions, claims, refusals, and the lines
//! of long replies. It has their types, prints them and reads them.
//!
//! It uses `wot_fields`, which has the words of a line. `wot_script` makes commands and replies of these parts and
//! hands on their types. `docs/PROTOCOL.md` specifies them, and `specs/` defines them. A further command needs nothing
//! here, unless its reply has lines of its own.
#![tactic(auto)]

mod claims;
mod entry;
mod heads;
pub mod laws;
mod lines;
mod lists;
mod question;
mod words;

pub use claims::{ClaimLine, ClaimStepLine, LabelLine, put_claimed, read_claims, read_labels};
pub use entry::{entry_piece, read_entry};
pub use heads::{put_counted, put_number, put_refused, put_refused_at, put_stale};
pub use lines::{
    AnswerLine, BindLine, Hint, KeyLine, PendingLine, Printed, ReasonLine, put_headed,
};
pub use lists::{
    AnswerLines, BindLines, ClaimLines, ClaimStepLines, KeyLines, LabelLines, Lines, PendingLines,
    ReasonLines,
};
pub use question::{Question, put_numbered, put_question, read_question};
pub use words::{reason_word, target_word};
