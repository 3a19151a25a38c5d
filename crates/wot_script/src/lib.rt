//! The script: how lines are read as commands, and how commands and replies are printed.
//!
//! It uses `wot_fields`, which has the words of a line and the lines that set a part of the state, and on
//! `wot_reply_lines`, which has claims and the lines of long replies. `docs/PROTOCOL.md` specifies the lines, and
//! `specs/Grammar.antt`, `specs/Spelling.antt` and `specs/Replies.antt` define them. `wot_machine` answers the
//! commands; generated scripts print them.
#![tactic(auto)]

mod command;
pub mod laws;
mod numbered;
mod one_word;
mod read;
mod reply;
mod short;
mod spell;
mod spelled;
mod tell;

pub use command::Command;
pub use read::{LineFault, read_line};
pub use reply::Reply;
pub use spell::print_command;
pub use tell::print_reply;
pub use wot_fields::Octets;
pub use wot_reply_lines::{
    AnswerLine, AnswerLines, BindLine, BindLines, ClaimLine, ClaimLines, ClaimStepLine,
    ClaimStepLines, Hint, KeyLine, KeyLines, LabelLine, LabelLines, Lines, PendingLine,
    PendingLines, ReasonLine, ReasonLines,
};
