//! The words of lines: numbers, names, octets and user IDs, and the lines that set a part of the state, printed and
//! read.
//!
//! It uses `wot_types`, `hex` and `itoa`. `wot_script` makes all commands and replies of these words;
//! `wot_keyring` and `wot_cache` print a dump with them. What changes here proves all of these again; a further command
//! doesn't.
#![tactic(auto)]

mod decimal;
mod fields;
pub mod laws;
mod octets;
mod piece;
mod state_line;
mod uid;

pub use decimal::{read_decimal, read_positive};
pub use fields::{Cut, after_prefix, cut_at, cut_field};
pub use octets::{Octets, read_hex};
pub use piece::{Piece, put_pieces, put_text};
pub use state_line::{
    StateLine, print_state_line, put_bad, put_close, put_good, put_import, put_root, put_time,
    put_unjudge, read_state_line,
};
pub use uid::read_uid;
