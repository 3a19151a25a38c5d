//! The commands of one word: the word of each, and the reading of a line that is one of these words.
//!
//! The table is in `specs/OneWord.antt`, and `read`, `spell` and `spelled` go by it. A further command of one word is a
//! row there, its name in the list of `single_of`, and a row in each of `command_word` and `read_single` here.
ghost use Rattle.std.specs.Prelude.{◌≡◌};
ghost use Rattle.wot_script.specs.Grammar.{single_of};
ghost use Rattle.wot_script.specs.OneWord.{word_of};

use crate::Command;

/// The word that is the whole line of the command; no octets for a command with fields.
pub fn command_word(command: &Command) -> &'static [u8]
    ensures { result.now ≡ word_of command.now }
{
    match command {
        Command::Pending => b"pending",
        Command::Keys => b"keys",
        Command::Dump => b"dump",
        _ => b"",
    }
}

/// Reads a line that is a command of one word.
#[tactic(auto, unfolding(crate::specs::Grammar::single_of))]
pub fn read_single(line: &[u8]) -> Option<Command>
    ensures { result ≡ single_of line.now }
{
    if line == b"pending".as_slice() {
        return Some(Command::Pending);
    }
    if line == b"keys".as_slice() {
        return Some(Command::Keys);
    }
    if line == b"dump".as_slice() {
        return Some(Command::Dump);
    }
    None
}
