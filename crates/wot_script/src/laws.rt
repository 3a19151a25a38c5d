//! Laws of the grammar. Each function does nothing: its contract is the law. They use `specs/Grammar.antt` and
//! `specs/Laws.antt`. wot_laws uses the first one; the others are for readers.
ghost use Rattle.std.specs.Prelude.{◌≡◌, ℕ, List, Some};
ghost use Rattle.wot_script.specs.declared.command.Command.{Command as TheCommand};
ghost use Rattle.wot_script.specs.Grammar.{command_of};
ghost use Rattle.wot_script.specs.Laws.{IsOldLine, PrintsClaim};
ghost use Rattle.wot_script.specs.Spelling.{HasSpelling};

use crate::Command;
use crate::spelled::spelling_is_read;
use wot_fields::laws::state_lines_fit;

/// Every command that a line spells can be printed: a question wants at least 1.
pub fn lines_spell_commands()
    ensures spelled { (line : List ℕ) (command : TheCommand) → command_of line ≡ Some command → HasSpelling command }
{
    state_lines_fit();
}

/// The text that `absence` prints after `claim `, put into a `check` line between the fingerprint and the user ID, is
/// read as the paths and the table that it was printed from. So a printed claim can be checked by sending it back, if
/// the line isn't too long.
pub fn printed_claim_is_read(check: &Command)
    requires spelled { HasSpelling check.now }
    ensures printed { PrintsClaim check.now }
{
    spelling_is_read(check);
}

/// Every line of a dump from before version 6 is still read as the command that it was printed from.
pub fn old_lines_are_read(command: &Command)
    requires spelled { HasSpelling command.now }
    ensures read { (line : List ℕ) → IsOldLine command.now line → command_of line ≡ Some command.now }
{
    spelling_is_read(command);
}
