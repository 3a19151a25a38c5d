//! Laws: what is printed is read back. Each function does nothing: its contract is the law, and `wot_script` cites it
//! by a call.
//!
//! They use `specs/Decimal.antt`, `specs/Fields.antt`, `specs/Uid.antt` and `specs/StateLine.antt`, and a change
//! of a spelling shows here first.
ghost use Rattle.std.specs.Prelude.{◌≡◌, ◌≤◌, ◌<◌, ◌^◌, true, ℕ, List, Some, length};
ghost use Rattle.std.specs.Fmt.{decimal};
ghost use Rattle.hex.specs.Hex.{encode_lower};
ghost use Rattle.wot_types.specs.ViewName.{is_view_name};
ghost use Rattle.wot_fields.specs.Decimal.{decimal_up_to, positive_up_to};
ghost use Rattle.wot_fields.specs.Fields.{octets_of_hex};
ghost use Rattle.wot_fields.specs.StateLine.{IsPrinted, IsWithin, state_line_of};
ghost use Rattle.wot_fields.specs.Uid.{escaped, unescaped};
ghost use Rattle.wot_fields.specs.declared.state_line.StateLine.{StateLine as TheLine};

use crate::StateLine;
use wot_types::ViewName;

/// The digits of octets spell these octets.
pub fn hex_is_read(octets: &[u8])
    ensures { octets_of_hex (encode_lower octets.now) ≡ Some octets.now }
{
    let _octets = octets;
}

/// A printed user ID is read back.
pub fn uid_is_read(octets: &[u8])
    ensures { unescaped (escaped octets.now) ≡ Some octets.now }
{
    let _octets = octets;
}

/// A printed number is read back.
pub fn decimal_is_read(most: u32, number: u32)
    requires { number ≤ most }
    ensures { decimal_up_to most (decimal number) ≡ Some number }
{}

/// A printed number that isn't 0 is read back as such.
pub fn positive_is_read(most: u32, number: u32)
    requires some { 1 ≤ number }
    requires within { number ≤ most }
    ensures read { positive_up_to most (decimal number) ≡ Some number }
    ensures small { number < 2 ^ 64 }
{}

/// The name of a view, a cursor or a watch is spelled as such a name.
pub fn name_is_valid(name: &ViewName)
    ensures { is_view_name name.now ≡ true }
{
    let _octets = name.octets();
}

/// The octets of an import are at most half as many as those of its line.
pub fn state_lines_fit()
    ensures { (text : List ℕ) (line : TheLine) → state_line_of text ≡ Some line → IsWithin (length text) line }
{}

/// A printed line that sets a part of the state is read back, and is one line that is no longer than
/// `specs/StateLine.antt` says.
pub fn state_line_is_read(line: &StateLine)
    ensures { IsPrinted line.now }
{
    match line {
        StateLine::Import(octets) => hex_is_read(octets.items()),
        StateLine::Good(number, fpr) => {
            number.printed_is_read();
            fpr.printed_is_read();
        }
        StateLine::Bad(number) => number.printed_is_read(),
        StateLine::Unjudge(number) => number.printed_is_read(),
        StateLine::Time(view, t) => {
            name_is_valid(view);
            decimal_is_read(u32::MAX, *t);
        }
        StateLine::Root(view, fpr, amount) => {
            name_is_valid(view);
            fpr.printed_is_read();
            decimal_is_read(255, u32::from(*amount));
        }
        StateLine::Close(view) => name_is_valid(view),
    }
}
