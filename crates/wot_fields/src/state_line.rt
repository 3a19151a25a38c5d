//! The lines that set what is held and from what is asked: `import`, `verdict` and `view`.
//!
//! It uses `piece`, `fields` and `decimal`, and `specs/StateLine.antt`. A dump is printed of these lines by
//! wot_keyring and wot_cache, and wot_script reads and prints its commands of these words through this file.
ghost use Rattle.std.specs.Prelude.{◌≡◌, ◌++◌, IfOk, OnOk, OnErr};
ghost use Rattle.std.specs.Option.{option_map};
ghost use Rattle.wot_types.specs.Fpr.{fpr_of_digits};
ghost use Rattle.wot_types.specs.SigNumber.{number_of_digits};
ghost use Rattle.wot_types.specs.ViewName.{view_name_of};
ghost use Rattle.wot_fields.specs.Appends.{Appends};
ghost use Rattle.wot_fields.specs.Decimal.{decimal_up_to};
ghost use Rattle.wot_fields.specs.Fields.{field, octets_of_hex};
ghost use Rattle.wot_fields.specs.StateLine.{IsPrinted, judgement_of, root_of, setting_of, spelling, state_line_of};

use crate::Piece::{Decimal, Hex, Key, Signature, Text};
use crate::laws::state_line_is_read;
use crate::{Octets, after_prefix, cut_field, put_pieces, read_decimal, read_hex};
use std::alloc::Global;
use wot_types::{Fpr, Memory, SigNumber, ViewName};

/// A line that sets a part of the state. A dump has no `verdict NUM none` and no `view V close`.
#[derive(Drop)]
pub enum StateLine {
    /// `import HEX`: the certificates in these octets.
    Import(Octets),
    /// `verdict NUM good FPR`: the signature verifies with this key.
    Good(SigNumber, Fpr),
    /// `verdict NUM bad`: the signature verifies with no key.
    Bad(SigNumber),
    /// `verdict NUM none`: no verdict.
    Unjudge(SigNumber),
    /// `view V time T`: the view's time.
    Time(ViewName, u32),
    /// `view V root FPR A`: a root's amount.
    Root(ViewName, Fpr, u8),
    /// `view V close`: no view.
    Close(ViewName),
}

// ---- printed

/// Appends `import HEX`. Like every call here that prints, it adds no line feed, leaves `out` unchanged after `Memory`,
/// and succeeds if the capacity is large enough.
#[tactic(auto, unfolding(crate::specs::StateLine::spelling))]
pub fn put_import(octets: &[u8], out: &mut Vec<u8>) -> Result<(), Memory>
    ensures { Appends (spelling (StateLine.Import octets.now)) out.old out.new result }
{
    put_pieces(&[Text(b"import "), Hex(octets)], out)
}

/// Appends `verdict NUM good FPR`.
#[tactic(auto, unfolding(crate::specs::StateLine::spelling))]
pub fn put_good<'a>(number: &'a SigNumber, fpr: &'a Fpr, out: &mut Vec<u8>) -> Result<(), Memory>
    ensures { Appends (spelling (StateLine.Good number.now fpr.now)) out.old out.new result }
{
    let number = Signature(number);
    put_pieces(&[Text(b"verdict "), number, Text(b" good "), Key(fpr)], out)
}

/// Appends `verdict NUM bad`.
#[tactic(auto, unfolding(crate::specs::StateLine::spelling))]
pub fn put_bad(number: &SigNumber, out: &mut Vec<u8>) -> Result<(), Memory>
    ensures { Appends (spelling (StateLine.Bad number.now)) out.old out.new result }
{
    put_pieces(&[Text(b"verdict "), Signature(number), Text(b" bad")], out)
}

/// Appends `verdict NUM none`.
#[tactic(auto, unfolding(crate::specs::StateLine::spelling))]
pub fn put_unjudge(number: &SigNumber, out: &mut Vec<u8>) -> Result<(), Memory>
    ensures { Appends (spelling (StateLine.Unjudge number.now)) out.old out.new result }
{
    put_pieces(&[Text(b"verdict "), Signature(number), Text(b" none")], out)
}

/// Appends `view V time T`.
#[tactic(auto, unfolding(crate::specs::StateLine::spelling))]
pub fn put_time(view: &ViewName, t: u32, out: &mut Vec<u8>) -> Result<(), Memory>
    ensures { Appends (spelling (StateLine.Time view.now t)) out.old out.new result }
{
    let view = Text(view.octets());
    let t = Decimal(u64::from(t));
    put_pieces(&[Text(b"view "), view, Text(b" time "), t], out)
}

/// Appends `view V root FPR A`.
#[tactic(auto, unfolding(crate::specs::StateLine::spelling))]
pub fn put_root<'a>(
    view: &'a ViewName,
    fpr: &'a Fpr,
    amount: u8,
    out: &mut Vec<u8>,
) -> Result<(), Memory>
    ensures { Appends (spelling (StateLine.Root view.now fpr.now amount)) out.old out.new result }
{
    let view = Text(view.octets());
    let fpr = Key(fpr);
    let amount = Decimal(u64::from(amount));
    put_pieces(
        &[
            Text(b"view "),
            view,
            Text(b" root "),
            fpr,
            Text(b" "),
            amount,
        ],
        out,
    )
}

/// Appends `view V close`.
#[tactic(auto, unfolding(crate::specs::StateLine::spelling))]
pub fn put_close(view: &ViewName, out: &mut Vec<u8>) -> Result<(), Memory>
    ensures { Appends (spelling (StateLine.Close view.now)) out.old out.new result }
{
    put_pieces(&[Text(b"view "), Text(view.octets()), Text(b" close")], out)
}

fn put_state_line(line: &StateLine, out: &mut Vec<u8>) -> Result<(), Memory>
    ensures { Appends (spelling line.now) out.old out.new result }
{
    match line {
        StateLine::Import(octets) => put_import(octets.items(), out),
        StateLine::Good(number, fpr) => put_good(number, fpr, out),
        StateLine::Bad(number) => put_bad(number, out),
        StateLine::Unjudge(number) => put_unjudge(number, out),
        StateLine::Time(view, t) => put_time(view, *t, out),
        StateLine::Root(view, fpr, amount) => put_root(view, fpr, *amount, out),
        StateLine::Close(view) => put_close(view, out),
    }
}

/// Appends a line, without a line feed. After `Memory`, `out` is unchanged.
pub fn print_state_line(line: &StateLine, out: &mut Vec<u8>) -> Result<(), Memory>
    ensures appended { OnOk result (out.new.items ≡ out.old.items ++ spelling line.now) }
    ensures kept { OnErr result (out.new.items ≡ out.old.items) }
    // The printed line is read back, and is one line.
    ensures printed { IsPrinted line.now }
{
    state_line_is_read(line);
    put_state_line(line, out)
}

// ---- read

fn read_import(alloc: Global, digits: &[u8]) -> Result<Option<StateLine>, Memory>
    ensures { IfOk result (λ line. line ≡ option_map StateLine.Import (octets_of_hex digits.now)) }
{
    match read_hex(alloc, digits)? {
        Some(octets) => Ok(Some(StateLine::Import(octets))),
        None => Ok(None),
    }
}

fn read_good(number: SigNumber, digits: &[u8]) -> Option<StateLine>
    ensures { result ≡ option_map (StateLine.Good number) (fpr_of_digits digits.now) }
{
    let fpr = Fpr::read(digits)?;
    Some(StateLine::Good(number, fpr))
}

#[tactic(auto, unfolding(crate::specs::StateLine::judgement_of))]
fn read_judgement(number: SigNumber, text: &[u8]) -> Option<StateLine>
    ensures { result ≡ judgement_of number text.now }
{
    if let Some(digits) = after_prefix(b"good ", text) {
        return read_good(number, digits);
    }
    if text == b"bad".as_slice() {
        return Some(StateLine::Bad(number));
    }
    if text == b"none".as_slice() {
        return Some(StateLine::Unjudge(number));
    }
    None
}

fn read_verdict(text: &[u8]) -> Option<StateLine>
    ensures { result ≡ field number_of_digits judgement_of text.now }
{
    let first = cut_field(text)?;
    let number = SigNumber::read(first.field)?;
    read_judgement(number, first.rest)
}

fn read_time(view: ViewName, digits: &[u8]) -> Option<StateLine>
    ensures { result ≡ option_map (StateLine.Time view) (decimal_up_to 4294967295 digits.now) }
{
    let t = read_decimal(u32::MAX, digits)?;
    Some(StateLine::Time(view, t))
}

#[tactic(auto, unfolding(crate::specs::StateLine::root_of))]
fn read_root(view: ViewName, text: &[u8]) -> Option<StateLine>
    ensures { result ≡ root_of view text.now }
{
    let first = cut_field(text)?;
    let fpr = Fpr::read(first.field)?;
    let amount = read_decimal(255, first.rest)?;
    Some(StateLine::Root(view, fpr, amount as u8))
}

#[tactic(auto, unfolding(crate::specs::StateLine::setting_of))]
fn read_setting(view: ViewName, text: &[u8]) -> Option<StateLine>
    ensures { result ≡ setting_of view text.now }
{
    if let Some(digits) = after_prefix(b"time ", text) {
        return read_time(view, digits);
    }
    if let Some(rest) = after_prefix(b"root ", text) {
        return read_root(view, rest);
    }
    if text == b"close".as_slice() {
        return Some(StateLine::Close(view));
    }
    None
}

fn read_view(alloc: Global, text: &[u8]) -> Result<Option<StateLine>, Memory>
    ensures { IfOk result (λ line. line ≡ field view_name_of setting_of text.now) }
{
    let Some(first) = cut_field(text) else {
        return Ok(None);
    };
    let Some(view) = ViewName::read(alloc, first.field)? else {
        return Ok(None);
    };
    Ok(read_setting(view, first.rest))
}

/// Reads a line, without its line feed, that sets a part of the state; None for any other line.
#[tactic(auto, unfolding(crate::specs::StateLine::state_line_of))]
pub fn read_state_line(alloc: Global, line: &[u8]) -> Result<Option<StateLine>, Memory>
    ensures { IfOk result (λ read. read ≡ state_line_of line.now) }
{
    if let Some(rest) = after_prefix(b"import ", line) {
        return read_import(alloc, rest);
    }
    if let Some(rest) = after_prefix(b"verdict ", line) {
        return Ok(read_verdict(rest));
    }
    if let Some(rest) = after_prefix(b"view ", line) {
        return read_view(alloc, rest);
    }
    Ok(None)
}
