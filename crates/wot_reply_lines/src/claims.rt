//! Claims and tables of labels in a line: `claim PATHS TABLE` in the reply to `absence`, and the fields of `check`.
//!
//! It has their types, and reads and prints them by `specs/Claims.antt`; it uses `wot_fields`. `wot_script` reads
//! `check` and prints `check` and the reply to `absence` with it.
ghost use Rattle.std.specs.Prelude.{◌≡◌, ◌++◌, ◌∷◌, ℕ, List, Option, IfOk};
ghost use Rattle.std.specs.List.{flat_map};
ghost use Rattle.std.specs.Option.{option_map};
ghost use Rattle.wot_fields.specs.Appends.{Appends};
ghost use Rattle.wot_reply_lines.specs.Claims.{claim_of, claim_parts, claim_text};
ghost use Rattle.wot_reply_lines.specs.Claims.{field_of, field_text, is_rising};
ghost use Rattle.wot_reply_lines.specs.Claims.{items_of, items_text, label_of, label_text, labels_of, step_of};
ghost use Rattle.wot_reply_lines.specs.Claims.{step_text};
ghost use Rattle.wot_fields.specs.Pieces.{pieces_text};

use crate::lines::Printed;
use crate::{ClaimLines, ClaimStepLines, LabelLines, Lines};
use std::alloc::Global;
use std::cmp::Ordering;
use wot_fields::{Piece, cut_at, put_pieces, read_decimal, read_positive};
use wot_types::{Fpr, Memory, compare_fprs};

/// A claimed path: its amount, 1 to 255, and its 1 to 255 steps from the root on.
#[derive(Drop)]
pub struct ClaimLine(pub u8, pub ClaimStepLines);

/// A claimed step: its issuer, and the place of the certified user ID among the target's, ordered by octets. The target
/// is the issuer of the next step, or of the last step the target of the claim.
#[derive(Clone, Copy)]
pub struct ClaimStepLine(pub Fpr, pub u32);

/// A label in the table of a proof of absence: a fingerprint, and its number, 1 to 255.
#[derive(Clone, Copy)]
pub struct LabelLine(pub Fpr, pub u8);

/// An item of a list in a line.
pub trait Item: Drop {
    /// The item that a text spells.
    ghost item_of: { List ℕ → Option Self };

    /// Reads an item.
    fn read(alloc: Global, text: &[u8]) -> Result<Option<Self>, Memory>
        ensures { IfOk result (λ item. item ≡ item_of text.now) };
}

impl Item for ClaimStepLine {
    ghost item_of = { step_of };

    #[tactic(auto, unfolding(crate::specs::Claims::step_of))]
    fn read(_alloc: Global, text: &[u8]) -> Result<Option<ClaimStepLine>, Memory> {
        let Some(parts) = cut_at(b'.', text) else {
            return Ok(None);
        };
        let Some(issuer) = Fpr::read(parts.field) else {
            return Ok(None);
        };
        let Some(place) = read_decimal(u32::MAX, parts.rest) else {
            return Ok(None);
        };
        Ok(Some(ClaimStepLine(issuer, place)))
    }
}

impl Item for LabelLine {
    ghost item_of = { label_of };

    #[tactic(auto, unfolding(crate::specs::Claims::label_of))]
    fn read(_alloc: Global, text: &[u8]) -> Result<Option<LabelLine>, Memory> {
        let Some(parts) = cut_at(b'=', text) else {
            return Ok(None);
        };
        let Some(fpr) = Fpr::read(parts.field) else {
            return Ok(None);
        };
        let Some(label) = read_positive(255, parts.rest) else {
            return Ok(None);
        };
        Ok(Some(LabelLine(fpr, label as u8)))
    }
}

fn read_items<T: Item>(alloc: Global, separator: u8, text: &[u8]) -> Result<Option<Vec<T>>, Memory>
    ensures { IfOk result (λ items. option_map (λ read. read.items) items ≡ items_of separator T.item_of text.now) }
{
    let mut items = Vec::new(alloc);
    let mut rest = text;
    'parts: while let Some(parts) = cut_at(separator, rest) {
        let Some(item) = T::read(alloc, parts.field)? else {
            return Ok(None);
        };
        items.push(item)?;
        rest = parts.rest;
    }
    let Some(item) = T::read(alloc, rest)? else {
        return Ok(None);
    };
    items.push(item)?;
    Ok(Some(items))
}

impl Item for ClaimLine {
    ghost item_of = { claim_of };

    #[tactic(auto, unfolding(crate::specs::Claims::claim_of))]
    fn read(alloc: Global, text: &[u8]) -> Result<Option<ClaimLine>, Memory> {
        let Some(parts) = cut_at(b'/', text) else {
            return Ok(None);
        };
        let Some(amount) = read_positive(255, parts.field) else {
            return Ok(None);
        };
        let Some(steps) = read_items::<ClaimStepLine>(alloc, b'/', parts.rest)? else {
            return Ok(None);
        };
        if steps.len() > 255 {
            return Ok(None);
        }
        Ok(Some(ClaimLine(amount as u8, Lines::from_vec(steps))))
    }
}

fn read_field<T: Item>(alloc: Global, text: &[u8]) -> Result<Option<Vec<T>>, Memory>
    ensures { IfOk result (λ items. option_map (λ read. read.items) items ≡ field_of T.item_of text.now) }
{
    if text == b"-".as_slice() {
        return Ok(Some(Vec::new(alloc)));
    }
    read_items(alloc, b',', text)
}

/// Reads claimed paths.
pub fn read_claims(alloc: Global, text: &[u8]) -> Result<Option<ClaimLines>, Memory>
    ensures { IfOk result (λ claims. claims ≡ field_of claim_of text.now) }
{
    match read_field::<ClaimLine>(alloc, text)? {
        Some(claims) => Ok(Some(Lines::from_vec(claims))),
        None => Ok(None),
    }
}

fn rises(labels: &[LabelLine]) -> bool
    ensures { result ≡ is_rising labels.now }
{
    let mut rest = labels;
    'rest: while let Some((label, others)) = rest.split_first() {
        if let Some(next) = others.first() {
            if compare_fprs(&label.0, &next.0) != Ordering::Less {
                return false;
            }
        }
        rest = others;
    }
    true
}

/// Reads a table of labels.
pub fn read_labels(alloc: Global, text: &[u8]) -> Result<Option<LabelLines>, Memory>
    ensures { IfOk result (λ labels. labels ≡ labels_of text.now) }
{
    let Some(labels) = read_field::<LabelLine>(alloc, text)? else {
        return Ok(None);
    };
    if !rises(&labels) {
        return Ok(None);
    }
    Ok(Some(Lines::from_vec(labels)))
}

impl Printed for ClaimStepLine {
    ghost text = { step_text };

    fn put(&self, out: &mut Vec<u8>) -> Result<(), Memory> {
        let place = Piece::Decimal(u64::from(self.1));
        put_pieces(&[Piece::Key(&self.0), Piece::Text(b"."), place], out)
    }
}

impl Printed for LabelLine {
    ghost text = { label_text };

    fn put(&self, out: &mut Vec<u8>) -> Result<(), Memory> {
        let label = Piece::Decimal(u64::from(self.1));
        put_pieces(&[Piece::Key(&self.0), Piece::Text(b"="), label], out)
    }
}

impl Printed for ClaimLine {
    ghost text = { claim_text };

    fn put(&self, out: &mut Vec<u8>) -> Result<(), Memory> {
        let start = out.len();
        let amount = Piece::Decimal(u64::from(self.0));
        put_pieces(&[amount, Piece::Text(b"/")], out)?;
        if let Err(fault) = put_items(b'/', self.1.items(), out) {
            out.truncate(start);
            return Err(fault);
        }
        Ok(())
    }
}

/// Appends a separator and an item.
fn put_other<T: Printed>(separator: u8, item: &T, out: &mut Vec<u8>) -> Result<(), Memory>
    ensures { Appends (separator ∷ T.text item.now) out.old out.new result }
{
    let start = out.len();
    put_pieces(&[Piece::Text(&[separator])], out)?;
    if let Err(fault) = item.put(out) {
        out.truncate(start);
        return Err(fault);
    }
    Ok(())
}

fn put_others<T: Printed>(separator: u8, items: &[T], out: &mut Vec<u8>) -> Result<(), Memory>
    ensures { Appends (flat_map (λ item. separator ∷ T.text item) items.now) out.old out.new result }
{
    let start = out.len();
    for item in items {
        if let Err(fault) = put_other(separator, item, out) {
            out.truncate(start);
            return Err(fault);
        }
    }
    Ok(())
}

fn put_items<T: Printed>(separator: u8, items: &[T], out: &mut Vec<u8>) -> Result<(), Memory>
    ensures { Appends (items_text separator T.text items.now) out.old out.new result }
{
    let Some((first, others)) = items.split_first() else {
        return Ok(());
    };
    let start = out.len();
    first.put(out)?;
    if let Err(fault) = put_others(separator, others, out) {
        out.truncate(start);
        return Err(fault);
    }
    Ok(())
}

fn put_field<T: Printed>(items: &[T], out: &mut Vec<u8>) -> Result<(), Memory>
    ensures { Appends (field_text T.text items.now) out.old out.new result }
{
    if items.is_empty() {
        return put_pieces(&[Piece::Text(b"-")], out);
    }
    put_items(b',', items, out)
}

/// Appends a table and these pieces.
fn put_labels(labels: &LabelLines, tail: &[Piece<'_>], out: &mut Vec<u8>) -> Result<(), Memory>
    ensures { Appends (field_text label_text labels.now ++ pieces_text tail.now) out.old out.new result }
{
    let start = out.len();
    put_field(labels.items(), out)?;
    if let Err(fault) = put_pieces(tail, out) {
        out.truncate(start);
        return Err(fault);
    }
    Ok(())
}

/// Appends a space, a table and these pieces.
fn put_spaced(labels: &LabelLines, tail: &[Piece<'_>], out: &mut Vec<u8>) -> Result<(), Memory>
    ensures { Appends (32 ∷ (field_text label_text labels.now ++ pieces_text tail.now)) out.old out.new result }
{
    let start = out.len();
    put_pieces(&[Piece::Text(b" ")], out)?;
    if let Err(fault) = put_labels(labels, tail, out) {
        out.truncate(start);
        return Err(fault);
    }
    Ok(())
}

/// Appends paths, a table and these pieces.
fn put_paths(
    claims: &ClaimLines,
    labels: &LabelLines,
    tail: &[Piece<'_>],
    out: &mut Vec<u8>,
) -> Result<(), Memory>
    ensures { Appends (claim_parts claims.now labels.now (pieces_text tail.now)) out.old out.new result }
{
    let start = out.len();
    put_field(claims.items(), out)?;
    if let Err(fault) = put_spaced(labels, tail, out) {
        out.truncate(start);
        return Err(fault);
    }
    Ok(())
}

/// Appends pieces, paths, a table and further pieces.
pub fn put_claimed(
    head: &[Piece<'_>],
    claims: &ClaimLines,
    labels: &LabelLines,
    tail: &[Piece<'_>],
    out: &mut Vec<u8>,
) -> Result<(), Memory>
    ensures { Appends (pieces_text head.now ++ claim_parts claims.now labels.now (pieces_text tail.now))
        out.old out.new result }
{
    let start = out.len();
    put_pieces(head, out)?;
    if let Err(fault) = put_paths(claims, labels, tail, out) {
        out.truncate(start);
        return Err(fault);
    }
    Ok(())
}
